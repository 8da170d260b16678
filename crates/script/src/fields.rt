//! The fields of a script's lines.
ghost use Rattle.std.specs.Prelude.{IfOk};
ghost use Rattle.text.specs.Numerals.{Writes};

use crate::command::Value;
use crate::fault::{Complaint, Fault, MOST_READ, faulty};
use crate::kind::{IntegerKind, Kind};
use crate::word::Word;
use byte_valued::LineHead;
use std::alloc::Global;
use std::str::FromStr;
use text::number;

/// The number that a field writes.
pub(crate) fn number_of(heap: Global, field: &str) -> Result<usize, Fault>
    ensures { IfOk result (λ n. Writes field.now n) }
{
    number(field).map_err(|error| faulty(heap, Complaint::NotNumber(error), field))
}

/// How many bytes or elements a call is to read.
pub(crate) fn length_of(heap: Global, field: &str) -> Result<usize, Fault> {
    let n = number_of(heap, field)?;
    if n > MOST_READ {
        return Err(Fault::TooMuchRead(n));
    }
    Ok(n)
}

/// The word or the kind that a field names.
pub(crate) fn named<T: FromStr<Err = Complaint>>(heap: Global, field: &str) -> Result<T, Fault> {
    field
        .parse::<T>()
        .map_err(|complaint| faulty(heap, complaint, field))
}

// A number with or without a sign.
fn integer_of(heap: Global, field: &str) -> Result<i128, Fault> {
    match field.strip_prefix('-') {
        Some(digits) => Ok(0 - number_of(heap, digits)? as i128),
        None => Ok(number_of(heap, field)? as i128),
    }
}

// A part of a line head, which has fewer bits than a number.
fn part_of<T: TryFrom<usize>>(heap: Global, field: &str) -> Result<T, Fault>
where
    T::Error: Drop,
{
    T::try_from(number_of(heap, field)?).map_err(|_| faulty(heap, Complaint::NotFitting, field))
}

fn head_of(heap: Global, word: Word, fields: &[&str]) -> Result<LineHead, Fault> {
    let [register, leaf, line, left, width] = fields else {
        return Err(Fault::Form(word));
    };
    Ok(LineHead {
        register: part_of(heap, register)?,
        leaf: part_of(heap, leaf)?,
        line: part_of(heap, line)?,
        left: part_of(heap, left)?,
        width: part_of(heap, width)?,
    })
}

/// The number of a kind that fields write.
pub(crate) fn fitting_of(
    heap: Global,
    word: Word,
    kind: IntegerKind,
    fields: &[&str],
) -> Result<i128, Fault> {
    let [field] = fields else {
        return Err(Fault::Form(word));
    };
    let n = integer_of(heap, field)?;
    if !kind.holds(n) {
        return Err(faulty(heap, Complaint::NotFitting, field));
    }
    Ok(n)
}

/// The value of a kind that fields write.
pub(crate) fn value_of(
    heap: Global,
    word: Word,
    kind: Kind,
    fields: &[&str],
) -> Result<Value, Fault> {
    Ok(match kind {
        Kind::Integer(kind) => Value::Number(fitting_of(heap, word, kind, fields)?),
        Kind::LineHead => Value::Head(head_of(heap, word, fields)?),
    })
}

/// The values of a kind that fields write, one after the other.
pub(crate) fn values_of(
    heap: Global,
    word: Word,
    kind: Kind,
    fields: &[&str],
) -> Result<Vec<Value>, Fault> {
    fields
        .chunks(kind.fields())
        .map(|part| value_of(heap, word, kind, part))
        .collect(heap)?
}

/// The bytes that a field writes: pairs of hexadecimal digits after `0x`, and else its own text.
pub(crate) fn bytes_of(heap: Global, field: &str) -> Result<Vec<u8>, Fault> {
    let Some(digits) = field.strip_prefix("0x") else {
        return Ok(field.as_bytes().to_vec(heap)?);
    };
    let mut bytes = vec![in heap; 0u8; digits.len() / 2]?;
    hex::decode_to_slice(digits, bytes.as_mut_slice()).map_err(|_| faulty(
        heap,
        Complaint::NotBytes,
        field,
    ))?;
    Ok(bytes)
}
