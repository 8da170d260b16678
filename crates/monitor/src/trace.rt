//! Traces of memory accesses, as text.
//!
//! The first line is `SIZE PAGE_SIZE`, and each further one is an access, `OFFSET LENGTH`.
//! Blank lines and lines that begin with `#` are skipped.
ghost use Rattle.std.specs.Prelude.{IfOk};
ghost use Rattle.text.specs.Numerals.{Writes};
ghost use Rattle.text.specs.Said.{numbered};
ghost use Rattle.monitor.specs.Fields.{TwoNumbers};
ghost use Rattle.monitor.specs.Texts.{AccessLines, Traces};

use crate::memory::{Memory, TooManyPages};
use bitmap::PageSize;
use std::alloc::Global;
use text::{Line, LineError, NumberError, lines, number};
use thiserror::Error;

/// An access to `len` bytes from `offset` on.
#[derive(Clone, Copy)]
pub(crate) struct Access {
    pub(crate) offset: usize,
    pub(crate) len: usize,
}

/// A memory, and the accesses to it in order.
#[derive(Drop)]
pub(crate) struct Trace {
    pub(crate) memory: Memory,
    pub(crate) accesses: Vec<Access>,
}

/// What is wrong with a line.
#[derive(Debug, Drop, Error)]
pub(crate) enum Fault {
    #[error("the trace ends before SIZE PAGE_SIZE")]
    NoFirstLine,
    #[error("not two fields: {0:?}")]
    NotTwoFields(String),
    #[error("{0}: {1:?}")]
    NotNumber(NumberError, String),
    #[error("a page size of 0")]
    NoPageSize,
    #[error(transparent)]
    TooManyPages(TooManyPages),
}

/// Why a text is no trace.
pub(crate) type TraceError = LineError<Fault>;

// A field that is no number.
fn not_number(heap: Global, line: &Line, error: NumberError, field: &str) -> TraceError {
    String::from_str(heap, field).map_or_else(LineError::OutOfMemory, |field| {
        LineError::Line(line.number, Fault::NotNumber(error, field))
    })
}

// The number that a field of a line writes.
fn number_of(heap: Global, line: &Line, field: &str) -> Result<usize, TraceError>
    ensures { IfOk result (λ n. Writes field.now n) }
{
    number(field).map_err(|error| not_number(heap, line, error, field))
}

// The two numbers of a line.
fn numbers_of(heap: Global, line: &Line) -> Result<(usize, usize), TraceError>
    ensures { IfOk result (λ p. TwoNumbers line.now.text.now p.0 p.1) }
{
    let mut fields = line.text.split_whitespace();
    let (Some(first), Some(second), None) = (fields.next(), fields.next(), fields.next()) else {
        let text = String::from_str(heap, line.text)?;
        return Err(LineError::Line(line.number, Fault::NotTwoFields(text)));
    };
    Ok((
        number_of(heap, line, first)?,
        number_of(heap, line, second)?,
    ))
}

fn access_of(heap: Global, line: &Line) -> Result<Access, TraceError>
    ensures { IfOk result (λ a. TwoNumbers line.now.text.now a.offset a.len) }
{
    let (offset, len) = numbers_of(heap, line)?;
    Ok(Access { offset, len })
}

fn memory_of(heap: Global, line: &Line) -> Result<Memory, TraceError>
    ensures { IfOk result (λ m. TwoNumbers line.now.text.now m.byte_size m.page_size.value) }
{
    let (byte_size, page_size) = numbers_of(heap, line)?;
    let page_size = PageSize::new(page_size).ok_or_else(|| LineError::Line(
        line.number,
        Fault::NoPageSize,
    ))?;
    Memory::new(byte_size, page_size).map_err(|pages| LineError::Line(
        line.number,
        Fault::TooManyPages(pages),
    ))
}

// The accesses that lines write.
fn accesses_of(heap: Global, lines: &[Line]) -> Result<Vec<Access>, TraceError>
    ensures { IfOk result (λ v. AccessLines (numbered lines.now) v.items) }
{
    let mut accesses = Vec::new(heap);
    // A loop, since what is collected into a `Result` is not known to be what the lines say.
    for line in lines {
        accesses.push(access_of(heap, line)?)?;
    }
    Ok(accesses)
}

/// The trace that a text writes.
pub(crate) fn parse(heap: Global, text: &str) -> Result<Trace, TraceError>
    ensures { IfOk result (λ t. Traces text.now t) }
{
    let lines = lines(heap, text)?;
    // A `let`, since what `ok_or_else` gives is not known to be the first line and the rest.
    let Some((first, rest)) = lines.as_slice().split_first() else {
        return Err(LineError::at_end(text, Fault::NoFirstLine));
    };
    let memory = memory_of(heap, first)?;
    let accesses = accesses_of(heap, rest)?;
    Ok(Trace { memory, accesses })
}
