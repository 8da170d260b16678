//! Numbers, decimal or hexadecimal.
ghost use Rattle.std.specs.Prelude.{◌≡◌, ◌≤◌};
ghost use Rattle.std.specs.Str.Parse.{error_kind};
ghost use Rattle.text.specs.Numerals.{Reads, base_of, digits_of, number_error};

use std::num::{IntErrorKind, ParseIntError};
use thiserror::Error;

/// Why a field is no number of 64 bits.
#[derive(Clone, Copy, Debug, Error)]
pub enum NumberError {
    #[error("not a number")]
    Malformed,
    #[error("a number past 64 bits")]
    TooLarge,
}

impl From<ParseIntError> for NumberError {
    ghost from_gives = { λ error number. number ≡ number_error (error_kind error) };

    fn from(error: ParseIntError) -> NumberError {
        match error.kind() {
            IntErrorKind::PosOverflow => NumberError::TooLarge,
            _ => NumberError::Malformed,
        }
    }
}

/// The number that a field writes, in hexadecimal after `0x` and else in decimal.
pub fn number(field: &str) -> Result<usize, NumberError>
    ensures { Reads (base_of field.now) (digits_of field.now) result }
{
    match field.strip_prefix("0x") {
        Some(digits) => unsigned(digits, 16),
        None => unsigned(field, 10),
    }
}

// The number that digits write, with no sign.
fn unsigned(digits: &str, radix: u32) -> Result<usize, NumberError>
    requires { (2 ≤ radix) × (radix ≤ 36) }
    ensures { Reads radix digits.now result }
{
    if digits.starts_with('+') {
        return Err(NumberError::Malformed);
    }
    Ok(usize::from_str_radix(digits, radix)?)
}
