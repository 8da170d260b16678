//! The kinds of element that a script names.
ghost use Rattle.std.specs.Prelude.{◌<◌};
ghost use Rattle.script.specs.Kinds.{Named};

use crate::fault::Complaint;
use std::str::FromStr;

/// A kind of integer.
#[derive(Clone, Copy, PartialEq)]
pub enum IntegerKind {
    U8,
    U16,
    U32,
    U64,
    Usize,
    I8,
    I16,
    I32,
    I64,
}

/// A kind of element.
#[derive(Clone, Copy, PartialEq)]
pub enum Kind {
    Integer(IntegerKind),
    LineHead,
}

impl IntegerKind {
    // The least and the largest number that it holds.
    fn bounds(self) -> (i128, i128) {
        match self {
            IntegerKind::U8 => (0, u8::MAX as i128),
            IntegerKind::U16 => (0, u16::MAX as i128),
            IntegerKind::U32 => (0, u32::MAX as i128),
            IntegerKind::U64 => (0, u64::MAX as i128),
            IntegerKind::Usize => (0, usize::MAX as i128),
            IntegerKind::I8 => (i8::MIN as i128, i8::MAX as i128),
            IntegerKind::I16 => (i16::MIN as i128, i16::MAX as i128),
            IntegerKind::I32 => (i32::MIN as i128, i32::MAX as i128),
            IntegerKind::I64 => (i64::MIN as i128, i64::MAX as i128),
        }
    }

    // Whether it holds a number.
    pub(crate) fn holds(self, n: i128) -> bool {
        let (least, largest) = self.bounds();
        (least..=largest).contains(&n)
    }
}

impl Kind {
    // How many fields write a value: a line head is written by its five numbers.
    pub(crate) fn fields(self) -> usize
        ensures { 0 < result }
    {
        match self {
            Kind::Integer(_) => 1,
            Kind::LineHead => 5,
        }
    }
}

// The kind of a name.
impl FromStr for Kind {
    type Err = Complaint;

    ghost from_str_gives = { Named };

    fn from_str(name: &str) -> Result<Kind, Complaint> {
        Ok(Kind::Integer(match name {
            "u8" => IntegerKind::U8,
            "u16" => IntegerKind::U16,
            "u32" => IntegerKind::U32,
            "u64" => IntegerKind::U64,
            "usize" => IntegerKind::Usize,
            "i8" => IntegerKind::I8,
            "i16" => IntegerKind::I16,
            "i32" => IntegerKind::I32,
            "i64" => IntegerKind::I64,
            "LineHead" => return Ok(Kind::LineHead),
            _ => return Err(Complaint::UnknownKind),
        }))
    }
}
