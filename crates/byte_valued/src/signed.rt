//! Signed integers, in two's complement.
//!
//! One impl for each, since an impl of this crate may not be written by a macro.
ghost use Rattle.std.proofs.Common.{lit<, lit≤};
ghost use Rattle.byte_valued.specs.LittleEndian.{complement, signed_of, Signed};
ghost use Rattle.byte_valued.specs.IntegerProofs.{signed_laws};

use crate::Integer;

impl Integer for i8 {
    const WIDTH: usize = 1;

    ghost WIDTH = { 1 };

    ghost bits_of = { complement 1 };

    ghost of_bits = { signed_of 1 };

    ghost Holds = { Signed 1 };

    ghost laws = { signed_laws 1 (lit< tt) (lit≤ tt) };

    fn to_bits(self) -> u64 {
        self.cast_unsigned().to_bits()
    }

    fn from_bits(bits: u64) -> Option<i8> {
        u8::from_bits(bits).map(u8::cast_signed)
    }
}

impl Integer for i16 {
    const WIDTH: usize = 2;

    ghost WIDTH = { 2 };

    ghost bits_of = { complement 2 };

    ghost of_bits = { signed_of 2 };

    ghost Holds = { Signed 2 };

    ghost laws = { signed_laws 2 (lit< tt) (lit≤ tt) };

    fn to_bits(self) -> u64 {
        self.cast_unsigned().to_bits()
    }

    fn from_bits(bits: u64) -> Option<i16> {
        u16::from_bits(bits).map(u16::cast_signed)
    }
}

impl Integer for i32 {
    const WIDTH: usize = 4;

    ghost WIDTH = { 4 };

    ghost bits_of = { complement 4 };

    ghost of_bits = { signed_of 4 };

    ghost Holds = { Signed 4 };

    ghost laws = { signed_laws 4 (lit< tt) (lit≤ tt) };

    fn to_bits(self) -> u64 {
        self.cast_unsigned().to_bits()
    }

    fn from_bits(bits: u64) -> Option<i32> {
        u32::from_bits(bits).map(u32::cast_signed)
    }
}

impl Integer for i64 {
    const WIDTH: usize = 8;

    ghost WIDTH = { 8 };

    ghost bits_of = { complement 8 };

    ghost of_bits = { signed_of 8 };

    ghost Holds = { Signed 8 };

    ghost laws = { signed_laws 8 (lit< tt) (lit≤ tt) };

    fn to_bits(self) -> u64 {
        self.cast_unsigned().to_bits()
    }

    fn from_bits(bits: u64) -> Option<i64> {
        u64::from_bits(bits).map(u64::cast_signed)
    }
}
