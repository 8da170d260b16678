//! Unsigned integers.
//!
//! One impl for each, since an impl of this crate may not be written by a macro.
ghost use Rattle.std.proofs.Common.{lit<, lit≤};
ghost use Rattle.byte_valued.specs.LittleEndian.{Unsigned};
ghost use Rattle.byte_valued.specs.IntegerProofs.{unsigned_laws};

use crate::Integer;

impl Integer for u8 {
    const WIDTH: usize = 1;

    ghost WIDTH = { 1 };

    ghost bits_of = { λ x. x };

    ghost of_bits = { λ n. n };

    ghost Holds = { Unsigned 1 };

    ghost laws = { unsigned_laws 1 (lit< tt) (lit≤ tt) };

    fn to_bits(self) -> u64 {
        u64::from(self)
    }

    fn from_bits(bits: u64) -> Option<u8> {
        u8::try_from(bits).ok()
    }
}

impl Integer for u16 {
    const WIDTH: usize = 2;

    ghost WIDTH = { 2 };

    ghost bits_of = { λ x. x };

    ghost of_bits = { λ n. n };

    ghost Holds = { Unsigned 2 };

    ghost laws = { unsigned_laws 2 (lit< tt) (lit≤ tt) };

    fn to_bits(self) -> u64 {
        u64::from(self)
    }

    fn from_bits(bits: u64) -> Option<u16> {
        u16::try_from(bits).ok()
    }
}

impl Integer for u32 {
    const WIDTH: usize = 4;

    ghost WIDTH = { 4 };

    ghost bits_of = { λ x. x };

    ghost of_bits = { λ n. n };

    ghost Holds = { Unsigned 4 };

    ghost laws = { unsigned_laws 4 (lit< tt) (lit≤ tt) };

    fn to_bits(self) -> u64 {
        u64::from(self)
    }

    fn from_bits(bits: u64) -> Option<u32> {
        u32::try_from(bits).ok()
    }
}

impl Integer for u64 {
    const WIDTH: usize = 8;

    ghost WIDTH = { 8 };

    ghost bits_of = { λ x. x };

    ghost of_bits = { λ n. n };

    ghost Holds = { Unsigned 8 };

    ghost laws = { unsigned_laws 8 (lit< tt) (lit≤ tt) };

    fn to_bits(self) -> u64 {
        self
    }

    fn from_bits(bits: u64) -> Option<u64> {
        Some(bits)
    }
}

impl Integer for usize {
    const WIDTH: usize = 8;

    ghost WIDTH = { 8 };

    ghost bits_of = { λ x. x };

    ghost of_bits = { λ n. n };

    ghost Holds = { Unsigned 8 };

    ghost laws = { unsigned_laws 8 (lit< tt) (lit≤ tt) };

    fn to_bits(self) -> u64 {
        self as u64
    }

    fn from_bits(bits: u64) -> Option<usize> {
        usize::try_from(bits).ok()
    }
}
