//! The head of a line on a register's leaf.
ghost use Rattle.byte_valued.specs.Heads.{head_bytes, head_value, Head};
ghost use Rattle.byte_valued.specs.ByteLaws.{unsigned_again, unsigned_part};
ghost use Rattle.std.proofs.Common.{arith, rules};
ghost use Rattle.byte_valued.specs.HeadLaws.{parts};

use crate::{ByteValued, lay};
use std::fmt;

/// Where a line of a parish register stands: the register, its leaf, the line on it, and the line's left edge and width.
#[derive(Clone, Copy, PartialEq, Eq, Debug)]
pub struct LineHead {
    pub register: u32,
    pub leaf: u16,
    pub line: u16,
    pub left: u16,
    pub width: u16,
}

// How many bytes it has.
const SIZE: usize = 12;

// Its five numbers.
impl fmt::Display for LineHead {
    fn fmt<W: fmt::Write>(&self, f: &mut fmt::Formatter<W>) -> fmt::Result {
        let LineHead {
            register,
            leaf,
            line,
            left,
            width,
        } = *self;
        write!(f, "{register} {leaf} {line} {left} {width}")
    }
}

// Twelve bytes: the fields in their order, each by its own bytes.
impl ByteValued for LineHead {
    ghost size = { 12 };

    ghost bytes = { head_bytes };

    ghost value = { head_value };

    ghost Holds = { Head };

    ghost sized = { Prim.search rules };

    ghost exact = { Prim.search rules };

    ghost again = { λ h holds i.
        record {
          register = unsigned_again 4 h.register holds.register i;
          leaf = unsigned_again 2 h.leaf holds.leaf i;
          line = unsigned_again 2 h.line holds.line i;
          left = unsigned_again 2 h.left holds.left i;
          width = unsigned_again 2 h.width holds.width i;
        } };

    ghost back = { λ bs is all.
        let (r, register) = unsigned_part 4 0 bs (omega arith) all in
        let (f, leaf) = unsigned_part 2 4 bs (omega arith) all in
        let (n, line) = unsigned_part 2 6 bs (omega arith) all in
        let (l, left) = unsigned_part 2 8 bs (omega arith) all in
        let (w, width) = unsigned_part 2 10 bs (omega arith) all in
        (record { register = r; leaf = f; line = n; left = l; width = w }, parts bs _ _ _ _ _ is register leaf line left width) };

    fn size_of() -> usize {
        SIZE
    }

    fn zeroed() -> LineHead {
        LineHead {
            register: 0,
            leaf: 0,
            line: 0,
            left: 0,
            width: 0,
        }
    }

    fn from_slice(data: &[u8]) -> Option<LineHead> {
        if data.len() != SIZE {
            return None;
        }
        let register = u32::from_slice(&data[0..4])?;
        let leaf = u16::from_slice(&data[4..6])?;
        let line = u16::from_slice(&data[6..8])?;
        let left = u16::from_slice(&data[8..10])?;
        let width = u16::from_slice(&data[10..12])?;
        Some(LineHead {
            register,
            leaf,
            line,
            left,
            width,
        })
    }

    fn write_to(self, buf: &mut [u8]) -> Option<()> {
        let [r0, r1, r2, r3] = self.register.to_le_bytes();
        let [f0, f1] = self.leaf.to_le_bytes();
        let [n0, n1] = self.line.to_le_bytes();
        let [l0, l1] = self.left.to_le_bytes();
        let [w0, w1] = self.width.to_le_bytes();
        lay(&[r0, r1, r2, r3, f0, f1, n0, n1, l0, l1, w0, w1], buf)
    }
}
