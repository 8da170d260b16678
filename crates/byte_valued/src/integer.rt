//! Integers as elements, the least significant byte first.
ghost use Rattle.std.specs.Prelude.{◌≡◌, ℕ, ◌≤◌, length};
ghost use Rattle.byte_valued.specs.LittleEndian.{bytes_of, number_of};
ghost use Rattle.byte_valued.specs.Integers.{held_by, IntegerLaws};
ghost use Rattle.byte_valued.specs.ByteLaws.{unsigned_exact};
ghost use Rattle.byte_valued.specs.IntegerProofs.{sized};

use crate::{AtomicAccess, ByteValued, lay};

/// An integer of `WIDTH` bytes, from 1 to 8.
pub trait Integer: Copy {
    /// How many bytes it has.
    const WIDTH: usize;

    ghost WIDTH: { ℕ };

    // The number that a value's bits stand for, and the value of such a number.
    ghost bits_of: { Self → ℕ };

    ghost of_bits: { ℕ → Self };

    // What the type can hold.
    ghost Holds: { Self → Type 0 };

    ghost laws: { IntegerLaws WIDTH bits_of of_bits Holds };

    /// The number that the value's bits stand for.
    fn to_bits(self) -> u64
        ensures bits { result ≡ bits_of self }
        ensures holds { Holds self };

    /// The value with these bits, if it has so many.
    fn from_bits(bits: u64) -> Option<Self>
        ensures { result ≡ held_by WIDTH of_bits bits };
}

// The number that up to eight bytes stand for.
fn number_of(data: &[u8]) -> u64
    requires { length data.now ≤ 8 }
    ensures { result ≡ number_of data.now }
{
    // There is no heap here, and no number has more bytes.
    let mut bytes = [0; 8];
    bytes[0..data.len()].copy_from_slice(data);
    u64::from_le_bytes(bytes)
}

impl<T: Integer> ByteValued for T {
    ghost size = { T.WIDTH };

    ghost bytes = { λ x. bytes_of T.WIDTH (T.bits_of x) };

    ghost value = { λ bs. T.of_bits (number_of bs) };

    ghost Holds = { T.Holds };

    ghost sized = { sized T.WIDTH T.laws.some T.laws.few };

    ghost exact = { λ x. unsigned_exact T.WIDTH (T.bits_of x) };

    ghost again = { T.laws.again };

    ghost back = { T.laws.back };

    fn size_of() -> usize {
        T::WIDTH
    }

    fn zeroed() -> T {
        T::from_bits(0).unwrap()
    }

    fn from_slice(data: &[u8]) -> Option<T> {
        if data.len() != T::WIDTH {
            return None;
        }
        T::from_bits(number_of(data))
    }

    fn write_to(self, buf: &mut [u8]) -> Option<()> {
        lay(&self.to_bits().to_le_bytes()[0..T::WIDTH], buf)
    }
}

impl<T: Integer> AtomicAccess for T {}
