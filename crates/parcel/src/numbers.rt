//! Numbers of 8 bytes, and bytes laid into a buffer.
ghost use Rattle.std.specs.Prelude.{◌≡◌, ◌+◌, ◌≤◌, length};
ghost use Rattle.std.specs.Iterator.{YieldsFirst, item_count};
ghost use Rattle.byte_valued.specs.LittleEndian.{bytes_of};
ghost use Rattle.volatile_memory.specs.Memory.{overlaid};
ghost use Rattle.parcel.specs.Parcels.{numbers_of};

use byte_valued::ByteValued;

// How many bytes a number has.
pub(crate) const NUMBER: usize = 8;

/// The numbers that bytes hold, 8 bytes each.
#[derive(Drop)]
pub struct Numbers<'a> {
    bytes: &'a [u8],
}

impl<'a> Numbers<'a> {
    pub(crate) fn new(bytes: &'a [u8]) -> Numbers<'a>
        ensures { result.bytes.now ≡ bytes.now }
    {
        Numbers { bytes }
    }
}

impl<'a> Iterator for Numbers<'a> {
    type Item = usize;

    ghost next_gives = { YieldsFirst (λ s. numbers_of s.bytes.now) };

    ghost remaining = { item_count (λ s. numbers_of s.bytes.now) };

    fn next(&mut self) -> Option<usize> {
        let (first, rest) = self.bytes.split_at_checked(NUMBER)?;
        self.bytes = rest;
        usize::from_slice(first)
    }
}

// Lays bytes into a buffer from `at` on, and says where they end. Parts are laid by their places, since a proof knows
// nothing of what a loop over `chunks_exact_mut` wrote.
pub(crate) fn lay(buf: &mut [u8], at: usize, bytes: &[u8]) -> usize
    requires { at + length bytes.now ≤ length buf.old }
    ensures end { result ≡ at + length bytes.now }
    ensures after { buf.new ≡ overlaid buf.old at bytes.now }
{
    let end = at + bytes.len();
    buf[at..end].copy_from_slice(bytes);
    end
}

// Lays a number into a buffer at `at`, and says where it ends.
pub(crate) fn lay_number(buf: &mut [u8], at: usize, number: usize) -> usize
    requires { at + 8 ≤ length buf.old }
    ensures end { result ≡ at + 8 }
    ensures after { buf.new ≡ overlaid buf.old at (bytes_of 8 number) }
{
    lay(buf, at, &number.to_le_bytes())
}
