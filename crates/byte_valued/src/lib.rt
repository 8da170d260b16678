//! Elements: values that are a fixed number of bytes, and the integers among them that are accessed atomically.
#![tactic(auto)]

ghost use Rattle.std.specs.Prelude.{◌≡◌, ℕ, ◌<◌, ◌≤◌, List, length, replicate, is_some, IfSome};
ghost use Rattle.byte_valued.specs.LittleEndian.{Bytes};
ghost use Rattle.byte_valued.specs.Buffers.{has_room, laid, made_of};

mod integer;
mod line_head;
mod signed;
mod unsigned;

pub use integer::Integer;
pub use line_head::LineHead;

/// A kind of element: `size` bytes, from 1 to 64, that any such bytes make a value of.
pub trait ByteValued: Copy {
    ghost size: { ℕ };

    // The bytes of a value.
    ghost bytes: { Self → List ℕ };

    // The value that bytes make.
    ghost value: { List ℕ → Self };

    // What the type can hold: each value that code meets, as the functions below ensure.
    ghost Holds: { Self → Type 0 };

    /// How many bytes a value has.
    fn size_of() -> usize
        ensures { result ≡ size };

    /// The value whose bytes are all zero.
    fn zeroed() -> Self
        ensures { result ≡ value (replicate size 0) };

    /// The value that `data` makes, if it has just as many bytes as a value.
    fn from_slice(data: &[u8]) -> Option<Self>
        ensures value { result ≡ made_of size value «data».now }
        ensures holds { IfSome result Holds };

    /// Lays the value's bytes at the start of `buf`, if they fit; the rest stays.
    fn write_to(self, buf: &mut [u8]) -> Option<()>
        ensures test { is_some result ≡ has_room (bytes self) buf.old }
        ensures after { buf.new ≡ laid (bytes self) buf.old }
        ensures holds { Holds self };

    ghost sized: { (0 < size) × (size ≤ 64) };

    ghost exact: { (x : Self) → (length (bytes x) ≡ size) × Bytes (bytes x) };

    // A value's bytes make that value again.
    ghost again: { (x : Self) → Holds x → value (bytes x) ≡ x };

    // Any `size` bytes make a value that has those bytes.
    ghost back: { (bs : List ℕ) → length bs ≡ size → Bytes bs → Holds (value bs) × (bytes (value bs) ≡ bs) };
}

/// A kind of element that is accessed atomically, at addresses that are a multiple of its alignment.
pub trait AtomicAccess: ByteValued {
    /// The alignment: the size.
    fn alignment() -> usize
        ensures { result ≡ Self.ByteValued.size }
    {
        Self::size_of()
    }
}

// Lays bytes at the start of a buffer, if they fit.
fn lay(bytes: &[u8], buf: &mut [u8]) -> Option<()>
    ensures test { is_some result ≡ has_room bytes.now buf.old }
    ensures after { buf.new ≡ laid bytes.now buf.old }
{
    if buf.len() < bytes.len() {
        return None;
    }
    buf[0..bytes.len()].copy_from_slice(bytes);
    Some(())
}
