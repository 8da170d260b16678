//! The law of the copy, over any list of calls on a memory and its bitmap, and the call that carries it.
#![tactic(auto)]

ghost use Rattle.std.specs.Prelude.{◌≡◌, length};
ghost use Rattle.volatile_memory.specs.Faults.{said};
ghost use Rattle.volatile_memory.specs.Spans.{span};
ghost use Rattle.parcel.specs.Parcels.{taken};
ghost use Rattle.parcel.specs.Outcomes.{filled, left};
ghost use Rattle.mirror.specs.Mirror.{load_ref};
ghost use Rattle.mirror.specs.Program.{LeadsTo, MakesRuns};
ghost use Rattle.mirror.specs.Refresh.{refreshes, copy_then, Mirrors};
ghost use Rattle.mirror.specs.Runs.{Run, Fits};

use bitmap::CleanBitmap;
use byte_valued::ByteValued;
use parcel::{Taken, apply, take};
use volatile_memory::{Error, VolatileRef};

/// What a refresh took, and the element that it loaded from the copy.
#[derive(Clone, Copy)]
pub struct Refreshed<T: ByteValued> {
    pub taken: Taken,
    pub element: T,
}

// A slice's length and a page size are numbers of 64 bits, and a page has a byte.
fn numbers_fit<B: CleanBitmap>(memory: &[u8], bitmap: &B)
    ensures { Fits memory.now (B.Bitmap.means bitmap.now) }
{
    let _length = memory.len();
    let _page = bitmap.page_size();
}

/// Takes a parcel of the dirty pages of `memory`, applies it to `copy`, and loads an element there.
/// A taking that is refused changes nothing. After it the parcel lies in `buf` and its pages are clean,
/// also where the copy, which then stays as it was, or the load refuses.
/// After every run of calls that led to the memory, the bitmap and the copy, the law of the copy holds; and the calls of
/// a program make such a run.
pub fn refresh<B: CleanBitmap, T: ByteValued>(
    memory: &[u8],
    bitmap: &mut B,
    buf: &mut [u8],
    copy: &mut [u8],
    element: &VolatileRef<T>,
) -> Result<Refreshed<T>, Error>
    ensures answer { said (λ a. ((a.taken.length, a.taken.pages), a.element)) result ≡ refreshes (load_ref T.ByteValued.size T.ByteValued.value (span element.now.slice)) (B.Bitmap.means bitmap.old) memory.now (length buf.old) copy.old }
    ensures buffer { buf.new ≡ filled buf.old (taken (B.Bitmap.means bitmap.old) memory.now (length buf.old)) }
    ensures means { B.Bitmap.means bitmap.new ≡ left (B.Bitmap.means bitmap.old) memory.now (taken (B.Bitmap.means bitmap.old) memory.now (length buf.old)) }
    ensures lent { B.Bitmap.lent bitmap.new ≡ B.Bitmap.lent bitmap.old }
    ensures copy { copy.new ≡ copy_then (B.Bitmap.means bitmap.old) memory.now (length buf.old) copy.old }
    ensures law { (r : Run) → LeadsTo memory.now (B.Bitmap.means bitmap.old) copy.old r → Mirrors T.ByteValued.size T.ByteValued.bytes T.ByteValued.Holds (span element.now.slice) r (length buf.old) (B.Bitmap.means bitmap.new) copy.new (said (λ a. ((a.taken.length, a.taken.pages), a.element)) result) }
    ensures calls { MakesRuns T.ByteValued.size T.ByteValued.bytes }
{
    numbers_fit(memory, bitmap);
    let taken = take(memory, bitmap, buf)?;
    apply(copy, &buf[0..taken.length])?;
    let element = element.load(copy)?;
    Ok(Refreshed { taken, element })
}
