//! Taking a parcel.
ghost use Rattle.std.specs.Prelude.{◌≡◌, length};
ghost use Rattle.volatile_memory.specs.Faults.{said};
ghost use Rattle.parcel.specs.Parcels.{dirty_pages, taken, parcel_len};
ghost use Rattle.parcel.specs.Outcomes.{told, filled, left};

use crate::dirty_pages::DirtyPages;
use bitmap::CleanBitmap;
use volatile_memory::Error;

/// What was taken: how many bytes the parcel has, and how many pages it carries.
#[derive(Clone, Copy, PartialEq, Eq, Debug)]
pub struct Taken {
    pub length: usize,
    pub pages: usize,
}

// Writes the dirty pages of a memory to the start of a buffer as a parcel.
fn lay_dirty<B: CleanBitmap>(memory: &[u8], bitmap: &B, buf: &mut [u8]) -> Result<Taken, Error>
    ensures answer { said (λ t. (t.length, t.pages)) result ≡ told (length (dirty_pages (B.Bitmap.means bitmap.now) memory.now)) (taken (B.Bitmap.means bitmap.now) memory.now (length buf.old)) }
    ensures buffer { buf.new ≡ filled buf.old (taken (B.Bitmap.means bitmap.now) memory.now (length buf.old)) }
{
    let pages = DirtyPages { memory, bitmap };
    pages.check_cover()?;
    let taken = pages.measure();
    if buf.len() < taken.length {
        return Err(Error::NoRoom {
            needed: taken.length,
        });
    }
    pages.lay_parcel(buf, taken.pages);
    Ok(taken)
}

/// How many bytes the parcel of the dirty pages of `memory` has, as far as a number can tell it.
pub fn parcel_len<B: CleanBitmap>(memory: &[u8], bitmap: &B) -> Result<usize, Error>
    ensures { said (λ n. n) result ≡ parcel_len (B.Bitmap.means bitmap.now) memory.now }
{
    let pages = DirtyPages { memory, bitmap };
    pages.check_cover()?;
    Ok(pages.measure().length)
}

/// Writes the dirty pages of `memory` to the start of `buf` as a parcel, and makes them clean.
pub fn take<B: CleanBitmap>(memory: &[u8], bitmap: &mut B, buf: &mut [u8]) -> Result<Taken, Error>
    ensures answer { said (λ t. (t.length, t.pages)) result ≡ told (length (dirty_pages (B.Bitmap.means bitmap.old) memory.now)) (taken (B.Bitmap.means bitmap.old) memory.now (length buf.old)) }
    ensures buffer { buf.new ≡ filled buf.old (taken (B.Bitmap.means bitmap.old) memory.now (length buf.old)) }
    ensures means { B.Bitmap.means bitmap.new ≡ left (B.Bitmap.means bitmap.old) memory.now (taken (B.Bitmap.means bitmap.old) memory.now (length buf.old)) }
    ensures lent { B.Bitmap.lent bitmap.new ≡ B.Bitmap.lent bitmap.old }
{
    let taken = lay_dirty(memory, bitmap, buf)?;
    bitmap.reset_addr_range(0, memory.len());
    Ok(taken)
}
