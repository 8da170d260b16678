//! The dirty share.
ghost use Rattle.std.specs.Prelude.{◌≡◌};
ghost use Rattle.bitmap.specs.Pages.{share};

/// The share of `dirty` pages among `count`, in thousandths and rounded down; absent if there are no pages, or fewer than are dirty.
pub fn dirty_share(dirty: u32, count: u32) -> Option<u32>
    ensures { result ≡ share dirty count }
{
    if count == 0 || dirty > count {
        return None;
    }
    let share = 1000 * u64::from(dirty) / u64::from(count);
    Some(share as u32)
}
