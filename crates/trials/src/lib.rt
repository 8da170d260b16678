//! Worked examples: proved of the definitions, and run.
#![tactic(auto)]

ghost use Rattle.std.specs.Prelude.{◌≡◌, ℕ, ◌<◌, slice_index};
ghost use Rattle.bitmap.specs.Pages.{marked};
ghost use Rattle.bitmap.specs.Storage.{bit_of, stored};
ghost use Rattle.bitmap.specs.Tracked.{over};
ghost use Rattle.trials.specs.Worked.{Worked};

use bitmap::{Bitmap, ByteLog};

// Marks pages 0 and 9 in the log of a memory of ten pages.
fn mark_first_and_last(log: &mut [u8])
    ensures fits { (i : ℕ) → slice_index log.new i < 256 }
    ensures bits { (n : ℕ) → stored bit_of 8 log.new n ≡ (marked (marked (over 40960 4096 8 log.old) 0 1) 36864 1).bit n }
{
    let mut log = ByteLog::new(40960, log);
    log.mark_dirty(0, 1);
    log.mark_dirty(36864, 1);
}

#[cfg(test)]
mod tests;
#[cfg(test)]
mod view_tests;

/// The worked examples stand, and a log of ten pages in which pages 0 and 9 are marked is the bytes 0x01, 0x02.
pub fn worked_examples() -> (u8, u8)
    ensures log { result ≡ (1, 2) }
    ensures theorem { Worked }
{
    let mut log = [0; 2];
    mark_first_and_last(&mut log);
    (log[0], log[1])
}
