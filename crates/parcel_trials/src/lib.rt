//! Worked examples of claims and parcels: proved of the definitions, and run.
#![tactic(auto)]

ghost use Rattle.std.specs.Prelude.{◌≡◌, ℕ, List, length};
ghost use Rattle.parcel.specs.Parcels.{due};
ghost use Rattle.parcel_trials.specs.Worked.{Worked, two_stored};

#[cfg(test)]
mod tests;

// How many bytes the head of a parcel has.
const HEAD: usize = 24;

// How many the number of a page has.
const NUMBER: usize = 8;

/// The worked examples of parcels stand, and so does a run that the law of the copy speaks of.
/// Answers how long the parcel is of ten bytes in pages of four, of which the first and the last, of two bytes, are dirty.
pub fn worked_parcels() -> usize
    ensures long { (x y : ℕ) (memory : List ℕ) → length memory ≡ 10 → result ≡ length (due (two_stored x y) memory) }
    ensures theorem { Worked }
{
    HEAD + 2 * NUMBER + 4 + 2
}
