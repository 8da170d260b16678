//! Applying a parcel.
ghost use Rattle.std.specs.Prelude.{◌≡◌};
ghost use Rattle.volatile_memory.specs.Faults.{said};
ghost use Rattle.parcel.specs.Parcels.{applied};
ghost use Rattle.parcel.specs.Outcomes.{accepted, kept};

use crate::carried::Carried;
use volatile_memory::Error;

/// Lays the pages of `parcel` into `copy`, unless it breaks a rule.
pub fn apply(copy: &mut [u8], parcel: &[u8]) -> Result<(), Error>
    ensures answer { said (λ _. 0) result ≡ accepted (applied copy.old parcel.now) }
    ensures after { copy.new ≡ kept copy.old (applied copy.old parcel.now) }
{
    let pages = Carried::check(parcel, copy.len())?;
    pages.lay(copy);
    Ok(())
}
