//! Checked views of a guest's memory, as plain numbers: memory and bitmap are handed to each call that touches them.
// That is a rule of the project: a view holds no reference, so it can be kept, copied and cut while the memory changes.
#![tactic(auto)]

mod claim;
mod error;
mod volatile_array_ref;
mod volatile_ref;
mod volatile_slice;

pub use claim::Claim;
pub use error::{Error, Rule};
pub use volatile_array_ref::VolatileArrayRef;
pub use volatile_ref::VolatileRef;
pub use volatile_slice::VolatileSlice;
