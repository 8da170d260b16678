//! Scripts of calls over one memory and one bitmap, played, and the account of what they answered.
#![tactic(auto)]

mod account;
mod answer;
mod claims;
mod comparison;
mod elements;
mod fault;
mod guest;
mod player;
mod value;

pub use account::{Account, replay};
pub use fault::{Fault, ReplayError};
