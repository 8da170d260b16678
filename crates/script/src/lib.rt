//! Scripts of calls over one memory and one bitmap, as text.
#![tactic(auto)]

mod command;
mod commands;
mod cuts;
mod fault;
mod fields;
mod kind;
mod names;
mod program;
mod word;

pub use command::{
    AtomicCall, ByteCall, ClaimCall, Command, Cut, ElementCall, Program, Setup, Step, Value,
};
pub use fault::{Complaint, Fault, ScriptError};
pub use kind::{IntegerKind, Kind};
pub use names::ROOT;
pub use program::parse;
