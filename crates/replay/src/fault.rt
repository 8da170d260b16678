//! What keeps a script from being played, and what ends a call.
use script::ScriptError;
use std::alloc::{AllocError, Global};
use std::fmt;
use text::LineError;
use thiserror::Error;

/// Why a command is not played.
#[derive(Debug, Drop, Error)]
pub enum Fault {
    /// The name of a cut that was refused.
    #[error("nothing has the name: {0:?}")]
    Unnamed(String),
    #[error("a value that does not fit its kind")]
    NotFitting,
    #[error("the memory ends past the largest address")]
    PastTop,
    #[error(transparent)]
    OutOfMemory(#[from(alloc)] AllocError),
}

/// The fault of a name that stands for nothing.
pub(crate) fn unnamed(heap: Global, name: &str) -> Fault {
    String::from_str(heap, name).map_or_else(Fault::OutOfMemory, Fault::Unnamed)
}

/// Why a call has no answer: it is refused, which the account tells, or not played at all.
#[derive(Debug, Drop, Error)]
pub(crate) enum Halt {
    #[error(transparent)]
    Refused(#[from] volatile_memory::Error),
    #[error(transparent)]
    Fault(#[from] Fault),
    #[error(transparent)]
    OutOfMemory(#[from(alloc)] AllocError),
}

/// Why a script is not played to its end.
pub(crate) type PlayError = LineError<Fault>;

/// Why a script has no account: it is a bad one, not played to its end, or there is no memory.
#[derive(Drop, Error)]
pub enum ReplayError {
    #[error(transparent)]
    Script(#[from] ScriptError),
    #[error(transparent)]
    Play(#[from] LineError<Fault>),
    #[error(transparent)]
    OutOfMemory(#[from(alloc)] AllocError),
}

// For a reader, as `Display`: the line and what is wrong there.
impl fmt::Debug for ReplayError {
    fn fmt<W: fmt::Write>(&self, f: &mut fmt::Formatter<W>) -> fmt::Result {
        write!(f, "{self}")
    }
}
