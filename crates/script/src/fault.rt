//! What is wrong with a script.
use crate::word::Word;
use std::alloc::{AllocError, Global};
use text::{LineError, MOST_PAGES, NumberError};
use thiserror::Error;

/// The most bytes of a memory.
pub(crate) const MOST_BYTES: usize = 67108864;

/// The most bytes or elements that a call reads.
pub(crate) const MOST_READ: usize = 1048576;

/// What is wrong with a part of a line.
#[derive(Clone, Copy, Debug, Error)]
pub enum Complaint {
    #[error("unknown command")]
    UnknownCommand,
    #[error("unknown kind of element")]
    UnknownKind,
    #[error("not a name")]
    NotName,
    #[error("a name that was given before")]
    NamedBefore,
    #[error("nothing has the name")]
    NotNamed,
    #[error("not a view")]
    NotView,
    #[error("not an array")]
    NotArray,
    #[error("not a reference")]
    NotReference,
    #[error("neither a reference nor an array")]
    NoElements,
    #[error("not a claim")]
    NotClaim,
    #[error("not an integer's kind")]
    NotInteger,
    #[error(transparent)]
    NotNumber(NumberError),
    #[error("a value that does not fit its kind")]
    NotFitting,
    #[error("not bytes")]
    NotBytes,
}

/// What is wrong with a line.
#[derive(Debug, Drop, Error)]
pub enum Fault {
    #[error("the script ends before memory SIZE PAGE_SIZE")]
    NoMemory,
    #[error("{0}: {1:?}")]
    Part(Complaint, String),
    #[error("not of the form {}", .0.form())]
    Form(Word),
    #[error("the memory is set up by the first line alone")]
    SecondMemory,
    #[error("a page size of 0")]
    NoPageSize,
    #[error("{0} pages, and at most {most} are tracked", most = MOST_PAGES)]
    TooManyPages(usize),
    #[error("{0} bytes, and at most {most} are held", most = MOST_BYTES)]
    TooManyBytes(usize),
    #[error("{0} to read, and at most {most} are", most = MOST_READ)]
    TooMuchRead(usize),
    #[error("the claim {0} is not settled")]
    Unsettled(String),
    #[error(transparent)]
    OutOfMemory(#[from(alloc)] AllocError),
}

/// A fault of a part of a line.
pub(crate) fn faulty(heap: Global, complaint: Complaint, part: &str) -> Fault {
    String::from_str(heap, part).map_or_else(
        Fault::OutOfMemory,
        |part| Fault::Part(complaint, part),
    )
}

/// Why a script has no account.
pub type ScriptError = LineError<Fault>;
