//! Why a text is not read.
ghost use Rattle.std.specs.Prelude.{◌≡◌, ◌+◌, length};
ghost use Rattle.std.specs.Str.Lines.{lines};
ghost use Rattle.text.specs.declared.line_error.LineError.TheVariants.{Line};

use crate::reading::NotText;
use std::alloc::AllocError;
use std::fmt::{self, Display};
use thiserror::Error;

/// Why a text is not read: it is none, a line of it has a fault, or there is no memory.
#[derive(Drop, Error)]
#[error_bound(F: Display)]
pub enum LineError<F> {
    #[error(transparent)]
    NotText(#[from] NotText),
    #[error("line {0}: {1}")]
    Line(usize, F),
    #[error(transparent)]
    OutOfMemory(#[from(alloc)] AllocError),
}

// For a reader, as `Display`: the line and what is wrong there.
impl<F: Display> fmt::Debug for LineError<F> {
    fn fmt<W: fmt::Write>(&self, f: &mut fmt::Formatter<W>) -> fmt::Result {
        write!(f, "{self}")
    }
}

impl<F> LineError<F> {
    /// The fault of a text that ends too early: of the line behind its last.
    pub fn at_end(text: &str, fault: F) -> LineError<F>
        ensures { result ≡ Line (length (lines text.now) + 1) fault }
    {
        LineError::Line(text.lines().count() + 1, fault)
    }
}
