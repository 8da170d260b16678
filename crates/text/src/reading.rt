//! The lines of a text.
ghost use Rattle.std.specs.Prelude.{◌≡◌, ◌+◌, IfOk, MatchResult};
ghost use Rattle.text.specs.Said.{skips, Says, numbered, breaks, NoText};

use std::alloc::{AllocError, Global};
use thiserror::Error;

/// A line of a text, by its number from 1 on.
#[derive(Clone, Copy)]
pub struct Line<'a> {
    pub number: usize,
    pub text: &'a str,
}

impl Line<'_> {
    // Whether it says nothing.
    fn is_skipped(&self) -> bool
        ensures { result ≡ skips self.now.text.now }
    {
        let text = self.text.trim_start();
        text.is_empty() || text.starts_with('#')
    }
}

/// The lines that say something: blank ones, and those that begin with `#`, do not.
pub fn lines<'a>(heap: Global, text: &'a str) -> Result<Vec<Line<'a>>, AllocError>
    ensures { IfOk result (λ v. Says text.now (numbered v.items)) }
{
    text.lines()
        .enumerate()
        .map(|(index, text)| Line {
            number: index + 1,
            text,
        })
        .filter(|line| !line.is_skipped())
        .collect(heap)
}

/// Bytes that are no text: the number of the first line that is none.
#[derive(Clone, Copy, Debug, Error)]
#[error("line {line}: not text")]
pub struct NotText {
    pub line: usize,
}

/// Bytes as text.
pub fn decode(bytes: &[u8]) -> Result<&str, NotText>
    ensures { MatchResult result (λ s. s.now ≡ bytes.now) (λ e. NoText bytes.now e.line) }
{
    std::str::from_utf8(bytes).map_err(|error| NotText {
        line: line_after(&bytes[0..error.valid_up_to()]),
    })
}

// The number of the line that begins or goes on behind these bytes.
fn line_after(bytes: &[u8]) -> usize
    ensures { result ≡ 1 + breaks bytes.now }
{
    1 + bytes.iter().filter(|byte| **byte == b'\n').count()
}
