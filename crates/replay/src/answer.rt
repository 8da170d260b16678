//! What a call answered.
use script::Value;
use std::fmt;
use text::{HexBytes, PageRanges};

/// The answer of a call.
#[derive(Drop)]
pub(crate) enum Answer {
    Done,
    Size(usize),
    Halves(usize, usize),
    Bytes(Vec<u8>),
    One(Value),
    Many(Vec<Value>),
    /// A parcel's length and pages, and an element of the copy.
    Taken {
        length: usize,
        pages: PageRanges,
        element: Value,
    },
}

impl fmt::Display for Answer {
    fn fmt<W: fmt::Write>(&self, f: &mut fmt::Formatter<W>) -> fmt::Result {
        match self {
            Answer::Done => f.write_str("done"),
            Answer::Size(n) => write!(f, "answer: {n} bytes"),
            Answer::Halves(m, n) => write!(f, "answer: {m} and {n} bytes"),
            Answer::Bytes(bytes) => {
                let n = bytes.len();
                let bytes = HexBytes(bytes.as_slice());
                write!(f, "answer: {n} bytes{bytes}")
            }
            Answer::One(value) => write!(f, "answer: {value}"),
            Answer::Many(values) => write_values(f, values.as_slice()),
            Answer::Taken {
                length,
                pages,
                element,
            } => {
                write!(f, "answer: {length} bytes, ")?;
                write_pages(f, pages)?;
                write!(f, "; {element}")
            }
        }
    }
}

fn write_values<W: fmt::Write>(f: &mut fmt::Formatter<W>, values: &[Value]) -> fmt::Result {
    let n = values.len();
    write!(f, "answer: {n} elements")?;
    for value in values {
        write!(f, "; {value}")?;
    }
    Ok(())
}

fn write_pages<W: fmt::Write>(f: &mut fmt::Formatter<W>, pages: &PageRanges) -> fmt::Result {
    let ranges = pages.as_slice();
    f.write_str(if ranges.is_empty() {
        "no pages"
    } else {
        "pages"
    })?;
    for range in ranges {
        write!(f, " {range}")?;
    }
    Ok(())
}
