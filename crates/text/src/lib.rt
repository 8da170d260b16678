//! Text that the program reads, line by line, and pages as it prints them.
#![tactic(auto)]

mod hex_bytes;
mod line_error;
mod numbers;
mod page_map;
mod page_range;
mod page_ranges;
mod reading;

pub use hex_bytes::HexBytes;
pub use line_error::LineError;
pub use numbers::{NumberError, number};
pub use page_map::{MOST_PAGES, PageMap};
pub use page_range::PageRange;
pub use page_ranges::PageRanges;
pub use reading::{Line, NotText, decode, lines};
