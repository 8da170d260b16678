//! Parcels: the dirty pages of a memory as bytes, and those bytes laid into a copy.
//!
//! A parcel has the page size, the number of its pages and the memory's length, then the number of each page, then the
//! bytes of each page. A number has 8 bytes, the least significant first. The memory's last page may be short.
#![tactic(auto)]

mod applying;
mod carried;
mod contents;
mod dirty_pages;
mod layout;
mod numbers;
mod taking;

pub use applying::apply;
pub use contents::{Contents, inspect, page_number, page_numbers};
pub use numbers::Numbers;
pub use taking::{Taken, parcel_len, take};
