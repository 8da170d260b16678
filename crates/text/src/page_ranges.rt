//! Pages, kept and written as ranges.
ghost use Rattle.std.specs.Prelude.{◌≡◌, [], ◌∷◌, ◌++◌, OnOk};
ghost use Rattle.text.specs.PageRanges.{spread};

use crate::page_range::PageRange;
use std::alloc::{AllocError, Global};
use std::fmt;
use std::marker::Model;

/// Page numbers, in the order in which they came. Those that follow one another are kept as one range.
#[derive(Drop)]
pub struct PageRanges {
    ranges: Vec<PageRange>,
}

impl Model for PageRanges {
    ghost use Rattle.std.specs.Prelude.{List, ℕ};
    ghost use Rattle.text.specs.PageRanges.{spread};

    ghost Value = { List ℕ };

    ghost view = { λ r. spread r.ranges.items };
}

impl PageRanges {
    /// The ranges, in their order.
    pub fn as_slice(&self) -> &[PageRange]
        ensures { spread result.now ≡ self.now }
    {
        self.ranges.as_slice()
    }
}

// Adds a page behind those of ranges.
fn add_page(ranges: &mut Vec<PageRange>, page: usize) -> Result<(), AllocError>
    ensures { OnOk result (spread ranges.new.items ≡ spread ranges.old.items ++ page ∷ []) }
{
    if let Some(range) = ranges.last_mut() {
        if range.last < page && page - range.last == 1 {
            range.last = page;
            return Ok(());
        }
    }
    ranges.push(PageRange {
        first: page,
        last: page,
    })?;
    Ok(())
}

impl FromIterator<usize> for PageRanges {
    type Alloc = Global;

    ghost from_iter_gives = { λ pages ranges. ranges ≡ pages };

    fn from_iter<U: IntoIterator<Item = usize>>(
        heap: Global,
        pages: U,
    ) -> Result<PageRanges, AllocError> {
        let mut ranges = Vec::new(heap);
        for page in pages {
            add_page(&mut ranges, page)?;
        }
        Ok(PageRanges { ranges })
    }
}

// The ranges with commas between them.
impl fmt::Display for PageRanges {
    fn fmt<W: fmt::Write>(&self, f: &mut fmt::Formatter<W>) -> fmt::Result {
        for (index, range) in self.ranges.iter().enumerate() {
            let comma = if index == 0 { "" } else { ", " };
            write!(f, "{comma}{range}")?;
        }
        Ok(())
    }
}

#[cfg(test)]
mod tests {
    use super::*;
    use std::test::Fail;

    #[test]
    fn pages_are_written_as_ranges(rt: HostRuntime) -> Result<(), Fail> {
        let heap = rt.alloc();
        let pages = vec![in heap; 0usize, 1, 2, 7, 9, 8]?;
        let ranges: PageRanges = pages.into_iter().collect(heap)?;
        let text = format!(in heap; "{ranges}")?;
        assert_eq!(rt; text.as_str(), "0-2, 7, 9, 8");
        Ok(())
    }
}
