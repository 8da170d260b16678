//! One bit a page, in words that are lent: page `n` is bit `n % w` of word `n / w`, where a word has `w` bits.
// Words and extent go apart: of a `&mut` in a struct in a bitmap, the lender learns nothing when it comes back.
ghost use Rattle.std.specs.Prelude.{◌≡◌, ◌*◌, length};
ghost use Rattle.bitmap.specs.Pages.{page_count, dirty, assigned, assigned_page};
ghost use Rattle.bitmap.specs.Tracked.{over_words};

use crate::extent::Extent;
use crate::word;
use byte_valued::Integer;

// How many pages there are bits for.
pub(crate) fn len<W: Integer>(words: &[W], extent: Extent) -> usize
    ensures { result ≡ page_count extent.byte_size extent.page_size.value (8 * W.WIDTH * length words.now) }
{
    extent.page_count(words.len().saturating_mul(word::bits::<W>()))
}

// Whether bit `index` is set; bits past the last page never are.
pub(crate) fn is_set<W: Integer>(words: &[W], extent: Extent, index: usize) -> bool
    ensures { result ≡ dirty (over_words W.bits_of extent.byte_size extent.page_size.value (8 * W.WIDTH) words.now) index }
{
    index < len(words, extent) && word::get(words, index)
}

// Sets or clears bit `index`, unless it is past the last page.
pub(crate) fn put<W: Integer>(words: &mut [W], extent: Extent, index: usize, on: bool)
    ensures { over_words W.bits_of extent.byte_size extent.page_size.value (8 * W.WIDTH) words.new ≡ assigned_page on (over_words W.bits_of extent.byte_size extent.page_size.value (8 * W.WIDTH) words.old) index }
{
    if index < len(words, extent) {
        word::put(words, index, on);
    }
}

// Sets or clears the bits of the pages of `len` bytes from `start_addr` on.
pub(crate) fn assign<W: Integer>(
    words: &mut [W],
    extent: Extent,
    start_addr: usize,
    bytes: usize,
    on: bool,
)
    ensures { over_words W.bits_of extent.byte_size extent.page_size.value (8 * W.WIDTH) words.new ≡ assigned on (over_words W.bits_of extent.byte_size extent.page_size.value (8 * W.WIDTH) words.old) start_addr bytes }
{
    let pages = extent.page_range(len(words, extent), start_addr, bytes);
    word::assign(words, pages, on);
}
