//! Page sizes, which are never 0.
ghost use Rattle.std.specs.Prelude.{◌≡◌, ◌<◌};
ghost use Rattle.std.specs.Option.{option_map};
ghost use Rattle.bitmap.specs.Pages.{page_size, ceiling};

/// How many bytes a page has.
#[derive(Clone, Copy)]
pub struct PageSize {
    pub(crate) value: usize,
    ghost nonzero: { 0 < value },
}

impl PageSize {
    /// The page size of `value` bytes, absent at 0.
    pub fn new(value: usize) -> Option<PageSize>
        ensures { option_map (λ p. p.value) result ≡ page_size value }
    {
        if value == 0 {
            return None;
        }
        Some(PageSize { value })
    }

    /// How many pages `byte_size` bytes take.
    pub fn pages(self, byte_size: usize) -> usize
        ensures { result ≡ ceiling byte_size self.value }
    {
        byte_size.div_ceil(self.value)
    }

    /// The number of bytes.
    pub fn get(self) -> usize
        ensures { result ≡ self.value }
    {
        self.value
    }
}
