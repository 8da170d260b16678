//! Rows of words that hold one bit a page, the lowest first.
ghost use Rattle.std.specs.Prelude.{◌≡◌, ℕ, ◌*◌, ◌^◌, ◌<◌, ◌≤◌, ◌&&◌, length, if◌then◌else◌, nat_eq, nat_le, nat_lt};
ghost use Rattle.bitmap.specs.Storage.{bit_of, bit, stored};

use byte_valued::Integer;
use std::ops::Range;

// How many bits a word has.
pub(crate) fn bits<W: Integer>() -> usize
    ensures { result ≡ 8 * W.WIDTH }
{
    8 * W::WIDTH
}

// Bit `n` of a row of words; past the words none is set.
pub(crate) fn get<W: Integer>(words: &[W], n: usize) -> bool
    ensures { result ≡ stored (bit W.bits_of) (8 * W.WIDTH) words.now n }
{
    let width = bits::<W>();
    match words.get(n / width) {
        Some(word) => get_bit(*word, n % width),
        None => false,
    }
}

// Bit `k` of a word.
fn get_bit<W: Integer>(word: W, k: usize) -> bool
    requires { k < 8 * W.WIDTH }
    ensures { result ≡ bit W.bits_of word k }
{
    word.to_bits() & (1 << k) != 0
}

// Sets or clears bit `n` of a row of words.
pub(crate) fn put<W: Integer>(words: &mut [W], n: usize, on: bool)
    requires { n < 8 * W.WIDTH * length words.old }
    ensures { (m : ℕ) → stored (bit W.bits_of) (8 * W.WIDTH) words.new m ≡ (if nat_eq m n then on else stored (bit W.bits_of) (8 * W.WIDTH) words.old m) }
{
    let width = bits::<W>();
    let word = &mut words[n / width];
    *word = with_bit(*word, n % width, on);
}

// A word with bit `k` set or cleared.
fn with_bit<W: Integer>(word: W, k: usize, on: bool) -> W
    requires { k < 8 * W.WIDTH }
    ensures { (j : ℕ) → j < 8 * W.WIDTH → bit W.bits_of result j ≡ (if nat_eq j k then on else bit W.bits_of word j) }
{
    W::from_bits(assign_bit(word.to_bits(), k, on)).unwrap()
}

// A number with bit `k` set or cleared, which is no wider.
fn assign_bit(bits: u64, k: usize, on: bool) -> u64
    requires { k < 64 }
    ensures bits { (j : ℕ) → j < 64 → bit_of result j ≡ (if nat_eq j k then on else bit_of bits j) }
    ensures within { (w : ℕ) → k < w → bits < 2 ^ w → result < 2 ^ w }
{
    let mask = 1 << k;
    if on { bits | mask } else { bits & !mask }
}

// Sets or clears a range of bits.
pub(crate) fn assign<W: Integer>(words: &mut [W], bits: Range<usize>, on: bool)
    requires { bits.end ≤ 8 * W.WIDTH * length words.old }
    ensures { (m : ℕ) → stored (bit W.bits_of) (8 * W.WIDTH) words.new m ≡ (if nat_le bits.start m && nat_lt m bits.end then on else stored (bit W.bits_of) (8 * W.WIDTH) words.old m) }
{
    for n in bits {
        put(words, n, on);
    }
}
