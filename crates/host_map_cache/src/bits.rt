//! A list of bits, in words of 64.
ghost use Rattle.std.specs.Prelude.{◌≡◌, ◌<◌, ◌≤◌, ◌-◌, ◌*◌, ◌^◌, ℕ, false, true, IfOk};
ghost use Rattle.std.specs.Prelude.{length, replicate, slice_index_or};
ghost use Rattle.host_map_cache.specs.Words.{is_set, bit_in};
ghost use Rattle.host_map_cache.specs.Regions.{overwritten};

use std::alloc::{AllocError, Global};
use std::marker::Model;

/// Bits that are read one by one and written in ranges.
#[derive(Drop)]
pub(crate) struct Bits {
    words: Vec<u64>,
    count: usize,
}

impl Model for Bits {
    ghost use Rattle.std.specs.Prelude.{List, Bool, length, ◌≤◌, ◌*◌};
    ghost use Rattle.host_map_cache.specs.Words.{bits_in};

    ghost Value = { List Bool };

    ghost view = { λ b. bits_in b.count b.words.items };

    ghost invariant = { λ b. b.count ≤ 64 * length b.words.items };
}

impl Bits {
    /// So many bits, none of which is set. It takes and writes a byte for every 8 of them.
    pub(crate) fn new(alloc: Global, count: usize) -> Result<Bits, AllocError>
        ensures { IfOk result (λ bits. bits ≡ replicate count false) }
    {
        let words = vec![in alloc; 0; count.div_ceil(64)]?;
        Ok(Bits { words, count })
    }

    /// How many bits there are.
    pub(crate) fn len(&self) -> usize
        ensures { result ≡ length self.now }
    {
        self.count
    }

    /// Whether the bit of a place is set. The cost is the same for each place.
    pub(crate) fn get(&self, place: usize) -> bool
        requires { place < length self.now }
        ensures { result ≡ slice_index_or self.now place true }
    {
        self.words[place / 64] >> (place % 64) & 1 == 1
    }

    /// Sets the bits of a range, or clears them. The cost is that of the words that the range touches.
    pub(crate) fn fill(&mut self, from: usize, until: usize, value: bool)
        requires order { from ≤ until }
        requires inside { until ≤ length self.old }
        ensures { self.new ≡ overwritten from (replicate (until - from) value) self.old }
    {
        fill_words(&mut self.words, from, until, value);
    }
}

/// Sets or clears the bits of a range.
fn fill_words(words: &mut [u64], from: usize, until: usize, value: bool)
    requires order { from ≤ until }
    requires inside { until ≤ 64 * length words.old }
    ensures filled { (place : ℕ) → from ≤ place → place < until → bit_in words.new place ≡ value }
    ensures before { (place : ℕ) → place < from → bit_in words.new place ≡ bit_in words.old place }
    ensures after { (place : ℕ) → until ≤ place → bit_in words.new place ≡ bit_in words.old place }
{
    for index in from / 64..until.div_ceil(64) {
        let first = 64 * index;
        let low = from.saturating_sub(first);
        let high = (until - first).min(64);
        words[index] = filled(words[index], low, high, value);
    }
}

/// A word with the bits from `low` to `high` set or cleared.
fn filled(word: u64, low: usize, high: usize, value: bool) -> u64
    requires low { low < 64 }
    requires order { low ≤ high }
    requires some { 0 < high }
    requires high { high ≤ 64 }
    ensures filled { (place : ℕ) → low ≤ place → place < high → is_set result place ≡ value }
    ensures before { (place : ℕ) → place < low → is_set result place ≡ is_set word place }
    ensures after { (place : ℕ) → high ≤ place → place < 64 → is_set result place ≡ is_set word place }
{
    let mask = mask(low, high);
    if value { word | mask } else { word & !mask }
}

/// The bits from `low` to `high` of a word.
fn mask(low: usize, high: usize) -> u64
    requires low { low < 64 }
    requires order { low ≤ high }
    requires some { 0 < high }
    requires high { high ≤ 64 }
    ensures { result ≡ 2 ^ high - 2 ^ low }
{
    (u64::MAX >> (64 - high)) - ((1 << low) - 1)
}
