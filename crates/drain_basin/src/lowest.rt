//! The bits of the lowest labels, in words of 64: 1 for each label that was admitted.

ghost use Rattle.drain_basin.specs.Admitted.{high_bit, low_bit};
ghost use Rattle.drain_basin.specs.Parts.{AreApart};
ghost use Rattle.std.specs.Int.{bit_at};
ghost use Rattle.std.specs.Prelude.{◌≡◌, ◌/◌, ◌%◌, ◌<◌, ◌≤◌, ◌↔◌, ℕ, cond, false, length, max, nat_eq, IsTrue};

use crate::blocks::take_below;
use std::collections::BTreeMap;

/// Sets the bit of a place. Returns whether it was 0.
pub(crate) fn set_low(low: &mut [u64], place: u64) -> bool
    requires { place / 64 < length low.old }
    ensures is_new { IsTrue result ↔ (low_bit low.old place ≡ 0) }
    ensures set { (p : ℕ) → low_bit low.new p ≡ cond (nat_eq place p) 1 (low_bit low.old p) }
    ensures len { length low.new ≡ length low.old }
{
    let number = (place / 64) as usize;
    let bit = place % 64;
    let word = low[number];
    low[number] = word | 1 << bit;
    (word >> bit) & 1 == 0
}

/// Sets the bits of a block that its bitmap has.
fn add_block(low: &mut [u64], block: u64, bitmap: u16)
    requires { block / 4 < length low.old }
    ensures added { (p : ℕ) → low_bit low.new p ≡ cond (nat_eq block (p / 16)) (max (low_bit low.old p) (bit_at bitmap (p % 16))) (low_bit low.old p) }
    ensures len { length low.new ≡ length low.old }
{
    let number = (block / 4) as usize;
    let shifted = u64::from(bitmap) << (16 * (block % 4));
    low[number] |= shifted;
}

/// Takes the blocks whose words there are out of the map, and sets their bits here.
fn take_blocks(low: &mut [u64], high: &mut BTreeMap<u64, u16>)
    ensures bits { (p : ℕ) → max (low_bit low.new p) (high_bit high.new.entries p) ≡ max (low_bit low.old p) (high_bit high.old.entries p) }
    ensures apart { AreApart low.new high.new.entries }
    ensures len { length low.new ≡ length low.old }
{
    let words = low.len() as u64;
    while let Some((block, bitmap)) = take_below(high, words) {
        add_block(low, block, bitmap);
    }
}

/// Whether there are now this many words. If memory is refused nothing changes.
fn grow(low: &mut Vec<u64>, high: &mut BTreeMap<u64, u16>, words: usize) -> bool
    requires { length low.old.items ≤ words }
    ensures bits { (p : ℕ) → max (low_bit low.new.items p) (high_bit high.new.entries p) ≡ max (low_bit low.old.items p) (high_bit high.old.entries p) }
    ensures apart { IsTrue result → AreApart low.new.items high.new.entries }
    ensures len { IsTrue result → length low.new.items ≡ words }
    ensures low_stays { result ≡ false → low.new.items ≡ low.old.items }
    ensures high_stays { result ≡ false → high.new.entries ≡ high.old.entries }
{
    match low.resize(words, 0) {
        Ok(()) => {
            take_blocks(low, high);
            true
        }
        Err(_) => false,
    }
}

/// Whether there is a word for the place. There can be one if the words are then at most half as many as the labels.
pub(crate) fn reach(
    low: &mut Vec<u64>,
    high: &mut BTreeMap<u64, u16>,
    place: u64,
    labels: u64,
) -> bool
    requires { AreApart low.old.items high.old.entries }
    ensures bits { (p : ℕ) → max (low_bit low.new.items p) (high_bit high.new.entries p) ≡ max (low_bit low.old.items p) (high_bit high.old.entries p) }
    ensures apart { AreApart low.new.items high.new.entries }
    ensures has_word { IsTrue result → place / 64 < length low.new.items }
    ensures none { result ≡ false → length low.new.items ≤ place / 64 }
    ensures low_stays { result ≡ false → low.new.items ≡ low.old.items }
    ensures high_stays { result ≡ false → high.new.entries ≡ high.old.entries }
{
    let number = place / 64;
    if number < low.len() as u64 {
        return true;
    }
    if number >= labels / 2 {
        return false;
    }
    grow(low, high, number as usize + 1)
}
