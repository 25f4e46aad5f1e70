//! The bitmaps of blocks of 16 labels in a map: a bit for each label, 1 if it was admitted.

ghost use Rattle.drain_basin.specs.Admitted.{high_bit, word};
ghost use Rattle.std.specs.Prelude.{◌≡◌, ◌/◌, ◌+◌, ◌<◌, ◌↔◌, ℕ, cond, length, nat_eq, IsTrue, IfOk, IfNone, IfSome, OnErr, OnOk};

use drain_grid::OutOfMemory;
use std::collections::BTreeMap;

/// Sets the bit of a place in the bitmap of its block, which gets one if it has none. Returns whether the bit was 0.
/// `OutOfMemory` comes only if the block has none.
pub(crate) fn set_high(high: &mut BTreeMap<u64, u16>, place: u64) -> Result<bool, OutOfMemory>
    ensures is_new { IfOk result (λ is_new. IsTrue is_new ↔ (high_bit high.old.entries place ≡ 0)) }
    ensures set { OnOk result ((p : ℕ) → high_bit high.new.entries p ≡ cond (nat_eq place p) 1 (high_bit high.old.entries p)) }
    ensures absent { OnErr result (high_bit high.old.entries place ≡ 0) }
    ensures err { OnErr result (high.new.entries ≡ high.old.entries) }
{
    let bit = place % 16;
    let entry = high.entry(place / 16)?;
    let word = entry.or_insert(0);
    let is_new = (*word >> bit) & 1 == 0;
    *word |= 1 << bit;
    Ok(is_new)
}

/// Takes out the least block with its bitmap, if its bits have places in this many words of 64.
pub(crate) fn take_below(high: &mut BTreeMap<u64, u16>, words: u64) -> Option<(u64, u16)>
    ensures below { IfSome result (λ r. r.0 / 4 < words) }
    ensures bitmap { IfSome result (λ r. r.1 ≡ word high.old.entries r.0) }
    ensures taken { IfSome result (λ r. (q : ℕ) → word high.new.entries q ≡ cond (nat_eq r.0 q) 0 (word high.old.entries q)) }
    ensures fewer { IfSome result (λ r. length high.new.entries + 1 ≡ length high.old.entries) }
    ensures none { IfNone result ((q : ℕ) → q / 4 < words → word high.old.entries q ≡ 0) }
    ensures none_stays { IfNone result (high.new.entries ≡ high.old.entries) }
{
    let (block, _) = high.first_key_value()?;
    if *block / 4 >= words {
        return None;
    }
    high.pop_first()
}
