//! The labels that outlets have had.

ghost use Rattle.drain_basin.specs.Admitted.{IsAdmitted};
ghost use Rattle.std.specs.Prelude.{◌≡◌, ◌↔◌, ◌⊎◌, ℤ, IsOk, IsTrue, IfOk, OnErr, OnOk};

use crate::blocks::set_high;
use crate::lowest::{reach, set_low};
use drain_grid::OutOfMemory;
use std::alloc::Global;
use std::collections::BTreeMap;
use std::marker::Model;

/// A set of labels. In contracts `IsAdmitted` says whether a label was admitted.
///
/// Most makers number outlets from 1 on, or by their cells, so the lowest labels have a bit each, and a call for one of
/// them takes constant time. There are at most half as many words of bits as labels, so each label costs at most 8 bytes
/// there. Other labels go by blocks of 16: a map has a bitmap for each block, so a call takes logarithmic time, whatever
/// labels a file chooses, and each label at most 28 bytes, since a node of the map can be half empty.
#[derive(Drop)]
pub struct OutletLabels {
    /// A bit for each of the lowest labels, from 0 on: 1 if it was admitted.
    low: Vec<u64>,
    /// For each block of 16 other labels a bitmap. A block without admitted labels has no entry.
    high: BTreeMap<u64, u16>,
    /// How many labels were admitted, which decides how far `low` may reach.
    count: u64,
}

impl Model for OutletLabels {
    ghost use Rattle.drain_basin.specs.Admitted.{LabelSet};
    ghost use Rattle.drain_basin.specs.Parts.{AreApart};

    ghost Value = { LabelSet };

    ghost view = { λ s. record { low = s.low.items; high = s.high.entries } };

    ghost invariant = { λ s. AreApart s.low.items s.high.entries };
}

impl OutletLabels {
    /// No label. This takes no memory.
    pub fn new(alloc: Global) -> OutletLabels
        ensures { (label : ℤ) → ¬ IsAdmitted result label }
    {
        OutletLabels {
            low: Vec::new(alloc),
            high: BTreeMap::new(alloc),
            count: 0,
        }
    }

    /// Admits a label: true if it is new, and false if it was admitted before, which never runs out of memory.
    pub fn admit(&mut self, label: i64) -> Result<bool, OutOfMemory>
        ensures new { IfOk result (λ is_new. IsTrue is_new ↔ ¬ IsAdmitted self.old label) }
        ensures known { IfOk result (λ is_new. ¬ IsTrue is_new → IsAdmitted self.old label) }
        ensures kept { OnOk result ((other : ℤ) →
            IsAdmitted self.new other ↔ ((other ≡ label) ⊎ IsAdmitted self.old other)) }

        // Only a new label can run out of memory, and then nothing is changed.
        ensures known_wants_none { IsAdmitted self.old label → IsOk result }
        ensures err { OnErr result (self.new ≡ self.old) }
    {
        let place = label.cast_unsigned();
        let is_new = if reach(&mut self.low, &mut self.high, place, self.count) {
            set_low(&mut self.low, place)
        } else {
            set_high(&mut self.high, place)?
        };
        self.count = self.count.saturating_add(u64::from(is_new));
        Ok(is_new)
    }
}
