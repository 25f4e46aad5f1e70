//! Items that wait at levels: the least level comes out first, and within a level the item that has waited longest.
//!
//! Source: a queue of buckets, one for each key (Dial 1969), as in Priority-Flood for integer elevations (Barnes,
//! Lehman and Mulla 2014).

ghost use Rattle.std.specs.Prelude.{◌≡◌, ◌≢◌, ℕ, ◌<◌, ◌≤◌, ◌↔◌, [], ◌∷◌, All, IfOk, IsTrue, IfNone, IfSome, MatchOption, length, slice_index_or};
ghost use Rattle.drain_flood.specs.Turns.{Waiting, Holds, IsPut, Rises};
ghost use Rattle.drain_flood.specs.Ways.{level_of};

use drain_grid::OutOfMemory;
use std::alloc::Global;
use std::marker::Model;

/// How many levels a number of 16 bits has.
pub(crate) const LEVELS: usize = 65536;

/// The most cells that a mosaic has.
pub const MAX_CELLS: usize = 829_497_601;

/// The link of an item that isn't in the queue.
const ABSENT: u32 = u32::MAX;

/// The link of the last item of a level, and the first of an empty level.
const END: u32 = u32::MAX - 1;

/// Items below a number of cells, each at most once, each at a level.
///
/// The items of a level are linked: each names the next. So 4 bytes an item and 8 a level are allocated once.
#[derive(Drop)]
pub struct LevelQueue {
    firsts: Vec<u32>,
    lasts: Vec<u32>,
    behind: Vec<u32>,
    /// No level below this place has an item.
    lowest: usize,
}

impl Model for LevelQueue {
    ghost use Rattle.std.specs.Prelude.{length};
    ghost use Rattle.drain_flood.specs.Turns.{Waiting};
    ghost use Rattle.drain_flood.specs.Ways.{pairs_of, IsLinked};

    ghost Value = { Waiting };

    ghost view = { λ q. record { cells = length q.behind.items; pairs = pairs_of q.firsts.items q.behind.items } };

    ghost invariant = { λ q. IsLinked q.firsts.items q.lasts.items q.behind.items q.lowest };
}

impl LevelQueue {
    /// No item, and room for each below `cells`.
    pub fn new(alloc: Global, cells: usize) -> Result<LevelQueue, OutOfMemory>
        requires { cells ≤ MAX_CELLS }
        ensures { IfOk result (λ queue. queue ≡ record { cells = cells; pairs = [] }) }
    {
        let firsts = same_numbers(alloc, END, LEVELS)?;
        let lasts = same_numbers(alloc, END, LEVELS)?;
        let behind = same_numbers(alloc, ABSENT, cells)?;
        Ok(LevelQueue {
            firsts,
            lasts,
            behind,
            lowest: LEVELS,
        })
    }

    /// Puts an item after the last of its level.
    pub fn push(&mut self, level: i16, item: u32)
        requires is_cell { item < self.old.cells }
        requires not_held { ¬ Holds self.old item }
        ensures cells { self.new.cells ≡ self.old.cells }
        ensures pairs { IsPut level item self.old.pairs self.new.pairs }
        ensures rising { Rises self.new.pairs }
    {
        let place = place_of(level);
        if self.firsts[place] == END {
            self.firsts[place] = item;
        } else {
            let last = self.lasts[place] as usize;
            self.behind[last] = item;
        }
        self.lasts[place] = item;
        self.behind[item as usize] = END;
        self.lowest = self.lowest.min(place);
    }

    /// Takes out the first pair, none if the queue is empty.
    pub fn pop(&mut self) -> Option<(i16, u32)>
        ensures cells { self.new.cells ≡ self.old.cells }
        ensures pairs { MatchOption result (self.old.pairs ≡ []) (λ pair. self.old.pairs ≡ pair ∷ self.new.pairs) }
        ensures none { IfNone result (self.new.pairs ≡ []) }
        ensures rising { Rises self.new.pairs }

        // What comes out was put in, so it is one of the cells.
        ensures is_cell { IfSome result (λ pair. pair.1 < self.old.cells) }
    {
        let place = first_held(&self.firsts, self.lowest);
        self.lowest = place;
        if place == LEVELS {
            return None;
        }
        let item = self.firsts[place];
        self.firsts[place] = self.behind[item as usize];
        self.behind[item as usize] = ABSENT;
        Some((level_at(place), item))
    }

    /// Items are below this number.
    pub fn cells(&self) -> usize
        ensures { result ≡ self.now.cells }
    {
        self.behind.len()
    }

    /// Whether a pair with this item is in the queue.
    pub fn holds(&self, item: u32) -> bool
        ensures { IsTrue result ↔ Holds self.now item }
    {
        let place = item as usize;
        place < self.behind.len() && self.behind[place] != ABSENT
    }
}

/// The same number, n times.
fn same_numbers(alloc: Global, number: u32, len: usize) -> Result<Vec<u32>, OutOfMemory>
    ensures counted { IfOk result (λ numbers. length numbers.items ≡ len) }
    ensures same { IfOk result (λ numbers. All (λ x. x ≡ number) numbers.items) }
{
    Ok(vec![in alloc; number; len]?)
}

/// The least place from `from` on of a level that has an item, or the number of levels.
fn first_held(firsts: &[u32], from: usize) -> usize
    requires levels { length firsts.now ≡ LEVELS }
    requires within { from ≤ LEVELS }
    ensures least { from ≤ result }
    ensures most { result ≤ LEVELS }
    ensures none_below { (k : ℕ) → from ≤ k → k < result → slice_index_or firsts.now k END ≡ END }
    ensures found { result < LEVELS → slice_index_or firsts.now result END ≢ END }
{
    for place in from..LEVELS {
        if firsts[place] != END {
            return place;
        }
    }
    LEVELS
}

/// How many levels are lower.
pub(crate) fn place_of(level: i16) -> usize
    ensures within { result < LEVELS }
    ensures level { level_of result ≡ level }
{
    (i32::from(level) + 32768) as usize
}

/// The level of a place.
pub(crate) fn level_at(place: usize) -> i16
    requires { place < LEVELS }
    ensures { result ≡ level_of place }
{
    (place as i32 - 32768) as i16
}
