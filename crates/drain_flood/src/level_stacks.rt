//! Items that wait at levels, in a stack for each level: one of the lowest comes out.
//!
//! The order within a level plays no part in a flood. So a push and a pop touch only the end of one stack, which most
//! often is still in the cache, and an empty stack takes no memory.
//!
//! Source: buckets, one for each key (Dial 1969), as in Priority-Flood for integer elevations (Barnes, Lehman and Mulla
//! 2014).

ghost use Rattle.std.specs.Prelude.{◌≡◌, ℕ, ◌<◌, ◌≤◌, ◌≤ℤ◌, [], ◌∷◌, All, IfOk, IfSome, MatchOption, OnErr, OnOk, length};
ghost use Rattle.std.specs.List.Sorted.{IsPermutation};
ghost use Rattle.drain_flood.specs.Stacks.{stack_at};

use crate::level_queue::{LEVELS, level_at, place_of};
use drain_grid::OutOfMemory;
use std::alloc::Global;
use std::marker::Model;

/// Items, each at a level. Its model is the list of them with their levels, in no order that a clause tells.
#[derive(Drop)]
pub struct LevelStacks {
    stacks: Vec<Vec<u32>>,
    /// No level below this place has an item.
    lowest: usize,
}

impl Model for LevelStacks {
    ghost use Rattle.std.specs.Prelude.{ℤ, ℕ, List};
    ghost use Rattle.drain_flood.specs.Stacks.{stacked, AreStacks};

    ghost Value = { List (ℤ × ℕ) };

    ghost view = { λ s. stacked s.stacks.items };

    ghost invariant = { λ s. AreStacks s.stacks.items s.lowest };
}

impl LevelStacks {
    /// No item.
    pub(crate) fn new(alloc: Global) -> Result<LevelStacks, OutOfMemory>
        ensures { IfOk result (λ stacks. stacks ≡ []) }
    {
        Ok(LevelStacks {
            stacks: empty_stacks(alloc)?,
            lowest: LEVELS,
        })
    }

    /// Puts an item at a level. Without memory nothing is changed.
    pub(crate) fn push(&mut self, level: i16, item: u32) -> Result<(), OutOfMemory>
        ensures put { OnOk result (IsPermutation ((level, item) ∷ self.old) self.new) }
        ensures kept { OnErr result (self.new ≡ self.old) }
    {
        let place = place_of(level);
        self.stacks[place].push(item)?;
        self.lowest = self.lowest.min(place);
        Ok(())
    }

    /// Takes out an item of the lowest level that has one, and the level; none if no item is left.
    pub(crate) fn pop(&mut self) -> Option<(i16, u32)>
        ensures taken { MatchOption result (self.old ≡ []) (λ pair. IsPermutation self.old (pair ∷ self.new)) }
        ensures none { MatchOption result (self.new ≡ []) (λ pair. Unit {0}) }
        ensures lowest { IfSome result (λ pair. All (λ p. pair.0 ≤ℤ p.0) self.new) }
    {
        let place = first_filled(&self.stacks, self.lowest);
        self.lowest = place;
        if place == LEVELS {
            return None;
        }
        let item = self.stacks[place].pop()?;
        Some((level_at(place), item))
    }
}

/// A stack without items for each level.
fn empty_stacks(alloc: Global) -> Result<Vec<Vec<u32>>, OutOfMemory>
    ensures counted { IfOk result (λ stacks. length stacks.items ≡ LEVELS) }
    ensures empty { IfOk result (λ stacks. All (λ stack. stack.items ≡ []) stacks.items) }
{
    let mut stacks = Vec::with_capacity(alloc, LEVELS)?;
    for _place in 0..LEVELS {
        stacks.push(Vec::new(alloc))?;
    }
    Ok(stacks)
}

/// The least place from `from` on of a stack that has an item, or the number of levels.
fn first_filled(stacks: &[Vec<u32>], from: usize) -> usize
    requires levels { length stacks.now ≡ LEVELS }
    requires within { from ≤ LEVELS }
    ensures most { result ≤ LEVELS }
    ensures none_below { (k : ℕ) → from ≤ k → k < result → length (stack_at stacks.now k) ≡ 0 }
    ensures found { result < LEVELS → 0 < length (stack_at stacks.now result) }
{
    for place in from..LEVELS {
        if !stacks[place].is_empty() {
            return place;
        }
    }
    LEVELS
}
