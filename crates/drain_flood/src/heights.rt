//! Lists of heights in memory, in as few bits as they need: each is given as a number of 64 bits.
//!
//! Ways are found on a `HeightList`. A flood raises `Heights`, and with them comes what its cells wait in: levels of 16 bits
//! have a stack each, others a heap.

ghost use Rattle.std.specs.Prelude.{◌≡◌, ◌<◌, ◌≤ℤ◌, ◌∷◌, ℤ, ℕ, List, [], All, IfOk, IfSome, MatchOption, OnErr, OnOk, pos, length, set, slice_index_or};
ghost use Rattle.std.specs.List.Sorted.{IsPermutation};
ghost use Rattle.drain_grid.specs.Grid.{IsSample};
ghost use Rattle.drain_grid.specs.Values.{IsPixel};

use crate::height_queue::HeightQueue;
use crate::level_stacks::LevelStacks;
use drain_grid::OutOfMemory;
use std::alloc::Global;
use std::marker::Model;

/// Heights in row order.
pub trait HeightList {
    /// The heights as whole numbers.
    ghost numbers: { Self → List ℤ };

    /// The height at a place.
    fn height(&self, place: usize) -> i64
        requires { place < length (numbers self.now) }
        ensures height { result ≡ slice_index_or (numbers self.now) place (pos 0) }
        ensures pixel { IsPixel result };
}

impl HeightList for Vec<i16> {
    ghost numbers = { λ heights. heights.items };

    #[inline(always)]
    fn height(&self, place: usize) -> i64 {
        i64::from(self[place])
    }
}

/// Heights that are pixels of at most 32 bits, with a sign or without.
#[derive(Drop)]
pub struct WideHeights {
    numbers: Vec<i64>,
    ghost pixels: { All IsPixel numbers.items },
}

impl Model for WideHeights {
    ghost use Rattle.std.specs.Prelude.{ℤ, List};

    ghost Value = { List ℤ };

    ghost view = { λ heights. heights.numbers.items };
}

impl WideHeights {
    /// These heights.
    pub fn new(numbers: Vec<i64>) -> WideHeights
        requires { All IsPixel numbers.items }
        ensures { result ≡ numbers.items }
    {
        WideHeights { numbers }
    }

    /// The heights as a list.
    pub fn into_numbers(self) -> Vec<i64>
        ensures numbers { result.items ≡ self }
        ensures pixels { All IsPixel result.items }
    {
        self.numbers
    }
}

impl HeightList for WideHeights {
    ghost numbers = { λ heights. heights };

    #[inline(always)]
    fn height(&self, place: usize) -> i64 {
        self.numbers[place]
    }
}

/// Heights in row order that a flood raises.
pub trait Heights: Drop {
    /// Places that wait, each at a height.
    type Waiting: Drop;

    /// The heights as whole numbers.
    ghost numbers: { Self → List ℤ };

    /// A height can be this number.
    ghost holds: { ℤ → Type 0 };

    /// The heights and the places that wait, in no order that a clause tells.
    ghost pairs: { Self.Waiting → List (ℤ × ℕ) };

    /// No place.
    fn none_waiting(alloc: Global) -> Result<Self::Waiting, OutOfMemory>
        ensures { IfOk result (λ waiting. pairs waiting ≡ []) };

    /// The height at a place.
    fn at(&self, place: usize) -> i64
        requires { place < length (numbers self.now) }
        ensures height { result ≡ slice_index_or (numbers self.now) place (pos 0) }
        ensures holds { holds result };

    /// Puts a height at a place.
    fn put(&mut self, place: usize, height: i64)
        requires inside { place < length (numbers self.old) }
        requires holds { holds height }
        ensures { numbers self.new ≡ set (numbers self.old) place height };

    /// Makes a place wait at a height. Without memory nothing is changed.
    fn push(waiting: &mut Self::Waiting, height: i64, place: u32) -> Result<(), OutOfMemory>
        requires { holds height }
        ensures put { OnOk result (IsPermutation ((height, place) ∷ pairs waiting.old) (pairs waiting.new)) }
        ensures kept { OnErr result (pairs waiting.new ≡ pairs waiting.old) };

    /// Takes out a place below which none waits, and its height; none if none is left.
    fn pop(waiting: &mut Self::Waiting) -> Option<(i64, u32)>
        ensures taken { MatchOption result (pairs waiting.old ≡ []) (λ pair. IsPermutation (pairs waiting.old) (pair ∷ pairs waiting.new)) }
        ensures none { MatchOption result (pairs waiting.new ≡ []) (λ pair. Unit {0}) }
        ensures lowest { IfSome result (λ pair. All (λ p. pair.0 ≤ℤ p.0) (pairs waiting.new)) }
        ensures holds { IfSome result (λ pair. holds pair.0) };
}

/// A height of 16 bits.
#[inline(always)]
pub(crate) fn narrow(height: i64) -> i16
    requires { IsSample height }
    ensures value { result ≡ height }
    ensures sample { IsSample result }
{
    height as i16
}

impl Heights for Vec<i16> {
    type Waiting = LevelStacks;

    ghost numbers = { λ heights. heights.items };

    ghost holds = { IsSample };

    ghost pairs = { λ stacks. stacks };

    fn none_waiting(alloc: Global) -> Result<LevelStacks, OutOfMemory> {
        LevelStacks::new(alloc)
    }

    #[inline(always)]
    fn at(&self, place: usize) -> i64 {
        i64::from(self[place])
    }

    #[inline(always)]
    fn put(&mut self, place: usize, height: i64) {
        self[place] = narrow(height);
    }

    #[inline(always)]
    fn push(waiting: &mut LevelStacks, height: i64, place: u32) -> Result<(), OutOfMemory> {
        waiting.push(narrow(height), place)
    }

    #[inline(always)]
    fn pop(waiting: &mut LevelStacks) -> Option<(i64, u32)> {
        let (level, place) = waiting.pop()?;
        Some((i64::from(level), place))
    }
}

impl Heights for Vec<i64> {
    type Waiting = HeightQueue;

    ghost numbers = { λ heights. heights.items };

    ghost holds = { λ height. Unit {0} };

    ghost pairs = { λ queue. queue };

    fn none_waiting(alloc: Global) -> Result<HeightQueue, OutOfMemory> {
        Ok(HeightQueue::new(alloc))
    }

    #[inline(always)]
    fn at(&self, place: usize) -> i64 {
        self[place]
    }

    #[inline(always)]
    fn put(&mut self, place: usize, height: i64) {
        self[place] = height;
    }

    fn push(waiting: &mut HeightQueue, height: i64, place: u32) -> Result<(), OutOfMemory> {
        waiting.push(height, place)
    }

    fn pop(waiting: &mut HeightQueue) -> Option<(i64, u32)> {
        waiting.pop()
    }
}
