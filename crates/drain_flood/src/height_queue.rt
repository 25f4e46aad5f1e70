//! Places that wait at heights: the lowest come out first.
//!
//! Source: Priority-Flood with a heap (Barnes, Lehman and Mulla 2014).

ghost use Rattle.std.specs.Prelude.{◌≡◌, ◌-ℤ◌, ◌≤ℤ◌, pos, [], ◌∷◌, All, IfSome, MatchOption, OnErr, OnOk};
ghost use Rattle.std.specs.List.Sorted.{IsPermutation};
ghost use Rattle.std.specs.BinaryHeap.{IsHeap, heap_items};
ghost use Rattle.std.specs.Ordering.{nat_cmp, ordering_then};
ghost use Rattle.std.proofs.Props.{props};

use drain_grid::OutOfMemory;
use std::alloc::Global;
use std::collections::BinaryHeap;
use std::marker::Model;

/// Places, each at a height. Its model is the list of them, in no order.
///
/// A place is kept with how far its height is below the highest number of 64 bits, so that the greatest comes out of the
/// heap.
#[derive(Drop)]
pub struct HeightQueue {
    heap: BinaryHeap<(u64, u32)>,
    ghost ordered: { IsHeap (λ x y. ordering_then (nat_cmp x.0 y.0) (nat_cmp x.1 y.1)) (heap_items heap) } by { Prim.hlevel props },
}

impl Model for HeightQueue {
    ghost use Rattle.std.specs.Prelude.{ℤ, ℕ, List, map};
    ghost use Rattle.std.specs.BinaryHeap.{heap_items};
    ghost use Rattle.drain_flood.specs.Stacks.{waiting_pair};

    ghost Value = { List (ℤ × ℕ) };

    ghost view = { λ q. map waiting_pair (heap_items q.heap) };
}

impl HeightQueue {
    /// No place. It takes no memory.
    pub(crate) fn new(alloc: Global) -> HeightQueue
        ensures { result ≡ [] }
    {
        HeightQueue {
            heap: BinaryHeap::new(alloc),
        }
    }

    /// Puts a place at a height. Without memory nothing is changed.
    pub(crate) fn push(&mut self, height: i64, place: u32) -> Result<(), OutOfMemory>
        ensures put { OnOk result (IsPermutation ((height, place) ∷ self.old) self.new) }
        ensures kept { OnErr result (self.new ≡ self.old) }
    {
        match self.heap.push((depth_of(height), place)) {
            Ok(()) => Ok(()),
            Err(_) => Err(OutOfMemory),
        }
    }

    /// Takes out a place below which none waits, and its height; none if none is left.
    pub(crate) fn pop(&mut self) -> Option<(i64, u32)>
        ensures taken { MatchOption result (self.old ≡ []) (λ pair. IsPermutation self.old (pair ∷ self.new)) }
        ensures none { MatchOption result (self.new ≡ []) (λ pair. Unit {0}) }
        ensures lowest { IfSome result (λ pair. All (λ p. pair.0 ≤ℤ p.0) self.new) }
    {
        let (depth, place) = self.heap.pop()?;
        Some((height_at(depth), place))
    }
}

/// How far a height is below the highest number of 64 bits.
fn depth_of(height: i64) -> u64
    ensures { pos 9223372036854775807 -ℤ pos result ≡ height }
{
    (9_223_372_036_854_775_807 - i128::from(height)) as u64
}

/// The height that far below the highest number of 64 bits.
fn height_at(depth: u64) -> i64
    ensures { result ≡ pos 9223372036854775807 -ℤ pos depth }
{
    (9_223_372_036_854_775_807 - i128::from(depth)) as i64
}
