//! Places that judge no cell, and pairs that judge one both.

ghost use Rattle.drain_merge.specs.Names.{BothJudgeOne, JudgesSome};
ghost use Rattle.drain_merge.specs.Places.{IsFirstClash, IsFirstFailing, IsFirstWith};

use crate::edges::{both_judge_one, judges_some};
use drain_union::Place;

/// The first place that judges no cell: all its rows, or all its columns, are rings.
pub(crate) fn first_idle(places: &[Place]) -> Option<usize>
    ensures { IsFirstFailing JudgesSome places.now result }
{
    for i in 0..places.len() {
        if !judges_some(&places[i]) {
            return Some(i);
        }
    }
    None
}

/// Two windows that judge one cell both.
#[derive(Clone, Copy, PartialEq, Eq, Debug)]
pub struct Clash {
    pub earlier: usize,
    pub later: usize,
}

/// The first place that judges a cell of an earlier one, with the first such one.
pub(crate) fn first_clash(places: &[Place]) -> Option<Clash>
    ensures { IsFirstClash places.now result }
{
    for later in 0..places.len() {
        if let Some(earlier) = first_clashing(&places[..later], &places[later]) {
            return Some(Clash { earlier, later });
        }
    }
    None
}

/// The first of the places that judges a cell of this one.
fn first_clashing(places: &[Place], place: &Place) -> Option<usize>
    ensures { IsFirstWith (λ p. BothJudgeOne p place.now) places.now result }
{
    for i in 0..places.len() {
        if both_judge_one(&places[i], place) {
            return Some(i);
        }
    }
    None
}
