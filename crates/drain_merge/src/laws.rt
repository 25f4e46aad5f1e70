//! Reports of boxes in place of those of their windows.
//!
//! Each law is a function with an empty body: its contract is the law.

ghost use Rattle.drain_merge.specs.Trees.{JoinsStandForAll, JoinStands, MergeOfJoins, WindowStands};

/// The report of a window that judges a cell stands for itself.
pub fn window_stands()
    ensures { WindowStands }
{}

/// The report that `join` makes stands for the windows.
pub fn join_stands()
    ensures { JoinStands }
{}

/// A report that stands for reports stands for all that these stand for.
pub fn joins_stand_for_all()
    ensures { JoinsStandForAll }
{}

/// A verdict on reports is the verdict on all that they stand for. So any tree of merges, none of which is refused, gives
/// the verdict of one merge.
pub fn merge_of_joins()
    ensures { MergeOfJoins }
{}
