//! What windows say of their union.
//!
//! Each law is a function with nothing to do: its contract is the law, and a caller that calls it has the law at hand.

ghost use Rattle.drain_union.specs.Windows.{CutIsWindow};
ghost use Rattle.drain_union.specs.JoinLaws.{FillByEdges, GroupIsOfWindow, JoinAddsUp, JoinIsReport, JoinTellsFault};
ghost use Rattle.drain_union.specs.Laws.{PatchOfWindow, CorrectByWindows, WindowsMakeUnion, SortedTellsShared, MergeTellsShared, OpenInWindow, MergeIsExact, CornersTellWhole, WindowRejects, LeastFaultIsFirst, JudgedApart, FourNumbers, CountsAddUp};

/// At a judged cell the patch of a window is the union's.
pub fn patch_of_window()
    ensures { PatchOfWindow }
{}

/// Where windows judge each cell of a union, its products are correct exactly where the rules hold in each window and no
/// label is shared.
pub fn correct_by_windows()
    ensures { CorrectByWindows }
{}

/// Windows that agree where they overlap and on the rows that they have in common, and judge each cell, are the windows of
/// one union.
pub fn windows_make_union()
    ensures { WindowsMakeUnion }
{}

/// At a judged cell, what is open in the window is what is open in the union.
pub fn open_in_window()
    ensures { OpenInWindow }
{}

/// In a list sorted by label it is enough to look at outlets side by side.
pub fn sorted_tells_shared()
    ensures { SortedTellsShared }
{}

/// Where a sorted list holds what windows list, no label is shared exactly where none is by two outlets side by side.
pub fn merge_tells_shared()
    ensures { MergeTellsShared }
{}

/// Where the rules hold in each window and the reports can be merged, the windows are those of one union, and its
/// products are correct exactly where no label is shared.
pub fn merge_is_exact()
    ensures { MergeIsExact }
{}

/// Places judge each cell if they judge the cells at crossings of corner rows and corner columns.
pub fn corners_tell_whole()
    ensures { CornersTellWhole }
{}

/// Where the rules don't hold in one window, the products of its union aren't correct.
pub fn window_rejects()
    ensures { WindowRejects }
{}

/// The least of the first faults of windows is the union's first fault of a patch.
pub fn least_fault_is_first()
    ensures { LeastFaultIsFirst }
{}

/// The rules look at the no-data numbers of con, dir, acc and bas alone.
pub fn four_numbers()
    ensures { FourNumbers }
{}

/// Places that judge a cell each, and none in common, overlap in their seams alone.
pub fn judged_apart()
    ensures { JudgedApart }
{}

/// Where windows judge each cell of their union, and none twice, their counts add up to those of the union's cells.
pub fn counts_add_up()
    ensures { CountsAddUp }
{}

/// A box of a grid, as a grid of its own, is a window of it.
pub fn cut_is_window()
    ensures { CutIsWindow }
{}

/// Places in a box fill it if they judge each cell that it judges.
pub fn fill_by_edges()
    ensures { FillByEdges }
{}

/// The report that the reports of windows make is a report of what their union shows at the box that they fill.
pub fn join_is_report()
    ensures { JoinIsReport }
{}

/// The least of the first faults of windows is the first fault of the box that they fill.
pub fn join_tells_fault()
    ensures { JoinTellsFault }
{}

/// The counts of windows add up to those of the box that they fill.
pub fn join_adds_up()
    ensures { JoinAddsUp }
{}

/// The report that a group of reports makes is of a window, and theirs are windows of each union of which this one is.
pub fn group_is_of_window()
    ensures { GroupIsOfWindow }
{}
