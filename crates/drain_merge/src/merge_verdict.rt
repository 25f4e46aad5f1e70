//! The verdict on a union, and why there is none.

ghost use Rattle.std.specs.Prelude.{◌≡◌, ◌↔◌, ◌≤◌, ◌++◌};
ghost use Rattle.drain_merge.specs.Names.{IsTrue, length, decimal, IsEarlier};
ghost use Rattle.drain_merge.specs.Seams.{union_fault, ComesBefore, IsFirstOfFaults, IsEarlierFault};
ghost use Rattle.arrayvec.specs.ArrayString.{array_string_len};
ghost use Rattle.drain_merge.specs.UnionVerdicts.{cell_text, merge_line, overlap_line, refusal_line};

use crate::map_merge::MapVerdict;
use crate::places::Clash;
use drain_answer::lines::{Line, push_count, push_number, words};
use drain_grid::{Cell, OutOfMemory};
use drain_union::verdict_line::verdict_line;
use drain_union::{Fault, UnionVerdict, WindowReport};
use thiserror::Error;

/// The first of the faults that windows have, in the union's row order, and at one cell in the order of the rules.
pub(crate) fn first_fault(windows: &[WindowReport]) -> Option<Fault>
    ensures { IsFirstOfFaults windows.now result }
{
    let mut first = None;
    for window in windows {
        first = earlier_fault(first, fault_of(window));
    }
    first
}

/// The fault of a rejected window, at the union's cell.
fn fault_of(window: &WindowReport) -> Option<Fault>
    ensures { result ≡ union_fault window.now }
{
    match window.verdict {
        UnionVerdict::Accepted(_) => None,
        UnionVerdict::Rejected(fault) => {
            let place = &window.report.place;
            let cell = Cell {
                row: place.top.saturating_add(fault.cell.row),
                col: place.left.saturating_add(fault.cell.col),
            };
            Some(Fault {
                cell,
                rule: fault.rule,
            })
        }
    }
}

/// The earlier one of two faults, of which either may be missing.
fn earlier_fault(first: Option<Fault>, second: Option<Fault>) -> Option<Fault>
    ensures { IsEarlierFault first second result }
{
    let Some(a) = first else {
        return second;
    };
    let Some(b) = second else {
        return first;
    };
    if is_before(b, a) { second } else { first }
}

/// Whether fault a comes before fault b.
fn is_before(a: Fault, b: Fault) -> bool
    ensures { IsTrue result ↔ ComesBefore a b }
{
    is_earlier(a.cell, b.cell) || (a.cell == b.cell && a.rule.number() < b.rule.number())
}

/// Whether cell a comes before cell b: row by row, and in a row from west to east.
pub(crate) fn is_earlier(a: Cell, b: Cell) -> bool
    ensures { IsTrue result ↔ IsEarlier a b }
{
    a.row < b.row || (a.row == b.row && a.col < b.col)
}

/// The line of an answer, without a line end, in ASCII. Rows and columns are those of the union.
pub fn merge_line(answer: &Result<MapVerdict, MergeRefusal>) -> Line
    ensures { result.bytes ≡ merge_line answer.now }
{
    match answer {
        Ok(union) => verdict_line(&union.verdict),
        Err(refusal) => refusal_line(*refusal),
    }
}

/// The line of a refusal, or of a failure.
pub fn refusal_line(refusal: MergeRefusal) -> Line
    ensures { result.bytes ≡ refusal_line refusal }
{
    match refusal {
        MergeRefusal::NoReports => words("refused NoReports"),
        MergeRefusal::OtherSide(place) => of_number("refused OtherSide ", place as u64),
        MergeRefusal::OtherGrid(place) => of_number("refused OtherGrid ", place as u64),
        MergeRefusal::OtherNoData(place) => of_number("refused OtherNoData ", place as u64),
        MergeRefusal::OtherSpacing(place) => of_number("refused OtherSpacing ", place as u64),
        MergeRefusal::OutsideUnion(place) => of_number("refused OutsideUnion ", place as u64),
        MergeRefusal::JudgesNothing(place) => of_number("refused JudgesNothing ", place as u64),
        MergeRefusal::Overlap(clash) => overlap(clash),
        MergeRefusal::LeftOut(cell) => of_cell("refused LeftOut", cell),
        MergeRefusal::SeamsDiffer(cell) => of_cell("refused SeamsDiffer", cell),
        MergeRefusal::SinkLeftOut(line) => of_number("refused SinkLeftOut ", line),
        MergeRefusal::SinkNotListed(cell) => of_cell("refused SinkNotListed", cell),
        MergeRefusal::OutOfMemory => words("failed OutOfMemory"),
    }
}

/// The line that two windows judge one cell.
fn overlap(clash: Clash) -> Line
    ensures { result.bytes ≡ overlap_line clash }
{
    let mut line = of_number("refused Overlap ", clash.earlier as u64);
    line.push_str(" ");
    push_count(&mut line, clash.later as u64);
    line
}

/// These words and a number.
fn of_number(text: &str, number: u64) -> Line
    requires { length text.now ≤ 40 }
    ensures text { result.bytes ≡ text.now ++ decimal number }
    ensures len { array_string_len result ≤ 60 }
{
    let mut line = words(text);
    push_count(&mut line, number);
    line
}

/// These words and the row and the column of a cell.
fn of_cell(text: &str, cell: Cell) -> Line
    requires { length text.now ≤ 40 }
    ensures { result.bytes ≡ text.now ++ cell_text cell }
{
    let mut line = words(text);
    line.push_str(" row=");
    push_number(&mut line, cell.row);
    line.push_str(" col=");
    push_number(&mut line, cell.col);
    line
}

/// Why there is no verdict, in the order in which refusals are returned. Windows are counted from 0, in the order of the
/// list.
#[derive(Clone, Copy, PartialEq, Eq, Debug, Error)]
pub enum MergeRefusal {
    /// The list is empty.
    #[error("there is no report")]
    NoReports,
    /// The first one of the list is of tiles, and this is the first window that isn't of tiles of its side.
    #[error("a window isn't of tiles of this side")]
    OtherSide(usize),
    /// The first one of the list is of a raster of elevations, and this is the first window that isn't of this raster: by
    /// their headers the whole raster begins elsewhere or has other pixels (`UnionGrid::has`).
    #[error("a window isn't of this raster")]
    OtherGrid(usize),
    /// The first window that has other no-data numbers than the first one of the list.
    #[error("a window has other no-data numbers")]
    OtherNoData(usize),
    /// The first window that lists another spacing than an earlier one for a row of the union that both have, in whichever
    /// columns.
    #[error("a row of a window has another spacing")]
    OtherSpacing(usize),
    /// The first window that doesn't lie in the union, or has a side that isn't inner and isn't the union's edge.
    #[error("a window doesn't fit the union")]
    OutsideUnion(usize),
    /// The first window that judges no cell: all its rows, or all its columns, are rings.
    #[error("a window judges no cell")]
    JudgesNothing(usize),
    /// The first window that judges a cell of an earlier one, as one that is given twice does.
    #[error("two windows judge one cell")]
    Overlap(Clash),
    /// The first cell of the union, in row order, that no window judges: a window is left out, or two overlap by less
    /// than their seams.
    #[error("no window judges a cell")]
    LeftOut(Cell),
    /// Each window is accepted, and this is the first cell, in row order, at which two show other values.
    #[error("two windows differ at a cell")]
    SeamsDiffer(Cell),
    /// Each window is accepted, and this is the number of the first line of the union's list of sinks whose cell no
    /// window took as a sink. `merge_on_map` alone compares sinks.
    #[error("line {0} of the list of sinks was taken by no window")]
    SinkLeftOut(u64),
    /// Each line of the list was taken, and this is the first cell, in the order of the reports, that a window took as a
    /// sink and the list doesn't have.
    #[error("a window took a sink that isn't listed")]
    SinkNotListed(Cell),
    /// Out of memory. This may come at any step after `OtherSide` and `OtherGrid`.
    #[error("out of memory")]
    OutOfMemory,
}

impl From<OutOfMemory> for MergeRefusal {
    ghost use Rattle.std.specs.Prelude.{◌≡◌};
    ghost use Rattle.drain_merge.specs.declared.merge_verdict.MergeRefusal.TheVariants.{OutOfMemory as NoMemory};

    ghost from_gives = { λ refused refusal. refusal ≡ NoMemory };

    fn from(_refused: OutOfMemory) -> MergeRefusal {
        MergeRefusal::OutOfMemory
    }
}
