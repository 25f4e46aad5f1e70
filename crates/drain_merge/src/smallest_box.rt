//! The smallest box that holds windows.

ghost use Rattle.std.specs.Prelude.{◌≡◌, ◌↔◌, ◌-◌, ◌≤◌, ◌^◌};
ghost use Rattle.drain_merge.specs.Names.{min, IsTrue, Contains};
ghost use Rattle.drain_union.specs.declared.report.WindowReport.{WindowReport as WindowReportOf};
ghost use Rattle.drain_merge.specs.BoxReports.{bottom_end, box_of, box_within, greatest_by, IsSmallestBox, least_by, left_of, right_end, StopsAt, top_of, whole_box};
ghost use Rattle.drain_merge.specs.Unjudged.{HasCells};

use drain_grid::Cell;
use drain_union::place::end_of;
use drain_union::{InnerSides, Place, UnionSize, WindowReport};

/// The box that holds a union: the map's row and column of its first cell, and its size.
#[derive(Clone, Copy, PartialEq, Eq, Debug)]
pub struct UnionBox {
    pub origin: Cell,
    pub size: UnionSize,
}

/// A side of a box.
#[derive(Clone, Copy)]
pub(crate) enum Side {
    North,
    South,
    West,
    East,
}

/// Where windows begin and end on a map: the first row and column, and one more than the last ones.
#[derive(Clone, Copy)]
pub(crate) struct BoxEdges {
    pub top: u32,
    pub left: u32,
    pub bottom: u64,
    pub right: u64,
}

/// Where these windows begin and end.
pub(crate) fn edges(windows: &[WindowReport]) -> BoxEdges
    ensures top { result.top ≡ least_by top_of windows.now }
    ensures left { result.left ≡ least_by left_of windows.now }
    ensures bottom { result.bottom ≡ greatest_by bottom_end windows.now }
    ensures right { result.right ≡ greatest_by right_end windows.now }
{
    let mut top = u32::MAX;
    let mut left = u32::MAX;
    let mut bottom = 0;
    let mut right = 0;
    for window in windows {
        let place = place_of(window);
        top = top.min(place.top);
        left = left.min(place.left);
        bottom = end_of(place.top, place.extent.rows()).max(bottom);
        right = end_of(place.left, place.extent.cols()).max(right);
    }
    BoxEdges {
        top,
        left,
        bottom,
        right,
    }
}

/// Where the window lies.
fn place_of(window: &WindowReport) -> Place
    ensures { result ≡ window.now.report.place }
{
    window.report.place
}

/// The smallest box that holds these windows, up to this end of rows and columns.
fn box_within(last: u64, windows: &[WindowReport]) -> UnionBox
    ensures { result ≡ box_within last windows.now }
{
    let edges = edges(windows);
    UnionBox {
        origin: Cell {
            row: edges.top,
            col: edges.left,
        },
        size: UnionSize {
            rows: length_up_to(edges.top, edges.bottom.min(last)),
            cols: length_up_to(edges.left, edges.right.min(last)),
        },
    }
}

/// How many rows or columns there are from the first one up to an end, at most the greatest number of 32 bits.
fn length_up_to(first: u32, end: u64) -> u32
    ensures { result ≡ min (end - first) (2 ^ 32 - 1) }
{
    let length = end.saturating_sub(u64::from(first));
    if length < u64::from(u32::MAX) {
        length as u32
    } else {
        u32::MAX
    }
}

/// The box that a union is: the smallest one that holds its windows. It has no inner side.
pub(crate) fn whole_box(windows: &[WindowReport]) -> Place
    ensures whole { result ≡ whole_box (box_of windows.now) }
    ensures cells { HasCells result }
{
    let bounds = box_within(u64::from(u32::MAX) + 1, windows);
    Place {
        top: bounds.origin.row,
        left: bounds.origin.col,
        extent: bounds.size,
        inner: InnerSides {
            north: false,
            south: false,
            west: false,
            east: false,
        },
    }
}

/// The smallest box that holds these windows, without the last row and column of 32 bits. On a side of it the union goes
/// on unless it ends with a window there.
pub(crate) fn smallest_box(windows: &[WindowReport]) -> Place
    ensures smallest { IsSmallestBox (2 ^ 32 - 1) windows.now result }
    ensures cells { HasCells result }
{
    let UnionBox { origin, size } = box_within(u64::from(u32::MAX), windows);
    let bottom = end_of(origin.row, size.rows());
    let right = end_of(origin.col, size.cols());
    Place {
        top: origin.row,
        left: origin.col,
        extent: size,
        inner: InnerSides {
            north: !some_stops(windows, Side::North, u64::from(origin.row)),
            south: !some_stops(windows, Side::South, bottom),
            west: !some_stops(windows, Side::West, u64::from(origin.col)),
            east: !some_stops(windows, Side::East, right),
        },
    }
}

/// Whether one of the windows ends here at this side, and with it the union.
fn some_stops(windows: &[WindowReport], side: Side, at: u64) -> bool
    ensures { IsTrue result ↔ ((w : WindowReportOf) × Contains windows.now w × StopsAt side at w) }
{
    for window in windows {
        if stops(window, side, at) {
            return true;
        }
    }
    false
}

/// Whether the window ends here at this side, and with it the union.
fn stops(window: &WindowReport, side: Side, at: u64) -> bool
    ensures { IsTrue result ↔ StopsAt side at window.now }
{
    let place = place_of(window);
    let inner = place.inner;
    match side {
        Side::North => u64::from(place.top) == at && !inner.north,
        Side::South => end_of(place.top, place.extent.rows()) == at && !inner.south,
        Side::West => u64::from(place.left) == at && !inner.west,
        Side::East => end_of(place.left, place.extent.cols()) == at && !inner.east,
    }
}
