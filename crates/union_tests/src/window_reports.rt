//! What is reported of a window. Its cells are those of a map that begins at 90 degrees north and 180 degrees west.

use crate::agree::same;
use crate::window_inputs::{Inputs, LEVEL_TILES, WITH_NODATA, right_slope};
use crate::window_places::{Window, answer, place};
use drain_grid::Cell;
use drain_union::{AuditNoData, Outlet, UnionGrid, WindowReport};
use std::process::Abort;
use std::test::Fail;

/// The slope begins 89 degrees south of the pole and 180 degrees east of the antimeridian, 3 cells each.
const SLOPE: Cell = Cell { row: 267, col: 540 };

/// Sinks of the slope: in row 0 and column 3, in row 1 and column 1, and so on. All are left as they are: the edge is
/// open, and from the others there is a way down.
const LIST: &str = "0 3\n1 1\n2 2\n3 0\n";

const S03: Cell = Cell { row: 267, col: 543 };

const S11: Cell = Cell { row: 268, col: 541 };

const S22: Cell = Cell { row: 269, col: 542 };

const S30: Cell = Cell { row: 270, col: 540 };

/// Windows, each with the sinks that it judges: none in the outermost row or column of an inner side, and none outside.
static SINKS: [(Window, &[Cell]); 7] = [
    ((0, 0, 4, 4, ""), &[S03, S11, S22, S30]),
    ((0, 0, 3, 4, "s"), &[S03, S11]),
    ((1, 0, 3, 4, "n"), &[S22, S30]),
    ((0, 0, 4, 3, "e"), &[S11, S30]),
    ((0, 1, 4, 3, "w"), &[S03, S22]),
    ((0, 0, 3, 3, "es"), &[S11]),
    ((1, 1, 2, 2, "nesw"), &[]),
];

#[test]
fn listed_sinks(rt: HostRuntime) -> Result<(), Fail> {
    let right = right_slope();
    for &(window, sinks) in &SINKS {
        let given = answer(rt.alloc(), &right.listing(LIST), window)??;
        same(&rt, "sinks", given.report.sinks.as_slice(), sinks);
    }
    Ok(())
}

/// Fails the test if the report isn't on this window of tiles that begin at this cell of the map.
fn same_place(
    rt: &impl Abort,
    given: &WindowReport,
    first: Cell,
    window: Window,
) -> Result<(), Fail> {
    let mut expected = place(window);
    expected.top = first.row.saturating_add(expected.top);
    expected.left = first.col.saturating_add(expected.left);
    same(rt, "place", given.report.place, expected);
    Ok(())
}

/// Fails the test if the report isn't on tiles of this side and with these names.
fn same_tiles(rt: &impl Abort, given: &WindowReport, side: u32, names: &[&str]) {
    same(rt, "grid", given.grid, UnionGrid::Tiles(side));
    same(rt, "tiles", given.tiles.len(), names.len());
    for (tile, name) in given.tiles.iter().zip(names) {
        same(rt, "tile", tile.text().as_str(), *name);
    }
}

/// The outlet with this label, at this row and column of the map.
fn outlet(label: i64, row: u32, col: u32) -> Outlet {
    Outlet {
        label,
        cell: Cell { row, col },
    }
}

/// Fails the test if the report doesn't have these outlets.
fn same_outlets(rt: &impl Abort, given: &WindowReport, outlets: &[Outlet]) {
    same(rt, "outlets", given.report.outlets.as_slice(), outlets);
}

#[test]
fn an_accepted_window(rt: HostRuntime) -> Result<(), Fail> {
    let window = (1, 0, 3, 4, "n");
    let right = right_slope();
    let given = answer(rt.alloc(), &right.listing(LIST), window)??;
    same_tiles(&rt, &given, 4, &["N00E000.hgt"]);
    same_place(&rt, &given, SLOPE, window)?;
    let report = &given.report;
    same(&rt, "holds", report.holds, true);
    same_outlets(&rt, &given, &[outlet(1, 270, 543), outlet(8, 269, 543)]);
    same(&rt, "two rows of seams", report.seams.len(), 8);
    let shown = report
        .seams
        .get(6)
        .map(|shown| (shown.cell, shown.values.acc, shown.values.sink));
    same(&rt, "a seam", shown, Some((S22, 3, true)));
    Ok(())
}

/// The two tiles begin 89 degrees south of the pole and 180 degrees east of the antimeridian, one cell each.
#[test]
fn a_window_of_two_tiles(rt: HostRuntime) -> Result<(), Fail> {
    let window = (0, 0, 2, 2, "e");
    let given = answer(rt.alloc(), &LEVEL_TILES, window)??;
    same_tiles(&rt, &given, 2, &["N00E001.hgt", "N00E000.hgt"]);
    same_place(&rt, &given, Cell { row: 89, col: 180 }, window)?;
    same_outlets(&rt, &given, &[outlet(3, 90, 180), outlet(6, 89, 180)]);
    same(&rt, "seams", given.report.seams.len(), 4);
    Ok(())
}

/// The defaults of con, dir, acc and bas.
const NODATA: AuditNoData = AuditNoData {
    con: -32768,
    dir: 255,
    acc: 0,
    bas: 0,
};

/// Fails the test if a window has other no-data numbers.
fn same_nodata(rt: &impl Abort, given: &WindowReport) {
    same(rt, "no-data numbers", given.report.nodata, NODATA);
}

/// A header without the line has the default number, so the reports are those of one union.
#[test]
fn no_data_numbers(rt: HostRuntime) -> Result<(), Fail> {
    let right = right_slope();
    let window = (0, 0, 3, 4, "s");
    let without = answer(rt.alloc(), &right.listing(""), window)??;
    same_nodata(&rt, &without);
    let with = answer(rt.alloc(), &right.headed(WITH_NODATA, ""), window)??;
    same_nodata(&rt, &with);
    Ok(())
}

/// It is read to its first fault alone, so its lists are empty.
#[test]
fn a_rejected_window(rt: HostRuntime) -> Result<(), Fail> {
    let window = (0, 0, 3, 4, "s");
    let mut wrong = right_slope();
    wrong.acc[7] = 5;
    let given = answer(rt.alloc(), &wrong.listing(LIST), window)??;
    same_tiles(&rt, &given, 4, &["N00E000.hgt"]);
    same_place(&rt, &given, SLOPE, window)?;
    let report = &given.report;
    same(&rt, "holds", report.holds, false);
    same(&rt, "outlets", report.outlets.len(), 0);
    same(&rt, "seams", report.seams.len(), 0);
    same(&rt, "sinks", report.sinks.len(), 0);
    Ok(())
}
