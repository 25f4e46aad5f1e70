//! Windows of a raster of elevations: the same answers as of the tile with its samples, in rows and columns of the whole.

use crate::agree::{same, same_line};
use crate::window_inputs::{Inputs, ON_SLOPE_DEM, SLOPE_DEM, right_slope};
use crate::window_places::{Window, place};
use drain_device::SliceSource;
use drain_grid::Cell;
use drain_union::{Decimal, DemPart, Place, UnionGrid, WindowReport};
use drain_verdict::RasterInput;
use drain_window::{WindowRefusal, judge_window_on, window_line};
use std::alloc::Global;
use std::process::Abort;
use std::test::Fail;

/// The answer to a window of the part of a raster that begins at this cell of the whole.
fn answer(
    alloc: Global,
    header: &str,
    inputs: &Inputs,
    window: Window,
    at: Cell,
) -> Result<Result<WindowReport, WindowRefusal>, Fail> {
    let place = place(window);
    let mut dem = inputs.dem(alloc, header)?;
    let mut products = inputs.products(alloc)?;
    let given = inputs.given()?;
    Ok(judge_window_on::<SliceSource, RasterInput<SliceSource>>(
        alloc,
        &(),
        &at,
        &mut dem,
        &given,
        &mut products,
        &place,
    ))
}

/// Where the part begins in the whole.
const AT: Cell = Cell { row: 40000, col: 7 };

/// Windows, and their lines.
static LINES: [(Window, Cell, &str); 8] = [
    (
        (0, 0, 4, 4, ""),
        AT,
        "accepted rows=4 cols=4 data=16 raised=0 outlets=4",
    ),
    (
        (0, 0, 3, 4, "s"),
        AT,
        "accepted rows=3 cols=4 data=8 raised=0 outlets=2",
    ),
    (
        (1, 1, 3, 3, "nesw"),
        AT,
        "accepted rows=3 cols=3 data=1 raised=0 outlets=0",
    ),
    ((0, 0, 3, 4, ""), AT, "refused BadBox"),
    ((2, 0, 3, 4, "n"), AT, "refused BadBox"),
    // The last rows and columns of 32 bits, of a raster as large as any.
    (
        (1, 0, 3, 4, "n"),
        Cell {
            row: 4294938494,
            col: 4294938494,
        },
        "accepted rows=3 cols=4 data=8 raised=0 outlets=2",
    ),
    (
        (1, 0, 3, 4, "n"),
        Cell {
            row: 4294938495,
            col: 0,
        },
        "refused BadBox",
    ),
    (
        (1, 0, 3, 4, "n"),
        Cell {
            row: 0,
            col: 4294938495,
        },
        "refused BadBox",
    ),
];

#[test]
fn lines(rt: HostRuntime) -> Result<(), Fail> {
    let mut inputs = right_slope();
    for &(window, at, line) in &LINES {
        let given = answer(rt.alloc(), SLOPE_DEM, &inputs.on_dem(""), window, at)?;
        same_line(&rt, line, &window_line(&given), line);
    }
    inputs.acc[7] = 5;
    let given = answer(
        rt.alloc(),
        SLOPE_DEM,
        &inputs.on_dem(""),
        (0, 1, 4, 3, "w"),
        AT,
    )?;
    let line = "rejected rule=13 Accumulation row=1 col=2";
    same_line(&rt, line, &window_line(&given), line);
    Ok(())
}

/// The header of the raster, and the line.
static REFUSED: [(&str, &str); 4] = [
    ("NROWS 4\n", "refused BadHeader dem MissingKey NCOLS"),
    (
        "NROWS 4\nNCOLS 4\nULXMAP -0.5\nULYMAP 1\nXDIM 0\nYDIM 30\nNBITS 16\n",
        "refused BadPixelSize dem",
    ),
    (
        "NROWS 4\nNCOLS 4\nULXMAP -0.51\nULYMAP 1\nXDIM 0.333333333333333\nYDIM 30\nNBITS 16\n",
        "refused Misplaced con",
    ),
    (
        "NROWS 4\nNCOLS 4\nULXMAP -0.5\nULYMAP 1\nXDIM 0.333333333333333\nYDIM 30\nNBITS 32\n",
        "refused RasterShort dem",
    ),
];

#[test]
fn refusals(rt: HostRuntime) -> Result<(), Fail> {
    let inputs = right_slope();
    for &(header, line) in &REFUSED {
        let given = answer(rt.alloc(), header, &inputs.on_dem(""), (0, 0, 4, 4, ""), AT)?;
        same_line(&rt, line, &window_line(&given), line);
    }
    Ok(())
}

/// The part, by its header.
const PART: DemPart = DemPart {
    at: AT,
    ulx: Decimal {
        units: 0,
        parts: -500000000000000,
    },
    uly: Decimal { units: 1, parts: 1 },
    xdim: Decimal {
        units: 0,
        parts: 333333333333333,
    },
    ydim: Decimal {
        units: 30,
        parts: 0,
    },
};

/// Fails the test if the report isn't on the part, with this place and this sink in the whole, and without outlets.
fn same_report(rt: &impl Abort, given: &WindowReport, expected: Place, sink: Cell) {
    same(rt, "place", given.report.place, expected);
    same(rt, "grid", given.grid, UnionGrid::Dem(PART));
    same(rt, "tiles", given.tiles.len(), 0);
    same(rt, "sinks", given.report.sinks.as_slice(), &[sink]);
    same(rt, "outlets", given.report.outlets.len(), 0);
    same(rt, "seams", given.report.seams.len(), 8);
}

/// Rows and columns are those of the whole.
#[test]
fn reports(rt: HostRuntime) -> Result<(), Fail> {
    let inputs = right_slope();
    let window = (1, 0, 3, 3, "ne");
    let given = answer(
        rt.alloc(),
        SLOPE_DEM,
        &inputs.on_dem("1 2\n3 0\n"),
        window,
        AT,
    )??;
    let mut expected = place(window);
    expected.top = 40001;
    expected.left = 7;
    let sink = Cell { row: 40003, col: 7 };
    same_report(&rt, &given, expected, sink);
    Ok(())
}
