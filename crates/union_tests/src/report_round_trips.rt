//! Texts that are read and written again.

use crate::report_texts::text;
use drain_grid::{Cell, HeightKind, Rule};
use drain_report::{read_report, write_report};
use drain_union::{Decimal, DemPart, Fault, UnionCounts, UnionGrid, UnionVerdict, spacing_at};
use std::test::Fail;

#[test]
fn an_accepted_window_is_read_and_written_again(rt: HostRuntime) -> Result<(), Fail> {
    let bytes = text(rt.alloc())?;
    let window = read_report(rt.alloc(), &bytes)?;
    assert_eq!(rt; window.grid, UnionGrid::Tiles(1201));
    assert_eq!(rt; window.tiles.len(), 2);
    assert_eq!(rt; window.report.holds, true);
    assert_eq!(rt; window.report.spacings.len(), 0);
    assert_eq!(rt; window.report.sinks.len(), 2);
    let second = Cell {
        row: 62401,
        col: 90002,
    };
    assert_eq!(rt; window.report.sinks[1], second);
    assert_eq!(rt; window.report.outlets.len(), 1);
    assert_eq!(rt; window.report.seams.len(), 3);
    assert_eq!(rt; window.report.seams[0].values.z, None);
    assert_eq!(rt; window.report.seams[1].values.z, Some(-5));
    assert_eq!(rt; window.report.seams[1].values.sink, true);
    assert_eq!(rt; window.report.seams[2].values.z, Some(-32768));
    let again = write_report(rt.alloc(), &window)?;
    assert_eq!(rt; again.as_slice(), bytes.as_slice());
    Ok(())
}

/// A rejected window: its lists are empty, as it is read to its first fault alone.
const REJECTED: &[u8] = b"drain-window-report 4
side 3601
window 0 0 1 28801 0 0 0 0
nodata -32768 255 10000000000 -10000000000
rejected 15 0 28800
tiles 0
sinks 0
outlets 0
seams 0
end
";

#[test]
fn a_rejected_window_is_read_and_written_again(rt: HostRuntime) -> Result<(), Fail> {
    let window = read_report(rt.alloc(), REJECTED)?;
    let expected = UnionVerdict::Rejected(Fault {
        cell: Cell { row: 0, col: 28800 },
        rule: Rule::SharedLabel,
    });
    assert_eq!(rt; window.verdict, expected);
    assert_eq!(rt; window.report.holds, false);
    assert_eq!(rt; window.report.sinks.len(), 0);
    let again = write_report(rt.alloc(), &window)?;
    assert_eq!(rt; again.as_slice(), REJECTED);
    Ok(())
}

/// A box as large as any, with the greatest counts that a text has.
const LARGE: &[u8] = b"drain-window-report 4
side 3601
window 0 0 4294967295 4294967295 0 0 0 0
nodata -32768 255 0 0
accepted 4294967295 4294967295 9223372036854775807 9223372036854775807 9223372036854775807
tiles 0
sinks 0
outlets 0
seams 0
end
";

#[test]
fn the_greatest_counts_are_read_and_written_again(rt: HostRuntime) -> Result<(), Fail> {
    let mut window = read_report(rt.alloc(), LARGE)?;
    let greatest = 9223372036854775807;
    let counts = UnionCounts {
        rows: 4294967295,
        cols: 4294967295,
        data_cells: greatest,
        raised: greatest,
        outlets: greatest,
    };
    assert_eq!(rt; window.verdict, UnionVerdict::Accepted(counts));
    let again = write_report(rt.alloc(), &window)?;
    assert_eq!(rt; again.as_slice(), LARGE);
    window.verdict = UnionVerdict::Accepted(UnionCounts {
        raised: greatest + 1,
        ..counts
    });
    assert_eq!(rt; write_report(rt.alloc(), &window).is_err(), true);
    Ok(())
}

/// A window whose rows are spaced otherwise, with the least and the greatest numbers.
const SPACED: &[u8] = b"drain-window-report 4
side 3601
window 0 0 4 28801 0 0 0 0
nodata -32768 255 0 0
rejected 10 3 28800
spacings 3
spacing 1 1073741824
spacing 1073741824 1
spacing 1 1
tiles 0
sinks 0
outlets 0
seams 0
end
";

#[test]
fn spacings_are_read_and_written_again(rt: HostRuntime) -> Result<(), Fail> {
    let window = read_report(rt.alloc(), SPACED)?;
    let spacings = &window.report.spacings;
    assert_eq!(rt; spacings.len(), 3);
    for (row, width) in [(0, 1), (1, 1073741824), (2, 1), (3, 1)] {
        assert_eq!(rt; spacing_at(spacings, row).width, width);
    }
    assert_eq!(rt; spacing_at(spacings, 0).height, 1073741824);
    let again = write_report(rt.alloc(), &window)?;
    assert_eq!(rt; again.as_slice(), SPACED);
    Ok(())
}

/// A window of floats: each line of its list says so, also of square cells.
const OF_FLOATS: &[u8] = b"drain-window-report 4
side 3601
window 0 0 4 28801 0 0 0 0
nodata -32768 255 0 0
rejected 10 3 28800
spacings 2
spacing 1 1 single
spacing 30 25 single
tiles 0
sinks 0
outlets 0
seams 0
end
";

#[test]
fn spacings_of_floats_are_read_and_written_again(rt: HostRuntime) -> Result<(), Fail> {
    let window = read_report(rt.alloc(), OF_FLOATS)?;
    let spacings = &window.report.spacings;
    assert_eq!(rt; spacings.len(), 2);
    for (row, width) in [(0, 1), (1, 30), (2, 30)] {
        assert_eq!(rt; spacing_at(spacings, row).width, width);
        assert_eq!(rt; spacing_at(spacings, row).kind, HeightKind::Single);
    }
    let again = write_report(rt.alloc(), &window)?;
    assert_eq!(rt; again.as_slice(), OF_FLOATS);
    Ok(())
}

/// The same of a part of a raster of elevations, with the least and the greatest numbers.
const OF_DEM: &[u8] = b"drain-window-report 4
dem 4294967295 0 -9223372036854775808 9223372036854775807 500015 0 0 277777777777778 0 -1
window 0 0 1 28801 0 0 0 0
nodata -32768 255 10000000000 -10000000000
rejected 15 0 28800
tiles 0
sinks 0
outlets 0
seams 0
end
";

#[test]
fn a_part_of_a_raster_is_read_and_written_again(rt: HostRuntime) -> Result<(), Fail> {
    let window = read_report(rt.alloc(), OF_DEM)?;
    let expected = UnionGrid::Dem(DemPart {
        at: Cell {
            row: 4294967295,
            col: 0,
        },
        ulx: Decimal {
            units: -9223372036854775808,
            parts: 9223372036854775807,
        },
        uly: Decimal {
            units: 500015,
            parts: 0,
        },
        xdim: Decimal {
            units: 0,
            parts: 277777777777778,
        },
        ydim: Decimal {
            units: 0,
            parts: -1,
        },
    });
    assert_eq!(rt; window.grid, expected);
    let again = write_report(rt.alloc(), &window)?;
    assert_eq!(rt; again.as_slice(), OF_DEM);
    Ok(())
}
