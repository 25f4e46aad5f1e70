//! Audits of worked products. The lines were worked out by hand from the rules.

use crate::bytes::Bytes;
use crate::example::{Example, changed, grid_of, header_on, one_tile, products_on, tile};
use crate::faults::{Times, goes_on_after};
use crate::listed_sinks::{Lie, listed_pit_with, round_a_void, two_tiles};
use crate::runs::Checked;
use crate::sources::MIDDLES;
use crate::tells::{Changes, changes_tell, each_tells, tells_twice};
use drain_device::DeviceFault;
use drain_grid::SetProduct;
use std::test::Fail;
use worked::grids::{
    LEVEL_LINE, LISTED_PIT_LINE, LISTED_PIT_SINKS, PIT_LINE, SLOPE_LINE, UNLISTED_PIT_LINE,
    VOIDS_LINE, level, parted, pit, ring, slope, voids,
};

const RING_LINE: &str = "rejected NoEnd row=1 col=1";

/// Two flats with a column of voids between them, which no tile covers; some numbers of the products may be changed.
fn with_a_gap(changes: &[(usize, i64)]) -> Example {
    let grid = "NROWS 3\nNCOLS 7\nULXMAP 0\nULYMAP 1\nXDIM 0.5\nYDIM 0.5\n";
    let numbers = changed(&parted(), changes);
    let mut example = products_on(3, grid, &numbers[21..]);
    for name in ["N00E000.hgt", "N00E002.hgt"] {
        example.push_tile(tile(name, &[0; 9]));
    }
    example
}

/// A check accepts these with the same lines.
#[test]
fn accepts_right_products_of_one_tile(rt: HostRuntime) -> Result<(), Fail> {
    let void_inside = "accepted rows=5 cols=5 data=24 raised=0 outlets=24";
    let cases = [
        (one_tile(3, &pit()), PIT_LINE),
        (one_tile(2, &level()), LEVEL_LINE),
        (one_tile(2, &voids()), VOIDS_LINE),
        (one_tile(4, &slope()), SLOPE_LINE),
        (round_a_void(), void_inside),
        (listed_pit_with(LISTED_PIT_SINKS), LISTED_PIT_LINE),
    ];
    each_tells(&rt, rt.alloc(), Checked::Audit, &cases)
}

#[test]
fn accepts_right_products_of_two_tiles(rt: HostRuntime) -> Result<(), Fail> {
    let beside = "accepted rows=3 cols=5 data=15 raised=0 outlets=13";
    let below = "accepted rows=5 cols=3 data=15 raised=0 outlets=13";
    let parted = "accepted rows=3 cols=7 data=18 raised=0 outlets=16";
    let alloc = rt.alloc();
    let cases = [
        (two_tiles(alloc, Lie::Beside, (1, 3), "1 3")?, beside),
        (two_tiles(alloc, Lie::Below, (3, 1), "3 1")?, below),
        (with_a_gap(&[]), parted),
    ];
    each_tells(&rt, rt.alloc(), Checked::Audit, &cases)
}

/// Numbers of the slope that are changed, and the line of the rejection. Its places are counted through its samples and its products, 16 of each.
static CHANGES: [Changes; 6] = [
    (&[(32, 3)], "rejected NoEnd row=0 col=0"),
    (&[(32, 255)], "rejected NoEnd row=0 col=0"),
    // The last cell of a row leads off the grid, and the others lead to it.
    (&[(39, 1)], "rejected NoEnd row=1 col=0"),
    (&[(55, 5)], "rejected rule=13 Accumulation row=1 col=3"),
    (
        &[(16, 5), (55, 5)],
        "rejected rule=5 OpenRaised row=0 col=0",
    ),
    (
        &[(68, 1), (69, 1), (70, 1), (71, 1)],
        "rejected rule=15 SharedLabel row=1 col=3",
    ),
];

#[test]
fn rejects_a_changed_slope(rt: HostRuntime) -> Result<(), Fail> {
    changes_tell(&rt, rt.alloc(), Checked::Audit, (4, ""), &slope(), &CHANGES)
}

/// A path without an end is reported before the rules: con is too high in the second of these.
#[test]
fn rejects_flats_that_lead_nowhere(rt: HostRuntime) -> Result<(), Fail> {
    let mut short_ring = one_tile(4, &ring());
    short_ring.dir.body.pop();
    let cases = [
        (one_tile(4, &ring()), RING_LINE),
        (one_tile(4, &changed(&ring(), &[(16, 6)])), RING_LINE),
        (short_ring, "refused RasterShort dir"),
        (one_tile(3, &changed(&pit(), &[(22, 0)])), UNLISTED_PIT_LINE),
        (listed_pit_with(""), UNLISTED_PIT_LINE),
    ];
    each_tells(&rt, rt.alloc(), Checked::Audit, &cases)
}

/// Puts this line before those of a product's header.
fn put_first(example: &mut Example, product: SetProduct, line: &str) {
    let mut header = Bytes::of(line.as_bytes());
    header.extend(header_on(product, grid_of(example.side)).as_slice());
    example.raster_mut(product).header = header;
}

/// A no-data number that isn't a direction's own, and one that is the elevation everywhere.
#[test]
fn rejects_beside_other_numbers_of_nodata(rt: HostRuntime) -> Result<(), Fail> {
    let mut wrong_code = one_tile(4, &changed(&slope(), &[(32, 255)]));
    put_first(&mut wrong_code, SetProduct::Dir, "NODATA 9\n");
    let mut missing = one_tile(2, &level());
    put_first(&mut missing, SetProduct::Con, "NODATA 0\n");
    let cases = [
        (wrong_code, "rejected NoEnd row=0 col=0"),
        (missing, "rejected rule=2 Missing row=0 col=0"),
    ];
    each_tells(&rt, rt.alloc(), Checked::Audit, &cases)
}

/// Puts one of the faults of the test below into the filled pit.
fn put_fault(example: &mut Example, fault: usize) {
    let no_west = "NROWS 3\nNCOLS 3\nULYMAP 1\nXDIM 0.5\nYDIM 0.5\n";
    let too_high = "NROWS 4\nNCOLS 3\nULXMAP 0\nULYMAP 1\nXDIM 0.5\nYDIM 0.5\n";
    match fault {
        0 => example.side = 1,
        1 => example.tiles[0].name = Bytes::of(b"x"),
        2 => example.con.header = header_on(SetProduct::Con, no_west),
        3 => example.bas.header = header_on(SetProduct::Bas, too_high),
        4 => {
            example.tiles[0].body.pop();
            example.con.body.pop();
        }
        5 => example.sinks = Bytes::of(b"1 1\nx"),
        _ => example.sinks = Bytes::of(b"0 0\n3 0"),
    }
}

/// Faults, the last that is reported first, each with its line.
static FAULTS: [(usize, &str); 7] = [
    (6, "refused SinkNotData 2"),
    (5, "refused BadSinkLine 2"),
    (4, "refused BadTileLength N00E000.hgt"),
    (3, "refused WrongShape bas"),
    (2, "refused BadHeader con MissingKey ULXMAP"),
    (1, "refused BadName 0"),
    (0, "refused BadSide"),
];

/// Each fault alone, and with all later ones.
#[test]
fn refuses_by_the_first_fault(rt: HostRuntime) -> Result<(), Fail> {
    let mut together = one_tile(3, &pit());
    for &(fault, line) in &FAULTS {
        let mut alone = one_tile(3, &pit());
        put_fault(&mut alone, fault);
        put_fault(&mut together, fault);
        each_tells(
            &rt,
            rt.alloc(),
            Checked::Audit,
            &[(alone, line), (together, line)],
        )?;
    }
    Ok(())
}

/// How often a source faults, how, and the expected line.
static DEVICE_FAULTS: [Times; 2] = [
    (1, DeviceFault::Failed, "failed ReadFailed"),
    (999, DeviceFault::Interrupted, SLOPE_LINE),
];

/// Each body of the slope faults in its middle, and then continues.
#[test]
fn bodies_that_go_on_after_a_fault(rt: HostRuntime) -> Result<(), Fail> {
    // The last of the middles is that of the ranks, which an audit doesn't read.
    let (asked, slope) = (Checked::Audit, one_tile(4, &slope()));
    goes_on_after(
        &rt,
        rt.alloc(),
        asked,
        &slope,
        &MIDDLES[..5],
        &DEVICE_FAULTS,
    )
}

#[test]
fn pit_after_refused_memory(rt: HostRuntime) {
    tells_twice(
        &rt,
        rt.alloc(),
        Checked::Audit,
        &one_tile(3, &pit()),
        PIT_LINE,
    );
}

#[test]
fn ring_after_refused_memory(rt: HostRuntime) {
    tells_twice(
        &rt,
        rt.alloc(),
        Checked::Audit,
        &one_tile(4, &ring()),
        RING_LINE,
    );
}

#[test]
fn listed_pit_after_refused_memory(rt: HostRuntime) {
    let example = listed_pit_with(LISTED_PIT_SINKS);
    tells_twice(&rt, rt.alloc(), Checked::Audit, &example, LISTED_PIT_LINE);
}
