//! Every fault by the rules about some rasters, on the worked slope with one number changed: each is that of all rasters,
//! as far as it is about judged ones.

use crate::every_fault::{Given, Told, changed_slope, same_faults, walk_over};
use crate::examples::Part;
use drain_faults::FaultWalk;
use drain_grid::{Judged, Rule};
use std::alloc::Global;
use std::process::Abort;
use std::test::Fail;

/// The number of the cell of this place on the walk's map.
fn pixel_at(walk: &FaultWalk, place: usize) -> Option<u8> {
    match walk.map() {
        Some(map) => map.pixels.as_slice().get(place).copied(),
        None => None,
    }
}

/// Looks that the walk finds these faults and no others, and that the map has this number at the cell of this place.
fn expect(
    rt: &impl Abort,
    alloc: Global,
    example: &Given,
    judged: Judged,
    expected: &[Told],
    (place, number): (usize, u8),
) -> Result<(), Fail> {
    let walk = walk_over(alloc, example, judged)?;
    same_faults(rt, walk.faults(), expected);
    assert_eq!(rt; pixel_at(&walk, place), Some(number));
    Ok(())
}

/// Looks at the walk under each of these lists of rasters: the faults, a cell and its number on the map.
fn expect_each(
    rt: &impl Abort,
    alloc: Global,
    example: &Given,
    rows: &[(Judged, &[Told], (usize, u8))],
) -> Result<(), Fail> {
    for (judged, expected, cell) in rows {
        expect(rt, alloc, example, *judged, expected, *cell)?;
    }
    Ok(())
}

/// The cell leads south and no longer east: past its steepest, to another label; two cells have another inflow.
const STEEPEST: Told = (Rule::Slope, 1, (1, 1));

const SUMS: Told = (Rule::Accumulation, 2, (1, 2));

const LABEL: Told = (Rule::Label, 1, (1, 1));

static ASIDE: [(Judged, &[Told], (usize, u8)); 4] = [
    (Judged::Con, &[], (5, 0)),
    (Judged::ConDir, &[STEEPEST], (5, 10)),
    (Judged::ConDirAcc, &[STEEPEST, SUMS], (6, 13)),
    (Judged::ConDirBas, &[STEEPEST, LABEL], (6, 0)),
];

#[test]
fn a_direction_that_leads_aside(rt: HostRuntime) -> Result<(), Fail> {
    let slope = changed_slope(rt.alloc(), Part::Dir, 1, 1, 4)?;
    expect_each(&rt, rt.alloc(), &slope, &ASIDE)
}

/// The last row's outlet has the label of the first row's.
static SHARED: [(Judged, &[Told], (usize, u8)); 2] = [
    (Judged::ConDirAcc, &[], (15, 0)),
    (
        Judged::ConDirBas,
        &[(Rule::Label, 1, (3, 2)), (Rule::SharedLabel, 1, (3, 3))],
        (15, 15),
    ),
];

#[test]
fn a_label_of_another_outlet(rt: HostRuntime) -> Result<(), Fail> {
    let slope = changed_slope(rt.alloc(), Part::Bas, 3, 3, 1)?;
    expect_each(&rt, rt.alloc(), &slope, &SHARED)
}
