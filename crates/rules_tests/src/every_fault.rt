//! Every fault of worked grids with one number changed: at how many cells each rule fails, the first of them, the first patch with a fault, and the map. All
//! were worked out by hand from the rules. The verdict is that of the walk that stops at the first fault.

ghost use Rattle.std.specs.Prelude.{◌≡◌, ◌<◌};

use crate::examples::{Part, changed, elevation, products};
use crate::given_rows::{COLS, level_rows};
use crate::rows_of_numbers::faults_by_rows;
use crate::unasked_ranks::put;
use drain_faults::{FaultWalk, PerRule, RULES, RuleFaults};
use drain_grid::{
    Cell, Elevation, Judged, OutOfMemory, ProductSet, Rule, Rules, Shape, Sinks, Verdict,
};
use drain_rules::{RasterRow, verdict_of};
use std::alloc::Global;
use std::process::Abort;
use std::test::Fail;
use worked::grids::{slope, voids};

/// A grid and its products.
#[derive(Drop)]
pub struct Given {
    pub elevation: Elevation,
    pub sinks: Sinks,
    pub products: ProductSet,
    ghost same_shape: { elevation.extent ≡ products.con.extent },
}

impl Given {
    /// A row of the grid.
    pub fn row(&self, row: u32) -> RasterRow<'_>
        requires { row < self.now.elevation.extent.rows }
    {
        RasterRow {
            elevation: &self.elevation,
            sinks: &self.sinks,
            products: &self.products,
            row,
        }
    }
}

/// The parts of an example of this side, without sinks.
pub fn example(alloc: Global, side: u8, numbers: &[i64]) -> Result<Given, Fail> {
    let Some(shape) = Shape::new(side.into(), side.into()) else {
        return Err("a shape".into());
    };
    let cells = shape.cells();
    if numbers.len() != 6 * cells {
        return Err("six parts".into());
    }
    Ok(Given {
        elevation: elevation(alloc, shape, &numbers[..cells])?,
        sinks: Sinks::none(alloc),
        products: products(alloc, shape, -32768, numbers)?,
    })
}

/// The rules about judged rasters.
fn rules_of(example: &Given, judged: Judged) -> Rules {
    Rules {
        nodata: example.products.nodata(),
        judged,
    }
}

/// The walk over all rows by the rules about judged rasters. A map is drawn.
pub fn walk_over(alloc: Global, example: &Given, judged: Judged) -> Result<FaultWalk, OutOfMemory> {
    let rules = rules_of(example, judged);
    let shape = example.elevation.shape();
    let mut walk = FaultWalk::drawing(alloc, shape)?;
    for row in 0..shape.rows() {
        walk.note_row(&example.row(row), &rules)?;
    }
    Ok(walk)
}

/// A rule, the number of cells at which it fails, and the row and column of the first.
pub type Told = (Rule, u32, (u32, u32));

/// What the walk finds of the rules that fail, the row and column of the first patch with a fault, and the numbers of the map.
type FaultTally = (&'static [Told], Option<(u32, u32)>, &'static [u8]);

/// The result for a rule that isn't named: no cell.
fn expected_of(expected: &[Told], rule: Rule) -> RuleFaults {
    for (named, cells, (row, col)) in expected {
        if *named == rule {
            return RuleFaults {
                cells: *cells,
                first: Some(Cell {
                    row: *row,
                    col: *col,
                }),
            };
        }
    }
    RuleFaults::none()
}

/// Ends the test where the two differ.
fn same(rt: &impl Abort, case: &str, given: RuleFaults, expected: RuleFaults) {
    assert_eq!(rt; given, expected, "{case}");
}

/// Looks that a walk found these faults and no others.
pub fn same_faults(rt: &impl Abort, found: &PerRule<RuleFaults>, expected: &[Told]) {
    for rule in RULES {
        let expected = expected_of(expected, rule);
        same(rt, rule.name(), *found.of(rule), expected);
    }
}

/// The first cell with a fault, none where there is none.
fn first_cell(walk: &FaultWalk) -> Option<(u32, u32)> {
    match walk.first_patch() {
        Some(found) => Some((found.cell.row, found.cell.col)),
        None => None,
    }
}

/// Looks that the walk found these faults and no others, and this cell first.
fn expect_found(rt: &impl Abort, walk: &FaultWalk, expected: &[Told], first: Option<(u32, u32)>) {
    same_faults(rt, walk.faults(), expected);
    assert_eq!(rt; first_cell(walk), first);
}

/// The numbers of the walk's map, none where it draws none.
fn pixels_of(walk: &FaultWalk) -> &[u8] {
    match walk.map() {
        Some(map) => map.pixels.as_slice(),
        None => &[],
    }
}

/// Ends the test where the map has other numbers.
fn same_pixels(rt: &impl Abort, given: &[u8], expected: &[u8]) {
    assert_eq!(rt; given, expected);
}

/// Looks that the walk finds these faults and no others, this cell first, and that the map has these numbers.
fn expect_on(
    rt: &impl Abort,
    alloc: Global,
    example: &Given,
    (expected, first, pixels): FaultTally,
) -> Result<(), Fail> {
    let verdict = rules_verdict(alloc, example)?;
    let walk = walk_over(alloc, example, Judged::AllWithRanks)?;
    expect_found(rt, &walk, expected, first);
    same_pixels(rt, pixels_of(&walk), pixels);
    same_verdict(rt, &walk, example, verdict);
    Ok(())
}

/// The same on an example that is made for it.
fn expect(rt: &impl Abort, alloc: Global, example: Given, found: FaultTally) -> Result<(), Fail> {
    expect_on(rt, alloc, &example, found)
}

/// The verdict of the walk that stops at the first fault.
fn rules_verdict(alloc: Global, example: &Given) -> Result<Verdict, OutOfMemory> {
    verdict_of(alloc, &example.elevation, &example.sinks, &example.products)
}

/// Looks that the walk over every fault gives this verdict.
fn same_verdict(rt: &impl Abort, walk: &FaultWalk, example: &Given, expected: Verdict) {
    assert_eq!(rt; walk.verdict(example.elevation.shape()), expected);
}

/// The slope with a number changed.
pub fn changed_slope(
    alloc: Global,
    part: Part,
    row: u8,
    col: u8,
    number: i64,
) -> Result<Given, Fail> {
    let numbers = changed(alloc, 4, &slope(), part, row, col, number)?;
    example(alloc, 4, &numbers)
}

/// No fault on the slope, and none on voids.
static RIGHT: [FaultTally; 2] = [(&[], None, &[0; 16]), (&[], None, &[255; 4])];

#[test]
fn right_products(rt: HostRuntime) -> Result<(), Fail> {
    let [on_slope, on_voids] = RIGHT;
    expect(&rt, rt.alloc(), example(rt.alloc(), 4, &slope())?, on_slope)?;
    expect(&rt, rt.alloc(), example(rt.alloc(), 2, &voids())?, on_voids)
}

/// The cell leads south and no longer east: past its steepest, to another label; two cells have another inflow.
static LEADS_ASIDE: FaultTally = (
    &[
        (Rule::Slope, 1, (1, 1)),
        (Rule::Accumulation, 2, (1, 2)),
        (Rule::Label, 1, (1, 1)),
    ],
    Some((1, 1)),
    &[0, 0, 0, 0, 0, 10, 13, 0, 0, 13, 0, 0, 0, 0, 0, 0],
);

#[test]
fn a_direction_that_leads_aside(rt: HostRuntime) -> Result<(), Fail> {
    let slope = changed_slope(rt.alloc(), Part::Dir, 1, 1, 4)?;
    expect(&rt, rt.alloc(), slope, LEADS_ASIDE)
}

/// The no-data number of directions is no code either, and names no neighbour.
static MISSING: FaultTally = (
    &[
        (Rule::Missing, 1, (1, 1)),
        (Rule::BadCode, 1, (1, 1)),
        (Rule::Slope, 1, (1, 1)),
        (Rule::Accumulation, 1, (1, 2)),
    ],
    Some((1, 1)),
    &[0, 0, 0, 0, 0, 2, 13, 0, 0, 0, 0, 0, 0, 0, 0, 0],
);

#[test]
fn a_missing_direction(rt: HostRuntime) -> Result<(), Fail> {
    let slope = changed_slope(rt.alloc(), Part::Dir, 1, 1, 255)?;
    expect(&rt, rt.alloc(), slope, MISSING)
}

/// The last row's outlet has the label of the first row's.
static SHARED: FaultTally = (
    &[(Rule::Label, 1, (3, 2)), (Rule::SharedLabel, 1, (3, 3))],
    Some((3, 2)),
    &[0, 0, 0, 0, 0, 0, 0, 0, 0, 0, 0, 0, 0, 0, 14, 15],
);

#[test]
fn a_label_of_another_outlet(rt: HostRuntime) -> Result<(), Fail> {
    let slope = changed_slope(rt.alloc(), Part::Bas, 3, 3, 1)?;
    expect(&rt, rt.alloc(), slope, SHARED)
}

/// The voids with a number of con changed.
fn changed_voids(alloc: Global, row: u8, col: u8, number: i64) -> Result<Given, Fail> {
    let numbers = changed(alloc, 2, &voids(), Part::Con, row, col, number)?;
    example(alloc, 2, &numbers)
}

/// A void has a number.
static NUMBERED: FaultTally = (
    &[(Rule::VoidCell, 1, (0, 1))],
    Some((0, 1)),
    &[255, 1, 255, 255],
);

#[test]
fn a_number_at_a_void(rt: HostRuntime) -> Result<(), Fail> {
    let voids = changed_voids(rt.alloc(), 0, 1, 0)?;
    expect(&rt, rt.alloc(), voids, NUMBERED)
}

/// The cell leads nowhere and no longer north, so the cell there counts too many, and both are outlets of one label.
static INSIDE: [Told; 3] = [
    (Rule::FlatStep, 1, (1, 300)),
    (Rule::Accumulation, 1, (0, 300)),
    (Rule::SharedLabel, 1, (1, 300)),
];

/// The numbers of three long rows, in which a cell inside is an outlet. Lanes clear the cells next to it.
fn long_rows(alloc: Global) -> Result<Vec<i64>, Fail> {
    let mut numbers = level_rows(alloc)?;
    put(&mut numbers, (Part::Dir, (1, 300), 0))?;
    Ok(numbers)
}

/// Looks that the walk over the long rows, with lanes or without, finds the faults, and that the verdict is that of the first row.
fn expect_inside(rt: &impl Abort, alloc: Global, is_laned: bool) -> Result<(), Fail> {
    let numbers = long_rows(alloc)?;
    let walk = faults_by_rows(alloc, &numbers, is_laned)?;
    expect_found(rt, &walk, &INSIDE, Some((0, 300)));
    expect_rejected(rt, &walk, shape_of_rows()?);
    Ok(())
}

#[test]
fn an_outlet_inside_long_rows(rt: HostRuntime) -> Result<(), Fail> {
    expect_inside(&rt, rt.alloc(), true)?;
    expect_inside(&rt, rt.alloc(), false)
}

/// Three rows.
fn shape_of_rows() -> Result<Shape, Fail> {
    match Shape::new(3, COLS.into()) {
        Some(shape) => Ok(shape),
        None => Err("a shape".into()),
    }
}

/// Looks that the verdict is the fault of the first row.
fn expect_rejected(rt: &impl Abort, walk: &FaultWalk, shape: Shape) {
    let expected = Verdict::Rejected {
        rule: Rule::Accumulation,
        row: 0,
        col: 300,
    };
    assert_eq!(rt; walk.verdict(shape), expected);
}
