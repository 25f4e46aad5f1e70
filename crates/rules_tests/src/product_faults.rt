//! The voids at which a single product has a number, and the data cells at which it has none, on worked grids; with
//! ranks and without. All were worked out by hand from the rules.

use crate::every_fault::{Given, example, walk_over};
use crate::examples::{Part, changed, equal};
use crate::given_rows::level_rows;
use crate::rows_of_numbers::faults_by_rows;
use crate::unasked_ranks::put;
use drain_faults::{FaultWalk, ProductFaults, RuleFaults};
use drain_grid::{Cell, Judged, SetProduct};
use std::alloc::Global;
use std::process::Abort;
use std::test::Fail;
use worked::grids::{slope, voids};

/// The products, their parts, and their no-data numbers.
static PRODUCTS: [(SetProduct, Part, i64); 5] = [
    (SetProduct::Con, Part::Con, -32768),
    (SetProduct::Dir, Part::Dir, 255),
    (SetProduct::Acc, Part::Acc, 0),
    (SetProduct::Bas, Part::Bas, 0),
    (SetProduct::Rnk, Part::Rnk, 4294967295),
];

/// So many cells, and the first of them.
fn cells(cells: u32, row: u32, col: u32) -> RuleFaults {
    RuleFaults {
        cells,
        first: Some(Cell { row, col }),
    }
}

/// These voids.
fn at_voids(cells: RuleFaults) -> ProductFaults {
    ProductFaults {
        at_voids: cells,
        at_data: RuleFaults::none(),
    }
}

/// These data cells.
fn at_data(cells: RuleFaults) -> ProductFaults {
    ProductFaults {
        at_voids: RuleFaults::none(),
        at_data: cells,
    }
}

/// The walk over an example of this side.
fn walk(alloc: Global, side: u8, numbers: &[i64], judged: Judged) -> Result<FaultWalk, Fail> {
    let given = example(alloc, side, numbers)?;
    walk_along(alloc, &given, judged)
}

/// The walk over the parts of an example.
fn walk_along(alloc: Global, given: &Given, judged: Judged) -> Result<FaultWalk, Fail> {
    Ok(walk_over(alloc, given, judged)?)
}

/// Checks that the walk returns these faults of a product.
fn expect(rt: &impl Abort, walk: &FaultWalk, product: SetProduct, expected: ProductFaults) {
    equal(rt, product, *walk.by_product().of(product), expected);
}

/// Checks that it returns these faults of one product, and none of any other.
fn expect_alone(rt: &impl Abort, walk: &FaultWalk, product: SetProduct, expected: ProductFaults) {
    for held in SetProduct::ALL {
        let none = ProductFaults::none();
        expect(
            rt,
            walk,
            held,
            if held == product { expected } else { none },
        );
    }
}

/// Checks that only one product has these faults; without ranks rnk has none.
fn expect_faults(
    rt: &impl Abort,
    alloc: Global,
    side: u8,
    numbers: &[i64],
    product: SetProduct,
    expected: ProductFaults,
) -> Result<(), Fail> {
    let asked = walk(alloc, side, numbers, Judged::AllWithRanks)?;
    expect_alone(rt, &asked, product, expected);
    let unasked = walk(alloc, side, numbers, Judged::All)?;
    let none = ProductFaults::none();
    let is_rank = product == SetProduct::Rnk;
    expect_alone(rt, &unasked, product, if is_rank { none } else { expected });
    Ok(())
}

#[test]
fn right_products(rt: HostRuntime) -> Result<(), Fail> {
    let none = ProductFaults::none();
    expect_faults(&rt, rt.alloc(), 4, &slope(), SetProduct::Con, none)?;
    expect_faults(&rt, rt.alloc(), 2, &voids(), SetProduct::Con, none)
}

#[test]
fn one_product_with_numbers_at_voids(rt: HostRuntime) -> Result<(), Fail> {
    let expected = at_voids(cells(2, 0, 1));
    for &(product, part, _) in &PRODUCTS {
        let one = changed(rt.alloc(), 2, &voids(), part, 0, 1, 7)?;
        let two = changed(rt.alloc(), 2, &one, part, 1, 0, 8)?;
        expect_faults(&rt, rt.alloc(), 2, &two, product, expected)?;
    }
    Ok(())
}

#[test]
fn one_product_without_numbers_at_data_cells(rt: HostRuntime) -> Result<(), Fail> {
    let expected = at_data(cells(2, 1, 2));
    for &(product, part, nodata) in &PRODUCTS {
        let one = changed(rt.alloc(), 4, &slope(), part, 1, 2, nodata)?;
        let two = changed(rt.alloc(), 4, &one, part, 3, 0, nodata)?;
        expect_faults(&rt, rt.alloc(), 4, &two, product, expected)?;
    }
    Ok(())
}

#[test]
fn products_at_a_void_and_at_a_data_cell(rt: HostRuntime) -> Result<(), Fail> {
    // The first cell is a void, with the numbers of a data cell in every product; the last has no accumulation.
    let void = changed(rt.alloc(), 4, &slope(), Part::Elevations, 0, 0, -32768)?;
    let numbers = changed(rt.alloc(), 4, &void, Part::Acc, 3, 3, 0)?;
    let numbered = at_voids(cells(1, 0, 0));
    let both = ProductFaults {
        at_voids: cells(1, 0, 0),
        at_data: cells(1, 3, 3),
    };
    let none = ProductFaults::none();
    for (judged, rank) in [(Judged::AllWithRanks, numbered), (Judged::All, none)] {
        let walk = walk(rt.alloc(), 4, &numbers, judged)?;
        expect(&rt, &walk, SetProduct::Con, numbered);
        expect(&rt, &walk, SetProduct::Dir, numbered);
        expect(&rt, &walk, SetProduct::Acc, both);
        expect(&rt, &walk, SetProduct::Bas, numbered);
        expect(&rt, &walk, SetProduct::Rnk, rank);
    }
    Ok(())
}

#[test]
fn a_product_without_numbers_inside_long_rows(rt: HostRuntime) -> Result<(), Fail> {
    let mut numbers = level_rows(rt.alloc())?;
    // Lanes clear the cells next to them.
    put(&mut numbers, (Part::Bas, (1, 300), 0))?;
    put(&mut numbers, (Part::Bas, (2, 9), 0))?;
    for is_laned in [true, false] {
        let walk = faults_by_rows(rt.alloc(), &numbers, is_laned)?;
        expect_alone(&rt, &walk, SetProduct::Bas, at_data(cells(2, 1, 300)));
    }
    Ok(())
}
