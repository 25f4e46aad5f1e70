//! A funnel: every cell drains through one outlet, over heights from below the sea to above it.

use crate::agree::same;
use crate::made::{elevation, judged, one_tile};
use drain_grid::{Cell, Counts, Raster, Sinks, Verdict};
use std::alloc::Global;
use std::test::Fail;

/// Samples along an edge. Scripts that run the tests with checks, which takes fifty times as long, put a smaller side here.
const SIDE: u32 = 1201;

/// The samples of the funnel in row order.
fn samples(alloc: Global) -> Result<Vec<i16>, Fail> {
    let middle = SIDE / 2;
    let mut samples = Vec::new(alloc);
    for row in 0..SIDE {
        for col in 0..SIDE {
            let steps = i16::try_from(row.max(col.abs_diff(middle)))?;
            samples.push(steps.wrapping_sub(i16::try_from(middle)?))?;
        }
    }
    Ok(samples)
}

/// The greatest number of a raster, or 0 where it is more.
fn greatest(raster: &Raster) -> i64 {
    let shape = raster.shape();
    let mut greatest = 0;
    for row in 0..shape.rows() {
        for col in 0..shape.cols() {
            greatest = greatest.max(raster.value(Cell { row, col }));
        }
    }
    greatest
}

/// The verdict on the products made of the funnel, and their greatest accumulation.
fn verdict_and_greatest(alloc: Global) -> Result<(Verdict, i64), Fail> {
    let layout = one_tile(alloc, SIDE)?;
    let elevation = elevation(&layout, samples(alloc)?)?;
    let (products, verdict) = judged(alloc, &layout, &elevation, &Sinks::none(alloc))?;
    Ok((verdict, greatest(&products.acc)))
}

#[test]
fn every_cell_drains_through_one_outlet(rt: HostRuntime) -> Result<(), Fail> {
    let expected = Verdict::Accepted(Counts {
        rows: SIDE,
        cols: SIDE,
        data_cells: SIDE * SIDE,
        raised: 0,
        outlets: 1,
    });
    let (verdict, greatest) = verdict_and_greatest(rt.alloc())?;
    same(&rt, "verdict", verdict, expected);
    same(&rt, "greatest", greatest, i64::from(SIDE * SIDE));
    Ok(())
}
