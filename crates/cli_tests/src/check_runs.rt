//! Runs of `drain check` and `drain audit` of a level tile of side 2, into a sink that fails.

use crate::level_tile::{TILE, five, four, tile};
use crate::printed::{AT_THE_NINTH, Printed, same_line, slow_sink};
use drain_cli::runs::judge::{run_audit, run_check};
use std::alloc::Global;
use std::test::Fail;

/// The output of a check of right products into a sink that accepts one byte a call, and fails at the ninth.
fn checked_into_failing(alloc: Global) -> Result<Printed, Fail> {
    let mut out = slow_sink(alloc, &AT_THE_NINTH)?;
    let mut tiles = [tile(alloc, TILE)?];
    let mut products = five(alloc, &[0; 4], &[1, 2, 3, 4])?;
    let status = run_check(alloc, 2, &mut tiles, &[], &mut products, &mut out);
    Ok(Printed::new(out.as_slice(), status)?)
}

/// The same of an audit.
fn audited_into_failing(alloc: Global) -> Result<Printed, Fail> {
    let mut out = slow_sink(alloc, &AT_THE_NINTH)?;
    let mut tiles = [tile(alloc, TILE)?];
    let mut products = four(alloc, &[0; 4], &[1, 2, 3, 4])?;
    let status = run_audit(alloc, 2, &mut tiles, &[], &mut products, &mut out);
    Ok(Printed::new(out.as_slice(), status)?)
}

#[test]
fn ends_with_status_3_where_the_line_cannot_be_written(rt: HostRuntime) -> Result<(), Fail> {
    let answered = checked_into_failing(rt.alloc())?;
    same_line(&rt, "a check", &answered, "accepted", 3);
    let answered = audited_into_failing(rt.alloc())?;
    same_line(&rt, "an audit", &answered, "accepted", 3);
    Ok(())
}
