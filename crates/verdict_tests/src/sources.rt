//! Sources that are interrupted or fail.

use crate::example::one_tile;
use crate::faults::{FaultyCalls, Times, fails_at_each_call, goes_on_after, tells_beside};
use crate::inputs::Owner;
use crate::runs::Checked;
use drain_device::DeviceFault;
use drain_grid::SetProduct;
use std::test::Fail;
use worked::grids::{PIT_LINE, SLOPE_LINE, pit, slope};

const FAILED: &str = "failed ReadFailed";

/// The first and the last call that is interrupted, and the expected line.
static INTERRUPTIONS: [(u64, u64, &str); 5] = [
    (1, 999, PIT_LINE),
    (5, 1003, PIT_LINE),
    (1, 1000, FAILED),
    (5, 1004, FAILED),
    (1, u64::MAX, FAILED),
];

#[test]
fn bears_999_interruptions_of_each_source(rt: HostRuntime) -> Result<(), Fail> {
    let pit = one_tile(3, &pit());
    for owner in [
        Owner::Tile,
        Owner::Raster(SetProduct::Con),
        Owner::Raster(SetProduct::Rnk),
    ] {
        for &(first, last, line) in &INTERRUPTIONS {
            let calls = FaultyCalls {
                owner,
                first,
                last,
                answer: DeviceFault::Interrupted,
            };
            tells_beside(&rt, rt.alloc(), Checked::Check, "pit", &pit, calls, line)?;
        }
    }
    Ok(())
}

/// Owners of sources, each with the number of calls of its source.
static CALLS: [(Owner, u64); 6] = [
    (Owner::Tile, 19),
    (Owner::Raster(SetProduct::Con), 18),
    (Owner::Raster(SetProduct::Dir), 9),
    (Owner::Raster(SetProduct::Acc), 36),
    (Owner::Raster(SetProduct::Bas), 36),
    (Owner::Raster(SetProduct::Rnk), 36),
];

/// A tile of 18 bytes is read once more, for its end; a raster isn't.
#[test]
fn never_takes_a_failed_source_for_its_end(rt: HostRuntime) -> Result<(), Fail> {
    let pit = one_tile(3, &pit());
    for &asked in &CALLS {
        fails_at_each_call(&rt, rt.alloc(), "pit", &pit, asked, PIT_LINE)?;
    }
    Ok(())
}

/// Owners of sources, each with a call in its middle.
pub static MIDDLES: [(Owner, u64); 6] = [
    (Owner::Tile, 17),
    (Owner::Raster(SetProduct::Con), 17),
    (Owner::Raster(SetProduct::Dir), 9),
    (Owner::Raster(SetProduct::Acc), 33),
    (Owner::Raster(SetProduct::Bas), 33),
    (Owner::Raster(SetProduct::Rnk), 33),
];

/// How often a source faults, how, and the expected line.
static DEVICE_FAULTS: [Times; 3] = [
    (1, DeviceFault::Failed, FAILED),
    (999, DeviceFault::Interrupted, SLOPE_LINE),
    (1000, DeviceFault::Interrupted, FAILED),
];

/// Each body of the slope faults in its middle, and then continues.
#[test]
fn bodies_that_go_on_after_a_fault(rt: HostRuntime) -> Result<(), Fail> {
    let (asked, slope) = (Checked::Check, one_tile(4, &slope()));
    goes_on_after(&rt, rt.alloc(), asked, &slope, &MIDDLES, &DEVICE_FAULTS)
}
