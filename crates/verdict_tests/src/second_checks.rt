//! Checks after one that ran out of memory: they report what is right. Normally memory is there;
//! `tests/refuse_memory.c` refuses it.

use crate::example::one_tile;
use crate::listed_sinks::{filled_pit_with, listed_pit_with};
use crate::runs::Checked;
use crate::tells::tells_twice;
use worked::grids::{
    LEVEL_LINE, LISTED_PIT_LINE, PIT_LINE, SLOPE_LINE, UNLISTED_PIT_LINE, VOIDS_LINE, level, pit,
    slope, voids,
};

#[test]
fn pit_after_refused_memory(rt: HostRuntime) {
    tells_twice(
        &rt,
        rt.alloc(),
        Checked::Check,
        &one_tile(3, &pit()),
        PIT_LINE,
    );
}

#[test]
fn level_tile_after_refused_memory(rt: HostRuntime) {
    tells_twice(
        &rt,
        rt.alloc(),
        Checked::Check,
        &one_tile(2, &level()),
        LEVEL_LINE,
    );
}

#[test]
fn voids_after_refused_memory(rt: HostRuntime) {
    tells_twice(
        &rt,
        rt.alloc(),
        Checked::Check,
        &one_tile(2, &voids()),
        VOIDS_LINE,
    );
}

#[test]
fn slope_after_refused_memory(rt: HostRuntime) {
    tells_twice(
        &rt,
        rt.alloc(),
        Checked::Check,
        &one_tile(4, &slope()),
        SLOPE_LINE,
    );
}

/// Enough sinks that their vector grows.
const SINKS: &str = "1 1\n0 0\n0 1\n0 2\n1 0\n1 2\n2 0\n2 1\n2 2\n1 1\n";

#[test]
fn listed_pit_after_refused_memory(rt: HostRuntime) {
    let example = listed_pit_with(SINKS);
    tells_twice(&rt, rt.alloc(), Checked::Check, &example, LISTED_PIT_LINE);
}

#[test]
fn unlisted_pit_after_refused_memory(rt: HostRuntime) {
    let example = listed_pit_with("2 2\n0 0\n");
    tells_twice(&rt, rt.alloc(), Checked::Check, &example, UNLISTED_PIT_LINE);
}

#[test]
fn bad_line_after_refused_memory(rt: HostRuntime) {
    let example = filled_pit_with("0 0\n0 1\n0 2\n1 0\n1 2\n\nx\n");
    tells_twice(
        &rt,
        rt.alloc(),
        Checked::Check,
        &example,
        "refused BadSinkLine 7",
    );
}

#[test]
fn cell_outside_after_refused_memory(rt: HostRuntime) {
    let example = filled_pit_with("0 0\n\n2 3\n0 1\n");
    tells_twice(
        &rt,
        rt.alloc(),
        Checked::Check,
        &example,
        "refused SinkNotData 3",
    );
}

#[test]
fn listed_voids_after_refused_memory(rt: HostRuntime) {
    let example = one_tile(2, &voids()).listing("1 1\n0 1\n1 0\n0 0\n");
    tells_twice(
        &rt,
        rt.alloc(),
        Checked::Check,
        &example,
        "refused SinkNotData 1",
    );
}
