//! The lines of windows.

use crate::agree::same_line;
use crate::window_inputs::{Inputs, LEVEL_TILES, right_slope};
use crate::window_places::{Window, answer};
use drain_window::window_line;
use std::alloc::Global;
use std::process::Abort;
use std::test::Fail;

/// Fails the test if the answer to a window isn't this line.
fn tells(
    rt: &impl Abort,
    alloc: Global,
    inputs: &Inputs,
    window: Window,
    line: &str,
) -> Result<(), Fail> {
    let answer = answer(alloc, inputs, window)?;
    same_line(rt, line, &window_line(&answer), line);
    Ok(())
}

/// Windows of the slope, each with its line. The counts of two that overlap by two rows, or by two columns, add up to
/// those of the whole.
static RIGHT: [(Window, &str); 9] = [
    (
        (0, 0, 4, 4, ""),
        "accepted rows=4 cols=4 data=16 raised=0 outlets=4",
    ),
    (
        (0, 0, 3, 4, "s"),
        "accepted rows=3 cols=4 data=8 raised=0 outlets=2",
    ),
    (
        (1, 0, 3, 4, "n"),
        "accepted rows=3 cols=4 data=8 raised=0 outlets=2",
    ),
    (
        (0, 0, 4, 3, "e"),
        "accepted rows=4 cols=3 data=8 raised=0 outlets=0",
    ),
    (
        (0, 1, 4, 3, "w"),
        "accepted rows=4 cols=3 data=8 raised=0 outlets=4",
    ),
    // One judged cell, and none.
    (
        (1, 1, 3, 3, "nesw"),
        "accepted rows=3 cols=3 data=1 raised=0 outlets=0",
    ),
    (
        (1, 1, 2, 2, "nesw"),
        "accepted rows=2 cols=2 data=0 raised=0 outlets=0",
    ),
    // A side where the union ends has to be the mosaic's edge.
    ((0, 0, 3, 4, ""), "refused BadBox"),
    ((2, 0, 3, 4, "n"), "refused BadBox"),
];

#[test]
fn windows_of_right_products(rt: HostRuntime) -> Result<(), Fail> {
    let right = right_slope();
    for &(window, line) in &RIGHT {
        tells(&rt, rt.alloc(), &right.listing(""), window, line)?;
    }
    Ok(())
}

/// The same where the accumulation of the cell in row 1 and column 3 is wrong: the window that judges it rejects it
/// there, in its own rows and columns, and the other one doesn't look at it.
static WRONG: [(Window, &str); 4] = [
    (
        (0, 0, 3, 4, "s"),
        "rejected rule=13 Accumulation row=1 col=3",
    ),
    (
        (1, 0, 3, 4, "n"),
        "accepted rows=3 cols=4 data=8 raised=0 outlets=2",
    ),
    (
        (0, 0, 4, 3, "e"),
        "accepted rows=4 cols=3 data=8 raised=0 outlets=0",
    ),
    (
        (0, 1, 4, 3, "w"),
        "rejected rule=13 Accumulation row=1 col=2",
    ),
];

#[test]
fn windows_of_a_wrong_product(rt: HostRuntime) -> Result<(), Fail> {
    let mut wrong = right_slope();
    wrong.acc[7] = 5;
    for &(window, line) in &WRONG {
        tells(&rt, rt.alloc(), &wrong.listing(""), window, line)?;
    }
    Ok(())
}

/// Inputs that an audit refuses, each with its line.
static REFUSED: [(Inputs, &str); 6] = [
    (
        Inputs {
            side: 1,
            ..LEVEL_TILES
        },
        "refused BadSide",
    ),
    (
        Inputs {
            names: &["N00E001.hgt", "N00E000"],
            ..LEVEL_TILES
        },
        "refused BadName 1",
    ),
    (
        Inputs {
            names: &[],
            ..LEVEL_TILES
        },
        "refused NoTiles",
    ),
    (
        Inputs {
            con: &[0; 11],
            ..LEVEL_TILES
        },
        "refused RasterShort con",
    ),
    (
        Inputs {
            sinks: "0 0\nx",
            ..LEVEL_TILES
        },
        "refused BadSinkLine 2",
    ),
    (
        Inputs {
            sinks: "0 0\n\n2 0",
            ..LEVEL_TILES
        },
        "refused SinkNotData 3",
    ),
];

#[test]
fn inputs_that_an_audit_refuses(rt: HostRuntime) -> Result<(), Fail> {
    for (inputs, line) in &REFUSED {
        tells(&rt, rt.alloc(), inputs, (0, 0, 2, 2, "e"), line)?;
    }
    Ok(())
}
