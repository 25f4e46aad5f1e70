//! Where windows lie, and the answers to them.

use crate::window_inputs::Inputs;
use drain_device::SliceSource;
use drain_hgt::TileInput;
use drain_union::{InnerSides, Place, UnionSize, WindowReport};
use drain_window::{WindowRefusal, judge_window_on};
use std::alloc::Global;
use std::test::Fail;

/// The row and the column of the first cell, how many there are of both, and a letter for each inner side.
pub type Window = (u32, u32, u32, u32, &'static str);

/// The place of a window.
pub fn place((top, left, rows, cols, inner): Window) -> Place {
    Place {
        top,
        left,
        extent: UnionSize { rows, cols },
        inner: InnerSides {
            north: inner.contains('n'),
            south: inner.contains('s'),
            west: inner.contains('w'),
            east: inner.contains('e'),
        },
    }
}

/// The answer to a window of these inputs.
pub fn answer(
    alloc: Global,
    inputs: &Inputs,
    window: Window,
) -> Result<Result<WindowReport, WindowRefusal>, Fail> {
    let place = place(window);
    let mut tiles = inputs.tiles(alloc)?;
    let mut products = inputs.products(alloc)?;
    let given = inputs.given()?;
    Ok(judge_window_on::<SliceSource, TileInput<SliceSource>>(
        alloc,
        &inputs.side,
        &(),
        &mut tiles,
        &given,
        &mut products,
        &place,
    ))
}
