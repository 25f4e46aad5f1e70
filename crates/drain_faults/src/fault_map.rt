//! A map of the faults as far as it is drawn: a number for each cell, for the least rule that fails there.
//!
//! A walk draws it on demand (`FaultWalk::drawing`), row by row: it takes a byte per cell that was passed, and up to two
//! more while it grows. It is seldom needed.

ghost use Rattle.std.specs.Prelude.{◌≡◌, ◌∷◌, [], IfOk, IsSome, OnErr, OnOk, is_some, replicate};
ghost use Rattle.drain_faults.specs.FaultMaps.{AreDrawn, HasMore, fault_pixel};

use drain_grid::{OutOfMemory, Patch, Rule, Shape};
use std::alloc::Global;

/// The number of a data cell at which no rule fails.
pub const SOUND: u8 = 0;

/// The number of a void at which no rule fails.
pub const SOUND_VOID: u8 = 255;

/// A number for each cell that was passed, in row order.
#[derive(Drop)]
pub struct FaultMap {
    pub pixels: Vec<u8>,
}

impl FaultMap {
    /// No cell was passed. There is room for the first row of a grid of this shape; more comes with the rows.
    pub fn new(alloc: Global, shape: Shape) -> Result<FaultMap, OutOfMemory>
        ensures { IfOk result (λ map. map.pixels.items ≡ []) }
    {
        let pixels = Vec::with_capacity(alloc, shape.cols() as usize)?;
        Ok(FaultMap { pixels })
    }

    /// Draws one cell more, the next in row order.
    fn push(&mut self, pixel: u8) -> Result<(), OutOfMemory>
        ensures { OnOk result (HasMore self.old self.new (pixel ∷ [])) }
    {
        self.pixels.push(pixel)?;
        Ok(())
    }

    /// Draws this many more cells, each with this number.
    fn push_run(&mut self, pixel: u8, cells: usize) -> Result<(), OutOfMemory>
        ensures { OnOk result (HasMore self.old self.new (replicate cells pixel)) }
    {
        let Some(len) = self.pixels.len().checked_add(cells) else {
            return Err(OutOfMemory);
        };
        self.pixels.resize(len, pixel)?;
        Ok(())
    }
}

/// Draws the next cell in row order, with this patch and this least failing rule, if there is a map. `OutOfMemory`
/// comes only with a map.
pub fn draw_cell(
    map: &mut Option<FaultMap>,
    least: Option<Rule>,
    patch: &Patch,
) -> Result<(), OutOfMemory>
    ensures drawn { OnOk result (AreDrawn map.old map.new (fault_pixel least (is_some patch.now.here.z) ∷ [])) }
    ensures err { OnErr result (IsSome map.old) }
{
    match map {
        Some(map) => map.push(pixel(least, patch.here.z.is_some())),
        None => Ok(()),
    }
}

/// Draws this many more cells, each with this number, if there is a map. `OutOfMemory` comes only with a map.
pub(crate) fn draw_run(map: &mut Option<FaultMap>, pixel: u8, cells: u32) -> Result<(), OutOfMemory>
    ensures drawn { OnOk result (AreDrawn map.old map.new (replicate cells pixel)) }
    ensures err { OnErr result (IsSome map.old) }
{
    match map {
        Some(map) => map.push_run(pixel, cells as usize),
        None => Ok(()),
    }
}

/// The number of a cell at which this is the least rule that fails.
fn pixel(least: Option<Rule>, has_data: bool) -> u8
    ensures { result ≡ fault_pixel least has_data }
{
    match least {
        Some(rule) => rule.number(),
        None if has_data => SOUND,
        None => SOUND_VOID,
    }
}
