//! The traces of a flood: from the open cells, and then from the waiting cells, lowest first.
//!
//! When a cell of a trace is looked at, a lower neighbour may not be reached yet, though the same trace reaches it later
//! from elsewhere. So the cell is looked at once more at the end of its trace, and waits only if such a neighbour is
//! still left. Few of them are.

ghost use Rattle.std.specs.Prelude.{◌≡◌, ◌+◌, ◌*◌, ◌<◌, ◌≤◌, ℕ, List, [], ◌∷◌, All, None, OnOk, length};
ghost use Rattle.drain_grid.specs.Grid.{Grid};
ghost use Rattle.drain_grid.specs.Path.{Surface};
ghost use Rattle.drain_flood.specs.Floods.{unreached, IsFilledFrom, IsFloodOf};

use crate::flood::{Flood, is_at};
use crate::heights::Heights;
use crate::layers::no_places;
use drain_grid::OutOfMemory;
use std::alloc::Global;

/// Traces from the open cells; then, lowest first, raises the unreached neighbours of each waiting cell and traces from
/// there.
pub(crate) fn spread<H: Heights>(flood: &mut Flood<H>, alloc: Global) -> Result<(), OutOfMemory>
    ensures extent { flood.new.extent ≡ flood.old.extent }
    ensures filled { OnOk result ((g : Grid) (first : Surface) → g.extent ≡ flood.old.extent → IsFloodOf g first flood.old None [] → IsFilledFrom g first flood.new) }
{
    let mut later = no_places(alloc)?;
    trace(flood, &mut later, None)?;
    while let Some((level, place)) = flood.pop() {
        flood.look_around(place as usize, level, true)?;
        trace(flood, &mut later, Some(level))?;
    }
    Ok(())
}

/// Continues from the cells of the trail: reaches every cell that can be reached without going down, and the lower
/// neighbours of cells at which the flood stands. Then each cell that still has an unreached neighbour waits.
fn trace<H: Heights>(
    flood: &mut Flood<H>,
    later: &mut Vec<u32>,
    stand: Option<i64>,
) -> Result<(), OutOfMemory>
    requires none { later.old.items ≡ [] }
    ensures extent { flood.new.extent ≡ flood.old.extent }
    ensures none { OnOk result (later.new.items ≡ []) }
    ensures done { OnOk result (flood.new.ahead ≡ []) }
    ensures work { OnOk result (unreached flood.new + length flood.new.waiting ≤ unreached flood.old + length flood.old.ahead + length flood.old.waiting) }
    ensures flood { OnOk result ((g : Grid) (first : Surface) → g.extent ≡ flood.old.extent → IsFloodOf g first flood.old stand [] → IsFloodOf g first flood.new stand []) }
{
    sweep(flood, later, stand)?;
    while let Some(place) = later.pop() {
        look_again(flood, place, stand)?;
        sweep(flood, later, stand)?;
    }
    Ok(())
}

/// Looks at the neighbours of the cells of the trail, and of those that it adds, until the trail is empty. A cell with a
/// lower neighbour that is left is for later.
fn sweep<H: Heights>(
    flood: &mut Flood<H>,
    later: &mut Vec<u32>,
    stand: Option<i64>,
) -> Result<(), OutOfMemory>
    requires places { All (λ place. place < flood.old.extent.rows * flood.old.extent.cols) later.old.items }
    ensures extent { flood.new.extent ≡ flood.old.extent }
    ensures places { OnOk result (All (λ place. place < flood.old.extent.rows * flood.old.extent.cols) later.new.items) }
    ensures done { OnOk result (flood.new.ahead ≡ []) }
    ensures work { OnOk result (unreached flood.new + length later.new.items ≤ unreached flood.old + length flood.old.ahead + length later.old.items) }
    ensures waiting { OnOk result (flood.new.waiting ≡ flood.old.waiting) }
    ensures flood { OnOk result ((g : Grid) (first : Surface) → g.extent ≡ flood.old.extent → IsFloodOf g first flood.old stand later.old.items → IsFloodOf g first flood.new stand later.new.items) }
{
    while let Some(place) = flood.next() {
        let level = flood.level_at(place as usize);
        let raises = is_at(stand, level);
        if flood.look_around(place as usize, level, raises)? {
            later.push(place)?;
        }
    }
    Ok(())
}

/// Looks at the neighbours of the cell at a place once more: it waits if one is left.
fn look_again<H: Heights>(
    flood: &mut Flood<H>,
    place: u32,
    stand: Option<i64>,
) -> Result<(), OutOfMemory>
    requires below { place < flood.old.extent.rows * flood.old.extent.cols }
    ensures extent { flood.new.extent ≡ flood.old.extent }
    ensures work { OnOk result (unreached flood.new + length flood.new.ahead ≡ unreached flood.old + length flood.old.ahead) }
    ensures waiting { OnOk result (length flood.new.waiting ≤ length flood.old.waiting + 1) }
    ensures flood { OnOk result ((g : Grid) (first : Surface) (later : List ℕ) → g.extent ≡ flood.old.extent → IsFloodOf g first flood.old stand (place ∷ later) → IsFloodOf g first flood.new stand later) }
{
    let level = flood.level_at(place as usize);
    let raises = is_at(stand, level);
    if flood.look_around(place as usize, level, raises)? {
        flood.wait(place, level)?;
    }
    Ok(())
}
