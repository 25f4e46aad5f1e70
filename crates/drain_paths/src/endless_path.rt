//! Where a run without an end leads: to a ring of cells, or to a cell from which it leads nowhere.

ghost use Rattle.std.specs.Prelude.{◌≡◌, ◌*◌};
ghost use Rattle.drain_paths.specs.Names.{length, MatchOption, IfOk, IfSome, OnOk, Cell, IsFirstEndless, Grid, Products, HasData, RunEnds, IsCellOf};
ghost use Rattle.drain_paths.specs.Flows.{AreFlowsOf};
ghost use Rattle.drain_paths.specs.Walks.{AreKnownFlows};
ghost use Rattle.drain_paths.specs.EndlessPaths.{IsEndlessPath, IsFarthest, IsLostBy, IsOnNoRing, IsRing, LeadsOnOrEnds, told_with};

use crate::cell_flows::CellFlows;
use crate::flow::{Flow, Way};
use crate::walk::{put_ends, steps_to_end};
use crate::ways::way_of;
use drain_grid::{Cell, OutOfMemory, Shape};
use std::alloc::Global;

impl CellFlows {
    /// The first data cell in row order whose run doesn't reach a code 0, from the flows of all cells; none if every
    /// run ends.
    ///
    /// Each walk goes on to a cell whose run is known to end, and then records that for all cells that it passed: so a
    /// cell is passed at most twice, and no other memory is taken. Afterwards the flows no longer have the codes.
    pub fn first_endless(&mut self, shape: Shape) -> Option<Cell>
        requires { length self.old ≡ shape.rows * shape.cols }
        ensures first { (g : Grid) → (ps : Products) → AreFlowsOf g ps shape self.old →
            MatchOption result ((c : Cell) → HasData g c → RunEnds g ps c) (IsFirstEndless g ps) }
        ensures counted { length self.new ≡ length self.old }
        ensures known { (g : Grid) → (ps : Products) → AreFlowsOf g ps shape self.old → AreKnownFlows g ps shape self.new }
    {
        for index in 0..shape.cells() {
            match self.at(index) {
                Flow::Void | Flow::Ends => {}
                _ => {
                    let cell = shape.cell(index);
                    match steps_to_end(self, shape, cell) {
                        Some(steps) => put_ends(self, shape, cell, steps),
                        None => return Some(cell),
                    }
                }
            }
        }
        None
    }
}

/// The most cells of a ring that are reported.
pub const RING_TOLD: usize = 20;

/// Why a run leads nowhere from a data cell whose code isn't 0.
#[derive(Clone, Copy, PartialEq, Eq, Debug)]
pub enum LostBy {
    /// The number is no code.
    NoCode,
    /// The code leads outside the grid.
    Outside,
    /// The code leads to a void.
    Void,
}

/// Where a run without an end leads.
#[derive(PartialEq, Eq, Debug, Drop)]
pub enum EndlessPath {
    /// It goes round for ever.
    Ring {
        /// Cells of the ring one after another: all, or 20 where there are more.
        cells: Vec<Cell>,
        /// How many the ring has.
        length: usize,
    },
    /// It reaches this cell, and goes no further.
    Lost {
        cell: Cell,
        by: LostBy,
    },
}

impl CellFlows {
    /// Where the run of a data cell leads, from the flows of all cells of a grid; none exactly if it ends.
    pub fn endless_path(
        &self,
        alloc: Global,
        shape: Shape,
        start: Cell,
    ) -> Result<Option<EndlessPath>, OutOfMemory>
        requires counted { length self.now ≡ shape.rows * shape.cols }
        requires inside { IsCellOf shape start }
        ensures { IfOk result (λ told. (g : Grid) → (ps : Products) → AreKnownFlows g ps shape self.now → HasData g start → MatchOption told (RunEnds g ps start) (IsEndlessPath g ps start)) }
    {
        let Some(here) = last_of_walk(self, shape, start) else {
            return Ok(None);
        };
        if let Some(by) = lost_by(self, shape, here) {
            return Ok(Some(EndlessPath::Lost { cell: here, by }));
        }
        ring_from(alloc, self, shape, here)
    }
}

/// The cell that a walk from a data cell reaches in as many steps as there are cells, or from which it leads nowhere
/// before; none if the run ends.
fn last_of_walk(flows: &CellFlows, shape: Shape, start: Cell) -> Option<Cell>
    requires counted { length flows.now ≡ shape.rows * shape.cols }
    requires inside { IsCellOf shape start }
    ensures inside { IfSome result (IsCellOf shape) }
    ensures reached { (g : Grid) → (ps : Products) → AreKnownFlows g ps shape flows.now → HasData g start → MatchOption result (RunEnds g ps start) (IsFarthest g ps start) }
{
    let mut here = start;
    for _walked in 0..shape.cells() {
        match way_of(flows, shape, here) {
            Way::Ends => return None,
            Way::On(next) => here = next,
            Way::Lost => return Some(here),
        }
    }
    Some(here)
}

/// Why the code of a data cell leads nowhere; none if it leads on, or if the run is known to end.
fn lost_by(flows: &CellFlows, shape: Shape, cell: Cell) -> Option<LostBy>
    requires counted { length flows.now ≡ shape.rows * shape.cols }
    requires inside { IsCellOf shape cell }
    ensures { (g : Grid) → (ps : Products) → AreKnownFlows g ps shape flows.now → HasData g cell → MatchOption result (LeadsOnOrEnds g ps cell) (IsLostBy g ps cell) }
{
    let flow = flows.at(shape.index(cell));
    if flow == Flow::Lost {
        return Some(LostBy::NoCode);
    }
    let Some(direction) = flow.direction() else {
        return None;
    };
    match shape.step(cell, direction) {
        Some(next) => {
            if flows.at(shape.index(next)) == Flow::Void {
                Some(LostBy::Void)
            } else {
                None
            }
        }
        None => Some(LostBy::Outside),
    }
}

/// The ring that a data cell is on; none if the codes don't come back to it within as many steps as there are cells.
fn ring_from(
    alloc: Global,
    flows: &CellFlows,
    shape: Shape,
    first: Cell,
) -> Result<Option<EndlessPath>, OutOfMemory>
    requires counted { length flows.now ≡ shape.rows * shape.cols }
    requires inside { IsCellOf shape first }
    ensures { IfOk result (λ told. (g : Grid) → (ps : Products) → AreKnownFlows g ps shape flows.now → HasData g first → MatchOption told (IsOnNoRing g ps first) (IsRing g ps first)) }
{
    let mut cells = Vec::with_capacity(alloc, RING_TOLD)?;
    let mut here = first;
    for walked in 0..shape.cells() {
        tell(&mut cells, here, walked)?;
        let Way::On(next) = way_of(flows, shape, here) else {
            return Ok(None);
        };
        if next == first {
            let length = walked + 1;
            return Ok(Some(EndlessPath::Ring { cells, length }));
        }
        here = next;
    }
    Ok(None)
}

/// Appends the cell after n steps to those before it, if it is one of the first 20.
fn tell(cells: &mut Vec<Cell>, here: Cell, walked: usize) -> Result<(), OutOfMemory>
    ensures { OnOk result (cells.new.items ≡ told_with walked here cells.old.items) }
{
    if walked >= RING_TOLD {
        return Ok(());
    }
    cells.push(here)?;
    Ok(())
}
