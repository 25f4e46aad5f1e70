//! The check of a fill input: rules 4 to 9 at each cell in row order. An inland cell is tested by its numbers in place,
//! and any other by its patch, as is one that this test doesn't pass.

ghost use Rattle.std.specs.Prelude.{◌<◌};
ghost use Rattle.drain_rules.specs.Names.{IfOk, IfErr, IsTrue, fill_rules, IsInside, patch_at, IsFillRule, IsLeastFault};
ghost use Rattle.drain_grid.specs.Path.{IsLeastSurface, ShowsSpillLevels};
ghost use Rattle.drain_rules.specs.Fill.{fill_grid, fill_products, IsFillAnswer, IsFillVerdict, OnAccepted};
ghost use Rattle.drain_rules.specs.Verdicts.{parts_grid, parts_products};
ghost use Rattle.drain_rules.specs.Places.{IsInland};
ghost use Rattle.drain_rules.specs.Rows.{IsRowTally, IsRowFault};

use crate::fill_inland::{has_data_across, keeps_inland};
use crate::fill_input::{FillInput, fill_length};
use crate::walk::Tally;
use drain_fill::fault;
use drain_grid::laws::least_from_rules;
use drain_grid::tile::is_side;
use drain_grid::{Cell, CellSource, FillCounts, FillRefusal, FillVerdict, Patch, Rule};

/// The first of rules 4 to 9 that fails in a row, and where.
#[derive(Clone, Copy)]
pub struct RowFault {
    pub rule: Rule,
    pub col: u32,
}

/// The first of rules 4 to 9 that fails at a cell, none if they all hold. A patch is looked at only at a data cell where
/// the quick test of an inland one doesn't show that they do.
fn fault_at(input: &FillInput<'_>, cell: Cell, is_inland: bool) -> Option<Rule>
    requires inside { IsInside (parts_grid input.now) cell }
    requires inland { IsTrue is_inland → IsInland (parts_grid input.now) cell }
    ensures least { IsLeastFault IsFillRule (fill_rules (patch_at (parts_grid input.now) (parts_products input.now) cell)) result }
{
    if is_inland && keeps_inland(input, cell) {
        None
    } else if input.has_data(input.place(cell)) {
        patch_fault(input, cell)
    } else {
        None
    }
}

/// The same by its patch. It is no part of the loop over cells, so that only a cell that needs a patch pays for one.
#[inline(never)]
fn patch_fault(input: &FillInput<'_>, cell: Cell) -> Option<Rule>
    requires inside { IsInside (parts_grid input.now) cell }
    ensures least { IsLeastFault IsFillRule (fill_rules (patch_at (parts_grid input.now) (parts_products input.now) cell)) result }
{
    fault(&Patch::at(input, cell))
}

/// Tests rules 4 to 9 at the cells of a row, from west to east.
fn check_fill_row(input: &FillInput<'_>, row: u32) -> Result<Tally, RowFault>
    requires { row < input.now.shape.rows }
    ensures tally { IfOk result (IsRowTally fill_rules IsFillRule (parts_grid input.now) (parts_products input.now) row) }
    ensures fault { IfErr result (λ fault. IsRowFault fill_rules IsFillRule (parts_grid input.now) (parts_products input.now) row fault.col fault.rule) }
{
    let mut tally = Tally::new();
    let mut west = false;
    let mut here = has_data_across(input, row, 0);
    for col in 0..input.side() {
        let cell = Cell { row, col };
        let east = has_data_across(input, row, col + 1);
        if let Some(rule) = fault_at(input, cell, west & here & east) {
            return Err(RowFault { rule, col });
        }
        tally.add(&input.values(cell));
        west = here;
        here = east;
    }
    Ok(tally)
}

/// Tests rules 4 to 9 at each cell in row order.
fn fill_verdict(input: &FillInput<'_>) -> FillVerdict
    ensures { IsFillVerdict (parts_grid input.now) (parts_products input.now) result }
{
    let side = input.side();
    let mut total = Tally::new();
    for row in 0..side {
        match check_fill_row(input, row) {
            Ok(tally) => total.join(tally),
            Err(fault) => {
                return FillVerdict::Rejected {
                    rule: fault.rule,
                    row,
                    col: fault.col,
                };
            }
        }
    }
    FillVerdict::Accepted(FillCounts {
        rows: side,
        cols: side,
        data_cells: total.data_cells,
        raised: total.raised,
    })
}

/// The verdict on a fill input, or why there is none.
///
/// `side` is the number of samples along an edge of the tile, from 2 to 3601. The input is exactly nine bytes per cell:
/// the tile (two bytes per cell), the conditioned elevations (two, signed), the spill parents' codes (one) and the
/// ranks (four), each part row after row, most significant byte first. It takes no memory.
pub fn check_fill(side: u32, bytes: &[u8]) -> Result<FillVerdict, FillRefusal>
    ensures answer { IsFillAnswer side bytes.now result }

    // An accepted `con` is the filled surface.
    ensures spill_level { OnAccepted result (ShowsSpillLevels (fill_grid side bytes.now) (fill_products side bytes.now).con) }
    ensures least { OnAccepted result (IsLeastSurface (fill_grid side bytes.now) (fill_products side bytes.now).con) }
{
    if !is_side(side) {
        return Err(FillRefusal::BadSide);
    }
    if bytes.len() != fill_length(side) {
        return Err(FillRefusal::BadLength);
    }
    // The law that turns rules kept at every cell into the filled surface.
    least_from_rules();
    Ok(fill_verdict(&FillInput::new(side, bytes)))
}
