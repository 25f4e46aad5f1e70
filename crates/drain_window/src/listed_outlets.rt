//! The outlets of the judged cells of a window, listed as a walk passes them.

ghost use Rattle.std.specs.Prelude.{◌+◌, ◌<◌, ◌^◌};
ghost use Rattle.drain_window.specs.Names.{OnErr, OnOk, MAX_LENGTH, IsOutletByCode};
ghost use Rattle.drain_window.specs.JudgedAreas.{Lists};

use drain_grid::{Cell, CellValues, OutOfMemory};
use drain_rules::labels::is_outlet_by_code;
use drain_rules::{Area, Labels};
use drain_union::Outlet;
use std::alloc::Global;

/// The judged area, the union's cell of the grid's first, and the outlets of the area so far, with their cells of the
/// union.
#[derive(Drop)]
pub struct ListedOutlets {
    pub area: Area,
    pub origin: Cell,
    pub outlets: Vec<Outlet>,
    ghost rows_fit: { origin.row + MAX_LENGTH < 2 ^ 32 },
    ghost cols_fit: { origin.col + MAX_LENGTH < 2 ^ 32 },
}

impl ListedOutlets {
    ghost use Rattle.std.specs.Prelude.{◌≡◌, ◌+◌, ◌<◌, ◌^◌};
    ghost use Rattle.drain_window.specs.Names.{[], MAX_LENGTH};

    /// No outlet was passed. This takes no memory.
    pub fn new(alloc: Global, area: Area, origin: Cell) -> ListedOutlets
        requires rows_fit { origin.row + MAX_LENGTH < 2 ^ 32 }
        requires cols_fit { origin.col + MAX_LENGTH < 2 ^ 32 }
        ensures area { result.area ≡ area }
        ensures origin { result.origin ≡ origin }
        ensures none { result.outlets.items ≡ [] }
    {
        ListedOutlets {
            area,
            origin,
            outlets: Vec::new(alloc),
        }
    }
}

impl Labels for ListedOutlets {
    ghost use Rattle.std.specs.Prelude.{false};
    ghost use Rattle.drain_window.specs.JudgedAreas.{AddsOutlet, AreListed};
    ghost use Rattle.drain_window.specs.Laws.{listed-more, listed-passed, not_compared};

    ghost compares = { false };

    ghost judges = { λ listed. listed.area };

    ghost are_before = { λ g ps place listed. AreListed listed.area listed.origin g ps place listed.outlets.items };

    ghost is_new = { λ listed here. Unit {0} };

    ghost adds = { λ here cell old new. AddsOutlet here cell old.area new.area old.origin new.origin old.outlets.items new.outlets.items };

    ghost one_more = { λ g ps row col here old new inside judged is adds before.
        listed-more g ps row col here old.area new.area old.origin new.origin old.outlets.items new.outlets.items inside judged is adds before };

    ghost passed = { λ g ps p q listed narrow p_few q_few same before. listed-passed listed.area listed.origin g ps p q listed.outlets.items same before };

    ghost tells_shared = { λ g ps c listed compared inside before. not_compared compared };

    ghost of_all = { λ listed compared. not_compared compared };

    fn area(&self) -> Area {
        self.area
    }

    fn keep(&mut self, here: &CellValues, cell: Cell) -> Result<bool, OutOfMemory> {
        let at = Cell {
            row: self.origin.row + cell.row,
            col: self.origin.col + cell.col,
        };
        list_outlet(here, at, &mut self.outlets)?;
        Ok(true)
    }
}

/// Lists a cell with these values if it is an outlet by its code.
fn list_outlet(here: &CellValues, cell: Cell, outlets: &mut Vec<Outlet>) -> Result<(), OutOfMemory>
    ensures lists { OnOk result (Lists here.now cell outlets.old.items outlets.new.items) }
    ensures err { OnErr result (IsOutletByCode here.now) }
{
    if is_outlet_by_code(here) {
        outlets.push(Outlet {
            label: here.bas,
            cell,
        })?;
    }
    Ok(())
}
