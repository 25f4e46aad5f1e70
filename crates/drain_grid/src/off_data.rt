//! Listed sinks that are no data cells.

ghost use Rattle.std.specs.Prelude.{◌≡◌, Bool, length};
ghost use Rattle.drain_grid.specs.declared.cell.Cell.{Cell};
ghost use Rattle.drain_grid.specs.OffData.{IsLeastOff};

use crate::cell::Cell;
use crate::sinks::Sinks;

/// Says whether a listed sink has data.
pub trait SinkData {
    /// Whether a cell has data, if it is listed.
    ghost has: { Self → Cell → Bool };

    /// Whether a cell has data, if it is listed. It may lie outside the grid, and then it has none.
    fn has_data(&self, cell: Cell) -> bool
        ensures { result ≡ has self.now cell };
}

/// The least line that lists a cell without data; none if each lists a data cell.
pub fn first_off_data<D: SinkData>(sinks: &Sinks, cells: &D) -> Option<u64>
    ensures { IsLeastOff (D.has cells.now) sinks.now (length sinks.now) result }
{
    let mut least = None;
    for i in 0..sinks.count() {
        let (line, cell) = sinks.entry(i);
        let is_earlier = match least {
            Some(known) => line < known,
            None => true,
        };
        if is_earlier && !cells.has_data(cell) {
            least = Some(line);
        }
    }
    least
}
