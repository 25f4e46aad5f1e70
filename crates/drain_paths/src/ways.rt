//! Where the code of a cell leads, from flows alone.

ghost use Rattle.std.specs.Prelude.{◌≡◌, ◌≢◌, ◌<◌, ◌≤◌, ◌*◌};
ghost use Rattle.drain_paths.specs.Names.{List, length, slice_index_or, IfSome, Some, Direction, rows_down, cols_right, IsCellOf, Grid, Products, HasData, next};
ghost use Rattle.drain_paths.specs.declared.flow.Flow.{Flow};
ghost use Rattle.drain_paths.specs.declared.flow.Flow.TheVariants.{Void};
ghost use Rattle.drain_paths.specs.Flows.{direction_of, flow_at, OfFlows};
ghost use Rattle.drain_paths.specs.Walks.{AreKnownFlows, IsKnownWay, IsWayOfFlows, IsWayWithin, stepped};

use crate::flow::{Flow, Way};
use drain_grid::{Cell, Shape};

/// The flow of each cell of a grid, in row order.
pub trait Ways {
    /// The flows.
    ghost flows: { Self → List Flow };

    /// The flow of the cell with this many cells before it.
    fn flow(&self, place: usize) -> Flow
        requires { place < length (flows self.now) }
        ensures { result ≡ slice_index_or (flows self.now) place Void };
}

/// Flows in a slice.
#[derive(Clone, Copy)]
pub struct ListedFlows<'a> {
    pub flows: &'a [Flow],
}

impl Ways for ListedFlows<'_> {
    ghost flows = { λ w. w.flows.now };

    #[inline(always)]
    fn flow(&self, place: usize) -> Flow {
        self.flows[place]
    }
}

/// The data cell to which the code of a data cell leads, none if it leads to none.
#[inline(always)]
pub(crate) fn next_of<W: Ways>(ways: &W, shape: Shape, cell: Cell) -> Option<Cell>
    requires counted { length (W.flows ways.now) ≡ shape.rows * shape.cols }
    requires inside { IsCellOf shape cell }
    ensures inside { IfSome result (IsCellOf shape) }
    ensures has_data { IfSome result (λ n. flow_at shape (W.flows ways.now) n ≢ Void) }
    ensures leads { OfFlows shape (W.flows ways.now) (λ g ps. HasData g cell → next g ps cell ≡ result) }
{
    match way_of(ways, shape, cell) {
        Way::Ends => None,
        Way::On(ahead) => Some(ahead),
        Way::Lost => None,
    }
}

/// The way from a data cell, from flows of which some may only record that a run ends.
#[inline(always)]
pub(crate) fn way_of<W: Ways>(ways: &W, shape: Shape, cell: Cell) -> Way
    requires counted { length (W.flows ways.now) ≡ shape.rows * shape.cols }
    requires inside { IsCellOf shape cell }
    ensures inside { IsWayWithin shape result }
    ensures flows { IsWayOfFlows shape (W.flows ways.now) cell result }
    ensures way { (g : Grid) → (ps : Products) → AreKnownFlows g ps shape (W.flows ways.now) → HasData g cell → IsKnownWay g ps cell result }
{
    let here = ways.flow(shape.index(cell));
    if here == Flow::Ends {
        return Way::Ends;
    }
    if here.direction().is_none() {
        return Way::Lost;
    }
    match step_by(shape, cell, down(here), right(here)) {
        Some(ahead) => {
            if ways.flow(shape.index(ahead)) == Flow::Void {
                Way::Lost
            } else {
                Way::On(ahead)
            }
        }
        None => Way::Lost,
    }
}

/// The cell `down - 1` rows down and `right - 1` columns right; none outside the grid.
fn step_by(shape: Shape, cell: Cell, down: u64, right: u64) -> Option<Cell>
    requires few_down { down ≤ 2 }
    requires few_right { right ≤ 2 }
    ensures place { result ≡ stepped shape cell down right }
    ensures inside { IfSome result (IsCellOf shape) }
{
    let row = cell.row as u64 + down;
    let col = cell.col as u64 + right;
    if 0 < row && row - 1 < shape.rows() as u64 && 0 < col && col - 1 < shape.cols() as u64 {
        Some(Cell {
            row: (row - 1) as u32,
            col: (col - 1) as u32,
        })
    } else {
        None
    }
}

/// One more than the rows that the flow goes down, from a table: which way a cell leads is unpredictable, so a branch
/// on it would be slow.
fn down(flow: Flow) -> u64
    ensures few { result ≤ 2 }
    ensures rows { (d : Direction) → direction_of flow ≡ Some d → result ≡ rows_down d }
{
    const ROWS: [u64; 11] = [1, 1, 1, 1, 2, 2, 2, 1, 0, 0, 0];
    ROWS[flow as usize]
}

/// One more than the columns that the flow goes right.
fn right(flow: Flow) -> u64
    ensures few { result ≤ 2 }
    ensures cols { (d : Direction) → direction_of flow ≡ Some d → result ≡ cols_right d }
{
    const COLS: [u64; 11] = [1, 1, 1, 2, 2, 1, 0, 0, 0, 1, 2];
    COLS[flow as usize]
}

/// The flow of the cell with this many cells before it.
pub(crate) fn flow_of_place(flows: &[Flow], place: usize) -> Flow
    requires { place < length flows.now }
    ensures { result ≡ slice_index_or flows.now place Void }
{
    flows[place]
}
