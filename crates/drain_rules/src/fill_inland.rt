//! A quick test of rules 4 to 9 at an inland cell: one that is on no edge, and beside no void. It copies no patch, and
//! reads only the numbers that it compares.

ghost use Rattle.std.specs.Prelude.{◌≡◌, ◌<◌, ◌≤ℤ◌, ◌<ℤ◌, ◌*◌, ◌⊎◌};
ghost use Rattle.drain_rules.specs.Names.{IsTrue, None, int_max, patch_at, fill_rules, IsFillRule, IsLeastFault, Names};
ghost use Rattle.drain_rules.specs.Fill.{con_at, rnk_at, sample_at, spl_at};
ghost use Rattle.drain_rules.specs.Places.{HasDataAcross, HasPlacesRound, IsInland, IsNoneLower};
ghost use Rattle.drain_rules.specs.Verdicts.{parts_grid, parts_products};

use crate::fill_input::FillInput;
use drain_grid::{Cell, Direction};

/// Whether the cell of this row and column and the two above and below it are in the grid, and have data.
pub fn has_data_across(input: &FillInput<'_>, row: u32, col: u32) -> bool
    requires { row < input.now.shape.rows }
    ensures { IsTrue result → HasDataAcross (parts_grid input.now) row col }
{
    let side = input.side();
    if row == 0 || row + 1 == side || side <= col {
        return false;
    }
    let here = input.place(Cell { row, col });
    let north = here - side as usize;
    let south = here + side as usize;
    input.has_data(north) & input.has_data(here) & input.has_data(south)
}

/// Whether the inland cell keeps the rules.
pub fn keeps_inland(input: &FillInput<'_>, cell: Cell) -> bool
    requires { IsInland (parts_grid input.now) cell }
    ensures { IsTrue result → IsLeastFault IsFillRule (fill_rules (patch_at (parts_grid input.now) (parts_products input.now) cell)) None }
{
    let place = input.place(cell);
    let direction = likely_direction(input.code(place));
    let parent = input.place_beside(place, direction);
    names(input, place, direction)
        & is_raised_to(input, place, parent)
        & is_after(input, place, parent)
        & is_least(input, place)
}

/// The direction of a code, and any direction of a number that is none.
fn likely_direction(code: u8) -> Direction {
    Direction::ALL[(code.trailing_zeros() % 8) as usize]
}

/// Whether the spill parent's code is that of the direction.
fn names(input: &FillInput<'_>, place: usize, direction: Direction) -> bool
    requires { place < input.now.shape.rows * input.now.shape.rows }
    ensures { IsTrue result → Names (spl_at input.now.shape.rows input.now.bytes.now place) direction }
{
    i64::from(input.code(place)) == direction.code()
}

/// Whether the cell is raised to its spill parent, and no further.
fn is_raised_to(input: &FillInput<'_>, place: usize, parent: usize) -> bool
    requires place { place < input.now.shape.rows * input.now.shape.rows }
    requires parent { parent < input.now.shape.rows * input.now.shape.rows }
    ensures { IsTrue result → con_at input.now.shape.rows input.now.bytes.now place ≡ int_max (sample_at input.now.bytes.now place) (con_at input.now.shape.rows input.now.bytes.now parent) }
{
    input.con(place) == input.sample(place).max(input.con(parent))
}

/// Whether the spill parent has a smaller rank.
fn is_after(input: &FillInput<'_>, place: usize, parent: usize) -> bool
    requires place { place < input.now.shape.rows * input.now.shape.rows }
    requires parent { parent < input.now.shape.rows * input.now.shape.rows }
    ensures { IsTrue result → rnk_at input.now.shape.rows input.now.bytes.now parent <ℤ rnk_at input.now.shape.rows input.now.bytes.now place }
{
    input.rank(parent) < input.rank(place)
}

/// Whether the cell is not above its ground, or no neighbour has a smaller conditioned elevation.
fn is_least(input: &FillInput<'_>, place: usize) -> bool
    requires { HasPlacesRound input.now.shape.rows place }
    ensures { IsTrue result → (con_at input.now.shape.rows input.now.bytes.now place ≤ℤ sample_at input.now.bytes.now place) ⊎ IsNoneLower input.now.shape.rows input.now.bytes.now place (con_at input.now.shape.rows input.now.bytes.now place) }
{
    let con = input.con(place);
    con <= input.sample(place) || is_none_lower(input, place, con)
}

/// Whether no neighbour has a smaller conditioned elevation than this.
fn is_none_lower(input: &FillInput<'_>, place: usize, con: i16) -> bool
    requires { HasPlacesRound input.now.shape.rows place }
    ensures { IsTrue result → IsNoneLower input.now.shape.rows input.now.bytes.now place con }
{
    for direction in Direction::ALL {
        if input.con(input.place_beside(place, direction)) < con {
            return false;
        }
    }
    true
}
