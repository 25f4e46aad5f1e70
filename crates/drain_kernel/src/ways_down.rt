//! Whether a code leads down the steepest way between cells of any width and height: of whole heights without a branch.

ghost use Rattle.std.specs.Prelude.{◌≡◌, ◌&&◌, ◌==◌, Bool, false, true};
ghost use Rattle.drain_kernel.specs.Eights.{eight};
ghost use Rattle.drain_kernel.specs.Slopes.{AreSound, falls_by_fractions, falls_by_heights, falls_down, goes_by_fractions, is_no_steeper_by_key, is_unit, is_whole, keeps_way_down};

use crate::around::{
    Eight, is_along_col, is_along_row, is_direction, is_straight, least_across, least_along_col,
    least_along_row, named_height,
};
use crate::cells::{falls_steepest, steps_along};
use crate::lane_height::LaneHeight;
use crate::slopes::Slopes;
use drain_grid::{Direction, HeightKind, Spacing};
use drain_slope::singles::is_steeper;

impl Slopes {
    /// Whether heights are whole.
    #[inline(always)]
    pub(crate) fn are_whole(&self) -> bool
        ensures { result ≡ is_whole self.now.spacing.kind }
    {
        match self.spacing.kind {
            HeightKind::Whole => true,
            HeightKind::Single => false,
        }
    }

    /// Whether they are, and width and height are 1.
    #[inline(always)]
    pub(crate) fn are_unit(&self) -> bool
        ensures { result ≡ is_unit self.now.spacing }
    {
        self.are_whole() & ((self.spacing.width == 1) & (self.spacing.height == 1))
    }

    /// What is known of the fractions.
    pub(crate) fn tell(&self)
        ensures { AreSound self.now }
    {
        let _spacing = self.spacing.distance_square(Direction::East);
    }
}

/// Whether the code leads to a lower cell, and by the fractions no way of another class is steeper.
#[inline(always)]
#[tactic(auto, unfolding(crate::specs::Slopes::falls_by))]
fn falls_by_fractions<H: LaneHeight>(slopes: &Slopes, con: H, code: u16, cons: Eight<H>) -> bool
    ensures { result ≡ falls_by_fractions slopes.now (H.number con) code (eight H.number cons) }
{
    let next = named_height(code, cons);
    let row = least_along_row(cons);
    let col = least_along_col(cons);
    let corner = least_across(cons);
    let along = con.drop_to(row);
    let down = con.drop_to(col);
    let aslant = con.drop_to(corner);
    let least_along = down.is_no_steeper(along, slopes.col_row)
        & aslant.is_no_steeper(along, slopes.corner_row);
    let least_down = along.is_no_steeper(down, slopes.row_col)
        & aslant.is_no_steeper(down, slopes.corner_col);
    let least_aslant = along.is_no_steeper(aslant, slopes.row_corner)
        & down.is_no_steeper(aslant, slopes.col_corner);
    let goes_along = (is_along_row(code) & next.is_same(row)) & least_along;
    let goes_down = (is_along_col(code) & next.is_same(col)) & least_down;
    let goes_aslant = (!is_straight(code) & next.is_same(corner)) & least_aslant;
    next.is_below(con) & ((goes_along | goes_down) | goes_aslant)
}

/// A way in a direction to a number of a lane.
#[derive(Clone, Copy)]
struct Way<H> {
    direction: Direction,
    number: H,
}

/// Whether one way is no steeper than another, of floats, exactly.
fn is_no_steeper<H: LaneHeight>(spacing: &Spacing, con: H, way: Way<H>, other: Way<H>) -> bool
    ensures { result ≡ is_no_steeper_by_key H.bias spacing.now (H.number con) way.direction (H.number way.number) other.direction (H.number other.number) }
{
    if con.is_at_most(way.number) {
        return true;
    }
    if con.is_at_most(other.number) {
        return false;
    }
    !is_steeper(
        con.height(),
        way.number.height(),
        other.number.height(),
        spacing.distance_square(way.direction),
        spacing.distance_square(other.direction),
    )
}

/// Whether a code of this class leads to the least number of its class, and no way of the two others is steeper, of floats.
#[inline(always)]
fn leads_least<H: LaneHeight>(
    spacing: &Spacing,
    con: H,
    leads: bool,
    class: Way<H>,
    first: Way<H>,
    second: Way<H>,
) -> bool
    ensures { result ≡ (leads && (is_no_steeper_by_key H.bias spacing.now (H.number con) first.direction (H.number first.number) class.direction (H.number class.number) && is_no_steeper_by_key H.bias spacing.now (H.number con) second.direction (H.number second.number) class.direction (H.number class.number))) }
{
    leads && is_no_steeper(spacing, con, first, class) && is_no_steeper(spacing, con, second, class)
}

/// Whether the code leads to a lower cell, and no way of another class is steeper, of floats.
#[tactic(auto, unfolding(crate::specs::Slopes::falls_by))]
fn falls_by_heights<H: LaneHeight>(spacing: &Spacing, con: H, code: u16, cons: Eight<H>) -> bool
    ensures { result ≡ falls_by_heights H.bias spacing.now (H.number con) code (eight H.number cons) }
{
    let next = named_height(code, cons);
    let row = Way {
        direction: Direction::East,
        number: least_along_row(cons),
    };
    let col = Way {
        direction: Direction::South,
        number: least_along_col(cons),
    };
    let corner = Way {
        direction: Direction::SouthEast,
        number: least_across(cons),
    };
    let along = is_along_row(code) & next.is_same(row.number);
    let down = is_along_col(code) & next.is_same(col.number);
    let aslant = !is_straight(code) & next.is_same(corner.number);
    let goes_along = leads_least(spacing, con, along, row, col, corner);
    let goes_down = leads_least(spacing, con, down, col, row, corner);
    let goes_aslant = leads_least(spacing, con, aslant, corner, row, col);
    next.is_below(con) & ((goes_along | goes_down) | goes_aslant)
}

/// Whether the code leads down the steepest way.
#[inline(always)]
pub(crate) fn falls_down<H: LaneHeight>(slopes: &Slopes, con: H, code: u16, cons: Eight<H>) -> bool
    ensures { result ≡ falls_down H.bias slopes.now (H.number con) code (eight H.number cons) }
{
    if slopes.are_unit() {
        falls_steepest(con, code, cons)
    } else if slopes.are_whole() {
        falls_by_fractions(slopes, con, code, cons)
    } else {
        falls_by_heights(&slopes.spacing, con, code, cons)
    }
}

/// Whether the code leads down the steepest way by the fractions, or along the flat.
#[inline(always)]
pub(crate) fn goes_by_fractions<H: LaneHeight>(
    slopes: &Slopes,
    con: H,
    code: u16,
    cons: Eight<H>,
) -> bool
    ensures { result ≡ goes_by_fractions slopes.now (H.number con) code (eight H.number cons) }
{
    let goes = falls_by_fractions(slopes, con, code, cons) | steps_along(con, code, cons);
    is_direction(code) & goes
}

/// The rules of the direction, without ranks, at a cell where all have data; of whole heights of cells that aren't square.
#[inline(always)]
pub(crate) fn keeps_by_fractions<H: LaneHeight>(
    slopes: &Slopes,
    con: H,
    code: u16,
    cons: Eight<H>,
) -> bool
    requires not_unit { is_unit slopes.now.spacing ≡ false }
    requires whole { is_whole slopes.now.spacing.kind ≡ true }
    ensures { result ≡ keeps_way_down H.bias slopes.now (H.number con) code (eight H.number cons) }
{
    goes_by_fractions(slopes, con, code, cons)
}

/// The same of floats.
#[inline(always)]
pub(crate) fn keeps_by_heights<H: LaneHeight>(
    slopes: &Slopes,
    con: H,
    code: u16,
    cons: Eight<H>,
) -> bool
    requires floats { is_whole slopes.now.spacing.kind ≡ false }
    ensures { result ≡ keeps_way_down H.bias slopes.now (H.number con) code (eight H.number cons) }
{
    is_direction(code)
        && (steps_along(con, code, cons) || falls_by_heights(&slopes.spacing, con, code, cons))
}
