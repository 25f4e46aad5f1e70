//! The rules on slopes at a cell, Slope and OutletCode, and the first of the steepest ways down.
//!
//! Slopes are compared by whole numbers. The square of the slope of a drop `d` over a distance `l` is `d * d / (l * l)`,
//! and two fractions compare as their products across. Pixels run from -2147483648 to 4294967295 and distances up to
//! 2^30, so a product can need 127 bits. The definition has no fraction: a direction's key is the square of its drop
//! times a weight in proportion to `1 / (l * l)`, and `is_steeper` compares keys without computing them. One call looks
//! at one cell and takes no memory.
//!
//! Source: the steepest of eight neighbours with the diagonal at root two is D8 (O'Callaghan and Mark 1984). The keys,
//! the order among equals and the rules' wording are this project's own.
#![tactic(auto)]

ghost use Rattle.std.specs.Prelude.{◌≡◌, ◌↔◌, ◌<◌, ◌≤◌, ◌*◌, ◌^◌, ◌<ℤ◌};
ghost use Rattle.drain_slope.specs.Names.{pos, IsTrue, Some, Names, IsDataCell, IsOpen, IsSteepest, IsFirstSteepest, IsSpacing, IsPixel};
ghost use Rattle.drain_grid.specs.PatchRules.{flow_rules};
ghost use Rattle.drain_grid.specs.Rule.{IsSlopeRule, IsLeastFault};
ghost use Rattle.drain_grid.specs.declared.height_kind.HeightKind.{HeightKind};
ghost use Rattle.drain_slope.specs.Key.{IsFirstGreatest, IsLowerCon, con_below, drop_at, drop_of, key_at};

pub mod fraction;
pub mod in_unit;
pub mod singles;
pub mod terms;

use drain_grid::{CellValues, Direction, HeightKind, Patch, Rule};

/// The first of the steepest lower neighbours, in the order of directions; none if no neighbour is lower, and at a
/// void.
pub fn steepest(patch: &Patch) -> Option<Direction>
    ensures { IsFirstSteepest patch.now result }
{
    distances_are_valid(patch);
    let first = first_greatest(patch);
    if has_data(patch) && leads_down(patch, first) {
        Some(first)
    } else {
        None
    }
}

/// Whether the cell has an elevation.
fn has_data(patch: &Patch) -> bool
    ensures { IsTrue result ↔ IsDataCell patch.now }
{
    patch.here.z.is_some()
}

/// The first of the two rules that fails at the cell, none if they both hold. A void keeps them both.
pub fn fault(patch: &Patch) -> Option<Rule>
    ensures least { IsLeastFault IsSlopeRule (flow_rules patch.now) result }
{
    match steepest(patch) {
        Some(steepest) => {
            if leads_steepest(patch, steepest) {
                None
            } else {
                Some(Rule::Slope)
            }
        }
        None => {
            if keeps_outlet_code(patch) {
                None
            } else {
                Some(Rule::OutletCode)
            }
        }
    }
}

/// Whether the cell is not open, or has the code of an outlet.
fn keeps_outlet_code(patch: &Patch) -> bool
    ensures { IsTrue result ↔ (IsOpen patch.now → patch.now.here.dir ≡ pos 0) }
{
    patch.here.dir == 0 || !patch.is_open()
}

/// Whether the code names a steepest direction: one that is as steep as this steepest one.
fn leads_steepest(patch: &Patch, steepest: Direction) -> bool
    requires { IsFirstSteepest patch.now (Some steepest) }
    ensures { IsTrue result ↔ ((d : Direction) × Names patch.now.here.dir d × IsSteepest patch.now d) }
{
    match patch.here.direction() {
        Some(direction) => is_as_steep(patch, direction, steepest),
        None => false,
    }
}

/// Whether a direction is as steep as a steepest one.
fn is_as_steep(patch: &Patch, direction: Direction, steepest: Direction) -> bool
    requires { IsFirstSteepest patch.now (Some steepest) }
    ensures { IsTrue result ↔ IsSteepest patch.now direction }
{
    distances_are_valid(patch);
    !is_steeper(patch, steepest, direction)
}

/// The first of the directions with the greatest key.
fn first_greatest(patch: &Patch) -> Direction
    ensures { IsFirstGreatest patch.now result }
{
    let mut greatest = Direction::East;
    for direction in Direction::ALL {
        if is_steeper(patch, direction, greatest) {
            greatest = direction;
        }
    }
    greatest
}

/// Whether the way in the first direction is steeper than that in the second. A way that isn't down is as steep as
/// none.
pub fn is_steeper(patch: &Patch, first: Direction, second: Direction) -> bool
    ensures { IsTrue result ↔ (key_at patch.now second <ℤ key_at patch.now first) }
{
    match patch.spacing.kind {
        HeightKind::Whole => is_steeper_by_drops(patch, first, second),
        HeightKind::Single => is_steeper_by_heights(patch, first, second),
    }
}

/// The same for whole heights.
fn is_steeper_by_drops(patch: &Patch, first: Direction, second: Direction) -> bool
    requires { patch.now.spacing.kind ≡ HeightKind.Whole }
    ensures { IsTrue result ↔ (key_at patch.now second <ℤ key_at patch.now first) }
{
    let over = patch.spacing.distance_square(first);
    let other_over = patch.spacing.distance_square(second);
    is_less(drop(patch, second), over, drop(patch, first), other_over)
}

/// The same for floats.
fn is_steeper_by_heights(patch: &Patch, first: Direction, second: Direction) -> bool
    requires { patch.now.spacing.kind ≡ HeightKind.Single }
    ensures { IsTrue result ↔ (key_at patch.now second <ℤ key_at patch.now first) }
{
    let over = patch.spacing.distance_square(first);
    let other_over = patch.spacing.distance_square(second);
    match (lower_con(patch, first), lower_con(patch, second)) {
        (None, _) => false,
        (Some(_), None) => true,
        (Some(there), Some(other)) => {
            singles::is_steeper(con_here(patch), there, other, over, other_over)
        }
    }
}

/// The number at the cell.
fn con_here(patch: &Patch) -> i64
    ensures is { result ≡ patch.now.here.con }
    ensures pixel { IsPixel result }
{
    patch.here.con
}

/// The number of a lower neighbour in this direction, if there is one.
fn lower_con(patch: &Patch, direction: Direction) -> Option<i64>
    ensures { IsLowerCon patch.now direction result }
{
    match patch.neighbor(direction) {
        Some(there) => con_below(patch, &there),
        None => None,
    }
}

/// The con of these values, if they are those of a data cell lower than the patch's own.
pub fn con_below(patch: &Patch, there: &CellValues) -> Option<i64>
    ensures { result ≡ con_below patch.now there.now }
{
    if there.z.is_some() && there.con < patch.here.con {
        Some(there.con)
    } else {
        None
    }
}

/// Whether a lower neighbour lies in this direction.
fn leads_down(patch: &Patch, direction: Direction) -> bool
    ensures { IsTrue result ↔ (pos 0 <ℤ drop_at patch.now direction) }
{
    lower_con(patch, direction).is_some()
}

/// Whether the square of a drop times that of a distance is less than another such product.
pub(crate) fn is_less(
    drop: u64,
    distance_square: u64,
    other_drop: u64,
    other_distance_square: u64,
) -> bool
    requires drop { drop < 2 ^ 33 }
    requires other_drop { other_drop < 2 ^ 33 }
    requires distance { distance_square ≤ 2 ^ 61 }
    requires other_distance { other_distance_square ≤ 2 ^ 61 }
    ensures { IsTrue result ↔ ((drop * drop) * distance_square < (other_drop * other_drop) * other_distance_square) }
{
    product(drop, distance_square) < product(other_drop, other_distance_square)
}

/// The square of a drop times that of a distance.
fn product(drop: u64, distance_square: u64) -> u128
    requires drop { drop < 2 ^ 33 }
    requires distance { distance_square ≤ 2 ^ 61 }
    ensures { result ≡ (drop * drop) * distance_square }
{
    let square = drop as u128 * drop as u128;
    square * distance_square as u128
}

/// The drop in this direction between whole heights, 0 if no neighbour there is lower.
pub fn drop(patch: &Patch, direction: Direction) -> u64
    requires whole { patch.now.spacing.kind ≡ HeightKind.Whole }
    ensures is { pos result ≡ drop_at patch.now direction }
    ensures few { result < 2 ^ 33 }
{
    match patch.neighbor(direction) {
        Some(there) => drop_to(patch, &there),
        None => 0,
    }
}

/// The drop to these values, 0 if they are not those of a lower data cell.
fn drop_to(patch: &Patch, there: &CellValues) -> u64
    requires whole { patch.now.spacing.kind ≡ HeightKind.Whole }
    ensures is { pos result ≡ drop_of patch.now (Some there.now) }
    ensures few { result < 2 ^ 33 }
{
    if there.z.is_some() && there.con < patch.here.con {
        (patch.here.con - there.con) as u64
    } else {
        0
    }
}

/// The distances of a patch are valid.
fn distances_are_valid(patch: &Patch)
    ensures { IsSpacing patch.now.spacing }
{
    let _width = patch.spacing.width;
}
