//! The rule of the accumulation at a cell: Accumulation.
//!
//! A cell's accumulation is 1, for the cell, plus that of each data neighbour whose direction names it. It is a crate
//! of its own because no other rule adds numbers up. One call looks at one cell and takes no memory.
//!
//! Source: flow accumulation over D8 directions (O'Callaghan and Mark 1984), the cell itself counted; that voids and
//! the outside pass on nothing, whatever their pixels are, is this project's own.
#![tactic(auto)]

ghost use Rattle.std.specs.Prelude.{◌≡◌, ◌↔◌, ◌≤ℤ◌, ◌&&◌, is_some, ◌+ℤ◌, ◌-ℤ◌, drop, map, neg_ℤ, pos};
ghost use Rattle.drain_grid.specs.Direction.{directions, names};
ghost use Rattle.drain_grid.specs.Patch.{IsDataCell, neighbor};
ghost use Rattle.drain_grid.specs.PatchRules.{flow_rules, AccumulationHolds, inflow, total};
ghost use Rattle.drain_grid.specs.Rule.{IsOnly, IsLeastFault};
ghost use Rattle.drain_grid.specs.Values.{IsPixel};

use drain_grid::{CellValues, Direction, Patch, Rule};

/// The rule, if it fails at the cell, none if it holds. A void keeps it.
pub fn fault(patch: &Patch) -> Option<Rule>
    ensures least { IsLeastFault (IsOnly Rule.Accumulation) (flow_rules patch.now) result }
{
    if patch.here.z.is_some() && patch.here.acc != expected(patch) {
        Some(Rule::Accumulation)
    } else {
        None
    }
}

/// The accumulation with which a data cell keeps the rule: 1, and what the data neighbours whose direction names it
/// pass on.
pub fn expected(patch: &Patch) -> i64
    ensures value { result ≡ pos 1 +ℤ total (map (λ d. inflow (neighbor patch.now d) d) directions) }
    ensures keeps { IsDataCell patch.now → AccumulationHolds patch.now ↔ (patch.now.here.acc ≡ result) }
{
    1 + inflows(patch)
}

/// What the neighbours pass on, added up from the last direction to the first.
fn inflows(patch: &Patch) -> i64
    ensures sum { result ≡ total (map (λ d. inflow (neighbor patch.now d) d) directions) }
    ensures low { neg_ℤ (pos 17179869184) ≤ℤ result }
    ensures high { result ≤ℤ pos 34359738360 }
{
    let sum = last_inflows(patch);
    let sum = with_inflow(patch, Direction::SouthWest, sum);
    let sum = with_inflow(patch, Direction::South, sum);
    let sum = with_inflow(patch, Direction::SouthEast, sum);
    with_inflow(patch, Direction::East, sum)
}

/// The part of the last four directions.
fn last_inflows(patch: &Patch) -> i64
    ensures sum { result ≡ total (map (λ d. inflow (neighbor patch.now d) d) (drop 4 directions)) }
    ensures low { neg_ℤ (pos 8589934592) ≤ℤ result }
    ensures high { result ≤ℤ pos 17179869180 }
{
    let sum = with_inflow(patch, Direction::NorthEast, 0);
    let sum = with_inflow(patch, Direction::North, sum);
    let sum = with_inflow(patch, Direction::NorthWest, sum);
    with_inflow(patch, Direction::West, sum)
}

/// The sum so far, with what the neighbour in this direction passes on.
fn with_inflow(patch: &Patch, direction: Direction, sum: i64) -> i64
    requires low { neg_ℤ (pos 34359738368) ≤ℤ sum }
    requires high { sum ≤ℤ pos 34359738368 }
    ensures sum { result ≡ inflow (neighbor patch.now direction) direction +ℤ sum }
    ensures low { (sum -ℤ pos 2147483648) ≤ℤ result }
    ensures high { result ≤ℤ (sum +ℤ pos 4294967295) }
{
    inflow(patch, direction) + sum
}

/// What the neighbour in this direction passes on: its accumulation, if its direction leads back here.
fn inflow(patch: &Patch, direction: Direction) -> i64
    ensures handed_on { result ≡ inflow (neighbor patch.now direction) direction }
    ensures pixel { IsPixel result }
{
    match patch.neighbor(direction) {
        Some(values) if leads(&values, direction.opposite()) => accumulation(&values),
        _ => 0,
    }
}

/// Whether the values are those of a data cell whose direction is this.
fn leads(values: &CellValues, direction: Direction) -> bool
    ensures { result ≡ (is_some values.now.z && names values.now.dir direction) }
{
    values.z.is_some() && values.dir == direction.code()
}

fn accumulation(values: &CellValues) -> i64
    ensures number { result ≡ values.now.acc }
    ensures pixel { IsPixel result }
{
    values.acc
}
