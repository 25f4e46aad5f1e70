//! A cell that all its neighbours lead to.

use crate::agree::same_rule;
use drain_accum::fault;
use drain_grid::{CellValues, Patch, Rule, Spacing};
use std::test::Fail;

/// A data cell with this direction and accumulation.
fn cell(dir: i64, acc: i64) -> Option<CellValues> {
    CellValues::new(Some(0), false, 0, dir, acc, 0, 0, 0)
}

/// A data cell with this accumulation that leads nowhere.
fn here(acc: i64) -> Result<CellValues, Fail> {
    match cell(0, acc) {
        Some(values) => Ok(values),
        None => Err("values".into()),
    }
}

/// The patch of a cell with this accumulation, whose eight neighbours lead to it.
fn meeting_place(acc: i64) -> Result<Patch, Fail> {
    Ok(Patch {
        here: here(acc)?,
        around: [
            cell(16, 1),
            cell(32, 1),
            cell(64, 1),
            cell(128, 1),
            cell(1, 1),
            cell(2, 1),
            cell(4, 1),
            cell(8, 1),
        ],
        spacing: Spacing::unit(),
    })
}

#[test]
fn counts_the_cell_and_what_its_neighbors_hand_on(rt: HostRuntime) -> Result<(), Fail> {
    let too_few = Some(Rule::Accumulation);
    same_rule(&rt, "nine", fault(&meeting_place(9)?), None);
    same_rule(&rt, "eight", fault(&meeting_place(8)?), too_few);

    let mut beside_a_void = meeting_place(8)?;
    beside_a_void.around[0] = CellValues::new(None, false, 0, 16, 1, 0, 0, 0);
    same_rule(&rt, "a void hands on nothing", fault(&beside_a_void), None);

    let mut at_the_edge = meeting_place(8)?;
    at_the_edge.around[0] = None;
    same_rule(
        &rt,
        "the outside hands on nothing",
        fault(&at_the_edge),
        None,
    );

    let mut one_leads_away = meeting_place(8)?;
    one_leads_away.around[0] = cell(1, 1);
    let away = fault(&one_leads_away);
    same_rule(&rt, "who leads away hands on nothing", away, None);

    let greatest = Patch {
        here: here(4294967295)?,
        around: [cell(16, 4294967295); 8],
        spacing: Spacing::unit(),
    };
    let one_more = fault(&greatest);
    same_rule(&rt, "one more than 32 bits", one_more, too_few);
    Ok(())
}
