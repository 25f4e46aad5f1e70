//! The longest rows of outlets: that their labels find memory is no clause.

use crate::examples::{accepted, same, verdict_on};
use std::test::Fail;

/// Rows and columns.
static SHAPES: [(&str, u32, u32); 2] = [("a row", 1, 28801), ("a column", 28801, 1)];

/// On a level row each cell is an outlet with a label of its own, from 1 on.
#[test]
fn accepts_the_longest_rows(rt: HostRuntime) -> Result<(), Fail> {
    let mut numbers = Vec::new(rt.alloc());
    for part in 0..6 {
        for cell in 0..28801 {
            let number = match part {
                3 => 1, // acc
                4 => cell + 1, // bas
                _ => 0,
            };
            numbers.push(number)?;
        }
    }
    for &(name, rows, cols) in &SHAPES {
        let verdict = verdict_on(rt.alloc(), rows, cols, &numbers)?;
        same(&rt, name, verdict, accepted(rows, cols, 28801, 0, 28801));
    }
    Ok(())
}
