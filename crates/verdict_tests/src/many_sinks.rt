//! Lists of a thousand lines for a level tile of side 34, each of whose cells is an outlet with a label of its own.

use crate::agree::same_line;
use crate::bytes::Bytes;
use crate::example::{Example, tile_on};
use crate::runs::{Checked, told_at_once};
use std::test::Fail;

const GRID: &str =
    "NROWS 34\nNCOLS 34\nULXMAP 0\nULYMAP 1\nXDIM 0.030303030303030\nYDIM 0.030303030303030\n";

/// How many cells there are.
const CELLS: usize = 1156;

/// The level tile: its samples and its products, one product after the other.
fn level() -> Example {
    let mut numbers = [0; 6 * CELLS];
    for (place, number) in numbers.iter_mut().enumerate() {
        *number = match place / CELLS {
            3 => 1,
            4 => (place % CELLS) as i64 + 1,
            _ => 0,
        };
    }
    tile_on(34, "N00E000.hgt", GRID, &numbers)
}

/// A number below 100 in two digits.
fn digits(number: u32) -> [u8; 2] {
    let (tens, ones) = ((number / 10 % 10) as u8, (number % 10) as u8);
    [b'0'.saturating_add(tens), b'0'.saturating_add(ones)]
}

/// Appends the line of a cell to a list.
fn push_cell(list: &mut Bytes, row: u32, col: u32) {
    list.extend(&digits(row));
    list.push(b' ');
    list.extend(&digits(col));
    list.push(b'\n');
}

/// A list of the 1,024 cells off the edge, out of order, without this one; and a line after them.
fn list(left_out: (u32, u32), last: &str) -> Bytes {
    let mut list = Bytes::new();
    for number in 0..1024u32 {
        let place = number.saturating_mul(389) % 1024;
        let row = (place / 32).saturating_add(1);
        let col = (place % 32).saturating_add(1);
        if (row, col) != left_out {
            push_cell(&mut list, row, col);
        }
    }
    list.extend(last.as_bytes());
    list
}

/// The line of the level tile.
const RIGHT: &str = "accepted rows=34 cols=34 data=1156 raised=0 outlets=1156";

/// The cell that is left out, the last line, and the expected line.
static LISTS: [((u32, u32), &str, &str); 10] = [
    ((0, 0), "", RIGHT),
    ((0, 0), "33 33\n0 33\n17 20", RIGHT),
    ((1, 1), "", "rejected rule=12 FlatStep row=1 col=1"),
    ((1, 32), "", "rejected rule=12 FlatStep row=1 col=32"),
    ((17, 20), "", "rejected rule=12 FlatStep row=17 col=20"),
    ((17, 20), "17 20", RIGHT),
    ((32, 32), "", "rejected rule=12 FlatStep row=32 col=32"),
    ((0, 0), "x", "refused BadSinkLine 1025"),
    ((0, 0), "\n33 34", "refused SinkNotData 1026"),
    ((17, 20), "34 0", "refused SinkNotData 1024"),
];

#[test]
fn a_thousand_sinks(rt: HostRuntime) -> Result<(), Fail> {
    let level = level();
    for &(left_out, last, line) in &LISTS {
        let listed = level.with_sinks(list(left_out, last));
        let given = told_at_once(rt.alloc(), Checked::Check, &listed)?;
        same_line(&rt, last, &given, line);
    }
    Ok(())
}
