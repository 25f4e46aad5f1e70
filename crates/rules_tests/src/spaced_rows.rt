//! Which cells of three long rows lanes clear where cells aren't square, or between floats.

use crate::examples::{Part, equal};
use crate::given_rows::{COLS, level_rows};
use crate::kept_runs::{level, put_row};
use crate::rows_of_numbers::kept_when_spaced;
use crate::unasked_ranks::put;
use drain_grid::{HeightKind, Spacing};
use std::test::Fail;

/// The place of the float 3.0.
const THREE: i64 = 1077936128;

/// Width and height of cells, how much lower than the others every other cell of the first row is, and the column before
/// which the second row is cleared, whose cells drain north over a drop of 3.
///
/// At an even column the way across a corner has a drop greater by that depth. It is steeper from the third column on
/// where the row isn't cleared beyond.
static ROWS: [(HeightKind, u32, u32, i64, u32); 16] = [
    // 3 over 1; 4 and 5 over root two.
    (HeightKind::Whole, 1, 1, 1, 599),
    (HeightKind::Whole, 1, 1, 2, 2),
    (HeightKind::Whole, 7, 7, 1, 599),
    (HeightKind::Whole, 7, 7, 2, 2),
    // 3 over 3; 5 and 6 over 5.
    (HeightKind::Whole, 4, 3, 2, 599),
    (HeightKind::Whole, 4, 3, 3, 2),
    // 3 over 4; 3 and 4 over 5.
    (HeightKind::Whole, 3, 4, 0, 599),
    (HeightKind::Whole, 3, 4, 1, 2),
    // 3 over 2; 3 and 4 over root five.
    (HeightKind::Whole, 1, 2, 0, 599),
    (HeightKind::Whole, 1, 2, 1, 2),
    // Next to no difference between a column and a corner.
    (HeightKind::Whole, 1, 1073741824, 0, 599),
    (HeightKind::Whole, 1, 1073741824, 1, 2),
    // Between floats, whose places these are: the two floats beside 3 times root two, less 3.
    (HeightKind::Single, 1, 1, 1067388633, 599),
    (HeightKind::Single, 1, 1, 1067388634, 2),
    // 3 over 3; 5 over 5, and the next float.
    (HeightKind::Single, 4, 3, 1073741824, 599),
    (HeightKind::Single, 4, 3, 1073741825, 2),
];

#[test]
fn cells_of_each_spacing_and_kind(rt: HostRuntime) -> Result<(), Fail> {
    for &(kind, width, height, depth, end) in &ROWS {
        let drop = match kind {
            HeightKind::Whole => 3,
            HeightKind::Single => THREE,
        };
        let mut numbers = level_rows(rt.alloc())?;
        for part in [Part::Elevations, Part::Con] {
            put_row(&mut numbers, part, 1, drop);
            put_row(&mut numbers, part, 2, drop);
            for col in 0..COLS / 2 {
                put(&mut numbers, (part, (0, 2 * col + 1), -depth))?;
            }
        }
        let spacing = Spacing::new(width, height).ok_or("a spacing")?;
        let kept = kept_when_spaced(rt.alloc(), &numbers, spacing.of_kind(kind))?;
        equal(&rt, (width, height, depth), kept, level(end));
    }
    Ok(())
}
