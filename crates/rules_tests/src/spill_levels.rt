//! Besides the proof that an accepted `con` has spill levels: a slow plain twin, which finds the spill level of a
//! closed cell on its own.

use crate::examples::equal;
use drain_grid::FillVerdict;
use drain_rules::check_fill;
use std::test::Fail;

/// The neighbours of the middle cell of a tile of side 3: the code that names each, and its place.
static BESIDE_THE_MIDDLE: [(u8, usize); 8] = [
    (1, 5),
    (2, 8),
    (4, 7),
    (8, 6),
    (16, 3),
    (32, 0),
    (64, 1),
    (128, 2),
];

const MIDDLE: usize = 4;

/// The heights of a tile of side 3, from 0 to 2: the digits of its number to base 3.
fn heights_of(number: u32) -> [u8; 9] {
    let mut heights = [0; 9];
    let mut rest = number;
    for height in heights.iter_mut() {
        *height = (rest % 3) as u8;
        rest /= 3;
    }
    heights
}

/// What the middle is raised to by a neighbour that drains at its own height.
fn raised_by(heights: &[u8; 9], place: usize) -> u8 {
    heights[MIDDLE].max(heights.get(place).copied().unwrap_or(u8::MAX))
}

/// The spill level of the middle: it sinks from above every height while a neighbour shows a lower way out.
/// The other cells are open, so each one's level is its height.
fn middle_level(heights: &[u8; 9]) -> u8 {
    let mut level = u8::MAX;
    for _round in 0..9 {
        for &(_, place) in &BESIDE_THE_MIDDLE {
            level = level.min(raised_by(heights, place));
        }
    }
    level
}

/// The tile with this `con`, spill parent's code and rank 1 in the middle, and itself as `con` elsewhere.
fn input_of(heights: &[u8; 9], con: u8, code: u8) -> [u8; 81] {
    let mut bytes = [0; 81];
    for (place, height) in heights.iter().enumerate() {
        bytes[2 * place + 1] = *height;
        bytes[2 * place + 19] = *height;
    }
    bytes[2 * MIDDLE + 19] = con;
    bytes[36 + MIDDLE] = code;
    bytes[45 + 4 * MIDDLE + 3] = 1;
    bytes
}

#[test]
fn accepts_the_spill_level_alone(rt: HostRuntime) -> Result<(), Fail> {
    for number in 0..19683 {
        let heights = heights_of(number);
        let level = middle_level(&heights);
        for con in 0..4 {
            for &(code, place) in &BESIDE_THE_MIDDLE {
                let answer = check_fill(3, input_of(&heights, con, code).as_slice());
                let accepted = matches!(answer, Ok(FillVerdict::Accepted(_)));
                let expected = con == level && raised_by(&heights, place) == level;
                let case = (("tile", number), ("con", con), ("code", code));
                equal(&rt, case, accepted, expected);
            }
        }
    }
    Ok(())
}
