//! The screen of rows that are longer than one of its blocks.

use crate::examples::equal;
use drain_pixels::stored::AnyPixels;
use drain_rules::screen::cells_above_ground;
use std::test::Fail;

/// One place below the ground, alone or with the last place too.
#[test]
fn tells_the_first_place_below_the_ground(rt: HostRuntime) -> Result<(), Fail> {
    for place in [0, 255, 256, 511, 512, 598, 599] {
        for second in [place, 599] {
            let mut con = [-7; 600];
            con[place] = -8;
            con[second] = -8;
            let found = cells_above_ground(
                &AnyPixels { numbers: &con },
                &AnyPixels {
                    numbers: &[-7; 600],
                },
            );
            equal(&rt, second, found, place);
        }
    }
    Ok(())
}

/// Rows without such a place: level ones of heights and of voids, the greatest height over a void, and no cell.
#[test]
fn takes_in_rows_that_are_nowhere_below(rt: HostRuntime) -> Result<(), Fail> {
    let found = [
        cells_above_ground(
            &AnyPixels { numbers: &[7; 600] },
            &AnyPixels { numbers: &[7; 600] },
        ),
        cells_above_ground(
            &AnyPixels {
                numbers: &[-32768; 600],
            },
            &AnyPixels {
                numbers: &[-32768; 600],
            },
        ),
        cells_above_ground(
            &AnyPixels {
                numbers: &[32767; 600],
            },
            &AnyPixels {
                numbers: &[-32768; 600],
            },
        ),
        cells_above_ground(&AnyPixels { numbers: &[] }, &AnyPixels { numbers: &[] }),
    ];
    equal(&rt, "nowhere", found, [600, 600, 600, 0]);
    Ok(())
}
