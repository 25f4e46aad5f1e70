//! Fractions below the ratio of two distances, by the squares of these.

use drain_slope::fraction::{Fraction, fraction_below};

/// Squares aren't greater.
const GREATEST: u64 = 1 << 61;

/// Two squares, and the greatest fraction of 16 bits that is no greater than the root of their ratio.
static FRACTIONS: [((u64, u64), (u16, u16)); 10] = [
    ((1, 1), (1, 1)),
    // Root two: 47321 / 33461 is a convergent from below; half of it is 13860 / 19601.
    ((2, 1), (47321, 33461)),
    ((1, 2), (13860, 19601)),
    // 3, 4 and 5.
    ((9, 16), (3, 4)),
    ((16, 9), (4, 3)),
    ((9, 25), (3, 5)),
    ((25, 16), (5, 4)),
    // The greatest ratio and the least that 16 bits hold, and beyond.
    ((4294836225, 1), (65535, 1)),
    ((1, 4294836225), (1, 65535)),
    ((1, 1152921504606846976), (0, 1)),
];

#[test]
fn the_greatest_of_16_bits(rt: HostRuntime) {
    for &((square, other), (q, p)) in &FRACTIONS {
        let found = fraction_below(square.min(GREATEST), other.min(GREATEST));
        assert_eq!(rt; found, Fraction { p, q }, "{square} {other}");
    }
}
