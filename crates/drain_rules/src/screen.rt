//! How many of a row's first cells are not below their ground, compared sixteen cells at a time.

ghost use Rattle.std.specs.Prelude.{◌≡◌, ◌<◌, ◌≤◌, ◌↔◌, ◌-◌};
ghost use Rattle.drain_rules.specs.Names.{ℕ, FitsSigned, IsTrue, length, slice_range, w16, AreRowHeights, IsBelowAt};
ghost use Rattle.drain_rules.specs.Rows.{grounds};

use drain_fill::first_below;
use drain_pixels::{GroundRow, PixelNumbers};

/// How many cells are looked at in one go: their heights are on the stack.
const BLOCK: usize = 256;

/// The elevations of a row as numbers. A void counts as -32768, which no number of 16 bits is below.
#[derive(Clone, Copy)]
pub struct Grounds<'a> {
    pub row: &'a GroundRow,
}

impl PixelNumbers for Grounds<'_> {
    ghost numbers = { λ g. grounds g.row.now };

    fn len(&self) -> usize {
        self.row.len()
    }

    fn at(&self, k: usize) -> i64 {
        self.row.z(k).unwrap_or(-32768)
    }
}

/// The place of the first conditioned elevation below its ground, the number of cells if there is none. If a conditioned
/// elevation doesn't fit 16 bits it may be a place before.
pub fn cells_above_ground<N: PixelNumbers, G: PixelNumbers>(con: &N, ground: &G) -> usize
    requires { length (N.numbers con.now) ≡ length (G.numbers ground.now) }
    ensures within { result ≤ length (N.numbers con.now) }
    ensures above { (place : ℕ) → place < result → ¬ IsBelowAt (N.numbers con.now) (G.numbers ground.now) place }
    ensures first { AreRowHeights (N.numbers con.now) → result < length (N.numbers con.now) → IsBelowAt (N.numbers con.now) (G.numbers ground.now) result }
{
    let mut block = [0; BLOCK];
    let mut heights = [0; BLOCK];
    let mut at = 0;
    while at < ground.len() {
        let end = ground.len().min(at.saturating_add(BLOCK));
        let part = &mut block[..end - at];
        copy_numbers(part, con, at, end);
        let below = &mut heights[..end - at];
        copy_numbers(below, ground, at, end);
        let above = cells_of_block(part, below);
        if above < end - at {
            return at + above;
        }
        at = end;
    }
    at
}

/// Copies the numbers from one column up to another, one to each place.
fn copy_numbers<N: PixelNumbers>(out: &mut [i64], numbers: &N, first: usize, end: usize)
    requires ordered { first ≤ end }
    requires inside { end ≤ length (N.numbers numbers.now) }
    requires room { length out.old ≡ end - first }
    ensures { out.new ≡ slice_range (N.numbers numbers.now) first end }
{
    for col in first..end {
        out[col - first] = numbers.at(col);
    }
}

/// The same of at most 256 places, none if a conditioned elevation doesn't fit 16 bits.
fn cells_of_block(con: &[i64], ground: &[i64]) -> usize
    requires same { length con.now ≡ length ground.now }
    requires short { length con.now ≤ BLOCK }
    ensures within { result ≤ length con.now }
    ensures above { (place : ℕ) → place < result → ¬ IsBelowAt con.now ground.now place }
    ensures first { AreRowHeights con.now → result < length con.now → IsBelowAt con.now ground.now result }
{
    let mut conditioned = [0; BLOCK];
    let mut heights = [0; BLOCK];
    let conditioned = &mut conditioned[..con.len()];
    let heights = &mut heights[..con.len()];
    if !narrow(conditioned, con) {
        return 0;
    }
    if narrow(heights, ground) {
        first_below(conditioned, heights).unwrap_or(con.len())
    } else {
        first_lower(con, ground)
    }
}

/// The same, one place after the other.
fn first_lower(con: &[i64], ground: &[i64]) -> usize
    requires { length con.now ≡ length ground.now }
    ensures within { result ≤ length con.now }
    ensures above { (place : ℕ) → place < result → ¬ IsBelowAt con.now ground.now place }
    ensures first { result < length con.now → IsBelowAt con.now ground.now result }
{
    for place in 0..con.len() {
        if con[place] < ground[place] {
            return place;
        }
    }
    con.len()
}

/// Converts the numbers to 16 bits each, and returns whether all of them fit. Without a branch, so it is vectorised.
fn narrow(out: &mut [i16], numbers: &[i64]) -> bool
    requires { length numbers.now ≡ length out.old }
    ensures all { IsTrue result ↔ AreRowHeights numbers.now }
    ensures same { IsTrue result → out.new ≡ numbers.now }
{
    let mut all = true;
    for place in 0..numbers.len() {
        let number = numbers[place];
        all &= fits(number);
        out[place] = narrowed(number);
    }
    all
}

/// Whether 16 signed bits hold the number.
#[inline(always)]
fn fits(number: i64) -> bool
    ensures { IsTrue result ↔ FitsSigned w16 number }
{
    number >= -32768 && number <= 32767
}

/// The number, if 16 bits hold it; else 0.
#[inline(always)]
fn narrowed(number: i64) -> i16
    ensures { FitsSigned w16 number → result ≡ number }
{
    if fits(number) { number as i16 } else { 0 }
}
