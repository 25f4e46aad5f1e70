//! The first steepest ways down along a row of square cells, many at a time.
//!
//! Heights are laid in lanes of 16 bits, 32,767 more than the height. A void's lane is above that of any height, and so
//! are the lanes around the grid: neither a void nor an edge needs a test. Each loop is without a branch. Two minima
//! serve eight neighbours: the steepest way along a row or column leads to the least of four lanes, and the steepest
//! across a corner to the least of the other four.

ghost use Rattle.std.specs.Prelude.{◌≡◌, ◌≤◌, ◌<◌, ◌+◌, ◌*◌, ◌/◌, ◌^◌, ◌&&◌, ◌==◌, if◌then◌else◌};
ghost use Rattle.drain_flood.specs.Names.{ℕ, pos, min, nat_lt, length, slice_index, slice_index_or, index_of, Grid, IsInside, unit_spacing, Cell};
ghost use Rattle.drain_flood.specs.Floods.{IsFlooded};
ghost use Rattle.drain_flood.specs.Ways.{IsCodeAt};
ghost use Rattle.drain_flood.specs.Laid.{AreRowLanes, IsLane, around_in, fall_at, fall_in, first_across, first_along, is_steeper, least_across, least_along, level_of_lane};

use crate::layers::NO_HEIGHT;
use crate::surface::Surface;

/// The lane of a cell without data, and of a place around the grid: above that of any height.
const GAP: u16 = 65535;

/// The lane of a height.
#[inline(always)]
fn lane(height: i16) -> u16
    ensures { IsLane height result }
{
    if height == NO_HEIGHT {
        GAP
    } else {
        (i32::from(height) + 32767) as u16
    }
}

/// Lays a row of gaps.
#[inline(never)]
fn lay_gaps(lanes: &mut [u16])
    ensures len { length lanes.new ≡ length lanes.old }
    ensures gaps { (k : ℕ) → k < length lanes.old → slice_index lanes.new k ≡ GAP }
{
    for k in 0..lanes.len() {
        lanes[k] = GAP;
    }
}

/// Lays the heights from this place on, between two gaps.
#[inline(never)]
fn lay_heights(heights: &[i16], start: usize, lanes: &mut [u16])
    requires room { 2 ≤ length lanes.old }
    requires inside { start + length lanes.old ≤ length heights.now + 2 }
    ensures len { length lanes.new ≡ length lanes.old }
    ensures first { slice_index lanes.new 0 ≡ GAP }
    ensures last { (k : ℕ) → k + 1 ≡ length lanes.old → slice_index lanes.new k ≡ GAP }
    ensures lanes { (k : ℕ) → k + 2 < length lanes.old → IsLane (slice_index_or heights.now (start + k) (pos 0)) (slice_index lanes.new (k + 1)) }
{
    let cols = lanes.len() - 2;
    lanes[0] = GAP;
    lanes[cols + 1] = GAP;
    for k in 0..cols {
        lanes[k + 1] = lane(heights[start + k]);
    }
}

/// Lays a row of the grid, between two gaps. Rows are counted from 1; those next to the grid are gaps.
fn lay_row(surface: &Surface<Vec<i16>>, down: usize, lanes: &mut [u16])
    requires { length lanes.old ≡ surface.now.extent.cols + 2 }
    ensures len { length lanes.new ≡ length lanes.old }
    ensures lanes { AreRowLanes surface.now.extent surface.now down lanes.new }
{
    let shape = surface.shape();
    if 0 < down && down <= shape.rows() as usize {
        lay_heights(
            surface.heights().as_slice(),
            shape.row_start((down - 1) as u32),
            lanes,
        );
    } else {
        lay_gaps(lanes);
    }
}

/// The lanes of the neighbours, in the order of directions.
#[inline(always)]
fn around(above: &[u16], here: &[u16], below: &[u16], k: usize) -> [u16; 8]
    requires above_len { k + 2 < length above.now }
    requires here_len { k + 2 < length here.now }
    requires below_len { k + 2 < length below.now }
    ensures { result ≡ around_in above.now here.now below.now k }
{
    [
        here[k + 2],
        below[k + 2],
        below[k + 1],
        below[k],
        here[k],
        above[k],
        above[k + 1],
        above[k + 2],
    ]
}

/// The least lane along the row and the column.
#[inline(always)]
fn least_along(lanes: [u16; 8]) -> u16
    ensures { result ≡ least_along lanes }
{
    lanes[0].min(lanes[2]).min(lanes[4].min(lanes[6]))
}

/// The least lane across corners.
#[inline(always)]
fn least_across(lanes: [u16; 8]) -> u16
    ensures { result ≡ least_across lanes }
{
    lanes[1].min(lanes[3]).min(lanes[5].min(lanes[7]))
}

/// The first code if the numbers are equal, else the other.
#[inline(always)]
fn pick(number: u16, least: u16, code: u16, other: u16) -> u16
    ensures { result ≡ (if number == least then code else other) }
{
    if number == least { code } else { other }
}

/// The code of the first way along the row and the column that leads to the least lane.
#[inline(always)]
fn first_along(lanes: [u16; 8], least: u16) -> u16
    ensures { result ≡ first_along lanes least }
{
    let west = pick(lanes[4], least, 16, 64);
    let south = pick(lanes[2], least, 4, west);
    pick(lanes[0], least, 1, south)
}

/// The code of the first way across a corner that leads to the least lane.
#[inline(always)]
fn first_across(lanes: [u16; 8], least: u16) -> u16
    ensures { result ≡ first_across lanes least }
{
    let north_west = pick(lanes[5], least, 32, 128);
    let south_west = pick(lanes[3], least, 8, north_west);
    pick(lanes[1], least, 2, south_west)
}

/// The lane of a cell; 0 for that of a void, so that no way leads down from it.
#[inline(always)]
fn level_of_lane(lane: u16) -> u16
    ensures { result ≡ level_of_lane lane }
{
    if lane == GAP { 0 } else { lane }
}

/// Whether the way down along the row or the column is steeper than the one across a corner. The square of one drop is
/// compared with half the square of the other, as twice a square may not fit.
#[inline(always)]
fn is_steeper(level: u16, along: u16, across: u16) -> bool
    ensures { result ≡ is_steeper level along across }
{
    let straight = u32::from(level.saturating_sub(along));
    let aslant = u32::from(level.saturating_sub(across));
    (aslant * aslant) / 2 < straight * straight
}

/// One of two codes.
#[inline(always)]
fn choose(first: bool, code: u16, other: u16) -> u16
    ensures { result ≡ (if first then code else other) }
{
    if first { code } else { other }
}

/// The code of the first steepest way down, 0 if no lane is lower.
#[inline(always)]
#[tactic(auto, unfolding(crate::specs::Laid::fall_in))]
fn fall(lane: u16, lanes: [u16; 8]) -> u16
    ensures { result ≡ fall_in lane lanes }
{
    let level = level_of_lane(lane);
    let along = least_along(lanes);
    let across = least_across(lanes);
    let way = choose(
        is_steeper(level, along, across),
        first_along(lanes, along),
        first_across(lanes, across),
    );
    choose(along.min(across) < level, way, 0)
}

/// The code of the first steepest way down of each cell of the middle row.
#[inline(never)]
fn find_falls(above: &[u16], here: &[u16], below: &[u16], codes: &mut [u16])
    requires above_len { length above.now ≡ length codes.old + 2 }
    requires here_len { length here.now ≡ length codes.old + 2 }
    requires below_len { length below.now ≡ length codes.old + 2 }
    ensures len { length codes.new ≡ length codes.old }
    ensures falls { (k : ℕ) → k < length codes.old → slice_index codes.new k ≡ fall_at above.now here.now below.now k }
{
    for k in 0..codes.len() {
        codes[k] = fall(here[k + 1], around(above, here, below, k));
    }
}

/// The code in a byte, or the mark if it is 0.
#[inline(always)]
fn code_or(code: u16, mark: u8) -> u8
    ensures { code < 256 → result ≡ (if code == 0 then mark else code) }
{
    if code == 0 { mark } else { (code & 0xFF) as u8 }
}

/// Puts the codes of a row at their places: the mark of each cell that has none.
#[inline(never)]
fn put_codes(codes: &[u16], marks: &[u8], start: usize, dirs: &mut [u8])
    requires counted { length marks.now ≡ length dirs.old }
    requires inside { start + length codes.now ≤ length dirs.old }
    ensures len { length dirs.new ≡ length dirs.old }
    ensures row { (k : ℕ) → k < length codes.now → slice_index codes.now k < 256 → slice_index dirs.new (start + k) ≡ (if slice_index codes.now k == 0 then slice_index marks.now (start + k) else slice_index codes.now k) }
    ensures others { (i : ℕ) → i < start → slice_index dirs.new i ≡ slice_index dirs.old i }
{
    for k in 0..codes.len() {
        dirs[start + k] = code_or(codes[k], marks[start + k]);
    }
}

/// Puts the code of each cell of a row of square cells at its place. The other slices are room for lanes and codes.
pub(crate) fn put_row(
    surface: &Surface<Vec<i16>>,
    row: u32,
    above: &mut [u16],
    here: &mut [u16],
    below: &mut [u16],
    codes: &mut [u16],
    dirs: &mut [u8],
)
    requires inside { row < surface.now.extent.rows }
    requires above_len { length above.old ≡ surface.now.extent.cols + 2 }
    requires here_len { length here.old ≡ surface.now.extent.cols + 2 }
    requires below_len { length below.old ≡ surface.now.extent.cols + 2 }
    requires codes_len { length codes.old ≡ surface.now.extent.cols }
    requires dirs_len { length dirs.old ≡ surface.now.extent.rows * surface.now.extent.cols }
    ensures above_len { length above.new ≡ length above.old }
    ensures here_len { length here.new ≡ length here.old }
    ensures below_len { length below.new ≡ length below.old }
    ensures codes_len { length codes.new ≡ length codes.old }
    ensures dirs_len { length dirs.new ≡ length dirs.old }
    ensures row { (g : Grid) → g.extent ≡ surface.now.extent → g.spacing row ≡ unit_spacing → IsFlooded g surface.now → (c : Cell) → IsInside g c → c.row ≡ row → IsCodeAt g surface.now c (slice_index dirs.new (index_of g.extent c)) }
    ensures others { (i : ℕ) → i < row * surface.now.extent.cols → slice_index dirs.new i ≡ slice_index dirs.old i }
{
    lay_row(surface, row as usize, above);
    lay_row(surface, row as usize + 1, here);
    lay_row(surface, row as usize + 2, below);
    find_falls(above, here, below, codes);
    put_codes(codes, surface.marks(), surface.shape().row_start(row), dirs);
}
