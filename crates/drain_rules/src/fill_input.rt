//! The four parts of a fill input, read in place: the tile, its conditioned elevations, spill parents and ranks. Only
//! the nine cells of one patch are copied.

ghost use Rattle.std.specs.Prelude.{◌≡◌, ◌<◌, ◌≤◌, ◌*◌};
ghost use Rattle.drain_rules.specs.Names.{IsTrue, length, pos, IfJudged, has_rnk, IsSide};
ghost use Rattle.drain_rules.specs.Fill.{IsBlankVoid};
ghost use Rattle.drain_grid.specs.declared.tile.TheConstants.{MAX_SIDE};
ghost use Rattle.drain_rules.specs.Places.{AreWays};

use crate::part_rules::is_blank;
use byteorder::{BigEndian, ByteOrder};
use drain_grid::tile::height_from;
use drain_grid::{Cell, CellSource, CellValues, Direction, Rules, Shape, Spacing, widened};

/// Whether the cell is a void, and the judged rasters have their no-data numbers.
pub fn is_blank_void(here: &CellValues, rules: &Rules) -> bool
    ensures { IsTrue result → IsBlankVoid rules.now here.now }
{
    here.z.is_none() && is_blank(here, rules) && has_no_rank(here, rules)
}

/// Whether the rank is its no-data number, or isn't judged.
fn has_no_rank(here: &CellValues, rules: &Rules) -> bool
    ensures { IsTrue result → IfJudged (has_rnk rules.now.judged) (here.now.rnk ≡ rules.now.nodata.rnk) }
{
    !rules.judged.has_rnk() || here.rnk == rules.nodata.rnk
}

/// How many bytes an input takes: nine for each cell.
pub fn fill_length(side: u32) -> usize
    requires { IsSide side }
    ensures { result ≡ 9 * (side * side) }
{
    9 * (side as usize * side as usize)
}

/// The bytes of an input of the right length, and the shape of its tile.
#[derive(Clone, Copy)]
pub struct FillInput<'a> {
    shape: Shape,
    cells: usize,
    ways: [usize; 8],
    bytes: &'a [u8],
    ghost square: { shape.cols ≡ shape.rows },
    ghost side: { IsSide shape.rows },
    ghost counted: { cells ≡ shape.rows * shape.rows },
    ghost whole: { length bytes.now ≡ 9 * (shape.rows * shape.rows) },
    ghost led: { AreWays shape.rows ways },
}

/// From the neighbour in the north-west, how many places further each neighbour is, in the order of directions.
fn ways(side: usize) -> [usize; 8]
    requires { side ≤ MAX_SIDE }
    ensures { AreWays side result }
{
    [
        side + 2,
        2 * side + 2,
        2 * side + 1,
        2 * side,
        side,
        0,
        1,
        2,
    ]
}

impl<'a> FillInput<'a> {
    ghost use Rattle.std.specs.Prelude.{◌+◌, ◌↔◌};
    ghost use Rattle.drain_rules.specs.Names.{IsSome, cols_right, rows_down, IsCellOf, index_of, height_from};
    ghost use Rattle.drain_rules.specs.Fill.{square, IsFillLength, sample_at, con_at, spl_at, rnk_at};
    ghost use Rattle.drain_rules.specs.Places.{HasPlacesRound, place_beside};

    /// The parts of an input of the right length.
    pub fn new(side: u32, bytes: &'a [u8]) -> FillInput<'a>
        requires side { IsSide side }
        requires whole { IsFillLength side bytes.now }
        ensures side { result.shape.rows ≡ side }
        ensures bytes { result.bytes.now ≡ bytes.entry.now }
    {
        FillInput {
            shape: Shape::new(side, side).unwrap(),
            cells: side as usize * side as usize,
            ways: ways(side as usize),
            bytes,
        }
    }

    /// How many cells there are along an edge.
    pub fn side(&self) -> u32
        ensures { result ≡ self.now.shape.rows }
    {
        self.shape.rows()
    }

    /// Where the cell is in row order.
    pub(crate) fn place(&self, cell: Cell) -> usize
        requires { IsCellOf (square self.now.shape.rows) cell }
        ensures place { result ≡ index_of (square self.now.shape.rows) cell }
        ensures inside { result < self.now.shape.rows * self.now.shape.rows }
    {
        self.shape.index(cell)
    }

    /// The place of the neighbour in this direction of a cell that is on no edge.
    pub(crate) fn place_beside(&self, place: usize, direction: Direction) -> usize
        requires { HasPlacesRound self.now.shape.rows place }
        ensures lies { result ≡ place_beside self.now.shape.rows place direction }
        ensures inside { result < self.now.shape.rows * self.now.shape.rows }
    {
        let corner = place - self.side() as usize - 1;
        corner + self.way(direction)
    }

    /// How many places the neighbour is after the one in the north-west.
    fn way(&self, direction: Direction) -> usize
        ensures { result ≡ rows_down direction * self.now.shape.rows + cols_right direction }
    {
        self.ways[direction as usize]
    }

    /// Whether the cell at a place has data.
    pub(crate) fn has_data(&self, place: usize) -> bool
        requires { place < self.now.shape.rows * self.now.shape.rows }
        ensures { IsTrue result ↔ IsSome (height_from (sample_at self.now.bytes.now place)) }
    {
        height_from(self.sample(place)).is_some()
    }

    /// The sample of the tile at a place.
    pub(crate) fn sample(&self, place: usize) -> i16
        requires { place < self.now.shape.rows * self.now.shape.rows }
        ensures { result ≡ sample_at self.now.bytes.now place }
    {
        BigEndian::read_i16(&self.bytes[2 * place..])
    }

    /// The conditioned elevation there.
    pub(crate) fn con(&self, place: usize) -> i16
        requires { place < self.now.shape.rows * self.now.shape.rows }
        ensures { result ≡ con_at self.now.shape.rows self.now.bytes.now place }
    {
        BigEndian::read_i16(&self.bytes[2 * self.cells + 2 * place..])
    }

    /// The spill parent's code there.
    pub(crate) fn code(&self, place: usize) -> u8
        requires { place < self.now.shape.rows * self.now.shape.rows }
        ensures { pos result ≡ spl_at self.now.shape.rows self.now.bytes.now place }
    {
        self.bytes[4 * self.cells + place]
    }

    /// The rank there.
    pub(crate) fn rank(&self, place: usize) -> u32
        requires { place < self.now.shape.rows * self.now.shape.rows }
        ensures { pos result ≡ rnk_at self.now.shape.rows self.now.bytes.now place }
    {
        BigEndian::read_u32(&self.bytes[5 * self.cells + 4 * place..])
    }
}

impl<'a> CellSource for FillInput<'a> {
    ghost use Rattle.drain_rules.specs.Names.{values_at, unit_spacing};
    ghost use Rattle.drain_rules.specs.Fill.{square};
    ghost use Rattle.drain_rules.specs.Verdicts.{parts_grid, parts_products};

    ghost size = { λ input. square input.shape.rows };

    ghost shown = { λ input. values_at (parts_grid input) (parts_products input) };

    ghost spaced = { λ input row. unit_spacing };

    fn shape(&self) -> Shape {
        self.shape
    }

    fn spacing(&self, _row: u32) -> Spacing {
        Spacing::unit()
    }

    fn values(&self, cell: Cell) -> CellValues {
        let place = self.place(cell);
        CellValues {
            z: widened(height_from(self.sample(place))),
            sink: false,
            con: i64::from(self.con(place)),
            dir: 0,
            acc: 0,
            bas: 0,
            spl: i64::from(self.code(place)),
            rnk: i64::from(self.rank(place)),
        }
    }
}
