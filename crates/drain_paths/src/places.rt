//! Where the flows of runs that end lead, as places in row order. From each row a direction leads equally far on, and what
//! it leads to is a data cell: nothing has to be tested.

ghost use Rattle.std.specs.Prelude.{◌≡◌, ◌≢◌, ◌<◌, ◌*◌, ◌↔◌};
ghost use Rattle.drain_paths.specs.Names.{IsTrue, List, length, slice_index_or, Some, Extent, next};
ghost use Rattle.drain_grid.proofs.Runs.{cell_at};
ghost use Rattle.drain_paths.specs.declared.flow.Flow.{Flow};
ghost use Rattle.drain_paths.specs.declared.flow.Flow.TheVariants.{Ends, Void};
ghost use Rattle.drain_paths.specs.Flows.{AllFlowsEnd, OfFlows, byte_flow};
ghost use Rattle.drain_paths.specs.Places.{AreCodeOffsets, AreOffsets, IsOffset, lane_of};

use crate::flow::{Flow, NO_CODE, byte_table};
use drain_grid::Shape;

/// How many flows there are.
pub(crate) const FLOWS: usize = 11;

/// How many numbers a byte has.
pub(crate) const CODES: usize = 256;

/// How much further the next place is for each flow, and one row and one place more: no number lies below 0.
pub(crate) fn offsets(shape: Shape) -> [usize; FLOWS]
    ensures { AreOffsets shape result }
{
    let cols = shape.cols() as usize;
    [
        0,
        0,
        0,
        cols + 2,
        2 * cols + 2,
        2 * cols + 1,
        2 * cols,
        cols,
        0,
        1,
        2,
    ]
}

/// The same for each code.
pub(crate) fn code_offsets(shape: Shape) -> [usize; CODES]
    ensures { AreCodeOffsets shape result }
{
    let of_flows = offsets(shape);
    let table = byte_table();
    let mut of_codes = [0; CODES];
    for code in 0..CODES {
        of_codes[code] = of_flows[lane(table[code]) as usize];
    }
    of_codes
}

/// The number of a flow. That of a void is 0.
#[inline(always)]
pub(crate) fn lane(flow: Flow) -> u8
    ensures { result ≡ lane_of flow }
{
    flow as u8
}

/// A code with this flow.
#[inline(always)]
fn code_of_flow(flow: Flow) -> u8
    ensures { byte_flow result ≡ flow }
{
    const CODES_OF_FLOWS: [u8; FLOWS] = [NO_CODE, 129, 0, 1, 2, 4, 8, 16, 32, 64, 128];
    CODES_OF_FLOWS[lane(flow) as usize]
}

/// The flows of a grid, and how far each leads on.
pub(crate) trait Onward: Copy {
    /// The flows.
    ghost flows: { Self → List Flow };

    /// The size of the grid.
    ghost extent: { Self → Extent };

    /// Whether the cell with this many cells before it has data.
    fn has_data(&self, place: usize) -> bool
        requires { place < length (flows self.now) }
        ensures { IsTrue result ↔ (slice_index_or (flows self.now) place Void ≢ Void) };

    /// Whether the run of the cell with this many cells before it ends there.
    fn ends(&self, place: usize) -> bool
        requires { place < length (flows self.now) }
        ensures { IsTrue result ↔ (slice_index_or (flows self.now) place Void ≡ Ends) };

    /// The code of the cell with this many cells before it: `NO_CODE` at a void.
    fn code(&self, place: usize) -> u8
        requires { place < length (flows self.now) }
        ensures { byte_flow result ≡ slice_index_or (flows self.now) place Void };

    /// How much further the place is to which its flow leads, and one row and one place more.
    fn offset(&self, place: usize) -> usize
        requires { place < length (flows self.now) }
        ensures { IsOffset (extent self.now) (slice_index_or (flows self.now) place Void) result };
}

/// Flows in a slice.
#[derive(Clone, Copy)]
pub(crate) struct ListedOnward<'a> {
    pub flows: &'a [Flow],
    pub shape: Shape,
    pub offsets: [usize; FLOWS],
    ghost right: { AreOffsets shape offsets },
}

impl Onward for ListedOnward<'_> {
    ghost flows = { λ o. o.flows.now };

    ghost extent = { λ o. o.shape };

    #[inline(always)]
    fn has_data(&self, place: usize) -> bool {
        self.flows[place] != Flow::Void
    }

    #[inline(always)]
    fn ends(&self, place: usize) -> bool {
        self.flows[place] == Flow::Ends
    }

    #[inline(always)]
    fn code(&self, place: usize) -> u8 {
        code_of_flow(self.flows[place])
    }

    #[inline(always)]
    fn offset(&self, place: usize) -> usize {
        let flow = self.flows[place];
        self.offsets[lane(flow) as usize]
    }
}

/// Flows of codes in a slice.
#[derive(Clone, Copy)]
pub(crate) struct CodedOnward<'a> {
    pub codes: &'a [u8],
    pub shape: Shape,
    pub offsets: [usize; CODES],
    ghost right: { AreCodeOffsets shape offsets },
}

impl Onward for CodedOnward<'_> {
    ghost use Rattle.drain_paths.specs.Flows.{bytes_flows};

    ghost flows = { λ o. bytes_flows o.codes.now };

    ghost extent = { λ o. o.shape };

    #[inline(always)]
    fn has_data(&self, place: usize) -> bool {
        self.codes[place] != NO_CODE
    }

    #[inline(always)]
    fn ends(&self, place: usize) -> bool {
        self.codes[place] == 0
    }

    #[inline(always)]
    fn code(&self, place: usize) -> u8 {
        self.codes[place]
    }

    #[inline(always)]
    fn offset(&self, place: usize) -> usize {
        let code = self.codes[place];
        self.offsets[code as usize]
    }
}

/// The place to which the flow at a place leads on.
#[inline(always)]
pub(crate) fn place_ahead<O: Onward>(onward: &O, shape: Shape, place: usize) -> usize
    requires counted { length (O.flows onward.now) ≡ shape.rows * shape.cols }
    requires extent { O.extent onward.now ≡ shape }
    requires inside { place < shape.rows * shape.cols }
    requires has_data { slice_index_or (O.flows onward.now) place Void ≢ Void }
    requires goes_on { slice_index_or (O.flows onward.now) place Void ≢ Ends }
    requires ends { OfFlows shape (O.flows onward.now) AllFlowsEnd }
    ensures inside { result < shape.rows * shape.cols }
    ensures has_data { slice_index_or (O.flows onward.now) result Void ≢ Void }
    ensures leads { OfFlows shape (O.flows onward.now) (λ g ps. next g ps (cell_at shape place) ≡ Some (cell_at shape result)) }
{
    let _cells = shape.cells();
    let back = shape.cols() as usize + 1;
    place + onward.offset(place) - back
}
