//! Where a cell's direction leads.

ghost use Rattle.std.specs.Prelude.{◌≡◌, ◌<◌, IfOk};
ghost use Rattle.drain_paths.specs.Flows.{IsByteTable, byte_flow, bytes_flows, cell_flow, code_flow, direction_of};

use crate::cell_numbers::room_for;
use crate::ways::Ways;
use drain_grid::{Cell, Direction, OutOfMemory};
use std::alloc::Global;
use std::mem::size_of;
use thiserror::Error;

/// Where water goes from a cell.
#[derive(Clone, Copy, PartialEq, Eq, Debug)]
pub enum Way {
    /// Nowhere: the code is 0, or the run is known to end from here on.
    Ends,
    /// On to this data cell.
    On(Cell),
    /// Nowhere, and the run doesn't end here: the number is no code, or it leads outside or to a void.
    Lost,
}

/// Why there are no ranks, labels or counts.
#[derive(Clone, Copy, PartialEq, Eq, Debug, Error)]
pub enum CertifyRefusal {
    /// The first data cell whose run doesn't reach a code 0.
    #[error("a run doesn't end")]
    NoEnd(Cell),
    #[error("out of memory")]
    OutOfMemory,
}

/// What is kept of a cell: whether it has data, and where its code leads.
#[repr(u8)]
#[derive(Clone, Copy, PartialEq, Eq, Debug)]
pub enum Flow {
    /// No elevation.
    Void,
    /// The number is no code: it isn't 0, and it names no direction.
    Lost,
    /// The run of the cell is known to end: at first where its code is 0.
    Ends,
    ToEast,
    ToSouthEast,
    ToSouth,
    ToSouthWest,
    ToWest,
    ToNorthWest,
    ToNorth,
    ToNorthEast,
}

impl Flow {
    /// The direction in which the code leads, if it leads on.
    pub fn direction(self) -> Option<Direction>
        ensures { result ≡ direction_of self }
    {
        match self {
            Flow::Void | Flow::Lost | Flow::Ends => None,
            Flow::ToEast => Some(Direction::East),
            Flow::ToSouthEast => Some(Direction::SouthEast),
            Flow::ToSouth => Some(Direction::South),
            Flow::ToSouthWest => Some(Direction::SouthWest),
            Flow::ToWest => Some(Direction::West),
            Flow::ToNorthWest => Some(Direction::NorthWest),
            Flow::ToNorth => Some(Direction::North),
            Flow::ToNorthEast => Some(Direction::NorthEast),
        }
    }
}

/// One byte: there are up to 829,497,601 of them.
const _: () = prove!(size_of::<Flow>() == 1);

/// The code of a cell without data.
pub const NO_CODE: u8 = u8::MAX;

/// The byte that is kept of a cell: `NO_CODE` at a void, else its direction number, or 129 if it is no byte up to 128.
#[inline(always)]
pub(crate) fn cell_code(z: Option<i64>, number: i64) -> u8
    ensures { byte_flow result ≡ cell_flow z number }
{
    // The greater of two bytes makes no jump, so that the compiler takes many cells at once.
    let least = match z {
        Some(_) => 0,
        None => NO_CODE,
    };
    code_of(number).max(least)
}

/// The number, if it is from 0 to 128, else 129: that is no code, as no number past it or below 0 is.
#[inline(always)]
fn code_of(number: i64) -> u8
    ensures few { result < 130 }
    ensures flow { byte_flow result ≡ code_flow number }
{
    if number < 0 || number > 128 {
        129
    } else {
        number as u8
    }
}

/// The flow of each code: which way a cell leads is unpredictable, so flows are looked up, without a branch.
#[derive(Clone, Copy)]
pub(crate) struct FlowTable {
    flows: [Flow; 256],
    ghost right: { IsByteTable flows },
}

impl FlowTable {
    pub(crate) fn new() -> FlowTable {
        FlowTable {
            flows: byte_table(),
        }
    }

    /// The flow of a code.
    #[inline(always)]
    pub(crate) fn flow(&self, code: u8) -> Flow
        ensures { result ≡ byte_flow code }
    {
        self.flows[code as usize]
    }

    /// The flow of a data cell, from its direction number, whatever that is.
    #[inline(always)]
    pub(crate) fn flow_of_number(&self, number: i64) -> Flow
        ensures { result ≡ code_flow number }
    {
        self.flow(code_of(number))
    }
}

/// The flow of each code.
pub(crate) fn flows_of_codes(alloc: Global, codes: &[u8]) -> Result<Vec<Flow>, OutOfMemory>
    ensures { IfOk result (λ flows. flows.items ≡ bytes_flows codes.now) }
{
    let table = FlowTable::new();
    let mut flows = Vec::with_capacity(alloc, room_for(codes.len()))?;
    flows.resize(codes.len(), Flow::Void)?;
    for place in 0..codes.len() {
        flows[place] = table.flow(codes[place]);
    }
    Ok(flows)
}

/// The flows of codes in a slice, found where they are asked for: no memory is taken.
#[derive(Clone, Copy)]
pub(crate) struct CodedFlows<'a> {
    codes: &'a [u8],
    table: FlowTable,
}

impl<'a> CodedFlows<'a> {
    pub(crate) fn new(codes: &'a [u8]) -> CodedFlows<'a>
        ensures { ⟦<CodedFlows<'a> as Ways>⟧.flows result ≡ bytes_flows codes.now }
    {
        CodedFlows {
            codes,
            table: FlowTable::new(),
        }
    }
}

impl Ways for CodedFlows<'_> {
    ghost flows = { λ w. bytes_flows w.codes.now };

    #[inline(always)]
    fn flow(&self, place: usize) -> Flow {
        self.table.flow(self.codes[place])
    }
}

/// The flow of each number of a byte, at its place.
pub(crate) fn byte_table() -> [Flow; 256]
    ensures { IsByteTable result }
{
    let mut table = [Flow::Lost; 256];
    table[0] = Flow::Ends;
    table[1] = Flow::ToEast;
    table[2] = Flow::ToSouthEast;
    table[4] = Flow::ToSouth;
    table[8] = Flow::ToSouthWest;
    table[16] = Flow::ToWest;
    table[32] = Flow::ToNorthWest;
    table[64] = Flow::ToNorth;
    table[128] = Flow::ToNorthEast;
    table[255] = Flow::Void;
    table
}
