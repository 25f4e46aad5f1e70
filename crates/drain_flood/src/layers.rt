//! Lists of numbers, one for each cell: filled with one value, or empty with room for each; and lists of places.
//!
//! Most are freed while products are made. glibc returns a block of more than 32 MiB to the system when it is freed, but
//! may keep a smaller one. So these lists have room for more than 32 MiB; what isn't used of it costs no memory.

ghost use Rattle.std.specs.Prelude.{◌≡◌, [], All, IfOk, length};

use drain_grid::OutOfMemory;
use std::alloc::Global;

/// The mark of an open cell: an outlet's code.
pub const OPEN: u8 = 0;

/// The mark of a closed cell that is reached and has no way yet.
pub const REACHED: u8 = 253;

/// The mark of a data cell that isn't reached.
pub const UNREACHED: u8 = 254;

/// The mark of a cell without data.
pub const VOID: u8 = 255;

/// The height of a cell without data.
pub const NO_HEIGHT: i16 = -32768;

/// The rank of a cell without data.
pub const NO_RANK: u32 = 4_294_967_295;

/// 32 MiB and a page, in bytes.
const ROOM: usize = 33_558_528;

/// The same height, n times.
pub(crate) fn heights(alloc: Global, height: i16, len: usize) -> Result<Vec<i16>, OutOfMemory>
    ensures counted { IfOk result (λ heights. length heights.items ≡ len) }
    ensures same { IfOk result (λ heights. All (λ x. x ≡ height) heights.items) }
{
    let mut heights = Vec::with_capacity(alloc, len.max(ROOM / 2))?;
    heights.resize(len, height)?;
    Ok(heights)
}

/// The same heights, in memory of just their size.
pub(crate) fn copied(alloc: Global, heights: &[i16]) -> Result<Vec<i16>, OutOfMemory>
    ensures { IfOk result (λ copy. copy.items ≡ heights.now) }
{
    let mut copy = Vec::with_capacity(alloc, heights.len())?;
    copy.extend_from_slice(heights)?;
    Ok(copy)
}

/// The same mark, n times.
pub(crate) fn marks(alloc: Global, mark: u8, len: usize) -> Result<Vec<u8>, OutOfMemory>
    ensures counted { IfOk result (λ marks. length marks.items ≡ len) }
    ensures same { IfOk result (λ marks. All (λ x. x ≡ mark) marks.items) }
{
    let mut marks = Vec::with_capacity(alloc, len.max(ROOM))?;
    marks.resize(len, mark)?;
    Ok(marks)
}

/// No place.
pub(crate) fn no_places(alloc: Global) -> Result<Vec<u32>, OutOfMemory>
    ensures { IfOk result (λ places. places.items ≡ []) }
{
    Ok(Vec::with_capacity(alloc, ROOM / 4)?)
}

/// Room for lanes or codes of a row, all 0.
pub(crate) fn lanes(alloc: Global, len: usize) -> Result<Vec<u16>, OutOfMemory>
    ensures { IfOk result (λ lanes. length lanes.items ≡ len) }
{
    Ok(vec![in alloc; 0u16; len]?)
}

/// No rank, with room for one per cell.
pub(crate) fn room_for_ranks(alloc: Global, cells: usize) -> Result<Vec<u32>, OutOfMemory>
    ensures { IfOk result (λ ranks. ranks.items ≡ []) }
{
    Ok(Vec::with_capacity(alloc, cells)?)
}
