//! What a window needs of a ground besides what an audit does: where it begins in the union, and how a report names it.

ghost use Rattle.std.specs.Prelude.{◌≡◌, ◌↔◌};
ghost use Rattle.drain_window.specs.Names.{List, IfOk, IsTrue, Corner, IsOrigin, UnionGrid};
ghost use Rattle.drain_window.specs.WindowAnswers.{origin_of};

use drain_device::ByteSource;
use drain_grid::{Cell, OutOfMemory};
use drain_hgt::TileName;
use drain_union::UnionGrid;
use drain_verdict::ground::GroundInput;
use std::alloc::Global;

/// Inputs of a ground that lies in a union.
pub trait WindowGround<R: ByteSource>: GroundInput<R> {
    /// What a caller says of where it begins: of tiles nothing, of a part of a raster its first cell in the whole.
    type At;

    /// Rows and columns of the union are numbers of 32 bits as far as any ground goes that begins there.
    ghost in_range: { Self.At → Type 0 };

    /// A report that counts rows and columns of this grid and lists these tiles names the ground.
    ghost named: { Self.At → Self.Key → List Self → UnionGrid → List Corner → Type 0 };

    /// Whether rows and columns of the union are numbers of 32 bits there.
    fn is_in_range(at: &Self::At) -> bool
        ensures { IsTrue result ↔ in_range at.now };

    /// The union's cell that is the first one of the ground with this frame, and what a report names the ground by: the
    /// grid whose rows and columns it counts, and the list of its tiles.
    fn in_union(
        alloc: Global,
        frame: &Self::Frame,
        at: &Self::At,
    ) -> Result<(Cell, UnionGrid, Vec<TileName>), OutOfMemory>
        requires { in_range at.now }
        ensures fits { IfOk result (λ a. IsOrigin a.0) }
        ensures begins { IfOk result (λ a. a.0 ≡ origin_of a.1 a.2.items) }
        ensures named { IfOk result (λ a. (inputs : List Self) → Self.fit frame.now inputs → named at.now (Self.key_of frame.now) inputs a.1 a.2.items) };
}
