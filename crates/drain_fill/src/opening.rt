//! Why a cell is open.

ghost use Rattle.std.specs.Prelude.{◌≡◌, ◌↔◌};
ghost use Rattle.drain_fill.specs.Names.{IfSome, IsNone, IsTrue, None, false, true, Direction, IsOpen, neighbor};

use drain_grid::{Direction, Patch};

/// Why a data cell is open: the first reason that applies.
#[derive(Clone, Copy)]
pub enum Opening {
    /// It is listed as a sink.
    Sink,
    /// It is on the edge of the mosaic.
    Edge,
    /// It is next to a void.
    Void,
}

impl Opening {
    /// A word for it.
    pub fn name(self) -> &'static str {
        match self {
            Opening::Sink => "sink",
            Opening::Edge => "edge",
            Opening::Void => "void",
        }
    }
}

/// Why the cell is open; none if it isn't.
pub fn opening_of(patch: &Patch) -> Option<Opening>
    ensures none { IsNone result ↔ ¬ IsOpen patch.now }
    ensures sink { IfSome result (λ opening. (opening ≡ Opening.Sink) ↔ (patch.now.here.sink ≡ true)) }
    ensures edge { IfSome result (λ opening. (opening ≡ Opening.Edge) ↔ ((patch.now.here.sink ≡ false) × ((d : Direction) × (neighbor patch.now d ≡ None)))) }
{
    if !patch.is_open() {
        None
    } else if patch.here.sink {
        Some(Opening::Sink)
    } else if is_on_edge(patch) {
        Some(Opening::Edge)
    } else {
        Some(Opening::Void)
    }
}

/// Whether there is no cell in some direction.
fn is_on_edge(patch: &Patch) -> bool
    ensures { IsTrue result ↔ ((d : Direction) × (neighbor patch.now d ≡ None)) }
{
    Direction::ALL
        .iter()
        .any(|direction| patch.neighbor(*direction).is_none())
}
