//! Over which distances slopes were compared, as the explanation of an answer names them.

use drain_grid::Spacing;

/// How far apart cells are.
#[derive(Clone, Copy, PartialEq, Eq, Debug)]
pub enum Slopes {
    /// All cells have this width and height.
    Cells(Spacing),
    /// A text lists them, row by row.
    ByRow,
}
