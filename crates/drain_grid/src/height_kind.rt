//! What a number of a height stands for.

/// How heights are numbered.
#[derive(Clone, Copy, PartialEq, Eq, Debug)]
pub enum HeightKind {
    /// A number is the height.
    Whole,
    /// A number is the place of a float of single precision among the floats, counted from 0.
    Single,
}
