//! Over which distances slopes were compared, as the explanation of an answer names them.

ghost use Rattle.std.specs.Prelude.{◌≡◌};
ghost use Rattle.drain_explain.specs.Slopes.{slopes_of};

use drain_findings::Slopes;
use drain_verdict::{Given, SpacingInput};

/// What is said of the spacing that is given.
pub(crate) fn slopes_of(given: &Given) -> Slopes
    ensures { result ≡ slopes_of given.now.spacing }
{
    match given.spacing {
        SpacingInput::Same(spacing) => Slopes::Cells(spacing),
        SpacingInput::ByRow(_) => Slopes::ByRow,
    }
}
