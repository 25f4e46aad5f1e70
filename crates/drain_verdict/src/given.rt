//! What is given beside the rasters: a list of sinks, and how far apart cells are.

ghost use Rattle.std.specs.Prelude.{◌≡◌};
ghost use Rattle.drain_verdict.specs.Given.{plain};

use drain_grid::SpacingInput;
use std::marker::Model;

/// A list of sinks, and how far apart cells are.
#[derive(Drop)]
pub struct Given<'a> {
    pub sinks: &'a [u8],
    pub spacing: SpacingInput<'a>,
}

impl<'a> Model for Given<'a> {
    ghost use Rattle.drain_verdict.specs.Given.{Given};
    ghost use Rattle.drain_sets.specs.GivenSpacings.{spacing_from};

    ghost Value = { Given };

    ghost view = { λ given. record { sinks = given.sinks.now; spacing = spacing_from given.spacing } };
}

impl<'a> Given<'a> {
    /// This list of sinks on unit spacing.
    pub fn plain(sinks: &'a [u8]) -> Given<'a>
        ensures { result ≡ plain sinks.now }
    {
        Given {
            sinks,
            spacing: SpacingInput::unit(),
        }
    }
}
