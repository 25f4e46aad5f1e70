//! What is given beside the rasters of opened files.

ghost use Rattle.std.specs.Prelude.{◌≡◌};
ghost use Rattle.drain_cli.specs.Names.{spacing_opened};

use drain_files::open_spacing::OpenSpacing;
use drain_verdict::Given;

/// This list of sinks, and this spacing.
pub fn given_of<'a>(sinks: &'a [u8], spacing: &'a OpenSpacing) -> Given<'a>
    ensures { result ≡ record { sinks = sinks.now; spacing = spacing_opened spacing.now } }
{
    Given {
        sinks,
        spacing: spacing.input(),
    }
}
