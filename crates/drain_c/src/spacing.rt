//! How far apart cells are, as C passes it.

ghost use Rattle.std.specs.Prelude.{◌≡◌};
ghost use Rattle.drain_c.specs.Names.{option_map, spacing_from};
ghost use Rattle.drain_c.specs.Spacings.{is_no_text, spacing_passed};

use crate::given::{GivenBytes, SpacingBytes};
use drain_grid::{Spacing, SpacingInput};

/// The most bytes that a text of widths may have, 2^21: 72 for each row that a raster may have.
const MAX_WIDTHS_BYTES: usize = 2097152;

/// The spacing that is passed: a width and a height without a text, or a text without numbers. None if a number is past
/// 2^30, one alone is 0, numbers and a text are passed together, or the text is too long. Bytes of a text without
/// numbers may be missing.
pub fn spacing_passed<'a>(spacing: &SpacingBytes<'a>) -> Option<SpacingInput<'a>>
    ensures { option_map spacing_from result ≡ spacing_passed spacing.now }
{
    if spacing.width == 0 && spacing.height == 0 {
        if spacing.widths.bytes.len() <= MAX_WIDTHS_BYTES {
            return Some(SpacingInput::ByRow(spacing.widths.bytes));
        }
        return None;
    }
    match Spacing::new(spacing.width, spacing.height) {
        Some(cells) if is_no_text(&spacing.widths) => Some(SpacingInput::Same(cells)),
        _ => None,
    }
}

/// Whether no byte is passed, and none is missing.
fn is_no_text(text: &GivenBytes) -> bool
    ensures { result ≡ is_no_text text.now }
{
    text.bytes.is_empty() && text.missing == 0
}
