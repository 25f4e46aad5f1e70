//! What is said of a con whose numbers are of another kind than the elevations: what to write, and what was found.

ghost use Rattle.std.specs.Prelude.{◌≡◌};

use crate::json_text::JsonText;
use drain_grid::HeightKind;
use std::alloc::AllocError;

/// Both lines: what con is to be, and what its header says.
pub(crate) fn push_kinds(
    text: &mut String,
    expected: HeightKind,
    found: HeightKind,
) -> Result<(), AllocError> {
    text.push_str(match expected {
        HeightKind::Single => {
            "expected: con of floats, as the DEM has: write con as PIXELTYPE FLOAT with NBITS 32\n"
        }
        HeightKind::Whole => {
            "expected: con of whole numbers, as the DEM has: write con as PIXELTYPE SIGNEDINT or UNSIGNEDINT\n"
        }
    })?;
    text.push_str(match found {
        HeightKind::Single => "found: con with PIXELTYPE FLOAT\n",
        HeightKind::Whole => "found: con without PIXELTYPE FLOAT\n",
    })
}

/// The product, the kind that its numbers should have, and the one that its header says.
pub(crate) fn write_kinds(
    json: &mut JsonText,
    expected: HeightKind,
    found: HeightKind,
) -> Result<(), AllocError>
    ensures { json.new ≡ json.old }
{
    json.member("product", "con")?;
    json.member("expected", kind_word(expected))?;
    json.member("found", kind_word(found))
}

fn kind_word(kind: HeightKind) -> &'static str {
    match kind {
        HeightKind::Whole => "whole numbers",
        HeightKind::Single => "floats",
    }
}
