//! Laws on the constants in definitions of this crate.

ghost use Rattle.std.specs.Prelude.{◌≡◌};

use crate::refusal_detail::SHOWN_BYTES;

/// The numeral of the constant in definitions: of a bad line 80 bytes are shown. This project's own.
pub fn constants()
    ensures { SHOWN_BYTES ≡ 80 }
{}
