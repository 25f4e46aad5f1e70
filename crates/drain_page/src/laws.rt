//! Laws on the constants in definitions of this crate.

ghost use Rattle.std.specs.Prelude.{◌≡◌};

use crate::degrees::PLACES;

/// The numeral of the constant in definitions: degrees are printed to seven places. This project's own.
pub fn constants()
    ensures { PLACES ≡ 10000000 }
{}
