//! What the lines rest on. A law is a function with an empty body: its contract is the law.

ghost use Rattle.std.specs.Prelude.{◌≡◌};

use crate::lines::LINE_LENGTH;

/// The numeral of the constant: the longest line has fewer bytes. It is this project's own.
pub fn constants()
    ensures line_length { LINE_LENGTH ≡ 160 }
{}
