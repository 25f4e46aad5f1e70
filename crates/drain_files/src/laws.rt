//! A law on the constants.
//!
//! A law is a function with an empty body: its contract is the law, and a caller gets the law by calling it.

ghost use Rattle.std.specs.Prelude.{◌≡◌};

use crate::whole_input::{MAX_TEXT_BYTES, MAX_WIDTHS_BYTES};

/// The numerals of the constants in definitions: a text has at most 2^32 bytes, and one of widths 2^21. This project's
/// own.
pub fn constants()
    ensures max_text_bytes { MAX_TEXT_BYTES ≡ 4294967296 }
    ensures max_widths_bytes { MAX_WIDTHS_BYTES ≡ 2097152 }
{}
