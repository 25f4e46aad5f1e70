//! The text of a header gives the header back, and a text has one answer.
//!
//! A law is a function with an empty body: its contract is the law, and code that calls it can use the law.

ghost use Rattle.std.specs.Prelude.{◌≡◌};
ghost use Rattle.drain_header.specs.Laws.{OneAnswer, TextReadsBack};

use crate::fault::FAULT_LENGTH;
use crate::parse::MAX_HEADER_BYTES;

/// The numerals of the constants: the bytes of a header and of a fault's text. This project's own.
pub fn constants()
    ensures max_header_bytes { MAX_HEADER_BYTES ≡ 65536 }
    ensures fault_length { FAULT_LENGTH ≡ 64 }
{}

/// The text of a header within its bounds reads back as that header.
pub fn text_reads_back()
    ensures { TextReadsBack }
{}

/// A text describes one header, or has one first fault, never both.
pub fn one_answer()
    ensures { OneAnswer }
{}
