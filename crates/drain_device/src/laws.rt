//! What the constants of this crate are, and that rows come in their order.
//!
//! A law is a function with an empty body: its contract is the law.

ghost use Rattle.std.specs.Prelude.{◌≡◌};
ghost use Rattle.drain_device.specs.Laws.{RowsComeInOrder};

use crate::patience::TOO_MANY_INTERRUPTIONS;
use crate::whole_input::CHUNK_BYTES;

/// The numerals of the constants: the 1,000th interruption of a device is one too many, and an input is read by 16,384
/// bytes. This project's own choices.
pub fn constants()
    ensures too_many_interruptions { TOO_MANY_INTERRUPTIONS ≡ 1000 }
    ensures chunk_bytes { CHUNK_BYTES ≡ 16384 }
{}

/// A row that comes is the next one of those that were to come.
pub fn rows_come_in_order()
    ensures { RowsComeInOrder }
{}
