//! Header texts of rasters.
#![tactic(auto)]

pub mod decimal;
pub mod fault;
mod finish;
pub mod header;
pub mod key;
pub mod kind;
pub mod laws;
mod line;
pub mod lines;
mod numeral;
pub mod parse;
mod said;
mod text;
mod value;

pub use fault::HeaderFault;
pub use header::{ByteOrdering, Header, Place};
pub use key::Key;
pub use kind::kind_said;
pub use parse::{MAX_HEADER_BYTES, parse_header, parse_header_of};
pub use text::header_text;
