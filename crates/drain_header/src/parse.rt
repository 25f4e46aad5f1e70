//! From a whole text to a header.

ghost use Rattle.drain_header.specs.Faults.{Answers, AnswersOf};

use crate::fault::HeaderFault;
use crate::finish::finish;
use crate::header::Header;
use crate::lines::{missing_key, read_lines};
use drain_grid::HeightKind;

/// The most bytes that a header can have.
pub const MAX_HEADER_BYTES: usize = 65536;

/// The header of whole heights that a text describes, or its first fault: `parse_header_of` for whole heights.
pub fn parse_header(text: &[u8]) -> Result<Header, HeaderFault>
    ensures answer { Answers text.now result }
{
    parse_header_of(text, HeightKind::Whole)
}

/// The header of heights of a kind that a text describes, or its first fault.
///
/// The text is split into lines at line feeds, and lines into words at spaces and tabs. A line's first word is its
/// keyword, in either letter case, and its second the keyword's value; a line with any other first word is skipped.
/// Faults come in this order: `TooLong`, that of the least line that has one (on one line `RepeatedKey` before
/// `BadValue`), `MissingKey`, `NotOneBand`, `BadBits`, `BadPixelType`, `RowTooShort`.
///
/// Floats have the pixel type FLOAT and 32 bits, and their no-data number is any text of a float.
///
/// Source: the Esri BIL header description for the keywords; the exact grammar and the defaults are this project's.
pub fn parse_header_of(text: &[u8], kind: HeightKind) -> Result<Header, HeaderFault>
    ensures answer { AnswersOf kind text.now result }
{
    if MAX_HEADER_BYTES < text.len() {
        return Err(HeaderFault::TooLong);
    }
    let seen = read_lines(text, kind)?;
    if let Some(key) = missing_key(&seen) {
        return Err(HeaderFault::MissingKey(key));
    }
    finish(&seen, kind)
}
