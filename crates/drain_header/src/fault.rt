//! What can be wrong with a header, and its text.

ghost use Rattle.std.specs.Prelude.{◌≡◌, ◌+◌, ◌≤◌, ◌++◌, length, codes, decimal};
ghost use Rattle.drain_header.specs.Faults.{fault_text};

use crate::key::Key;
use arrayvec::ArrayString;
use itoa::Buffer;
use thiserror::Error;

/// The longest text of a fault has fewer bytes.
pub const FAULT_LENGTH: usize = 64;

/// A fault of a header, in the order in which faults are reported. Lines are counted from 1.
#[derive(Clone, Copy, PartialEq, Eq, Debug, Error)]
pub enum HeaderFault {
    /// The header has more than 65,536 bytes.
    #[error("the header has more than 65,536 bytes")]
    TooLong,
    /// The line has a keyword that an earlier line has.
    #[error("line {0} repeats a keyword")]
    RepeatedKey(u32),
    /// The line has a keyword, and no valid value for it.
    #[error("line {0} has a bad value")]
    BadValue(u32),
    /// No line has the keyword.
    #[error("a keyword is missing")]
    MissingKey(Key),
    /// The number of bands is not one.
    #[error("the raster is not of one band")]
    NotOneBand,
    /// The pixel size is not 8, 16 or 32 bits.
    #[error("a pixel is not of 8, 16 or 32 bits")]
    BadBits,
    /// The pixel type is neither of the two known words.
    #[error("the pixel type is not known")]
    BadPixelType,
    /// A row has fewer bytes than its pixels need.
    #[error("a row is too short for its pixels")]
    RowTooShort,
}

impl HeaderFault {
    /// The fault as reports print it, in ASCII, as `BadValue 3`.
    pub fn text(self) -> ArrayString<FAULT_LENGTH>
        ensures { result.bytes ≡ fault_text self }
    {
        match self {
            HeaderFault::TooLong => word("TooLong"),
            HeaderFault::RepeatedKey(line) => word_and_line("RepeatedKey ", line),
            HeaderFault::BadValue(line) => word_and_line("BadValue ", line),
            HeaderFault::MissingKey(key) => {
                let mut text = word("MissingKey ");
                text.push_str(key.name());
                text
            }
            HeaderFault::NotOneBand => word("NotOneBand"),
            HeaderFault::BadBits => word("BadBits"),
            HeaderFault::BadPixelType => word("BadPixelType"),
            HeaderFault::RowTooShort => word("RowTooShort"),
        }
    }
}

fn word(name: &str) -> ArrayString<FAULT_LENGTH>
    requires { length name.now ≤ 16 }
    ensures { result.bytes ≡ name.now }
{
    let mut text = ArrayString::<FAULT_LENGTH>::new();
    text.push_str(name);
    text
}

fn word_and_line(name: &str, line: u32) -> ArrayString<FAULT_LENGTH>
    requires { length name.now ≤ 16 }
    ensures { result.bytes ≡ name.now ++ decimal line }
{
    let mut text = word(name);
    let mut digits = Buffer::new();
    text.push_str(digits.format(line));
    text
}
