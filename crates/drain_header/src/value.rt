//! The valid values of keywords.

ghost use Rattle.std.specs.Prelude.{◌≡◌};
ghost use Rattle.drain_header.specs.Lines.{size_of as size_that, ordering_of as ordering_that, is_layout as layout_that, signedness_of as signedness_that, sign_of as sign_that, nodata_of as nodata_that};
ghost use Rattle.drain_header.specs.Header.{value_read};

use crate::decimal::{coordinate, nodata};
use crate::header::ByteOrdering;
use crate::key::Key;
use crate::line::reads;
use drain_floats::nodata as float_nodata;
use drain_grid::HeightKind;
use drain_text::whole_number;

/// The most rows, and the most columns.
const MAX_SIZE: u32 = 28801;

/// The meaning of a keyword's value.
#[derive(Clone, Copy)]
pub enum Value {
    Number(u32),
    Ordering(ByteOrdering),
    Layout,
    /// Whether pixels are signed, none if the word is no pixel type of the header's heights.
    Signed(Option<bool>),
    Coordinate(i128),
    Nodata(i64),
}

/// The meaning of a word as the value of a keyword in a header of heights of a kind, none if it is not valid.
pub fn read_value(kind: HeightKind, key: Key, word: &[u8]) -> Option<Value>
    ensures { result ≡ value_read kind key word.now }
{
    match key {
        Key::Nrows | Key::Ncols => Some(Value::Number(size(word)?)),
        Key::Nbands | Key::Nbits | Key::SkipBytes | Key::BandRowBytes | Key::TotalRowBytes => {
            Some(Value::Number(whole_number(word)?))
        }
        Key::ByteOrder => Some(Value::Ordering(ordering(word)?)),
        Key::Layout => {
            if is_layout(word) {
                Some(Value::Layout)
            } else {
                None
            }
        }
        Key::PixelType => Some(Value::Signed(sign(kind, word))),
        Key::Ulxmap | Key::Ulymap | Key::Xdim | Key::Ydim => Some(Value::Coordinate(coordinate(
            word,
        )?)),
        Key::Nodata => Some(Value::Nodata(nodata_number(kind, word)?)),
    }
}

fn size(word: &[u8]) -> Option<u32>
    ensures { result ≡ size_that word.now }
{
    let number = whole_number(word)?;
    if 1 <= number && number <= MAX_SIZE {
        Some(number)
    } else {
        None
    }
}

fn ordering(word: &[u8]) -> Option<ByteOrdering>
    ensures { result ≡ ordering_that word.now }
{
    if reads("I", word) {
        Some(ByteOrdering::Least)
    } else if reads("M", word) {
        Some(ByteOrdering::Most)
    } else {
        None
    }
}

fn is_layout(word: &[u8]) -> bool
    ensures { result ≡ layout_that word.now }
{
    reads("BIL", word) || reads("BIP", word) || reads("BSQ", word)
}

fn sign(kind: HeightKind, word: &[u8]) -> Option<bool>
    ensures { result ≡ sign_that kind word.now }
{
    match kind {
        HeightKind::Whole => signedness(word),
        HeightKind::Single => {
            if reads("FLOAT", word) {
                Some(true)
            } else {
                None
            }
        }
    }
}

fn nodata_number(kind: HeightKind, word: &[u8]) -> Option<i64>
    ensures { result ≡ nodata_that kind word.now }
{
    match kind {
        HeightKind::Whole => nodata(word),
        HeightKind::Single => float_nodata(word),
    }
}

fn signedness(word: &[u8]) -> Option<bool>
    ensures { result ≡ signedness_that word.now }
{
    if reads("SIGNEDINT", word) {
        Some(true)
    } else if reads("UNSIGNEDINT", word) {
        Some(false)
    } else {
        None
    }
}
