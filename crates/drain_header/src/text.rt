//! The text of a header: one line for each keyword, always in the same order.

ghost use Rattle.std.specs.Prelude.{◌≡◌, ◌≤◌, ◌<◌, ◌+◌, ◌*◌, ◌/◌, ◌%◌, ◌^◌, ◌++◌};
ghost use Rattle.drain_header.specs.Names.{List, ℕ, IfOk, IfSome, OnOk, decimal, is_negative, sign_text, IsFloatNumber};
ghost use Rattle.drain_header.specs.Header.{IsCoordinate};
ghost use Rattle.drain_header.specs.Text.{IsTextOf, shape_lines, pixel_lines, place_lines, line, nodata_line, IsFloatLine, fraction_text, places_text, ordering_text, signedness_text, type_text};

use crate::header::{ByteOrdering, Header, Place};
use crate::key::Key;
use drain_floats::word_of;
use drain_grid::{HeightKind, OutOfMemory};
use itoa::Buffer;
use std::alloc::Global;

/// The text of a header, in ASCII. Each keyword has one line: the keyword, a space, its value and a line feed.
///
/// LAYOUT is BIL and NBANDS 1; BANDROWBYTES and TOTALROWBYTES are both the bytes from one row to the next. ULXMAP,
/// ULYMAP, XDIM and YDIM are degrees with 15 digits after the point. NODATA has a line if there is a no-data number; of
/// floats it is the shortest decimal that reads as the same float, or `inf`, `-inf` or `nan`.
///
/// Only the returned text takes memory; if it can't grow, `OutOfMemory` is returned.
///
/// Source: the Esri BIL header description; the order of the lines and the 15 digits are this project's own.
pub fn header_text(alloc: Global, header: &Header) -> Result<Vec<u8>, OutOfMemory>
    ensures { IfOk result (λ text. IsTextOf header.now text.items) }
{
    let mut text = Vec::new(alloc);
    push_shape(&mut text, header)?;
    push_pixels(&mut text, header)?;
    push_place(&mut text, &header.place)?;
    match header.kind {
        HeightKind::Whole => push_nodata(&mut text, header.nodata)?,
        HeightKind::Single => push_float(&mut text, header.nodata)?,
    }
    Ok(text)
}

/// Appends the lines of the order of bytes, of rows and of columns.
fn push_shape(text: &mut Vec<u8>, header: &Header) -> Result<(), OutOfMemory>
    ensures { OnOk result (text.new.items ≡ text.old.items ++ shape_lines header.now) }
{
    push_line(text, Key::ByteOrder, ordering_word(header.order))?;
    push_line(text, Key::Layout, "BIL")?;
    push_number(text, Key::Nrows, header.rows)?;
    push_number(text, Key::Ncols, header.cols)?;
    push_number(text, Key::Nbands, 1)
}

/// Appends the lines of the pixels and of the bytes of their rows.
fn push_pixels(text: &mut Vec<u8>, header: &Header) -> Result<(), OutOfMemory>
    ensures { OnOk result (text.new.items ≡ text.old.items ++ pixel_lines header.now) }
{
    push_number(text, Key::Nbits, header.bits as u32)?;
    push_number(text, Key::BandRowBytes, header.row_bytes)?;
    push_number(text, Key::TotalRowBytes, header.row_bytes)?;
    push_number(text, Key::SkipBytes, header.skip)?;
    push_line(text, Key::PixelType, type_word(header.kind, header.signed))
}

/// Appends the lines of the place.
fn push_place(text: &mut Vec<u8>, place: &Place) -> Result<(), OutOfMemory>
    requires ulx { IsCoordinate place.now.ulx }
    requires uly { IsCoordinate place.now.uly }
    requires xdim { IsCoordinate place.now.xdim }
    requires ydim { IsCoordinate place.now.ydim }
    ensures { OnOk result (text.new.items ≡ text.old.items ++ place_lines place.now) }
{
    push_degrees(text, Key::Ulxmap, place.ulx)?;
    push_degrees(text, Key::Ulymap, place.uly)?;
    push_degrees(text, Key::Xdim, place.xdim)?;
    push_degrees(text, Key::Ydim, place.ydim)
}

fn ordering_word(order: ByteOrdering) -> &'static str
    ensures { result.now ≡ ordering_text order }
{
    match order {
        ByteOrdering::Least => "I",
        ByteOrdering::Most => "M",
    }
}

fn type_word(kind: HeightKind, signed: bool) -> &'static str
    ensures { result.now ≡ type_text kind signed }
{
    match kind {
        HeightKind::Whole => signedness_word(signed),
        HeightKind::Single => "FLOAT",
    }
}

fn signedness_word(signed: bool) -> &'static str
    ensures { result.now ≡ signedness_text signed }
{
    if signed { "SIGNEDINT" } else { "UNSIGNEDINT" }
}

/// Appends the line of a keyword and its value.
#[tactic(auto, unfolding(crate::specs::Text::line))]
fn push_line(text: &mut Vec<u8>, key: Key, value: &str) -> Result<(), OutOfMemory>
    ensures { OnOk result (text.new.items ≡ text.old.items ++ line key value.now) }
{
    push(text, key.name().as_bytes())?;
    push(text, b" ")?;
    push(text, value.as_bytes())?;
    push(text, b"\n")
}

/// Appends the line of a keyword whose value is a whole number.
fn push_number(text: &mut Vec<u8>, key: Key, number: u32) -> Result<(), OutOfMemory>
    ensures { OnOk result (text.new.items ≡ text.old.items ++ line key (decimal number)) }
{
    let mut digits = Buffer::new();
    push_line(text, key, digits.format(number))
}

/// Appends the line of the no-data number, if there is one.
fn push_nodata(text: &mut Vec<u8>, nodata: Option<i64>) -> Result<(), OutOfMemory>
    ensures { OnOk result (text.new.items ≡ text.old.items ++ nodata_line nodata) }
{
    let Some(number) = nodata else {
        return Ok(());
    };
    let mut digits = Buffer::new();
    push_line(text, Key::Nodata, digits.format(number))
}

/// Appends the line of a float's no-data number, if there is one.
fn push_float(text: &mut Vec<u8>, nodata: Option<i64>) -> Result<(), OutOfMemory>
    requires { IfSome nodata IsFloatNumber }
    ensures { OnOk result ((end : List ℕ) × IsFloatLine nodata end × (text.new.items ≡ text.old.items ++ end)) }
{
    let Some(number) = nodata else {
        return Ok(());
    };
    let mut digits = ryu::Buffer::new();
    push_line(text, Key::Nodata, word_of(number, &mut digits))
}

/// 5^15: times 2^15 it is the units of a degree.
const FIFTHS: u64 = 30517578125;

/// Whole degrees, and units of 10^-15 degree.
#[derive(Clone, Copy)]
struct Degrees {
    whole: u64,
    rest: u64,
}

/// A number by 5^15: the quotient, and what is left.
fn by_fifths(number: u128) -> Degrees
    requires { number < 2 ^ 69 }
    ensures sum { number ≡ result.whole * 30517578125 + result.rest }
    ensures less { result.rest < 30517578125 }
    ensures few { result.whole < 2 ^ 35 }
{
    let high = (number >> 6) as u64;
    let low = (number & 63) as u64;
    let step = (high % FIFTHS) * 64 + low;
    Degrees {
        whole: (high / FIFTHS) * 64 + step / FIFTHS,
        rest: step % FIFTHS,
    }
}

/// A magnitude in units of 10^-15 degree, by divisions of 64 bits: those of 128 bits call functions that the C library
/// doesn't have.
fn in_degrees(magnitude: u128) -> Degrees
    requires { magnitude ≤ 10000000000000000000000000 }
    ensures whole { result.whole ≡ magnitude / 1000000000000000 }
    ensures rest { result.rest ≡ magnitude % 1000000000000000 }
{
    let fifths = by_fifths(magnitude >> 15);
    Degrees {
        whole: fifths.whole,
        rest: fifths.rest * 32768 + (magnitude & 32767) as u64,
    }
}

/// Appends the line of a keyword whose value is in units of 10^-15 degree.
fn push_degrees(text: &mut Vec<u8>, key: Key, units: i128) -> Result<(), OutOfMemory>
    requires { IsCoordinate units }
    ensures { OnOk result (text.new.items ≡ text.old.items ++ line key (places_text units)) }
{
    let degrees = in_degrees(units.unsigned_abs());
    let mut digits = Buffer::new();
    push(text, key.name().as_bytes())?;
    push(text, b" ")?;
    push(text, sign(units).as_bytes())?;
    push(text, digits.format(degrees.whole).as_bytes())?;
    push(text, b".")?;
    push_fraction(text, degrees.rest)?;
    push(text, b"\n")
}

/// Appends the 15 digits after the point of a magnitude of which these units are left.
fn push_fraction(text: &mut Vec<u8>, rest: u64) -> Result<(), OutOfMemory>
    requires { rest < 1000000000000000 }
    ensures { OnOk result ((magnitude : ℕ) → rest ≡ magnitude % 1000000000000000 → text.new.items ≡ text.old.items ++ fraction_text magnitude) }
{
    let mut digits = Buffer::new();
    // A leading one keeps the zeros after it; it is dropped.
    let led = digits.format(1_000_000_000_000_000 + rest);
    push(text, &led.as_bytes()[1..])
}

fn sign(number: i128) -> &'static str
    ensures { result.now ≡ sign_text (is_negative number) }
{
    if number < 0 { "-" } else { "" }
}

/// Appends these bytes.
fn push(text: &mut Vec<u8>, bytes: &[u8]) -> Result<(), OutOfMemory>
    ensures { OnOk result (text.new.items ≡ text.old.items ++ bytes.now) }
{
    text.extend_from_slice(bytes)?;
    Ok(())
}
