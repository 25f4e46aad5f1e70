//! The range of a header's pixels.

ghost use Rattle.std.specs.Prelude.{◌≡◌, ◌<◌, ◌≤ℤ◌, ◌↔◌};
ghost use Rattle.drain_raster.specs.Names.{IsTrue, MatchOption, All, map, pos, true, false, IsFloatNumber};
ghost use Rattle.drain_raster.specs.Pixels.{header_extent};
ghost use Rattle.drain_raster.specs.Bytes.{least_number, greatest_number, CanSpell, CanSpellAll, CanSpellIn, CanSpellTo, IsFirstAlong, IsFirstOutOfRange};

use drain_grid::{Cell, HeightKind, KeptNumbers, Raster};
use drain_header::Header;

/// The least and the greatest whole height that pixels can encode.
#[derive(Clone, Copy)]
struct Spelled {
    least: i64,
    greatest: i64,
}

impl Spelled {
    /// The range of pixels of this many bits.
    fn by(header: &Header) -> Spelled
        ensures least { result.least ≡ least_number header.now.signed header.now.bits }
        ensures greatest { result.greatest ≡ greatest_number header.now.signed header.now.bits }
    {
        match (header.bits, header.signed) {
            (8, false) => Spelled {
                least: 0,
                greatest: i64::from(u8::MAX),
            },
            (8, true) => Spelled {
                least: i64::from(i8::MIN),
                greatest: i64::from(i8::MAX),
            },
            (16, false) => Spelled {
                least: 0,
                greatest: i64::from(u16::MAX),
            },
            (16, true) => Spelled {
                least: i64::from(i16::MIN),
                greatest: i64::from(i16::MAX),
            },
            (_, false) => Spelled {
                least: 0,
                greatest: i64::from(u32::MAX),
            },
            (_, true) => Spelled {
                least: i64::from(i32::MIN),
                greatest: i64::from(i32::MAX),
            },
        }
    }

    /// Whether the number is in the range.
    fn holds(self, number: i64) -> bool
        ensures { IsTrue result ↔ (self.least ≤ℤ number) × (number ≤ℤ self.greatest) }
    {
        self.least <= number && number <= self.greatest
    }
}

/// Whether a pixel can encode the number.
fn can_spell(header: &Header, spelled: Spelled, number: i64) -> bool
    requires least { spelled.least ≡ least_number header.now.signed header.now.bits }
    requires greatest { spelled.greatest ≡ greatest_number header.now.signed header.now.bits }
    ensures { IsTrue result ↔ CanSpell header.now number }
{
    match header.kind {
        HeightKind::Whole => spelled.holds(number),
        HeightKind::Single => is_float(number),
    }
}

/// Whether it is the number of a float.
fn is_float(number: i64) -> bool
    ensures { IsTrue result ↔ IsFloatNumber number }
{
    (-2139095040 <= number && number <= 2139095040) || number == 2143289344
}

/// The first column of a row with a number that a pixel can't encode.
fn first_in_row(header: &Header, spelled: Spelled, raster: &Raster, row: u32) -> Option<u32>
    requires shape { raster.now.extent ≡ header_extent header.now }
    requires least { spelled.least ≡ least_number header.now.signed header.now.bits }
    requires greatest { spelled.greatest ≡ greatest_number header.now.signed header.now.bits }
    requires inside { row < header.now.rows }
    ensures { MatchOption result (CanSpellTo header.now raster.now row header.now.cols) (IsFirstAlong header.now raster.now row) }
{
    for col in 0..header.cols {
        if !can_spell(header, spelled, raster.value(Cell { row, col })) {
            return Some(col);
        }
    }
    None
}

/// Each byte is a number of 8 bits.
fn look_at_bytes(numbers: &[u8])
    ensures { All (CanSpellIn false 8) (map (λ n. pos n) numbers.now) }
{
    for k in 0..numbers.len() {
        let _number = numbers[k];
    }
}

/// Each height is a number of 16 bits with a sign.
fn look_at_heights(numbers: &[i16])
    ensures { All (CanSpellIn true 16) numbers.now }
{
    for k in 0..numbers.len() {
        look_at(numbers[k]);
    }
}

/// The same of one height.
fn look_at(_height: i16)
    ensures { CanSpellIn true 16 _height }
{}

/// Each count is a number of 32 bits.
fn look_at_counts(numbers: &[u32])
    ensures { All (CanSpellIn false 32) (map (λ n. pos n) numbers.now) }
{
    for k in 0..numbers.len() {
        let _number = numbers[k];
    }
}

/// Whether the numbers are kept in the bits of the pixels: then none has to be looked at.
fn are_of_pixels(header: &Header, raster: &Raster) -> bool
    ensures { IsTrue result → CanSpellAll header.now raster.now }
{
    if header.kind == HeightKind::Single {
        return false;
    }
    match (raster.kept(), header.bits, header.signed) {
        (KeptNumbers::Bytes(numbers), 8, false) => {
            look_at_bytes(numbers);
            true
        }
        (KeptNumbers::Heights(numbers), 16, true) => {
            look_at_heights(numbers);
            true
        }
        (KeptNumbers::Counts(numbers), 32, false) => {
            look_at_counts(numbers);
            true
        }
        _ => false,
    }
}

/// The first cell with a number that a pixel can't encode.
pub fn first_out_of_range(header: &Header, raster: &Raster) -> Option<Cell>
    requires shape { raster.now.extent ≡ header_extent header.now }
    ensures { MatchOption result (CanSpellAll header.now raster.now) (IsFirstOutOfRange header.now raster.now) }
{
    if are_of_pixels(header, raster) {
        return None;
    }
    let spelled = Spelled::by(header);
    for row in 0..header.rows {
        if let Some(col) = first_in_row(header, spelled, raster, row) {
            return Some(Cell { row, col });
        }
    }
    None
}
