//! Words for directions, numbers of a raster and rules, for coordinates of a header, and for bytes that may be no ASCII.

use crate::numerals::{Numeral, kind_of, shown_numeral};
use arrayvec::ArrayString;
use drain_faults::product_faults::{nodata_of, number_at};
use drain_grid::{
    CellValues, Code, Direction, HeightKind, NoData, Rule, SetProduct, UNITS_PER_DEGREE,
};
use std::alloc::{AllocError, Global};
use std::fmt::Write;

/// How many bytes the words for one number have at most: a float's word has 25 and may stand behind a star.
pub(crate) const SHOWN_LENGTH: usize = 26;

/// The words for one number.
pub(crate) type Shown = ArrayString<SHOWN_LENGTH>;

/// The direction's letters.
pub(crate) fn letters(direction: Direction) -> &'static str {
    match direction {
        Direction::East => "E",
        Direction::SouthEast => "SE",
        Direction::South => "S",
        Direction::SouthWest => "SW",
        Direction::West => "W",
        Direction::NorthWest => "NW",
        Direction::North => "N",
        Direction::NorthEast => "NE",
    }
}

/// The letters and the code of a direction, `outlet 0`, or a question mark and the number that is no code.
pub(crate) fn shown_code(code: i64) -> Shown {
    let word = match Code::from_number(code) {
        Some(Code::To(direction)) => letters(direction),
        Some(Code::Outlet) => "outlet",
        None => "?",
    };
    let mut shown = Shown::new();
    let _ = write!(shown, "{word} {code}");
    shown
}

/// The number of a product at a cell, on heights of this kind; `no data` for its no-data number.
pub(crate) fn shown_number(
    heights: HeightKind,
    values: &CellValues,
    product: SetProduct,
    nodata: &NoData,
) -> Shown {
    let number = number_at(values, product);
    if number == nodata_of(nodata, product) {
        shown_word("no data")
    } else if product == SetProduct::Dir {
        shown_code(number)
    } else {
        shown_numeral("", Numeral::new(kind_of(heights, product), number))
    }
}

/// The ground at a cell, with a star if it is listed as a sink; `void` if there is none.
pub(crate) fn shown_ground(kind: HeightKind, values: &CellValues) -> Shown {
    let star = if values.sink { "*" } else { "" };
    match values.z {
        Some(number) => shown_numeral(star, Numeral::new(kind, number)),
        None => shown_word(if values.sink { "*void" } else { "void" }),
    }
}

/// The rule's number and name.
pub(crate) fn shown_rule(rule: Rule) -> Shown {
    let mut shown = Shown::new();
    let _ = write!(shown, "{} {}", rule.number(), rule.name());
    shown
}

/// A word.
pub(crate) fn shown_word(word: &str) -> Shown {
    let mut shown = Shown::new();
    let _ = shown.try_push_str(word);
    shown
}

/// A word two columns further in.
pub(crate) fn shown_indented(word: &str) -> Shown {
    let mut shown = Shown::new();
    let _ = write!(shown, "  {word}");
    shown
}

/// The longest decimal has fewer bytes.
pub(crate) const DECIMAL_LENGTH: usize = 64;

/// A coordinate or a size of a header, in units of 10^-15, as a decimal with fifteen places after the point.
pub(crate) fn units_text(units: i128) -> ArrayString<DECIMAL_LENGTH> {
    let mut shown = ArrayString::new();
    let sign = if units < 0 { "-" } else { "" };
    let whole = units.unsigned_abs() / UNITS_PER_DEGREE;
    let fraction = units.unsigned_abs() % UNITS_PER_DEGREE;
    let _ = write!(shown, "{sign}{whole}.{fraction:015}");
    shown
}

/// The bytes of a name or of a line unchanged, if they are printable ASCII; a backslash twice; another byte as `\x` and
/// two digits to the base 16.
pub(crate) fn shown_bytes(alloc: Global, bytes: &[u8]) -> Result<String, AllocError> {
    let mut shown = String::new(alloc);
    for byte in bytes {
        match *byte {
            b'\\' => shown.push_str("\\\\")?,
            printable @ b' '..=b'~' => shown.push(printable as char)?,
            other => write!(shown, "\\x{other:02x}")?,
        }
    }
    Ok(shown)
}
