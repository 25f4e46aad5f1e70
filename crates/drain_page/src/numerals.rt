//! Numbers on a page: whole numbers by their digits, floats by the shortest decimals that read as the same floats.

ghost use Rattle.std.specs.Prelude.{◌≡◌, ◌↔◌};
ghost use Rattle.drain_page.specs.Names.{IsTrue, IsFloatNumber, IsFloatWord};
ghost use Rattle.drain_page.specs.Numerals.{IsWordOf, kind_shown};

use crate::json_text::{JsonText, JsonValue, append_word};
use crate::names::Shown;
use drain_floats::word_of;
use drain_grid::{HeightKind, SetProduct};
use std::alloc::AllocError;
use std::fmt::Write;

/// A number of this kind: whole, or the place of a float among the floats.
#[derive(Clone, Copy)]
pub struct Numeral {
    pub kind: HeightKind,
    pub number: i64,
}

impl Numeral {
    pub(crate) fn new(kind: HeightKind, number: i64) -> Numeral {
        Numeral { kind, number }
    }
}

/// The number, if there is one.
pub(crate) fn numeral_if_any(kind: HeightKind, number: Option<i64>) -> Option<Numeral> {
    Some(Numeral::new(kind, number?))
}

/// The kind of a product's numbers on heights of this kind: con's are heights, all others whole numbers.
pub(crate) fn kind_of(heights: HeightKind, product: SetProduct) -> HeightKind
    ensures { result ≡ kind_shown heights product }
{
    match product {
        SetProduct::Con => heights,
        SetProduct::Dir | SetProduct::Acc | SetProduct::Bas | SetProduct::Rnk => HeightKind::Whole,
    }
}

/// Room for the word of a number.
#[derive(Clone, Copy)]
pub(crate) struct Digits {
    whole: itoa::Buffer,
    single: ryu::Buffer,
}

impl Digits {
    pub(crate) fn new() -> Digits {
        Digits {
            whole: itoa::Buffer::new(),
            single: ryu::Buffer::new(),
        }
    }
}

/// The word of a number: its digits, or of a float the shortest decimal that reads as it, `nan`, `inf` or `-inf`.
pub(crate) fn numeral_word(numeral: Numeral, digits: &mut Digits) -> &str
    ensures { IsWordOf numeral.kind numeral.number result.now }
{
    match numeral.kind {
        HeightKind::Whole => digits.whole.format(numeral.number),
        HeightKind::Single => float_word(numeral.number, &mut digits.single),
    }
}

/// The word of a float. Each pixel of floats has the number of one.
fn float_word(number: i64, digits: &mut ryu::Buffer) -> &str
    ensures { IsFloatNumber number → IsFloatWord number result.now }
{
    if is_float_number(number) {
        word_of(number, digits)
    } else {
        "no float"
    }
}

/// Whether the number is that of a float: a finite one or an infinity, or the one of NaN.
fn is_float_number(number: i64) -> bool
    ensures { IsTrue result ↔ IsFloatNumber number }
{
    if number == 2143289344 {
        return true;
    }
    -2139095040 <= number && number <= 2139095040
}

/// The word behind a mark.
pub(crate) fn shown_numeral(mark: &str, numeral: Numeral) -> Shown {
    let mut digits = Digits::new();
    let word = numeral_word(numeral, &mut digits);
    let mut shown = Shown::new();
    let _ = write!(shown, "{mark}{word}");
    shown
}

impl JsonValue for Numeral {
    /// A number; of a float that isn't finite its word.
    fn append(self, json: &mut JsonText) -> Result<(), AllocError> {
        let mut digits = Digits::new();
        append_word(json, numeral_word(self, &mut digits))
    }
}
