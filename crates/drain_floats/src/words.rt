//! No-data numbers of floats, as texts.

ghost use Rattle.std.specs.Prelude.{◌≡◌, IfSome};
ghost use Rattle.drain_floats.specs.Patterns.{IsFloatNumber};
ghost use Rattle.drain_floats.specs.Words.{float_nodata, float_number, IsFloatWord};

use crate::patterns::{number, pattern};
use ryu::Buffer;

/// The number of every NaN.
const NAN: i64 = 2143289344;

/// The number of the float nearest to a text, none if it is not that of a float.
pub fn nodata(word: &[u8]) -> Option<i64>
    ensures value { result ≡ float_nodata word.now }
    ensures number { IfSome result IsFloatNumber }
{
    match fast_float::parse::<f32, _>(word) {
        Ok(x) => Some(number_of(x)),
        Err(_) => None,
    }
}

/// The number of a float.
pub fn number_of(x: f32) -> i64
    ensures { result ≡ float_number x }
{
    if x.is_nan() {
        number(0x7FC0_0000)
    } else {
        number(x.to_bits())
    }
}

/// A word that reads as the float of a number: the shortest decimal that does, or `inf`, `-inf` or `nan`.
pub fn word_of(number: i64, buffer: &mut Buffer) -> &str
    requires { IsFloatNumber number }
    ensures { IsFloatWord number result.now }
{
    if number == NAN {
        return "nan";
    }
    buffer.format(f32::from_bits(pattern(number)))
}
