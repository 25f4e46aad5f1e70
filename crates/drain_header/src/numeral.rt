//! Decimals without a sign, cut into parts: digits, perhaps a point and digits, perhaps an exponent.

ghost use Rattle.std.specs.Prelude.{◌≡◌, ◌+◌, ◌≤◌, ◌<◌, ◌&&◌, ◌==◌, [], nat_lt, length, slice_index, slice_range, if◌then◌else◌};
ghost use Rattle.std.specs.Float.Numeral.{minus, scan_numeral, digits_end as end_of_digits, exponent_start, has_exponent};
ghost use Rattle.drain_header.specs.Decimals.{parts_of};

/// The parts of a decimal, each a part of the text.
#[derive(Clone, Copy)]
pub struct Numeral<'a> {
    pub whole: &'a [u8],
    pub point: bool,
    pub fraction: &'a [u8],
    pub exponent_negative: bool,
    pub exponent: &'a [u8],
    pub len: usize,
}

/// The longest decimal at the front of the bytes. It may have no digit at all.
pub fn scan(bytes: &[u8]) -> Numeral<'_>
    ensures { parts_of result ≡ scan_numeral bytes.now }
{
    let whole_end = digits_end(bytes, 0);
    let whole = &bytes[..whole_end];
    if byte_at(bytes, whole_end) != b'.' {
        return with_exponent(bytes, whole_end, whole, false, &[]);
    }
    let end = digits_end(bytes, whole_end + 1);
    with_exponent(bytes, end, whole, true, &bytes[whole_end + 1..end])
}

fn with_exponent<'a>(
    bytes: &'a [u8],
    at: usize,
    whole: &'a [u8],
    point: bool,
    fraction: &'a [u8],
) -> Numeral<'a>
    requires { at ≤ length bytes.now }
    ensures whole { result.whole.now ≡ whole.now }
    ensures point { result.point ≡ point }
    ensures fraction { result.fraction.now ≡ fraction.now }
    ensures sign { result.exponent_negative ≡ (has_exponent bytes.now at && slice_index bytes.now (at + 1) == minus) }
    ensures exponent { result.exponent.now ≡ (if has_exponent bytes.now at then slice_range bytes.now (exponent_start bytes.now at) (end_of_digits bytes.now (exponent_start bytes.now at)) else []) }
    ensures len { result.len ≡ (if has_exponent bytes.now at then end_of_digits bytes.now (exponent_start bytes.now at) else at) }
{
    let start = find_exponent(bytes, at);
    if start == 0 {
        return Numeral {
            whole,
            point,
            fraction,
            exponent_negative: false,
            exponent: &[],
            len: at,
        };
    }
    let len = digits_end(bytes, start);
    let exponent_negative = byte_at(bytes, at + 1) == b'-';
    Numeral {
        whole,
        point,
        fraction,
        exponent_negative,
        exponent: &bytes[start..len],
        len,
    }
}

/// Where the digits of the exponent at the index begin, or 0 if there is none.
fn find_exponent(bytes: &[u8], at: usize) -> usize
    requires { at ≤ length bytes.now }
    ensures found { nat_lt 0 result ≡ has_exponent bytes.now at }
    ensures start { 0 < result → (result ≡ exponent_start bytes.now at) × (result < length bytes.now) }
{
    let mark = byte_at(bytes, at);
    if mark != b'e' && mark != b'E' {
        return 0;
    }
    let sign = byte_at(bytes, at + 1);
    let start = if sign == b'-' || sign == b'+' {
        at + 2
    } else {
        at + 1
    };
    if byte_at(bytes, start).is_ascii_digit() {
        start
    } else {
        0
    }
}

/// Where the digits at the index end.
fn digits_end(bytes: &[u8], from: usize) -> usize
    requires { from ≤ length bytes.now }
    ensures end { result ≡ end_of_digits bytes.now from }
    ensures within { result ≤ length bytes.now }
{
    let mut at = from;
    while at < bytes.len() && bytes[at].is_ascii_digit() {
        at += 1;
    }
    at
}

/// The byte at the index, or 0 past the end.
fn byte_at(bytes: &[u8], at: usize) -> u8
    ensures { result ≡ slice_index bytes.now at }
{
    if at < bytes.len() { bytes[at] } else { 0 }
}
