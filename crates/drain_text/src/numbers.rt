//! Whole numbers as words: only digits, below 2^32.

ghost use Rattle.std.specs.Prelude.{◌≡◌};
ghost use Rattle.drain_text.specs.Text.{whole_number as whole_number_of};

/// The number of a word of digits; none if another byte is in it, if it is empty, or if the number takes over 32 bits.
///
/// Any number of leading zeros is allowed; a sign or a point is not.
pub fn whole_number(word: &[u8]) -> Option<u32>
    ensures { result ≡ whole_number_of word.now }
{
    if word.is_empty() {
        return None;
    }
    let mut value = 0u64;
    for byte in word {
        if !byte.is_ascii_digit() {
            return None;
        }
        // A number past 64 bits stops there: it is rejected all the same.
        value = value
            .saturating_mul(10)
            .saturating_add((*byte - b'0') as u64);
    }
    if value > u32::MAX as u64 {
        return None;
    }
    Some(value as u32)
}
