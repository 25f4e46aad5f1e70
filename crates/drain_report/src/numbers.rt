//! Numbers of a line: a space before each, and no other way to write it.

ghost use Rattle.std.specs.Prelude.{◌≡◌, ◌<◌, ◌^◌, ◌∷◌, ◌++◌};
ghost use Rattle.drain_report.specs.Names.{ℕ, List, [], pos, IfOk, OnOk, MatchResult, ℤ, Some, IfSome, MatchOption, signed_decimal};
ghost use Rattle.drain_report.specs.Faults.{IsAt, IsPast, IsLineFault, line_feeds};
ghost use Rattle.drain_report.specs.Facts.{count_line};
ghost use Rattle.drain_report.specs.Lines.{IsLong, IsWordThen, IsNumberThen};

use crate::facts::{Fact, read_fact, whole_at};
use crate::fault::ReportFault;
use crate::lines::{Lines, push_line};
use drain_grid::OutOfMemory;
use itoa::Buffer;
use memchr::memchr2;

impl Fact for u32 {
    ghost numbers_of = { λ n. pos n ∷ [] };

    ghost how_many = { 1 };

    ghost is_in_range = { λ n. n < 2 ^ 32 };

    fn from_numbers(numbers: &[i64]) -> Option<u32> {
        whole_at(numbers, 0)
    }
}

/// Reads a line of this word and one whole number.
pub fn read_count<'a>(lines: Lines<'a>, word: &str) -> Result<(u32, Lines<'a>), ReportFault>
    ensures sound { IfOk result (λ found. lines.entry.rest.now ≡ count_line word.now found.0 ++ found.1.rest.now) }
    ensures back { (n : ℕ) (rest : List ℕ) → n < 2 ^ 32 → lines.entry.rest.now ≡ count_line word.now n ++ rest → MatchResult result (λ found. (found.0 ≡ n) × (found.1.rest.now ≡ rest)) (λ _. ⊥) }
    ensures place { (feeds : ℕ) → feeds < 2 ^ 63 → line_feeds word.now ≡ 0 → IsAt feeds lines.entry.number lines.entry.rest.now → MatchResult result (λ found. IsPast feeds lines.entry.number found.1.number found.1.rest.now) (IsLineFault feeds lines.entry.number) }
{
    let mut numbers = [0i64; 1];
    read_fact(lines, word, &mut numbers)
}

/// Appends a line of this word and one whole number.
pub fn push_count(text: &mut Vec<u8>, word: &str, count: u32) -> Result<(), OutOfMemory>
    ensures written { OnOk result (text.new.items ≡ text.old.items ++ count_line word.now count) }
    ensures in_range { count < 2 ^ 32 }
{
    let numbers = [i64::from(count)];
    push_line(text, word, &numbers)
}

/// The number that a word is, if it is written as numbers are printed: no plus, no leading zero.
pub fn number(word: &[u8]) -> Option<i64>
    ensures sound { IfSome result (λ n. word.now ≡ signed_decimal n) }
    ensures back { (n : ℤ) → IsLong n → word.now ≡ signed_decimal n → result ≡ Some n }
{
    let Ok(text) = str::from_utf8(word) else {
        return None;
    };
    let Ok(number) = text.parse::<i64>() else {
        return None;
    };
    let mut digits = Buffer::new();
    if digits.format(number).as_bytes() != word {
        return None;
    }
    Some(number)
}

/// The word after a space, up to the next space or the end of the line, and what follows it.
pub fn word_after_space(text: &[u8]) -> Option<(&[u8], &[u8])>
    ensures sound { IfSome result (λ found. text.now ≡ 32 ∷ (found.0.now ++ found.1.now)) }
    ensures back { (word : List ℕ) (c : ℕ) (rest : List ℕ) → IsWordThen text.now word c rest → MatchOption result ⊥ (λ found. (found.0.now ≡ word) × (found.1.now ≡ c ∷ rest)) }
{
    if text.is_empty() || text[0] != b' ' {
        return None;
    }
    let body = &text[1..];
    let Some(end) = memchr2(b' ', b'\n', body) else {
        return None;
    };
    Some((&body[..end], &body[end..]))
}

/// The number after a space, and what follows it.
pub fn first_number(text: &[u8]) -> Option<(i64, &[u8])>
    ensures sound { IfSome result (λ found. text.now ≡ 32 ∷ (signed_decimal found.0 ++ found.1.now)) }
    ensures back { (n : ℤ) (c : ℕ) (rest : List ℕ) → IsNumberThen text.now n c rest → MatchOption result ⊥ (λ found. (found.0 ≡ n) × (found.1.now ≡ c ∷ rest)) }
{
    let Some((word, rest)) = word_after_space(text) else {
        return None;
    };
    let Some(number) = number(word) else {
        return None;
    };
    Some((number, rest))
}
