//! Lines of a report: a word, and numbers with a space before each.

ghost use Rattle.std.specs.Prelude.{◌≡◌, ◌<◌, ◌^◌, ◌∷◌, ◌++◌, ◌+◌};
ghost use Rattle.drain_report.specs.Names.{ℤ, ℕ, List, IfSome, IfOk, OnOk, MatchOption, MatchResult, length, signed_decimal};
ghost use Rattle.drain_report.specs.Faults.{IsAt, IsPast, IsLineFault, line_feeds};
ghost use Rattle.drain_report.specs.Lines.{spaced, line, AreLong, AreNumbersThen, IsLineThen};

use crate::fault::ReportFault;
use crate::numbers::first_number;
use drain_grid::OutOfMemory;
use itoa::Buffer;
use memchr::memchr;

/// The text from a line on, and the line's number.
#[derive(Clone, Copy)]
pub struct Lines<'a> {
    pub rest: &'a [u8],
    pub number: u64,
}

impl<'a> Lines<'a> {
    /// The text after the first line, and the next line's number.
    pub fn after_first(&self, rest: &'a [u8]) -> Lines<'a>
        ensures text { result.rest.now ≡ rest.now }
        ensures place { (feeds : ℕ) → feeds < 2 ^ 63 → line_feeds self.now.rest.now ≡ line_feeds rest.now + 1 → IsAt feeds self.now.number self.now.rest.now → IsPast feeds self.now.number result.number result.rest.now }
    {
        Lines {
            rest,
            number: self.number.saturating_add(1),
        }
    }
}

/// Reads as many numbers as the slice holds, a space before each; returns what follows them.
pub fn read_numbers<'a>(text: &'a [u8], numbers: &mut [i64]) -> Option<&'a [u8]>
    ensures len { length numbers.new ≡ length numbers.old }
    ensures sound { IfSome result (λ rest. text.now ≡ spaced numbers.new ++ rest.now) }
    ensures long { IfSome result (λ _. AreLong numbers.new) }
    ensures back { (ns : List ℤ) (c : ℕ) (rest : List ℕ) → length ns ≡ length numbers.old → AreNumbersThen text.now ns c rest → MatchOption result ⊥ (λ after. (numbers.new ≡ ns) × (after.now ≡ c ∷ rest)) }
{
    let mut rest = text;
    for k in 0..numbers.len() {
        let Some((number, after)) = first_number(rest) else {
            return None;
        };
        numbers[k] = number;
        rest = after;
    }
    Some(rest)
}

/// Reads a line that begins with this word and has as many numbers as the slice holds; returns what follows the line.
fn line_after<'a>(text: &'a [u8], word: &[u8], numbers: &mut [i64]) -> Option<&'a [u8]>
    ensures len { length numbers.new ≡ length numbers.old }
    ensures sound { IfSome result (λ rest. text.now ≡ line word.now numbers.new ++ rest.now) }
    ensures long { IfSome result (λ _. AreLong numbers.new) }
    ensures back { (ns : List ℤ) (rest : List ℕ) → length ns ≡ length numbers.old → IsLineThen text.now word.now ns rest → MatchOption result ⊥ (λ after. (numbers.new ≡ ns) × (after.now ≡ rest)) }
{
    let Some(after) = after_word(text, word) else {
        return None;
    };
    let Some(end) = read_numbers(after, numbers) else {
        return None;
    };
    let Some(rest) = after_word(end, b"\n") else {
        return None;
    };
    Some(rest)
}

/// What follows these bytes, if the text begins with them.
pub fn after_word<'a>(text: &'a [u8], word: &[u8]) -> Option<&'a [u8]>
    ensures sound { IfSome result (λ rest. text.now ≡ word.now ++ rest.now) }
    ensures back { (rest : List ℕ) → text.now ≡ word.now ++ rest → MatchOption result ⊥ (λ after. after.now ≡ rest) }
{
    if text.len() < word.len() {
        return None;
    }
    let front = &text[..word.len()];
    if front != word {
        return None;
    }
    Some(&text[word.len()..])
}

/// Reads the next line, which has to begin with this word and to have as many numbers as the slice holds.
pub fn read_line<'a>(
    lines: Lines<'a>,
    word: &str,
    numbers: &mut [i64],
) -> Result<Lines<'a>, ReportFault>
    ensures len { length numbers.new ≡ length numbers.old }
    ensures sound { IfOk result (λ after. lines.entry.rest.now ≡ line word.now numbers.new ++ after.rest.now) }
    ensures long { IfOk result (λ _. AreLong numbers.new) }
    ensures back { (ns : List ℤ) (rest : List ℕ) → length ns ≡ length numbers.old → IsLineThen lines.entry.rest.now word.now ns rest → MatchResult result (λ after. (numbers.new ≡ ns) × (after.rest.now ≡ rest)) (λ _. ⊥) }
    ensures place { (feeds : ℕ) → feeds < 2 ^ 63 → line_feeds word.now ≡ 0 → IsAt feeds lines.entry.number lines.entry.rest.now → MatchResult result (λ after. IsPast feeds lines.entry.number after.number after.rest.now) (IsLineFault feeds lines.entry.number) }
{
    match line_after(lines.rest, word.as_bytes(), numbers) {
        Some(rest) => Ok(lines.after_first(rest)),
        None => Err(unread(lines)),
    }
}

/// Why the next line can't be read: there is none, or it is another one.
pub fn unread(lines: Lines) -> ReportFault
    ensures { (feeds : ℕ) → IsAt feeds lines.entry.number lines.entry.rest.now → IsLineFault feeds lines.entry.number result }
{
    match memchr(b'\n', lines.rest) {
        None => ReportFault::MissingLine(lines.number),
        Some(_) => ReportFault::BadLine(lines.number),
    }
}

/// Appends a number with a space before it.
pub fn push_number(text: &mut Vec<u8>, number: i64) -> Result<(), OutOfMemory>
    ensures { OnOk result (text.new.items ≡ text.old.items ++ 32 ∷ signed_decimal number) }
{
    let mut digits = Buffer::new();
    push(text, b" ")?;
    push(text, digits.format(number).as_bytes())
}

/// Appends numbers, a space before each.
pub fn push_numbers(text: &mut Vec<u8>, numbers: &[i64]) -> Result<(), OutOfMemory>
    requires { AreLong numbers.now }
    ensures { OnOk result (text.new.items ≡ text.old.items ++ spaced numbers.now) }
{
    for number in numbers {
        push_number(text, *number)?;
    }
    Ok(())
}

/// Appends a line.
pub fn push_line(text: &mut Vec<u8>, word: &str, numbers: &[i64]) -> Result<(), OutOfMemory>
    requires { AreLong numbers.now }
    ensures { OnOk result (text.new.items ≡ text.old.items ++ line word.now numbers.now) }
{
    push(text, word.as_bytes())?;
    push_numbers(text, numbers)?;
    push(text, b"\n")
}

/// Appends these bytes.
pub fn push(text: &mut Vec<u8>, bytes: &[u8]) -> Result<(), OutOfMemory>
    ensures { OnOk result (text.new.items ≡ text.old.items ++ bytes.now) }
{
    text.extend_from_slice(bytes)?;
    Ok(())
}
