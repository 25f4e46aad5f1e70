//! What the numbers of a line say: whole numbers, flags and cells.

ghost use Rattle.std.specs.Prelude.{◌≡◌, ◌<◌, ◌^◌, ℕ, ℤ, List, ◌++◌, Some, IfSome, IfOk, MatchResult, length, OnOk, ◌+◌, Bool, pos, get_or};
ghost use Rattle.drain_report.specs.Faults.{IsAt, IsPast, IsLineFault, line_feeds};
ghost use Rattle.drain_report.specs.Lines.{AreLong, IsLineThen, line};
ghost use Rattle.drain_grid.specs.declared.cell.Cell.{Cell as CellOf};
ghost use Rattle.drain_report.specs.Facts.{IsNarrow, flag_number};

use crate::fault::ReportFault;
use crate::lines::{Lines, read_line};
use drain_grid::{Cell, OutOfMemory};

/// What the numbers of a line say.
pub trait Fact: Copy {
    /// Its numbers.
    ghost numbers_of: { Self → List ℤ };

    /// How many they are.
    ghost how_many: { ℕ };

    /// Whether each of them is in its range.
    ghost is_in_range: { Self → Type 0 };

    /// The fact of these numbers.
    fn from_numbers(numbers: &[i64]) -> Option<Self>
        requires long { AreLong numbers.now }
        requires len { length numbers.now ≡ how_many }
        ensures sound { IfSome result (λ x. numbers.now ≡ numbers_of x) }
        ensures back { (x : Self) → is_in_range x → numbers.now ≡ numbers_of x → result ≡ Some x };
}

/// Reads the next line, which has to begin with this word and to have as many numbers as the slice holds.
pub fn read_fact<'a, T: Fact>(
    lines: Lines<'a>,
    word: &str,
    numbers: &mut [i64],
) -> Result<(T, Lines<'a>), ReportFault>
    requires { length numbers.old ≡ T.how_many }
    ensures sound { IfOk result (λ found. lines.entry.rest.now ≡ line word.now (T.numbers_of found.0) ++ found.1.rest.now) }
    ensures back { (x : T) (rest : List ℕ) → T.is_in_range x → length (T.numbers_of x) ≡ T.how_many → IsLineThen lines.entry.rest.now word.now (T.numbers_of x) rest → MatchResult result (λ found. (found.0 ≡ x) × (found.1.rest.now ≡ rest)) (λ _. ⊥) }
    ensures place { (feeds : ℕ) → feeds < 2 ^ 63 → line_feeds word.now ≡ 0 → IsAt feeds lines.entry.number lines.entry.rest.now → MatchResult result (λ found. IsPast feeds lines.entry.number found.1.number found.1.rest.now) (IsLineFault feeds lines.entry.number) }
{
    let next = match read_line(lines, word, numbers) {
        Ok(next) => next,
        Err(fault) => return Err(fault),
    };
    let Some(fact) = T::from_numbers(numbers) else {
        return Err(ReportFault::OutOfRange(lines.number));
    };
    Ok((fact, next))
}

/// What a line of a report says.
pub trait ReportLine: Copy {
    /// The line, with its line feed.
    ghost line_of: { Self → List ℕ };

    /// Whether each of its numbers is in its range.
    ghost fits: { Self → Type 0 };

    /// Reads the next line.
    fn read_from<'a>(lines: Lines<'a>) -> Result<(Self, Lines<'a>), ReportFault>
        ensures sound { IfOk result (λ found. lines.entry.rest.now ≡ line_of found.0 ++ found.1.rest.now) }
        ensures back { (x : Self) (rest : List ℕ) → fits x → lines.entry.rest.now ≡ line_of x ++ rest → MatchResult result (λ found. (found.0 ≡ x) × (found.1.rest.now ≡ rest)) (λ _. ⊥) }
        ensures place { (feeds : ℕ) → feeds < 2 ^ 63 → IsAt feeds lines.entry.number lines.entry.rest.now → MatchResult result (λ found. IsPast feeds lines.entry.number found.1.number found.1.rest.now) (IsLineFault feeds lines.entry.number) };

    /// Appends the line.
    fn push_to(&self, text: &mut Vec<u8>) -> Result<(), OutOfMemory>
        ensures written { OnOk result (text.new.items ≡ text.old.items ++ line_of self.now) }
        ensures in_range { OnOk result (fits self.now) };
}

/// The number at a place.
pub fn at(numbers: &[i64], place: usize) -> i64
    requires long { AreLong numbers.now }
    requires inside { place < length numbers.now }
    ensures { result ≡ get_or numbers.now place (pos 0) }
{
    numbers[place]
}

/// The number as one of 32 bits, none below 0 or above.
fn whole(number: i64) -> Option<u32>
    ensures sound { IfSome result (λ n. number ≡ pos n) }
    ensures back { (n : ℕ) → n < 2 ^ 32 → number ≡ pos n → result ≡ Some n }
{
    u32::try_from(number).ok()
}

/// The whole number of 32 bits at a place.
pub fn whole_at(numbers: &[i64], place: usize) -> Option<u32>
    requires long { AreLong numbers.now }
    requires inside { place < length numbers.now }
    ensures sound { IfSome result (λ n. get_or numbers.now place (pos 0) ≡ pos n) }
    ensures back { (n : ℕ) → n < 2 ^ 32 → get_or numbers.now place (pos 0) ≡ pos n → result ≡ Some n }
{
    whole(at(numbers, place))
}

/// The number as one of 63 bits, none below 0.
fn count(number: i64) -> Option<u64>
    ensures sound { IfSome result (λ n. number ≡ pos n) }
    ensures back { (n : ℕ) → n < 2 ^ 63 → number ≡ pos n → result ≡ Some n }
{
    u64::try_from(number).ok()
}

/// The whole number of 63 bits at a place.
pub fn count_at(numbers: &[i64], place: usize) -> Option<u64>
    requires long { AreLong numbers.now }
    requires inside { place < length numbers.now }
    ensures sound { IfSome result (λ n. get_or numbers.now place (pos 0) ≡ pos n) }
    ensures back { (n : ℕ) → n < 2 ^ 63 → get_or numbers.now place (pos 0) ≡ pos n → result ≡ Some n }
{
    count(at(numbers, place))
}

/// The flag of 0 or 1, none of another number.
fn flag(number: i64) -> Option<bool>
    ensures sound { IfSome result (λ b. number ≡ flag_number b) }
    ensures back { (b : Bool) → number ≡ flag_number b → result ≡ Some b }
{
    match number {
        0 => Some(false),
        1 => Some(true),
        _ => None,
    }
}

/// The flag at a place.
pub fn flag_at(numbers: &[i64], place: usize) -> Option<bool>
    requires long { AreLong numbers.now }
    requires inside { place < length numbers.now }
    ensures sound { IfSome result (λ b. get_or numbers.now place (pos 0) ≡ flag_number b) }
    ensures back { (b : Bool) → get_or numbers.now place (pos 0) ≡ flag_number b → result ≡ Some b }
{
    flag(at(numbers, place))
}

/// The cell whose row is at a place, and its column at the next.
pub fn cell_at(numbers: &[i64], place: usize) -> Option<Cell>
    requires long { AreLong numbers.now }
    requires inside { place + 1 < length numbers.now }
    ensures sound { IfSome result (λ c. (get_or numbers.now place (pos 0) ≡ pos c.row) × (get_or numbers.now (place + 1) (pos 0) ≡ pos c.col)) }
    ensures back { (c : CellOf) → IsNarrow c → get_or numbers.now place (pos 0) ≡ pos c.row → get_or numbers.now (place + 1) (pos 0) ≡ pos c.col → result ≡ Some c }
{
    let Some(row) = whole_at(numbers, place) else {
        return None;
    };
    let Some(col) = whole_at(numbers, place + 1) else {
        return None;
    };
    Some(Cell { row, col })
}
