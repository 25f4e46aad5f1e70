//! What is shown at the cells of a seam, as lines of a report.

ghost use Rattle.std.specs.Prelude.{◌≡◌, ◌<◌, ◌^◌, ◌∷◌, ◌++◌};
ghost use Rattle.drain_report.specs.Names.{ℕ, ℤ, List, Option, Some, IfSome, OnOk, MatchOption, length, Values};
ghost use Rattle.drain_union.specs.declared.report.Shown.{Shown as ShownOf};
ghost use Rattle.drain_report.specs.Lines.{IsLong, AreLong};
ghost use Rattle.drain_report.specs.Facts.{cell_numbers, height_word, other_numbers, seam_text, shown_line, AreShown, IsShown};

use crate::facts::{ReportLine, at, cell_at, flag_at};
use crate::fault::ReportFault;
use crate::lines::{Lines, after_word, push, push_number, push_numbers, read_numbers, unread};
use crate::numbers::{number, word_after_space};
use drain_grid::OutOfMemory;
use drain_union::{SeamValues, Shown};

/// The elevation after a space, none at a void, and what follows it.
fn first_height(text: &[u8]) -> Option<(Option<i64>, &[u8])>
    ensures sound { IfSome result (λ found. text.now ≡ 32 ∷ (height_word found.0 ++ found.1.now)) }
    ensures long { IfSome result (λ found. IfSome found.0 IsLong) }
    ensures back { (z : Option ℤ) (rest : List ℕ) → IfSome z IsLong → text.now ≡ 32 ∷ (height_word z ++ 32 ∷ rest) → MatchOption result ⊥ (λ found. (found.0 ≡ z) × (found.1.now ≡ 32 ∷ rest)) }
{
    let Some((word, rest)) = word_after_space(text) else {
        return None;
    };
    if word == b"-".as_slice() {
        return Some((None, rest));
    }
    let Some(height) = number(word) else {
        return None;
    };
    Some((Some(height), rest))
}

/// Reads a seam's line: the numbers of its cell, and those after the elevation; returns the elevation, and what follows
/// the line.
fn seam_after<'a>(
    text: &'a [u8],
    cell: &mut [i64],
    others: &mut [i64],
) -> Option<(Option<i64>, &'a [u8])>
    ensures cell_len { length cell.new ≡ length cell.old }
    ensures others_len { length others.new ≡ length others.old }
    ensures sound { IfSome result (λ found. text.now ≡ seam_text cell.new found.0 others.new ++ found.1.now) }
    ensures cell_long { IfSome result (λ _. AreLong cell.new) }
    ensures height_long { IfSome result (λ found. IfSome found.0 IsLong) }
    ensures others_long { IfSome result (λ _. AreLong others.new) }
    ensures back { (s : ShownOf) (rest : List ℕ) → IsShown s → length cell.old ≡ 2 → length others.old ≡ 5 → text.now ≡ shown_line s ++ rest → MatchOption result ⊥ (λ found. (cell.new ≡ cell_numbers s.cell) × ((found.0 ≡ s.values.z) × ((others.new ≡ other_numbers s.values) × (found.1.now ≡ rest)))) }
{
    let Some(after) = after_word(text, b"seam") else {
        return None;
    };
    let Some(after) = read_numbers(after, cell) else {
        return None;
    };
    let Some((z, after)) = first_height(after) else {
        return None;
    };
    let Some(end) = read_numbers(after, others) else {
        return None;
    };
    let Some(rest) = after_word(end, b"\n") else {
        return None;
    };
    Some((z, rest))
}

/// The values at a cell, from its elevation and the numbers after it.
fn values(z: Option<i64>, others: &[i64]) -> Option<SeamValues>
    requires long { AreLong others.now }
    requires len { length others.now ≡ 5 }
    ensures sound { IfSome result (λ v. (z ≡ v.z) × (others.now ≡ other_numbers v)) }
    ensures back { (v : Values) → AreShown v → z ≡ v.z → others.now ≡ other_numbers v → result ≡ Some v }
{
    let sink = flag_at(others, 0)?;
    SeamValues::of_height(
        z,
        sink,
        at(others, 1),
        at(others, 2),
        at(others, 3),
        at(others, 4),
    )
}

/// What a seam's line shows.
fn shown(cell: &[i64], z: Option<i64>, others: &[i64]) -> Option<Shown>
    requires cell_long { AreLong cell.now }
    requires cell_len { length cell.now ≡ 2 }
    requires others_long { AreLong others.now }
    requires others_len { length others.now ≡ 5 }
    ensures sound { IfSome result (λ s. seam_text cell.now z others.now ≡ shown_line s) }
    ensures back { (s : ShownOf) → IsShown s → cell.now ≡ cell_numbers s.cell → z ≡ s.values.z → others.now ≡ other_numbers s.values → result ≡ Some s }
{
    let cell = cell_at(cell, 0)?;
    let values = values(z, others)?;
    Some(Shown { cell, values })
}

/// Appends an elevation with a space before it, a minus sign alone at a void.
fn push_height(text: &mut Vec<u8>, z: Option<i64>) -> Result<(), OutOfMemory>
    ensures { OnOk result (text.new.items ≡ text.old.items ++ 32 ∷ height_word z) }
{
    match z {
        Some(height) => push_number(text, height),
        None => push(text, b" -"),
    }
}

impl ReportLine for Shown {
    ghost line_of = { shown_line };

    ghost fits = { IsShown };

    fn read_from<'a>(lines: Lines<'a>) -> Result<(Shown, Lines<'a>), ReportFault> {
        let mut cell = [0i64; 2];
        let mut others = [0i64; 5];
        let Some((z, rest)) = seam_after(lines.rest, &mut cell, &mut others) else {
            return Err(unread(lines));
        };
        let Some(shown) = shown(&cell, z, &others) else {
            return Err(ReportFault::OutOfRange(lines.number));
        };
        Ok((shown, lines.after_first(rest)))
    }

    fn push_to(&self, text: &mut Vec<u8>) -> Result<(), OutOfMemory> {
        let values = self.values;
        let cell = [i64::from(self.cell.row), i64::from(self.cell.col)];
        let others = [
            i64::from(values.sink),
            values.con,
            values.dir,
            values.acc,
            values.bas,
        ];
        push(text, b"seam")?;
        push_numbers(text, &cell)?;
        push_height(text, values.z)?;
        push_numbers(text, &others)?;
        push(text, b"\n")
    }
}
