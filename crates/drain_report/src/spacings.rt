//! The list of spacings: how far apart the cells of a window's rows are, and a word on each line where heights are floats.
//! There is none where all cells are square and heights are whole.

ghost use Rattle.std.specs.Prelude.{◌≡◌, ◌<◌, ◌≤◌, ◌^◌, ◌++◌};
ghost use Rattle.drain_report.specs.Names.{ℕ, List, Some, IfOk, IfSome, OnOk, MatchOption, MatchResult, codes, length, Distances, IsSpacing};
ghost use Rattle.drain_grid.specs.declared.height_kind.HeightKind.{HeightKind as KindOf};
ghost use Rattle.drain_report.specs.Contents.{SpacingsFit, spacings_text};
ghost use Rattle.drain_report.specs.Facts.{kind_end, spacing_line, spacing_numbers, spacing_text};
ghost use Rattle.drain_report.specs.Faults.{IsAt, IsListFault};
ghost use Rattle.drain_report.specs.Lines.{AreLong};

use crate::facts::{ReportLine, whole_at};
use crate::fault::ReportFault;
use crate::lines::{Lines, after_word, push, push_numbers, read_numbers, unread};
use crate::lists::{push_list, read_list};
use drain_grid::{HeightKind, OutOfMemory, Spacing};
use std::alloc::Global;

/// How a spacing's line ends, and what follows it.
fn kind_after(text: &[u8]) -> Option<(HeightKind, &[u8])>
    ensures sound { IfSome result (λ found. text.now ≡ kind_end found.0 ++ found.1.now) }
    ensures back { (kind : KindOf) (rest : List ℕ) → text.now ≡ kind_end kind ++ rest → MatchOption result ⊥ (λ found. (found.0 ≡ kind) × (found.1.now ≡ rest)) }
{
    if let Some(rest) = after_word(text, b"\n") {
        return Some((HeightKind::Whole, rest));
    }
    let Some(rest) = after_word(text, b" single\n") else {
        return None;
    };
    Some((HeightKind::Single, rest))
}

/// Reads a spacing's line: its numbers; returns the kind of heights, and what follows the line.
fn spacing_after<'a>(text: &'a [u8], numbers: &mut [i64]) -> Option<(HeightKind, &'a [u8])>
    ensures len { length numbers.new ≡ length numbers.old }
    ensures sound { IfSome result (λ found. text.now ≡ spacing_text numbers.new found.0 ++ found.1.now) }
    ensures long { IfSome result (λ _. AreLong numbers.new) }
    ensures back { (s : Distances) (rest : List ℕ) → IsSpacing s → length numbers.old ≡ 2 → text.now ≡ spacing_line s ++ rest → MatchOption result ⊥ (λ found. (numbers.new ≡ spacing_numbers s) × ((found.0 ≡ s.kind) × (found.1.now ≡ rest))) }
{
    let Some(after) = after_word(text, b"spacing") else {
        return None;
    };
    let Some(end) = read_numbers(after, numbers) else {
        return None;
    };
    let Some((kind, rest)) = kind_after(end) else {
        return None;
    };
    Some((kind, rest))
}

/// The spacing of these numbers for heights of this kind.
fn spacing_of(numbers: &[i64], kind: HeightKind) -> Option<Spacing>
    requires long { AreLong numbers.now }
    requires len { length numbers.now ≡ 2 }
    ensures sound { IfSome result (λ s. spacing_text numbers.now kind ≡ spacing_line s) }
    ensures back { (s : Distances) → IsSpacing s → numbers.now ≡ spacing_numbers s → kind ≡ s.kind → result ≡ Some s }
{
    let width = whole_at(numbers, 0)?;
    let height = whole_at(numbers, 1)?;
    let spacing = Spacing::new(width, height)?;
    Some(spacing.of_kind(kind))
}

/// How the line of a spacing for heights of this kind ends.
fn kind_end(kind: HeightKind) -> &'static [u8]
    ensures { result.now ≡ kind_end kind }
{
    match kind {
        HeightKind::Whole => b"\n".as_slice(),
        HeightKind::Single => b" single\n".as_slice(),
    }
}

impl ReportLine for Spacing {
    ghost line_of = { spacing_line };

    ghost fits = { IsSpacing };

    fn read_from<'a>(lines: Lines<'a>) -> Result<(Spacing, Lines<'a>), ReportFault> {
        let mut numbers = [0i64; 2];
        let Some((kind, rest)) = spacing_after(lines.rest, &mut numbers) else {
            let fault = unread(lines);
            return Err(fault);
        };
        let Some(spacing) = spacing_of(&numbers, kind) else {
            return Err(ReportFault::OutOfRange(lines.number));
        };
        Ok((spacing, lines.after_first(rest)))
    }

    fn push_to(&self, text: &mut Vec<u8>) -> Result<(), OutOfMemory> {
        let numbers = [i64::from(self.width), i64::from(self.height)];
        push(text, b"spacing")?;
        push_numbers(text, &numbers)?;
        push(text, kind_end(self.kind))
    }
}

/// Reads the list of spacings, if one stands there: it has a line or more.
pub fn read_spacings<'a>(
    alloc: Global,
    lines: Lines<'a>,
) -> Result<(Vec<Spacing>, Lines<'a>), ReportFault>
    ensures sound { IfOk result (λ found. lines.entry.rest.now ≡ spacings_text found.0.items ++ found.1.rest.now) }
    ensures back { (xs : List Distances) (rest : List ℕ) → SpacingsFit xs → lines.entry.rest.now ≡ spacings_text xs ++ (codes "tiles" ++ rest) → MatchResult result (λ found. (found.0.items ≡ xs) × (found.1.rest.now ≡ codes "tiles" ++ rest)) (λ fault. fault ≡ ReportFault.OutOfMemory) }
    ensures place { (feeds : ℕ) → feeds < 2 ^ 63 → IsAt feeds lines.entry.number lines.entry.rest.now → MatchResult result (λ found. (lines.entry.number ≤ found.1.number) × IsAt feeds found.1.number found.1.rest.now) (IsListFault feeds lines.entry.number) }
{
    if after_word(lines.rest, b"spacings").is_none() {
        return Ok((Vec::new(alloc), lines));
    }
    let (spacings, next): (Vec<Spacing>, Lines<'a>) = match read_list(alloc, lines, "spacings") {
        Ok(read) => read,
        Err(fault) => return Err(fault),
    };
    if spacings.is_empty() {
        return Err(unread(lines));
    }
    Ok((spacings, next))
}

/// Appends the list of spacings, if one is listed.
pub fn push_spacings(text: &mut Vec<u8>, spacings: &[Spacing]) -> Result<(), OutOfMemory>
    ensures written { OnOk result (text.new.items ≡ text.old.items ++ spacings_text spacings.now) }
    ensures in_range { OnOk result (SpacingsFit spacings.now) }
{
    if spacings.is_empty() {
        return Ok(());
    }
    push_list(text, "spacings", spacings)
}
