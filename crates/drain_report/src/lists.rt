//! Lists of a report: how many lines there are, then the lines.

ghost use Rattle.drain_report.specs.declared.lists.TheConstants.{SHORTEST_LINE};
ghost use Rattle.drain_report.specs.Facts.{IsNarrow, sink_line, cell_numbers, IsOutlet, outlet_numbers, outlet_line};
ghost use Rattle.std.specs.Prelude.{◌≡◌, ◌<◌, ◌≤◌, ◌/◌, ◌^◌, ℕ, List, ◌++◌, IfOk, OnOk, MatchResult, length};
ghost use Rattle.drain_report.specs.Faults.{IsAt, IsPast, IsListFault, line_feeds};
ghost use Rattle.drain_report.specs.Contents.{AllAre, IsListOf, all_text, list_text};

use crate::facts::{Fact, ReportLine, at, cell_at, read_fact};
use crate::fault::ReportFault;
use crate::lines::{Lines, push_line};
use crate::numbers::{push_count, read_count};
use drain_grid::{Cell, OutOfMemory};
use drain_union::Outlet;
use std::alloc::Global;

/// The length of the shortest line of a list, `sink 0 0` with its line feed.
const SHORTEST_LINE: usize = 9;

impl Fact for Cell {
    ghost numbers_of = { cell_numbers };

    ghost how_many = { 2 };

    ghost is_in_range = { IsNarrow };

    fn from_numbers(numbers: &[i64]) -> Option<Cell> {
        cell_at(numbers, 0)
    }
}

impl ReportLine for Cell {
    ghost line_of = { sink_line };

    ghost fits = { IsNarrow };

    fn read_from<'a>(lines: Lines<'a>) -> Result<(Cell, Lines<'a>), ReportFault> {
        let mut numbers = [0i64; 2];
        read_fact(lines, "sink", &mut numbers)
    }

    fn push_to(&self, text: &mut Vec<u8>) -> Result<(), OutOfMemory> {
        let numbers = [i64::from(self.row), i64::from(self.col)];
        push_line(text, "sink", &numbers)
    }
}

impl Fact for Outlet {
    ghost numbers_of = { outlet_numbers };

    ghost how_many = { 3 };

    ghost is_in_range = { IsOutlet };

    fn from_numbers(numbers: &[i64]) -> Option<Outlet> {
        let Some(cell) = cell_at(numbers, 1) else {
            return None;
        };
        Some(Outlet {
            label: at(numbers, 0),
            cell,
        })
    }
}

impl ReportLine for Outlet {
    ghost line_of = { outlet_line };

    ghost fits = { IsOutlet };

    fn read_from<'a>(lines: Lines<'a>) -> Result<(Outlet, Lines<'a>), ReportFault> {
        let mut numbers = [0i64; 3];
        read_fact(lines, "outlet", &mut numbers)
    }

    fn push_to(&self, text: &mut Vec<u8>) -> Result<(), OutOfMemory> {
        let numbers = [
            self.label,
            i64::from(self.cell.row),
            i64::from(self.cell.col),
        ];
        push_line(text, "outlet", &numbers)
    }
}

/// Reads a list of this word.
pub fn read_list<'a, T: ReportLine>(
    alloc: Global,
    lines: Lines<'a>,
    word: &str,
) -> Result<(Vec<T>, Lines<'a>), ReportFault>
    ensures sound { IfOk result (λ found. lines.entry.rest.now ≡ list_text word.now T.line_of found.0.items ++ found.1.rest.now) }
    ensures back { (xs : List T) (rest : List ℕ) → IsListOf T.fits xs → lines.entry.rest.now ≡ list_text word.now T.line_of xs ++ rest → MatchResult result (λ found. (found.0.items ≡ xs) × (found.1.rest.now ≡ rest)) (λ fault. fault ≡ ReportFault.OutOfMemory) }
    ensures place { (feeds : ℕ) → feeds < 2 ^ 63 → line_feeds word.now ≡ 0 → IsAt feeds lines.entry.number lines.entry.rest.now → MatchResult result (λ found. IsPast feeds lines.entry.number found.1.number found.1.rest.now) (IsListFault feeds lines.entry.number) }
{
    let (count, first) = match read_count(lines, word) {
        Ok(read) => read,
        Err(fault) => return Err(fault),
    };
    read_lines(alloc, first, count)
}

/// Reads so many lines.
fn read_lines<'a, T: ReportLine>(
    alloc: Global,
    first: Lines<'a>,
    count: u32,
) -> Result<(Vec<T>, Lines<'a>), ReportFault>
    ensures len { IfOk result (λ found. length found.0.items ≡ count) }
    ensures sound { IfOk result (λ found. first.entry.rest.now ≡ all_text T.line_of found.0.items ++ found.1.rest.now) }
    ensures back { (xs : List T) (rest : List ℕ) → length xs ≡ count → AllAre T.fits xs → first.entry.rest.now ≡ all_text T.line_of xs ++ rest → MatchResult result (λ found. (found.0.items ≡ xs) × (found.1.rest.now ≡ rest)) (λ fault. fault ≡ ReportFault.OutOfMemory) }
    ensures place { (feeds : ℕ) → feeds < 2 ^ 63 → IsAt feeds first.entry.number first.entry.rest.now → MatchResult result (λ found. (first.entry.number ≤ found.1.number) × IsAt feeds found.1.number found.1.rest.now) (IsListFault feeds first.entry.number) }
{
    let Ok(mut items) = Vec::with_capacity(alloc, room_for(count, first.rest)) else {
        return Err(ReportFault::OutOfMemory);
    };
    let mut lines = first;
    for _ in 0..count {
        let (item, next) = match T::read_from(lines) {
            Ok(read) => read,
            Err(fault) => return Err(fault),
        };
        let Ok(_) = items.push(item) else {
            return Err(ReportFault::OutOfMemory);
        };
        lines = next;
    }
    Ok((items, lines))
}

/// How many items of a list to take room for: as many as there are said to be, if the text can hold as many lines.
fn room_for(count: u32, text: &[u8]) -> usize
    ensures said { result ≤ count }
    ensures held { result ≤ length text.now / SHORTEST_LINE }
{
    (count as usize).min(text.len() / SHORTEST_LINE)
}

/// Appends a list of this word; one longer than 32 bits count is refused as memory is.
pub fn push_list<T: ReportLine>(
    text: &mut Vec<u8>,
    word: &str,
    items: &[T],
) -> Result<(), OutOfMemory>
    ensures written { OnOk result (text.new.items ≡ text.old.items ++ list_text word.now T.line_of items.now) }
    ensures in_range { OnOk result (IsListOf T.fits items.now) }
{
    let Ok(count) = u32::try_from(items.len()) else {
        return Err(OutOfMemory);
    };
    push_count(text, word, count)?;
    push_lines(text, items)
}

/// Appends the lines.
fn push_lines<T: ReportLine>(text: &mut Vec<u8>, items: &[T]) -> Result<(), OutOfMemory>
    ensures written { OnOk result (text.new.items ≡ text.old.items ++ all_text T.line_of items.now) }
    ensures in_range { OnOk result (AllAre T.fits items.now) }
{
    for item in items {
        item.push_to(text)?;
    }
    Ok(())
}
