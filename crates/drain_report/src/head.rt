//! The first lines of a report: what it is of, where the window lies, the no-data numbers, and the verdict.

ghost use Rattle.std.specs.Prelude.{◌≡◌, ◌<◌, ◌++◌};
ghost use Rattle.drain_report.specs.Names.{ℤ, pos, length, get_or, Some, IfSome, ℕ, List, IfOk, OnOk, MatchResult, IsNoData};
ghost use Rattle.drain_report.specs.Lines.{AreLong};
ghost use Rattle.drain_report.specs.Facts.{IsAuditNoData, nodata_numbers, nodata_line};
ghost use Rattle.drain_report.specs.declared.head.Head.{Head as HeadOf};
ghost use Rattle.drain_report.specs.Faults.{FaultFits, IsPast, line_feeds};
ghost use Rattle.drain_report.specs.Contents.{HeadFits, head_text, version_line};

use crate::facts::{Fact, ReportLine, at, read_fact};
use crate::fault::ReportFault;
use crate::grid::{push_grid, read_grid};
use crate::lines::{Lines, after_word, push, push_line};
use drain_grid::OutOfMemory;
use drain_grid::nodata::{GREATEST_NODATA, LEAST_NODATA};
use drain_union::{AuditNoData, Place, UnionGrid, UnionVerdict};

/// The no-data number at a place, if it is in range.
fn nodata_at(numbers: &[i64], place: usize) -> Option<i64>
    requires long { AreLong numbers.now }
    requires inside { place < length numbers.now }
    ensures in_range { IfSome result IsNoData }
    ensures value { IfSome result (λ n. n ≡ get_or numbers.now place (pos 0)) }
    ensures back { (n : ℤ) → IsNoData n → get_or numbers.now place (pos 0) ≡ n → result ≡ Some n }
{
    let number = at(numbers, place);
    if (LEAST_NODATA..=GREATEST_NODATA).contains(&number) {
        Some(number)
    } else {
        None
    }
}

impl Fact for AuditNoData {
    ghost numbers_of = { nodata_numbers };

    ghost how_many = { 4 };

    ghost is_in_range = { IsAuditNoData };

    fn from_numbers(numbers: &[i64]) -> Option<AuditNoData> {
        let con = nodata_at(numbers, 0)?;
        let dir = nodata_at(numbers, 1)?;
        let acc = nodata_at(numbers, 2)?;
        let bas = nodata_at(numbers, 3)?;
        Some(AuditNoData { con, dir, acc, bas })
    }
}

impl ReportLine for AuditNoData {
    ghost line_of = { nodata_line };

    ghost fits = { IsAuditNoData };

    fn read_from<'a>(lines: Lines<'a>) -> Result<(AuditNoData, Lines<'a>), ReportFault> {
        let mut numbers = [0i64; 4];
        read_fact(lines, "nodata", &mut numbers)
    }

    fn push_to(&self, text: &mut Vec<u8>) -> Result<(), OutOfMemory> {
        let numbers = [self.con, self.dir, self.acc, self.bas];
        push_line(text, "nodata", &numbers)
    }
}

/// What the first lines of a report say.
#[derive(Clone, Copy)]
pub struct Head {
    pub grid: UnionGrid,
    pub place: Place,
    pub nodata: AuditNoData,
    pub verdict: UnionVerdict,
}

/// The first line.
const VERSION: &[u8] = b"drain-window-report 4\n";

/// What follows the first line.
fn first_lines(text: &[u8]) -> Result<Lines, ReportFault>
    ensures sound { IfOk result (λ lines. text.now ≡ version_line ++ lines.rest.now) }
    ensures back { (rest : List ℕ) → text.now ≡ version_line ++ rest → MatchResult result (λ lines. lines.rest.now ≡ rest) (λ _. ⊥) }
    ensures place { MatchResult result (λ lines. lines.number ≡ 2) (FaultFits text.now) }
{
    match after_word(text, VERSION) {
        Some(rest) => Ok(Lines { rest, number: 2 }),
        None => Err(ReportFault::WrongVersion),
    }
}

/// Reads the first lines.
pub fn read_head(text: &[u8]) -> Result<(Head, Lines), ReportFault>
    ensures sound { IfOk result (λ found. text.now ≡ head_text found.0 ++ found.1.rest.now) }
    ensures back { (head : HeadOf) (rest : List ℕ) → HeadFits head → text.now ≡ head_text head ++ rest → MatchResult result (λ found. (found.0 ≡ head) × (found.1.rest.now ≡ rest)) (λ _. ⊥) }
    ensures place { MatchResult result (λ found. IsPast (line_feeds text.now) 2 found.1.number found.1.rest.now) (FaultFits text.now) }
{
    let first = match first_lines(text) {
        Ok(read) => read,
        Err(fault) => return Err(fault),
    };
    let (grid, lines) = match read_grid(first) {
        Ok(read) => read,
        Err(fault) => return Err(fault),
    };
    let (place, lines) = match Place::read_from(lines) {
        Ok(read) => read,
        Err(fault) => return Err(fault),
    };
    let (nodata, lines) = match AuditNoData::read_from(lines) {
        Ok(read) => read,
        Err(fault) => return Err(fault),
    };
    let (verdict, lines) = match UnionVerdict::read_from(lines) {
        Ok(read) => read,
        Err(fault) => return Err(fault),
    };
    Ok((
        Head {
            grid,
            place,
            nodata,
            verdict,
        },
        lines,
    ))
}

/// Appends the first lines.
pub fn push_head(text: &mut Vec<u8>, head: &Head) -> Result<(), OutOfMemory>
    ensures written { OnOk result (text.new.items ≡ text.old.items ++ head_text head.now) }
    ensures in_range { OnOk result (HeadFits head.now) }
{
    push(text, VERSION)?;
    push_grid(text, &head.grid)?;
    head.place.push_to(text)?;
    head.nodata.push_to(text)?;
    head.verdict.push_to(text)
}
