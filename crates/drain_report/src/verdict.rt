//! The line of a verdict.

ghost use Rattle.std.specs.Prelude.{◌≡◌, ◌<◌, ◌^◌, ◌++◌};
ghost use Rattle.drain_report.specs.Names.{ℕ, List, pos, Some, IfSome, IfOk, OnOk, MatchResult, rule_number};
ghost use Rattle.drain_grid.specs.declared.rule.Rule.{Rule as RuleOf};
ghost use Rattle.drain_union.specs.declared.verdict.Fault.{Fault as FaultOf};
ghost use Rattle.drain_report.specs.Faults.{IsAt, IsPast, IsLineFault};
ghost use Rattle.drain_report.specs.Facts.{IsNarrow, CountsFit, VerdictFits, count_numbers, fault_numbers, verdict_line};

use crate::facts::{Fact, ReportLine, at, cell_at, count_at, read_fact, whole_at};
use crate::fault::ReportFault;
use crate::lines::{Lines, push_line, read_line};
use drain_grid::{OutOfMemory, Rule};
use drain_union::{Fault, UnionCounts, UnionVerdict};

/// The rule of a number from 1 to 15.
fn rule(number: i64) -> Option<Rule>
    ensures sound { IfSome result (λ r. number ≡ pos (rule_number r)) }
    ensures back { (r : RuleOf) → number ≡ pos (rule_number r) → result ≡ Some r }
{
    match number {
        1 => Some(Rule::VoidCell),
        2 => Some(Rule::Missing),
        3 => Some(Rule::BadCode),
        4 => Some(Rule::BelowGround),
        5 => Some(Rule::OpenRaised),
        6 => Some(Rule::NoSpill),
        7 => Some(Rule::SpillHeight),
        8 => Some(Rule::SpillRank),
        9 => Some(Rule::NotLeast),
        10 => Some(Rule::Slope),
        11 => Some(Rule::OutletCode),
        12 => Some(Rule::FlatStep),
        13 => Some(Rule::Accumulation),
        14 => Some(Rule::Label),
        15 => Some(Rule::SharedLabel),
        _ => None,
    }
}

impl Fact for UnionCounts {
    ghost numbers_of = { count_numbers };

    ghost how_many = { 5 };

    ghost is_in_range = { CountsFit };

    fn from_numbers(numbers: &[i64]) -> Option<UnionCounts> {
        let rows = whole_at(numbers, 0)?;
        let cols = whole_at(numbers, 1)?;
        let data_cells = count_at(numbers, 2)?;
        let raised = count_at(numbers, 3)?;
        let outlets = count_at(numbers, 4)?;
        Some(UnionCounts {
            rows,
            cols,
            data_cells,
            raised,
            outlets,
        })
    }
}

impl Fact for Fault {
    ghost numbers_of = { fault_numbers };

    ghost how_many = { 3 };

    ghost is_in_range = { λ f. IsNarrow f.cell };

    fn from_numbers(numbers: &[i64]) -> Option<Fault> {
        let rule = rule(at(numbers, 0))?;
        let cell = cell_at(numbers, 1)?;
        Some(Fault { cell, rule })
    }
}

/// Reads the line of a fault.
fn read_fault<'a>(lines: Lines<'a>) -> Result<(UnionVerdict, Lines<'a>), ReportFault>
    ensures sound { IfOk result (λ found. lines.entry.rest.now ≡ verdict_line found.0 ++ found.1.rest.now) }
    ensures back { (f : FaultOf) (rest : List ℕ) → IsNarrow f.cell → lines.entry.rest.now ≡ verdict_line (UnionVerdict.Rejected f) ++ rest → MatchResult result (λ found. (found.0 ≡ UnionVerdict.Rejected f) × (found.1.rest.now ≡ rest)) (λ _. ⊥) }
    ensures place { (feeds : ℕ) → feeds < 2 ^ 63 → IsAt feeds lines.entry.number lines.entry.rest.now → MatchResult result (λ found. IsPast feeds lines.entry.number found.1.number found.1.rest.now) (IsLineFault feeds lines.entry.number) }
{
    let mut numbers = [0i64; 3];
    let (found, next): (Fault, Lines<'a>) = match read_fact(lines, "rejected", &mut numbers) {
        Ok(read) => read,
        Err(fault) => return Err(fault),
    };
    Ok((UnionVerdict::Rejected(found), next))
}

/// The count as a signed number of 64 bits; a larger one is refused as memory is.
fn signed(count: u64) -> Result<i64, OutOfMemory>
    ensures value { IfOk result (λ n. n ≡ pos count) }
    ensures in_range { IfOk result (λ _. count < 2 ^ 63) }
{
    match i64::try_from(count) {
        Ok(number) => Ok(number),
        Err(_) => Err(OutOfMemory),
    }
}

/// Appends the line of counts.
fn push_counts(text: &mut Vec<u8>, counts: &UnionCounts) -> Result<(), OutOfMemory>
    ensures written { OnOk result (text.new.items ≡ text.old.items ++ verdict_line (UnionVerdict.Accepted counts.now)) }
    ensures in_range { OnOk result (CountsFit counts.now) }
{
    let data_cells = signed(counts.data_cells)?;
    let raised = signed(counts.raised)?;
    let outlets = signed(counts.outlets)?;
    let numbers = [
        i64::from(counts.rows),
        i64::from(counts.cols),
        data_cells,
        raised,
        outlets,
    ];
    push_line(text, "accepted", &numbers)
}

/// Appends the line of a fault.
fn push_fault(text: &mut Vec<u8>, fault: &Fault) -> Result<(), OutOfMemory>
    ensures written { OnOk result (text.new.items ≡ text.old.items ++ verdict_line (UnionVerdict.Rejected fault.now)) }
    ensures in_range { IsNarrow fault.now.cell }
{
    let numbers = [
        i64::from(fault.rule.number()),
        i64::from(fault.cell.row),
        i64::from(fault.cell.col),
    ];
    push_line(text, "rejected", &numbers)
}

impl ReportLine for UnionVerdict {
    ghost line_of = { verdict_line };

    ghost fits = { VerdictFits };

    fn read_from<'a>(lines: Lines<'a>) -> Result<(UnionVerdict, Lines<'a>), ReportFault> {
        let mut numbers = [0i64; 5];
        let next = match read_line(lines, "accepted", &mut numbers) {
            Ok(next) => next,
            Err(_) => return read_fault(lines),
        };
        let Some(counts) = UnionCounts::from_numbers(&numbers) else {
            return Err(ReportFault::OutOfRange(lines.number));
        };
        Ok((UnionVerdict::Accepted(counts), next))
    }

    fn push_to(&self, text: &mut Vec<u8>) -> Result<(), OutOfMemory> {
        match self {
            UnionVerdict::Accepted(counts) => push_counts(text, counts),
            UnionVerdict::Rejected(fault) => push_fault(text, fault),
        }
    }
}
