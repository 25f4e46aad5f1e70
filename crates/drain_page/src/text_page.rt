//! The page as a text to read, in ASCII.

ghost use Rattle.std.specs.Prelude.{◌≡◌, ◌++◌, ◌∷◌};
ghost use Rattle.drain_page.specs.Names.{ℕ, List, IfOk, outcome_report_line};

use crate::facts::Facts;
use crate::frame::Frame;
use crate::numerals::{Numeral, shown_numeral};
use crate::patch_text::push_first;
use crate::refusal::push_refusal;
use crate::rules::push_rules;
use crate::run::push_run;
use crate::slopes::push_slopes;
use drain_answer::outcome_report;
use drain_findings::{ElevationRange, Findings};
use drain_grid::{HeightKind, OutOfMemory};
use std::alloc::{AllocError, Global};

/// The page: the answer's line, and then its explanation, part after part with an empty line between. Each line ends
/// with a line feed.
pub fn page_text<F: Frame>(alloc: Global, facts: &Facts<F>) -> Result<Vec<u8>, OutOfMemory>
    ensures line_first { IfOk result (λ text. (rest : List ℕ) × (text.items ≡ outcome_report_line facts.now.answer ++ 10 ∷ rest)) }
{
    let mut text = Vec::new(alloc);
    text.extend_from_slice(outcome_report(&facts.answer).as_str().as_bytes())?;
    text.push(b'\n')?;
    let rest = explanation(alloc, facts)?;
    text.extend_from_slice(rest.as_bytes())?;
    Ok(text)
}

/// The page below the answer's line.
fn explanation<F: Frame>(alloc: Global, facts: &Facts<F>) -> Result<String, AllocError> {
    let mut text = String::new(alloc);
    if let Some(detail) = &facts.refusal {
        text.push_str("\n")?;
        push_refusal(alloc, &mut text, detail, F::words().whole)?;
    }
    if let Some(findings) = &facts.findings {
        push_findings(alloc, &mut text, findings)?;
    }
    Ok(text)
}

/// The elevations, how far apart cells are, the rules, the first cell at which one fails, and the first path without an end.
fn push_findings<F: Frame>(
    alloc: Global,
    text: &mut String,
    findings: &Findings<F>,
) -> Result<(), AllocError> {
    let words = F::words();
    text.push_str("\n")?;
    if words.has_elevations {
        push_elevations(text, findings.layout.height_kind(), findings.elevations)?;
    }
    push_slopes(text, findings)?;
    push_rules(text, findings)?;
    if let Some(first) = &findings.first {
        text.push_str("\n")?;
        push_first(alloc, text, findings, first)?;
    }
    if let Some((cell, run)) = &findings.endless {
        text.push_str("\n")?;
        push_run(text, *cell, run, words.whole)?;
    }
    Ok(())
}

/// The least and the greatest elevation; nothing without a data cell.
fn push_elevations(
    text: &mut String,
    kind: HeightKind,
    elevations: Option<ElevationRange>,
) -> Result<(), AllocError> {
    let Some(range) = elevations else {
        return Ok(());
    };
    let least = shown_numeral("", Numeral::new(kind, range.least));
    let greatest = shown_numeral("", Numeral::new(kind, range.greatest));
    writeln!(text, "elevation from {least} to {greatest}")
}
