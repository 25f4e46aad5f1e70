//! The page as one JSON object.

ghost use Rattle.std.specs.Prelude.{◌≡◌};
ghost use Rattle.drain_page.specs.Names.{IfOk, string_bytes, outcome_report_line};
ghost use Rattle.drain_page.specs.Texts.{IsAnswerLine};

use crate::answer_object::{Parts, write_parts};
use crate::expected::write_expected;
use crate::facts::Facts;
use crate::frame::Frame;
use crate::json_text::{JsonText, JsonValue};
use crate::numerals::Numeral;
use crate::patch_json::write_patch;
use crate::refusal::write_refusal;
use crate::rules::{write_products, write_rules};
use crate::run::write_run;
use crate::slopes::write_slopes;
use drain_answer::outcome::Status;
use drain_answer::outcome_report;
use drain_findings::{ElevationRange, Findings, RefusalDetail};
use drain_grid::{HeightKind, OutOfMemory};
use drain_mosaic::Layout;
use std::alloc::{AllocError, Global};

/// The page as one JSON object on one line, which ends with a line feed. Its first member is the answer's line. The
/// other members are always there: null or an empty list if there is nothing to report. On a raster of elevations there
/// is one more, `elevation`; where cells aren't square, and of an acceptance on tiles, one more, `slopes`. The last members
/// say the answer part by part, with this exit status.
pub fn page_json<F: Frame>(
    alloc: Global,
    facts: &Facts<F>,
    status: Status,
) -> Result<String, OutOfMemory>
    ensures { IfOk result (λ line. IsAnswerLine (outcome_report_line facts.now.answer) (string_bytes line)) }
{
    let line = outcome_report(&facts.answer);
    let parts = Parts::of(&facts.answer, status);
    object(alloc, line.as_str(), parts, &facts.refusal, &facts.findings)
}

/// The same object for a failure with this answer: all other members are null or empty.
pub fn failure_json(alloc: Global, answer: &str) -> Result<String, OutOfMemory>
    ensures { IfOk result (λ line. IsAnswerLine answer.now (string_bytes line)) }
{
    object::<Layout>(alloc, answer, Parts::failed(), &None, &None)
}

/// The object for the failure that there is no memory for an object.
pub const OUT_OF_MEMORY_OBJECT: &str =
    "{\"answer\":\"failed OutOfMemory\",\"refusal\":null,\"rows\":null,\"cols\":null,\"ranks\":null,\"rules\":[],\"products\":[],\"patch\":null,\"expected\":null,\"run\":null,\"schema\":1,\"status\":3,\"rule\":null,\"name\":null,\"row\":null,\"col\":null}\n";

fn object<F: Frame>(
    alloc: Global,
    answer: &str,
    parts: Parts,
    refusal: &Option<RefusalDetail>,
    findings: &Option<Findings<F>>,
) -> Result<String, OutOfMemory>
    ensures { IfOk result (λ line. IsAnswerLine answer.now (string_bytes line)) }
{
    let mut json = JsonText::new(alloc, answer)?;
    write_members(alloc, &mut json, refusal, findings)?;
    write_parts(&mut json, parts)?;
    json.end_object()?;
    Ok(json.into_line()?)
}

/// The members between the line and the parts of the answer.
fn write_members<F: Frame>(
    alloc: Global,
    json: &mut JsonText,
    refusal: &Option<RefusalDetail>,
    findings: &Option<Findings<F>>,
) -> Result<(), AllocError>
    ensures { json.new ≡ json.old }
{
    write_refusal(alloc, json, refusal)?;
    match findings {
        Some(findings) => write_findings(alloc, json, findings),
        None => write_no_findings::<F>(json),
    }
}

fn write_findings<F: Frame>(
    alloc: Global,
    json: &mut JsonText,
    findings: &Findings<F>,
) -> Result<(), AllocError>
    ensures { json.new ≡ json.old }
{
    json.member("rows", findings.layout.shape().rows())?;
    json.member("cols", findings.layout.shape().cols())?;
    let kind = findings.layout.height_kind();
    write_elevations::<F>(json, shown_range(kind, findings.elevations))?;
    write_slopes(json, findings)?;
    json.member("ranks", findings.rules.judged.has_rnk())?;
    write_rules(json, findings)?;
    write_products(json, findings)?;
    write_patch(json, findings)?;
    write_expected(alloc, json, findings)?;
    write_run(json, findings)
}

/// The least and the greatest elevation, on a raster of elevations; null if there is none.
fn write_elevations<F: Frame>(
    json: &mut JsonText,
    elevations: Option<ShownRange>,
) -> Result<(), AllocError>
    ensures { json.new ≡ json.old }
{
    if F::words().has_elevations {
        json.member("elevation", elevations)
    } else {
        Ok(())
    }
}

/// The least and the greatest elevation.
#[derive(Clone, Copy)]
struct ShownRange {
    least: Numeral,
    greatest: Numeral,
}

/// This range of heights of a kind, if there is one.
fn shown_range(kind: HeightKind, elevations: Option<ElevationRange>) -> Option<ShownRange> {
    let ElevationRange { least, greatest } = elevations?;
    Some(ShownRange {
        least: Numeral::new(kind, least),
        greatest: Numeral::new(kind, greatest),
    })
}

impl JsonValue for ShownRange {
    fn append(self, json: &mut JsonText) -> Result<(), AllocError> {
        json.begin_object_item()?;
        json.member("least", self.least)?;
        json.member("greatest", self.greatest)?;
        json.end_object()
    }
}

/// The same members if there is no verdict.
fn write_no_findings<F: Frame>(json: &mut JsonText) -> Result<(), AllocError>
    ensures { json.new ≡ json.old }
{
    json.null("rows")?;
    json.null("cols")?;
    write_elevations::<F>(json, None)?;
    json.null("ranks")?;
    json.list::<bool>("rules", &[])?;
    json.list::<bool>("products", &[])?;
    json.null("patch")?;
    json.null("expected")?;
    json.null("run")
}
