//! The explanation of the answer to the products that were opened beside their elevations.

ghost use Rattle.drain_cli.specs.Names.{ForSet};
ghost use Rattle.drain_cli.specs.ExplainRuns.{AreFoundOf, IsExplainedAt, IsExplainedOn};
ghost use Rattle.drain_cli.specs.JudgedRuns.{IsOutcomeOf};
ghost use Rattle.drain_cli.specs.OpenedInputs.{UsesGround, given_in};

use crate::runs::opened_given::given_of;
use crate::runs::run_explain::{ExplainOutput, MapFrame, explain, headers_of};
use drain_args::form::Form;
use drain_device::{ByteSink, ByteSource};
use drain_explain::{
    ExplainedInput, FileLookup, Findings, Mapping, answer_and_findings, explain_on,
};
use drain_files::open_judged::{JudgedProducts, OpenElevations, OpenFiles, OpenTiles};
use drain_grid::Judged;
use drain_hgt::TileInput;
use drain_page::Facts;
use drain_verdict::ground::GroundInput;
use drain_verdict::{AuditProducts, Given, Outcome, Products, RasterInput, Refusal};
use std::alloc::Global;

/// Explains the answer to the products that were opened beside their elevations, and returns the exit status.
pub fn run_explain_on<R: ByteSource, B: ExplainOutput + FileLookup, W: ByteSink>(
    alloc: Global,
    files: &mut OpenFiles<OpenElevations<R>, JudgedProducts<R>>,
    mapping: Mapping,
    form: Form,
    beside: &mut B,
    out: &mut W,
) -> u8
    // What is explained are the rasters of the products, on these elevations with these sinks and this spacing.
    ensures run { IsExplainedOn R.ByteSource files.old.elevations files.new.elevations (given_in files.old) files.old.products files.new.products mapping B.ExplainOutput.has_saved beside.new W.ByteSink out.old out.new form result }
{
    let given = given_of(files.sinks.as_slice(), &files.spacing);
    let products = &mut files.products;
    match &mut files.elevations {
        OpenElevations::Tiles(OpenTiles { side, tiles }) => run_explain::<R, TileInput<R>, B, W>(
            alloc,
            side,
            tiles.as_mut_slice(),
            &given,
            products,
            mapping,
            form,
            beside,
            out,
        ),
        OpenElevations::Dem(dem) => run_explain::<R, RasterInput<R>, B, W>(
            alloc,
            &(),
            dem,
            &given,
            products,
            mapping,
            form,
            beside,
            out,
        ),
    }
}

/// Explains the answer of a check or of an audit on a ground: prints a page that begins with its line, and returns its
/// exit status.
///
/// It reads and reports what `run_judged` does, at the same times. A map is saved before the page is printed. The status
/// is 3 if memory is refused for the page, the map can't be saved, or the page can't be written.
pub fn run_explain<R: ByteSource, T: ExplainedInput<R>, B: ExplainOutput + FileLookup, W: ByteSink>(
    alloc: Global,
    key: &T::Key,
    inputs: &mut [T],
    given: &Given,
    products: &mut JudgedProducts<R>,
    mapping: Mapping,
    form: Form,
    beside: &mut B,
    out: &mut W,
) -> u8
where
    T::Frame: MapFrame,
    requires admitted { T.GroundInput.admits inputs.old }
    ensures run { IsExplainedAt T.Frame.place (ForSet T.GroundInput.terrain (T.GroundInput.encodes key.now inputs.old) R.bytes_left given.now)
        (UsesGround T.GroundInput.devices (T.GroundInput.within key.now) T.GroundInput.kept R.bytes_left R.counts inputs.old inputs.new) given.now products.old products.new mapping B.ExplainOutput.has_saved beside.new W.ByteSink out.old out.new form result }
{
    let (answer, findings) = explain_products::<R, T>(alloc, key, inputs, given, products, mapping);
    let refusal = match refusal_of(&answer) {
        Some(refusal) => {
            let headers = headers_of(products);
            T::detail_of(alloc, refusal, key, inputs, &headers, given, beside)
        }
        None => None,
    };
    let facts = Facts {
        answer,
        refusal,
        findings,
    };
    explain(alloc, &facts, form, beside, out)
}

/// The answer to the products, and what is wrong with them.
fn explain_products<R: ByteSource, T: GroundInput<R>>(
    alloc: Global,
    key: &T::Key,
    inputs: &mut [T],
    given: &Given,
    products: &mut JudgedProducts<R>,
    mapping: Mapping,
) -> (Result<Outcome, Refusal>, Option<Findings<T::Frame>>)
    requires admitted { T.admits inputs.old }
    ensures answer { IsOutcomeOf (ForSet T.terrain (T.encodes key.now inputs.old) R.bytes_left given.now)
        (UsesGround T.devices (T.within key.now) T.kept R.bytes_left R.counts inputs.old inputs.new) products.old products.new result.0 }
    ensures found { AreFoundOf (ForSet T.terrain (T.encodes key.now inputs.old) R.bytes_left given.now) products.old given.now mapping result.0 result.1 }
{
    match products {
        JudgedProducts::Five(five) => answer_and_findings(explain_on::<R, T, Products<R>>(
            alloc,
            key,
            inputs,
            given,
            five,
            Judged::AllWithRanks,
            mapping,
        )),
        JudgedProducts::Four(four, judged) => answer_and_findings(explain_on::<
            R,
            T,
            AuditProducts<R>,
        >(alloc, key, inputs, given, four, *judged, mapping)),
    }
}

/// Why there is no outcome.
fn refusal_of(answer: &Result<Outcome, Refusal>) -> Option<Refusal> {
    match answer {
        Err(refusal) => Some(*refusal),
        Ok(_) => None,
    }
}
