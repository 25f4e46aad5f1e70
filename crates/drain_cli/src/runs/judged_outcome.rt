//! The outcome for the products that were opened beside their elevations.

ghost use Rattle.std.specs.Prelude.{◌≡◌};
ghost use Rattle.drain_cli.specs.Names.{ForSet};
ghost use Rattle.drain_cli.specs.JudgedRuns.{IsOutcomeOf, IsOutcomeOn, outcome_code, ranked_outcome};
ghost use Rattle.drain_cli.specs.OpenedInputs.{UsesGround, given_in};
ghost use Rattle.drain_cli.specs.RunMeanings.{AcceptedMeans, AcceptedOf, RejectedMeans, RejectedOf};

use crate::runs::opened_given::given_of;
use drain_device::ByteSource;
use drain_files::open_judged::{JudgedProducts, OpenElevations, OpenFiles, OpenTiles};
use drain_grid::Verdict;
use drain_hgt::TileInput;
use drain_verdict::ground::GroundInput;
use drain_verdict::{AuditProducts, Given, Outcome, RasterInput, Refusal, audit_part_on, check_on};
use std::alloc::Global;

/// The outcome for the products: that of a check of five, or of an audit of those of four that are judged.
pub fn outcome_of<R: ByteSource>(
    alloc: Global,
    files: &mut OpenFiles<OpenElevations<R>, JudgedProducts<R>>,
) -> Result<Outcome, Refusal>
    // What is judged are the rasters of the products, on these elevations with these sinks and this spacing.
    ensures outcome { IsOutcomeOn R.ByteSource files.old.elevations files.new.elevations (given_in files.old) files.old.products files.new.products result }

    // It accepts only if the judged rasters are right, and that of an audit rejects only if they aren't.
    ensures correct { outcome_code result ≡ 0 → AcceptedMeans R.bytes_left files.old.elevations (given_in files.old) files.old.products }
    ensures not_correct { outcome_code result ≡ 1 → RejectedMeans R.bytes_left files.old.elevations (given_in files.old) files.old.products }
{
    let given = given_of(files.sinks.as_slice(), &files.spacing);
    let products = &mut files.products;
    match &mut files.elevations {
        OpenElevations::Tiles(OpenTiles { side, tiles }) => {
            outcome_on::<R, TileInput<R>>(alloc, side, tiles.as_mut_slice(), &given, products)
        }
        OpenElevations::Dem(dem) => {
            outcome_on::<R, RasterInput<R>>(alloc, &(), dem, &given, products)
        }
    }
}

/// The same on a ground.
fn outcome_on<R: ByteSource, T: GroundInput<R>>(
    alloc: Global,
    key: &T::Key,
    inputs: &mut [T],
    given: &Given,
    products: &mut JudgedProducts<R>,
) -> Result<Outcome, Refusal>
    requires admitted { T.admits inputs.old }
    ensures outcome { IsOutcomeOf (ForSet T.terrain (T.encodes key.now inputs.old) R.bytes_left given.now) (UsesGround T.devices (T.within key.now) T.kept R.bytes_left R.counts inputs.old inputs.new) products.old products.new result }
    ensures correct { outcome_code result ≡ 0 → AcceptedOf (ForSet T.terrain (T.encodes key.now inputs.old) R.bytes_left given.now) products.old }
    ensures not_correct { outcome_code result ≡ 1 → RejectedOf (ForSet T.terrain (T.encodes key.now inputs.old) R.bytes_left given.now) products.old }
{
    match products {
        JudgedProducts::Five(five) => {
            ranked_outcome(check_on::<R, T>(alloc, key, inputs, given, five))
        }
        JudgedProducts::Four(four, judged) => {
            audit_part_on::<R, T, AuditProducts<R>>(alloc, key, inputs, given, four, *judged)
        }
    }
}

/// The outcome with the verdict of a check.
fn ranked_outcome(answer: Result<Verdict, Refusal>) -> Result<Outcome, Refusal>
    ensures { result ≡ ranked_outcome answer }
{
    match answer {
        Ok(Verdict::Accepted(counts)) => Ok(Outcome::Accepted(counts)),
        Ok(Verdict::Rejected { rule, row, col }) => Ok(Outcome::Rejected { rule, row, col }),
        Err(refusal) => Err(refusal),
    }
}
