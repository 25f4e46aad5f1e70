//! How to call the library: rasters are checked against tiles of side 1201, and made of them. Sources may be files
//! (`Reader`), or bytes in memory (`SliceSource`).
#![tactic(auto)]

ghost use Rattle.std.specs.Prelude.{[], ◌↔◌, IsTrue, IfOk};
ghost use Rattle.drain_grid.specs.Correct.{IsCorrect};
ghost use Rattle.drain_grid.specs.Product.{default_numbers};
ghost use Rattle.drain_grid.specs.WholeGrid.{grid_of, products_of};
ghost use Rattle.drain_verdict.specs.Answers.{AreCorrect, ForAudit};
ghost use Rattle.drain_verdict.specs.Given.{plain};
ghost use Rattle.drain_verdict.specs.Headline.{ForCheck, IsRight};

use drain_device::ByteSource;
use drain_grid::{ProductSet, Sinks};
use drain_hgt::TileInput;
use drain_maker::{MakeRefusal, Mosaic, make};
use drain_verdict::{AuditProducts, AuditVerdict, Products, Refusal, Verdict, audit, check};
use std::alloc::Global;

const SIDE: u32 = 1201;

/// Whether rasters are right for these tiles without listed sinks, whichever tool made them.
pub fn are_right<R: ByteSource>(
    alloc: Global,
    tiles: &mut [TileInput<R>],
    rasters: &mut AuditProducts<R>,
) -> Result<bool, Refusal>
    ensures exactly { IfOk result (λ right. ForAudit R.bytes_left 1201 tiles.old (plain []) rasters.old (λ inputs. IsTrue right ↔ AreCorrect inputs)) }
{
    match audit(alloc, SIDE, tiles, &[], rasters) {
        Ok(AuditVerdict::Accepted(_)) => Ok(true),
        Ok(_) => Ok(false),
        Err(refusal) => Err(refusal),
    }
}

/// Whether their ranks show that rasters are right.
pub fn are_shown_right<R: ByteSource>(
    alloc: Global,
    tiles: &mut [TileInput<R>],
    rasters: &mut Products<R>,
) -> Result<bool, Refusal>
    ensures right { IfOk result (λ right. IsTrue right → ForCheck R.bytes_left 1201 tiles.old (plain []) rasters.old IsRight) }
{
    match check(alloc, SIDE, tiles, &[], rasters) {
        Ok(Verdict::Accepted(_)) => Ok(true),
        Ok(Verdict::Rejected { .. }) => Ok(false),
        Err(refusal) => Err(refusal),
    }
}

/// Rasters made of a mosaic of `read_mosaic`, without listed sinks; if they are returned they are right.
pub fn rasters_of(alloc: Global, mosaic: &Mosaic) -> Result<ProductSet, MakeRefusal>
    ensures right { IfOk result (λ set. IsCorrect (grid_of mosaic.now.elevation []) (products_of set) default_numbers) }
{
    make(
        alloc,
        &mosaic.layout,
        &mosaic.elevation,
        &Sinks::none(alloc),
    )
}
