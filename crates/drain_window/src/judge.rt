//! One window of a union, from the bytes of a ground, wherever its elevations come from, and of its products.

ghost use Rattle.std.specs.Prelude.{◌≡◌};
ghost use Rattle.drain_window.specs.Names.{IfOk, ForSet, as_five, set_numbers, UsesSet, set_devices, SEAM_DEPTH, audited, IsReportOf, Agree, IsFirstInside};
ghost use Rattle.drain_window.specs.WindowAnswers.{as_refused, IfRejected, IsWindowIn, window_in};

use crate::answered::WindowRefusal;
use crate::judge_ground::judge_ground;
use crate::window_ground::WindowGround;
use drain_device::ByteSource;
use drain_union::{Place, WindowReport};
use drain_verdict::{AuditProducts, Given};
use std::alloc::Global;

/// Whether the rules hold at the judged cells of one window, with its report; or why that isn't answered.
///
/// `key`, `inputs`, `given` and `products` are those of an audit of the ground, a mosaic of tiles or a part of a
/// raster, and `at` says where it begins in the union: of tiles nothing, of a part its first cell in the whole. `place`
/// is where the window lies in the ground: on its inner sides the union goes on, and each other side has to be an edge
/// of the ground. The rules are tried at each cell of the window but those of the outermost row or column of an inner
/// side. The report has the window's place in the union, the spacing of its rows, and the tiles, or what the part's
/// header says of its place. A part that ends beyond the greatest row or column of 32 bits is refused by
/// `OutsideMosaic`. Memory: the outlets of the window, what it shows along its seams, three rows, the names of tiles,
/// and 8 bytes for each row of a text of spacings.
pub fn judge_window_on<R: ByteSource, T: WindowGround<R>>(
    alloc: Global,
    key: &T::Key,
    at: &T::At,
    inputs: &mut [T],
    given: &Given,
    products: &mut AuditProducts<R>,
    place: &Place,
) -> Result<WindowReport, WindowRefusal>
    requires admitted { T.GroundInput.admits inputs.old }

    // Unless memory ran out or a read failed, the answer is that of the bytes.
    ensures answer { ForSet T.GroundInput.terrain (T.GroundInput.encodes key.now inputs.old) R.bytes_left given.now (as_five products.old) (λ s. IsWindowIn (T.in_range at.now) place.now s result) }

    // The report is that of the window, with the no-data numbers of con, dir, acc and bas, and names the ground.
    ensures report { IfOk result (λ a. ForSet T.GroundInput.terrain (T.GroundInput.encodes key.now inputs.old) R.bytes_left given.now (as_five products.old) (λ s. IsReportOf SEAM_DEPTH (window_in a place.now s) a.report)) }
    ensures nodata { IfOk result (λ a. ForSet T.GroundInput.terrain (T.GroundInput.encodes key.now inputs.old) R.bytes_left given.now (as_five products.old) (λ s. a.report.nodata ≡ audited (set_numbers s))) }
    ensures named { IfOk result (λ a. T.named at.now key.now inputs.old a.grid a.tiles.items) }

    // How far it reads, when a read fails, and what is unchanged: as for an audit.
    ensures uses { UsesSet as_five (λ xs ps. set_devices T.GroundInput.devices xs (as_five ps)) (T.GroundInput.within key.now) T.GroundInput.kept R.bytes_left R.counts (inputs.old, products.old) (inputs.new, products.new) (as_refused result) }

    // Whatever the bytes are, the report says that the rules hold exactly where the verdict accepts.
    ensures agree { IfOk result (λ a. Agree a.verdict a.report) }

    // A rejection has the first fault of the window.
    ensures first { IfOk result (λ a. IfRejected a.verdict (λ cell rule. ForSet T.GroundInput.terrain (T.GroundInput.encodes key.now inputs.old) R.bytes_left given.now (as_five products.old) (λ s. IsFirstInside (set_numbers s) (window_in a place.now s) cell rule))) }
{
    // The laws of what is read of the inputs.
    T::reading_laws();
    match T::frame(alloc, key, inputs) {
        Ok(frame) => judge_ground::<R, T>(alloc, &frame, at, given, inputs, products, place),
        Err(refusal) => Err(WindowRefusal::Inputs(refusal)),
    }
}
