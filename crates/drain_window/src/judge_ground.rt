//! One window of a union, from the bytes of a ground whose frame is known.

ghost use Rattle.std.specs.Prelude.{◌≡◌};
ghost use Rattle.drain_window.specs.Names.{IfOk, ForSet, as_five, UsesSet, set_devices, Agree, IsOrigin, IsPlaceIn};
ghost use Rattle.drain_window.specs.WindowAnswers.{as_refused, IsPlacedAnswer, IsWindowIn};

use crate::answered::{WindowRefusal, answered};
use crate::judged_area::{judged_area, judged_sinks};
use crate::judged_rows::judged_spacings;
use crate::listed_outlets::ListedOutlets;
use crate::seam_walk::SeamWalk;
use crate::window_ground::WindowGround;
use drain_answer::Refusal;
use drain_device::ByteSource;
use drain_grid::{Cell, Judged};
use drain_rows::BothVisitors;
use drain_rules::Walk;
use drain_union::{Place, Report, UnionVerdict, WindowReport};
use drain_verdict::ground::GroundInput;
use drain_verdict::read_set::read_set;
use drain_verdict::{AuditProducts, Given};
use std::alloc::Global;

/// The answer to the bytes of a ground with this frame.
pub(crate) fn judge_ground<R: ByteSource, T: WindowGround<R>>(
    alloc: Global,
    frame: &T::Frame,
    at: &T::At,
    given: &Given,
    inputs: &mut [T],
    products: &mut AuditProducts<R>,
    place: &Place,
) -> Result<WindowReport, WindowRefusal>
    requires fit { T.GroundInput.fit frame.now inputs.old }
    ensures answer { ForSet T.GroundInput.terrain (T.GroundInput.encodes (T.GroundInput.key_of frame.now) inputs.old) R.bytes_left given.now (as_five products.old) (λ s. IsWindowIn (T.in_range at.now) place.now s result) }
    ensures named { IfOk result (λ a. T.named at.now (T.GroundInput.key_of frame.now) inputs.old a.grid a.tiles.items) }
    ensures uses { UsesSet as_five (λ xs ps. set_devices T.GroundInput.devices xs (as_five ps)) (T.GroundInput.within (T.GroundInput.key_of frame.now)) T.GroundInput.kept R.bytes_left R.counts (inputs.old, products.old) (inputs.new, products.new) (as_refused result) }
    ensures agree { IfOk result (λ a. Agree a.verdict a.report) }
{
    // The laws of what the inputs mean, and of what is read of them.
    T::meaning_laws();
    T::reading_laws();
    if !T::is_in_range(at) || !place.lies_in(T::shape(frame)) {
        return Err(WindowRefusal::OutsideMosaic);
    }
    let Ok((origin, grid, tiles)) = T::in_union(alloc, frame, at) else {
        return Err(WindowRefusal::Inputs(Refusal::OutOfMemory));
    };
    match judge_placed::<R, T>(alloc, frame, origin, given, inputs, products, place) {
        Ok((verdict, report)) => Ok(WindowReport {
            grid,
            tiles,
            verdict,
            report,
        }),
        Err(refusal) => Err(WindowRefusal::Inputs(refusal)),
    }
}

/// The verdict and the report on the window at this place of a ground, which begins at this cell of the union.
fn judge_placed<R: ByteSource, T: GroundInput<R>>(
    alloc: Global,
    frame: &T::Frame,
    origin: Cell,
    given: &Given,
    inputs: &mut [T],
    products: &mut AuditProducts<R>,
    place: &Place,
) -> Result<(UnionVerdict, Report), Refusal>
    requires fit { T.fit frame.now inputs.old }
    requires moved { IsOrigin origin }
    requires placed { IsPlaceIn (T.extent frame.now) place.now }
    ensures answer { ForSet T.terrain (T.encodes (T.key_of frame.now) inputs.old) R.bytes_left given.now (as_five products.old) (λ s. IsPlacedAnswer origin place.now s result) }
    ensures uses { UsesSet as_five (λ xs ps. set_devices T.devices xs (as_five ps)) (T.within (T.key_of frame.now)) T.kept R.bytes_left R.counts (inputs.old, products.old) (inputs.new, products.new) result }
    ensures agree { IfOk result (λ a. Agree a.0 a.1) }
{
    // The laws of what the inputs mean.
    T::meaning_laws();
    let shape = T::shape(frame);
    let _rows = shape.rows();
    let mut notes = BothVisitors {
        first: SeamWalk::new(alloc, *place, origin),
        second: Walk::begin(ListedOutlets::new(alloc, judged_area(place), origin)),
    };
    let listing = read_set::<R, T, AuditProducts<R>, BothVisitors<SeamWalk, Walk<ListedOutlets>>>(
        alloc,
        frame,
        given,
        inputs,
        products,
        Judged::All,
        &mut notes,
    )?;
    let BothVisitors {
        first: seams,
        second: walk,
    } = notes;
    let Ok(sinks) = judged_sinks(alloc, &listing.sinks.sinks, place, origin) else {
        return Err(Refusal::OutOfMemory);
    };
    let Ok(spacings) = judged_spacings(alloc, &listing.spacing.spacings, place) else {
        return Err(Refusal::OutOfMemory);
    };
    match answered(alloc, place, origin, walk, seams, sinks, spacings) {
        Some(answer) => Ok(answer),
        None => Err(Refusal::OutOfMemory),
    }
}
