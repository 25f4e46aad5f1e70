//! Whether windows are of one union and fill a box.

ghost use Rattle.std.specs.Prelude.{IfErr, OnOk};
ghost use Rattle.drain_merge.specs.Places.{places_of};
ghost use Rattle.drain_merge.specs.Merges.{FillBox, HaveOneNoData, HaveOneSpacing, IsBoxRefusal, IsNoDataRefusal, IsPlaceRefusal, IsSpacingRefusal, MakeBox};
ghost use Rattle.drain_merge.specs.Unjudged.{HasCells};

use crate::box_places::first_outside;
use crate::filling::fills;
use crate::merge_verdict::MergeRefusal;
use crate::places::{first_clash, first_idle};
use crate::shared::{check_grids, first_other_nodata, nodata_of};
use crate::spacings::first_other_spacing;
use crate::totals::places;
use crate::unjudged::first_unjudged;
use drain_union::{Place, WindowReport};
use std::alloc::Global;

/// Refuses windows that aren't of one union, or don't fill the box.
pub(crate) fn check_windows(
    alloc: Global,
    bounds: &Place,
    windows: &[WindowReport],
) -> Result<(), MergeRefusal>
    requires { HasCells bounds.now }
    ensures make { OnOk result (MakeBox bounds.now windows.now) }
    ensures refusal { IfErr result (IsBoxRefusal bounds.now windows.now) }
{
    check_grids(windows)?;
    check_nodata(windows)?;
    check_spacings(windows)?;
    check_places(alloc, bounds, windows)
}

/// Refuses windows with several no-data numbers, and an empty list.
fn check_nodata(windows: &[WindowReport]) -> Result<(), MergeRefusal>
    ensures one { OnOk result (HaveOneNoData windows.now) }
    ensures refusal { IfErr result (IsNoDataRefusal windows.now) }
{
    let Some(first) = windows.first() else {
        return Err(MergeRefusal::NoReports);
    };
    match first_other_nodata(windows, nodata_of(first)) {
        Some(place) => Err(MergeRefusal::OtherNoData(place)),
        None => Ok(()),
    }
}

/// Refuses windows that list one row of the union with several spacings: they were judged on different distances, so
/// they are of no one union.
fn check_spacings(windows: &[WindowReport]) -> Result<(), MergeRefusal>
    ensures one { OnOk result (HaveOneSpacing windows.now) }
    ensures refusal { IfErr result (IsSpacingRefusal windows.now) }
{
    match first_other_spacing(windows) {
        Some(place) => Err(MergeRefusal::OtherSpacing(place)),
        None => Ok(()),
    }
}

/// Refuses windows whose places don't fill the box.
fn check_places(alloc: Global, bounds: &Place, windows: &[WindowReport]) -> Result<(), MergeRefusal>
    requires { HasCells bounds.now }
    ensures fill { OnOk result (FillBox bounds.now (places_of windows.now)) }
    ensures refusal { IfErr result (IsPlaceRefusal bounds.now (places_of windows.now)) }
{
    let places = places(alloc, windows)?;
    check_box(alloc, bounds, &places)
}

/// Refuses places that don't fill the box. Where a fast look doesn't show that they do, it is searched for what they lack.
fn check_box(alloc: Global, bounds: &Place, places: &[Place]) -> Result<(), MergeRefusal>
    requires { HasCells bounds.now }
    ensures fill { OnOk result (FillBox bounds.now places.now) }
    ensures refusal { IfErr result (IsPlaceRefusal bounds.now places.now) }
{
    if let Some(place) = first_outside(bounds, places) {
        return Err(MergeRefusal::OutsideUnion(place));
    }
    if let Some(place) = first_idle(places) {
        return Err(MergeRefusal::JudgesNothing(place));
    }
    if fills(alloc, bounds, places)? {
        return Ok(());
    }
    if let Some(clash) = first_clash(places) {
        return Err(MergeRefusal::Overlap(clash));
    }
    match first_unjudged(alloc, bounds, places)? {
        Some(cell) => Err(MergeRefusal::LeftOut(cell)),
        None => Ok(()),
    }
}
