//! Reading the bytes of a ground and its products, the five of a check or the four of an audit.
//!
//! Once the ground's frame is right come the stages, in the order of their refusals: the headers, product by product; then
//! the rows of the ground and of all rasters together. After the last row come refusals of lengths, rasters, values, the
//! list of sinks and a spacing by row, in this order. Each row is shown to a visitor; what it has seen decides nothing
//! here. No device is called before every header is right.

ghost use Rattle.std.specs.Prelude.{◌≡◌};
ghost use Rattle.drain_verdict.specs.Names.{length, map, IfOk, IfErr, IsErrOf, OnOk, SomeReadFails};
ghost use Rattle.drain_grid.specs.declared.judged.Rules as declared;
ghost use Rattle.drain_verdict.specs.Names.{PerProduct, SetProduct};
ghost use Rattle.drain_grid.specs.Grid as grid;
ghost use Rattle.drain_verdict.specs.Names.{Grid, of_product, Fields, header_extent};
ghost use Rattle.drain_verdict.specs.GroundSets.{AreNotesIn, ForRead, ForSet, IsReadIn};
ghost use Rattle.drain_verdict.specs.Texts.{nodata_in};
ghost use Rattle.drain_verdict.specs.InputReads.{HaveBeenRead, as_read, with_rasters};
ghost use Rattle.drain_verdict.specs.InputRows.{AreAlike, AreBegun};
ghost use Rattle.drain_verdict.specs.Listings.{IsListingOf};
ghost use Rattle.drain_verdict.specs.Refusals as refusals;
ghost use Rattle.drain_verdict.specs.Refusals.{IsOfBodies};
ghost use Rattle.drain_verdict.specs.Uses.{BodyTakesAtMost, UsesSet, set_devices};

use crate::audit_products::ProductInputs;
use crate::given::Given;
use crate::ground::GroundInput;
use crate::input_rows::{InputRows, begin_rows, refusal_of_rows};
use crate::laws::raster_laws;
use crate::listings::{Listing, listing_of, listing_refusal};
use crate::stages::{nodata_of, read_headers};
use drain_answer::Refusal;
use drain_device::ByteSource;
use drain_grid::laws::found_off_data_is_right;
use drain_grid::{Judged, OutOfMemory, PerProduct, Rules};
use drain_header::Header;
use drain_raster::laws::raster_rows_take_what_is_needed;
use drain_rows::{RowVisitor, WalkStop, visit_rows};
use std::alloc::Global;

/// Reads a ground with this frame from these inputs: the headers of its products, the bytes of the inputs and of rasters,
/// a list of sinks and a spacing by row. Shows the visitor each row of the grid, under the rules about judged rasters, and
/// returns what is listed, or the first refusal.
///
/// See `check` for the order of refusals, and for how far it reads.
pub fn read_set<R: ByteSource, T: GroundInput<R>, P: ProductInputs<R>, K: RowVisitor>(
    alloc: Global,
    frame: &T::Frame,
    given: &Given,
    inputs: &mut [T],
    products: &mut P,
    judged: Judged,
    notes: &mut K,
) -> Result<Listing, Refusal>
    requires fit { T.fit frame.now inputs.old }
    requires uncounted { K.counts 0 notes.old }
    requires unnoted { (rules : declared.Rules) (g : Grid) (ps : grid.Products) → K.are_of rules g ps 0 notes.old }
    ensures answer { ForSet T.terrain (T.encodes (T.key_of frame.now) inputs.old) R.bytes_left given.now (P.inputs products.old) (λ s. IsReadIn s result) }
    ensures listed { IfOk result (λ listing. IsListingOf (T.kind frame.now) listing given.now) }
    ensures lasting { OnOk result (K.lasting notes.new ≡ K.lasting notes.old) }
    ensures noted { OnOk result (ForSet T.terrain (T.encodes (T.key_of frame.now) inputs.old) R.bytes_left given.now (P.inputs products.old) (λ s. AreNotesIn K.are_of judged s notes.new)) }
    ensures uses { UsesSet P.inputs (λ xs ps. set_devices T.devices xs (P.inputs ps)) (T.within (T.key_of frame.now)) T.kept R.bytes_left R.counts (inputs.old, products.old) (inputs.new, products.new) result }
{
    // The laws of what the inputs mean and of what is read of them.
    T::meaning_laws();
    T::reading_laws();
    let headers = read_headers::<R, T>(frame, &products.texts())?;
    read_bodies::<R, T, P, K>(
        alloc, frame, headers, given, inputs, products, judged, notes,
    )
}

/// Reads the bodies once the frame and the headers are right.
fn read_bodies<R: ByteSource, T: GroundInput<R>, P: ProductInputs<R>, K: RowVisitor>(
    alloc: Global,
    frame: &T::Frame,
    headers: PerProduct<Header>,
    given: &Given,
    inputs: &mut [T],
    products: &mut P,
    judged: Judged,
    notes: &mut K,
) -> Result<Listing, Refusal>
    requires fit { T.fit frame.now inputs.old }
    requires shapes { (p : SetProduct) → header_extent (of_product headers p) ≡ T.extent frame.now }
    requires alike { AreAlike (P.inputs products.old) headers }
    requires uncounted { K.counts 0 notes.old }
    requires unnoted { (rules : declared.Rules) (g : Grid) (ps : grid.Products) → K.are_of rules g ps 0 notes.old }
    ensures answer { ForRead T.terrain (λ x. T.encodes (T.key_of frame.now) inputs.old x × T.framed frame.now x) R.bytes_left headers (P.inputs products.old) (λ t. t.given ≡ given.now) (λ s. IsReadIn s result) }
    ensures listed { IfOk result (λ listing. IsListingOf (T.kind frame.now) listing given.now) }
    ensures lasting { OnOk result (K.lasting notes.new ≡ K.lasting notes.old) }
    ensures noted { OnOk result (ForRead T.terrain (λ x. T.encodes (T.key_of frame.now) inputs.old x × T.framed frame.now x) R.bytes_left headers (P.inputs products.old) (λ t. t.given ≡ given.now) (λ s. AreNotesIn K.are_of judged s notes.new)) }
    ensures inputs_within { T.within (T.key_of frame.now) inputs.old inputs.new }
    ensures rasters_within { (p : SetProduct) → BodyTakesAtMost R.bytes_left (of_product headers p) (P.inputs products.old) (P.inputs products.new) p }
    ensures faults { SomeReadFails (map R.counts (set_devices T.devices inputs.old (P.inputs products.old))) (map R.counts (set_devices T.devices inputs.new (P.inputs products.new))) (IsErrOf result Refusal.ReadFailed) }
    ensures kept { T.kept inputs.old inputs.new }
    ensures headers { (p : SetProduct) → (of_product (P.inputs products.new) p).header ≡ (of_product (P.inputs products.old) p).header }
    ensures of_bodies { IfErr result IsOfBodies }
{
    // The laws that the rows of a raster have the bytes that it needs, and of what is read of the ground's inputs.
    raster_rows_take_what_is_needed();
    T::reading_laws();
    let listing = match listing_of(alloc, given, T::height_kind(frame)) {
        Ok(listing) => listing,
        Err(OutOfMemory) => return Err(Refusal::OutOfMemory),
    };
    let nodata = nodata_of(&headers);
    let rules = Rules { nodata, judged };
    let mut rows = begin_rows::<R, T, P>(alloc, frame, headers, products)?;
    read_rows::<R, T, P, K>(
        alloc, frame, listing, &rules, &mut rows, inputs, products, notes,
    )
}

/// Reads the rows of new readers to the last, and returns what is listed, or the refusal that they report then, or that of
/// the lists.
fn read_rows<R: ByteSource, T: GroundInput<R>, P: ProductInputs<R>, K: RowVisitor>(
    alloc: Global,
    frame: &T::Frame,
    listing: Listing,
    rules: &Rules,
    rows: &mut InputRows<R, T::Rows>,
    inputs: &mut [T],
    products: &mut P,
    notes: &mut K,
) -> Result<Listing, Refusal>
    requires sized { length inputs.old ≡ T.size frame.now }
    requires counted { T.count rows.old.elevations ≡ T.size frame.now }
    requires uncounted { K.counts 0 notes.old }
    requires unnoted { (rules : declared.Rules) (g : Grid) (ps : grid.Products) → K.are_of rules g ps 0 notes.old }
    ensures answer { (hs : PerProduct Fields) → AreBegun (T.begun frame.now) hs (with_rasters P.readers rows.old) → rules.now.nodata ≡ nodata_in hs
        → ((p : SetProduct) → header_extent (of_product hs p) ≡ T.extent frame.now)
        → ForRead T.terrain (λ x. T.encodes (T.key_of frame.now) inputs.old x × T.framed frame.now x) R.bytes_left hs (P.inputs products.old)
        (λ t. IsListingOf (T.kind frame.now) listing t.given) (λ s. IsReadIn s result) }
    ensures listed { IfOk result (λ same. same ≡ listing) }
    ensures lasting { OnOk result (K.lasting notes.new ≡ K.lasting notes.old) }
    ensures noted { OnOk result ((hs : PerProduct Fields) → AreBegun (T.begun frame.now) hs (with_rasters P.readers rows.old) → rules.now.nodata ≡ nodata_in hs
        → ((p : SetProduct) → header_extent (of_product hs p) ≡ T.extent frame.now)
        → ForRead T.terrain (λ x. T.encodes (T.key_of frame.now) inputs.old x × T.framed frame.now x) R.bytes_left hs (P.inputs products.old)
        (λ t. IsListingOf (T.kind frame.now) listing t.given) (λ s. AreNotesIn K.are_of rules.now.judged s notes.new)) }
    ensures reads { HaveBeenRead T.has_read R.bytes_left R.counts (as_read P.readers P.inputs (rows.old, inputs.old, products.old)) (as_read P.readers P.inputs (rows.new, inputs.new, products.new)) (IsErrOf result Refusal.ReadFailed) }
    ensures of_bodies { IfErr result IsOfBodies }
{
    // The laws that say which rows the bytes of the ground and of rasters give, and what these rows say of the bytes.
    T::meaning_laws();
    T::reading_laws();
    raster_laws();
    // The law that the first listed cell without data is the grid's.
    found_off_data_is_right();
    let shape = T::shape(frame);
    let voids = match visit_rows(
        alloc,
        shape,
        &listing.sinks.sinks,
        &listing.spacing.spacings,
        rules,
        rows,
        inputs,
        products,
        notes,
    ) {
        Ok(voids) => voids,
        Err(stop) => return Err(refusal_of(stop)),
    };
    if let Some(refusal) = refusal_of_rows::<R, T, P>(frame, rows, products) {
        return Err(refusal);
    }
    match listing_refusal(&listing, shape, &voids) {
        Some(refusal) => Err(refusal),
        None => Ok(listing),
    }
}

/// The refusal if the walk over rows stopped: the source's, or out of memory.
fn refusal_of(stop: WalkStop<Refusal>) -> Refusal
    ensures { result ≡ refusals.refusal_of stop }
{
    match stop {
        WalkStop::Source(refusal) => refusal,
        WalkStop::OutOfMemory => Refusal::OutOfMemory,
    }
}
