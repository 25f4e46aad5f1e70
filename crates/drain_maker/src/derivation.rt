//! Directions that are read row by row with their elevations, and what follows from them.

ghost use Rattle.std.specs.Prelude.{◌≡◌, ◌*◌};
ghost use Rattle.drain_maker.specs.Names.{length, IfOk, IfErr, OfFlows, ForSet, IsRefusalIn, as_five};
ghost use Rattle.drain_paths.specs.Ways.{IsRankRefusal};
ghost use Rattle.drain_maker.specs.Derived.{AreDerived, AreDerivedIn, AreCounts, HasFlowsIn, IsDeriveRefusalIn, IsFlowsRefusal, IsRefusalFor, naming_dir, outcome_for, reading_in};
ghost use Rattle.drain_verdict.specs.Given.{plain};
ghost use Rattle.drain_verdict.specs.Uses.{UsesSet, set_devices};

use crate::products::raster_of_counts;
use drain_answer::{Outcome, Refusal};
use drain_device::ByteSource;
use drain_grid::{Judged, OutOfMemory, Product, Raster, Shape};
use drain_paths::{CellFlows, CertifyRefusal, Flow, accumulate, count_steps, label_ended};
use drain_verdict::ground::GroundInput;
use drain_verdict::read_set::read_set;
use drain_verdict::{AuditProducts, Given};
use std::alloc::Global;
use thiserror::Error;

/// What follows from the directions of a grid.
#[derive(Drop)]
pub struct Derived {
    /// How many data cells drain through each, itself included.
    pub acc: Raster,
    /// The number of the outlet where the run of each ends, in row order from 1.
    pub bas: Raster,
    /// How many steps the run of each makes.
    pub rnk: Raster,
}

/// Accumulation, labels and ranks of the flows of all cells of a grid, with the default no-data numbers at voids.
///
/// Returns `NoEnd` with the first data cell in row order whose run doesn't reach a code 0, exactly if there is one, and
/// `OutOfMemory` if memory runs out. It takes 13 bytes per cell beside the flows, and frees one of them at the end.
pub fn derive_from_flows(
    alloc: Global,
    flows: &[Flow],
    shape: Shape,
) -> Result<Derived, CertifyRefusal>
    requires counted { length flows.now ≡ shape.rows * shape.cols }
    ensures derived { IfOk result (λ d. OfFlows shape flows.now (λ g ps. AreDerived g ps d.acc d.bas d.rnk)) }
    ensures counts { IfOk result (AreCounts shape) }
    ensures err { IfErr result (λ why. OfFlows shape flows.now (λ g ps. IsRankRefusal g ps why)) }
{
    let steps = count_steps(alloc, flows, shape)?;
    let Ok(labels) = label_ended(alloc, flows, shape) else {
        return Err(CertifyRefusal::OutOfMemory);
    };
    let Ok(counts) = accumulate(alloc, flows, shape) else {
        return Err(CertifyRefusal::OutOfMemory);
    };
    Ok(Derived {
        acc: raster_of_counts(shape, Product::Acc, counts),
        bas: raster_of_counts(shape, Product::Bas, labels),
        rnk: raster_of_counts(shape, Product::Rnk, steps),
    })
}

/// Why nothing was derived.
#[derive(Clone, Copy, PartialEq, Eq, Debug, Error)]
pub enum DeriveRefusal {
    /// The inputs are refused, as by an audit, or memory ran out.
    #[error("the inputs are refused")]
    Refused(Refusal),
    /// The first data cell in row order whose path reaches no code 0.
    #[error("a path doesn't end")]
    NoEnd { row: u32, col: u32 },
}

impl DeriveRefusal {
    /// The reason as the answer of an audit. A refusal names dir where it would name con, whose raster is dir's.
    pub fn outcome(&self) -> Result<Outcome, Refusal>
        ensures { result ≡ outcome_for self.now }
    {
        match self {
            DeriveRefusal::Refused(refusal) => Err(naming_dir(*refusal)),
            DeriveRefusal::NoEnd { row, col } => Ok(Outcome::NoEnd {
                row: *row,
                col: *col,
            }),
        }
    }
}

/// The refusal, which names dir where it named con.
fn naming_dir(refusal: Refusal) -> Refusal
    ensures { result ≡ naming_dir refusal }
{
    match refusal {
        Refusal::BadHeader(Product::Con, fault) => Refusal::BadHeader(Product::Dir, fault),
        Refusal::WrongShape(Product::Con) => Refusal::WrongShape(Product::Dir),
        Refusal::Misplaced(Product::Con) => Refusal::Misplaced(Product::Dir),
        Refusal::RasterShort(Product::Con) => Refusal::RasterShort(Product::Dir),
        refusal => refusal,
    }
}

/// Accumulation, labels and ranks that follow from directions on a ground, with its frame: of tiles their layout, of one
/// raster its header.
///
/// `key` and `inputs` are those of the ground, `sinks` and `products` those of an audit, and so are the refusals. The inputs
/// say which cells are voids, and dir says the rest: no number of con, acc or bas matters, no listed sink, and not how far
/// apart cells are. If no refusal applies: `NoEnd` with the first data cell in row order whose path reaches no code 0,
/// exactly if there is one. Memory: 14 bytes for each cell of the ground.
pub fn derive_on<R: ByteSource, T: GroundInput<R>>(
    alloc: Global,
    key: &T::Key,
    inputs: &mut [T],
    sinks: &[u8],
    products: &mut AuditProducts<R>,
) -> Result<(T::Frame, Derived), DeriveRefusal>
    requires admitted { T.admits inputs.old }
    ensures frame { IfOk result (λ made. T.fit made.0 inputs.old) }
    ensures keyed { IfOk result (λ made. T.key_of made.0 ≡ key.now) }
    ensures derived { IfOk result (λ made. ForSet T.terrain (T.encodes key.now inputs.old) R.bytes_left (plain sinks.now) (as_five products.old) (λ s. AreDerivedIn s made.1)) }
    ensures counts { IfOk result (λ made. AreCounts (T.extent made.0) made.1) }
    ensures err { IfErr result (λ why. ForSet T.terrain (T.encodes key.now inputs.old) R.bytes_left (plain sinks.now) (as_five products.old) (λ s. IsDeriveRefusalIn s why)) }

    // How far it reads, when a read fails, and what is unchanged: as for an audit.
    ensures uses { UsesSet as_five (λ xs ps. set_devices T.devices xs (as_five ps)) (T.within key.now) T.kept R.bytes_left R.counts (inputs.old, products.old) (inputs.new, products.new) (reading_in result) }
{
    // The laws of what is read of the inputs.
    T::reading_laws();
    let frame = match T::frame(alloc, key, inputs) {
        Ok(frame) => frame,
        Err(refusal) => return Err(DeriveRefusal::Refused(refusal)),
    };
    match derive_in::<R, T>(alloc, &frame, sinks, inputs, products) {
        Ok(derived) => Ok((frame, derived)),
        Err(why) => Err(why),
    }
}

/// What follows from dir on a ground with this frame.
fn derive_in<R: ByteSource, T: GroundInput<R>>(
    alloc: Global,
    frame: &T::Frame,
    sinks: &[u8],
    inputs: &mut [T],
    products: &mut AuditProducts<R>,
) -> Result<Derived, DeriveRefusal>
    requires fit { T.fit frame.now inputs.old }
    ensures derived { IfOk result (λ made. ForSet T.terrain (T.encodes (T.key_of frame.now) inputs.old) R.bytes_left (plain sinks.now) (as_five products.old) (λ s. AreDerivedIn s made)) }
    ensures counts { IfOk result (AreCounts (T.extent frame.now)) }
    ensures err { IfErr result (λ why. ForSet T.terrain (T.encodes (T.key_of frame.now) inputs.old) R.bytes_left (plain sinks.now) (as_five products.old) (λ s. IsDeriveRefusalIn s why)) }
    ensures uses { UsesSet as_five (λ xs ps. set_devices T.devices xs (as_five ps)) (T.within (T.key_of frame.now)) T.kept R.bytes_left R.counts (inputs.old, products.old) (inputs.new, products.new) (reading_in result) }
{
    match flows_on::<R, T>(alloc, frame, sinks, inputs, products) {
        Ok(flows) => derive_flows(alloc, flows, T::shape(frame)),
        Err(refusal) => Err(DeriveRefusal::Refused(refusal)),
    }
}

/// What follows from flows, or why nothing does.
fn derive_flows(alloc: Global, flows: CellFlows, shape: Shape) -> Result<Derived, DeriveRefusal>
    requires counted { length flows ≡ shape.rows * shape.cols }
    ensures derived { IfOk result (λ d. OfFlows shape flows (λ g ps. AreDerived g ps d.acc d.bas d.rnk)) }
    ensures counts { IfOk result (AreCounts shape) }
    ensures err { IfErr result (λ why. OfFlows shape flows (λ g ps. IsFlowsRefusal g ps why)) }
    ensures reading { IfErr (reading_in result) (λ refusal. refusal ≡ Refusal.OutOfMemory) }
{
    match flows.into_flows(alloc) {
        Ok(listed) => derive_listed(alloc, &listed, shape),
        Err(OutOfMemory) => Err(DeriveRefusal::Refused(Refusal::OutOfMemory)),
    }
}

/// The same of a list of them.
fn derive_listed(alloc: Global, flows: &[Flow], shape: Shape) -> Result<Derived, DeriveRefusal>
    requires counted { length flows.now ≡ shape.rows * shape.cols }
    ensures derived { IfOk result (λ d. OfFlows shape flows.now (λ g ps. AreDerived g ps d.acc d.bas d.rnk)) }
    ensures counts { IfOk result (AreCounts shape) }
    ensures err { IfErr result (λ why. OfFlows shape flows.now (λ g ps. IsFlowsRefusal g ps why)) }
    ensures reading { IfErr (reading_in result) (λ refusal. refusal ≡ Refusal.OutOfMemory) }
{
    match derive_from_flows(alloc, flows, shape) {
        Ok(derived) => Ok(derived),
        Err(refusal) => Err(refusal_of(refusal)),
    }
}

/// The refusal for one of flows.
fn refusal_of(refusal: CertifyRefusal) -> DeriveRefusal
    ensures { IsRefusalFor refusal result }
{
    match refusal {
        CertifyRefusal::NoEnd(cell) => DeriveRefusal::NoEnd {
            row: cell.row,
            col: cell.col,
        },
        CertifyRefusal::OutOfMemory => DeriveRefusal::Refused(Refusal::OutOfMemory),
    }
}

/// The flows of a ground with this frame and of dir. No rule is tried.
fn flows_on<R: ByteSource, T: GroundInput<R>>(
    alloc: Global,
    frame: &T::Frame,
    sinks: &[u8],
    inputs: &mut [T],
    products: &mut AuditProducts<R>,
) -> Result<CellFlows, Refusal>
    requires fit { T.fit frame.now inputs.old }
    ensures counted { IfOk result (λ flows. length flows ≡ (T.extent frame.now).rows * (T.extent frame.now).cols) }
    ensures flows { IfOk result (λ flows. ForSet T.terrain (T.encodes (T.key_of frame.now) inputs.old) R.bytes_left (plain sinks.now) (as_five products.old) (λ s. HasFlowsIn s (T.extent frame.now) flows)) }
    ensures err { IfErr result (λ refusal. ForSet T.terrain (T.encodes (T.key_of frame.now) inputs.old) R.bytes_left (plain sinks.now) (as_five products.old) (λ s. IsRefusalIn s refusal)) }
    ensures uses { UsesSet as_five (λ xs ps. set_devices T.devices xs (as_five ps)) (T.within (T.key_of frame.now)) T.kept R.bytes_left R.counts (inputs.old, products.old) (inputs.new, products.new) result }
{
    // The laws of what the inputs mean.
    T::meaning_laws();
    let mut flows = CellFlows::new(alloc);
    read_set::<R, T, AuditProducts<R>, CellFlows>(
        alloc,
        frame,
        &Given::plain(sinks),
        inputs,
        products,
        Judged::All,
        &mut flows,
    )?;
    counted(flows, T::shape(frame))
}

/// The flows if there is one for each cell, which there always is if the sources' bytes are known.
fn counted(flows: CellFlows, shape: Shape) -> Result<CellFlows, Refusal>
    ensures same { IfOk result (λ same. same ≡ flows) }
    ensures counted { IfOk result (λ same. length same ≡ shape.rows * shape.cols) }
    ensures err { IfErr result (λ refusal. refusal ≡ Refusal.OutOfMemory) }
{
    if flows.len() == shape.cells() {
        Ok(flows)
    } else {
        Err(Refusal::OutOfMemory)
    }
}
