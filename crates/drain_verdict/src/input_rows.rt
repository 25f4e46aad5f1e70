//! The rows of all inputs: of the ground and of each product, one row at a time.

ghost use Rattle.std.specs.Prelude.{◌≡◌, ◌≢◌, ◌+◌, List, Some, IfOk, IfErr, IfSome};
ghost use Rattle.drain_verdict.specs.InputReads.{with_rasters};
ghost use Rattle.drain_verdict.specs.InputRows.{AreAlike, AreBegun, HasStopped, IsToldRefusal};
ghost use Rattle.drain_verdict.specs.Refusals.{IsOfBodies};

use crate::audit_products::ProductInputs;
use crate::ground::GroundInput;
use drain_answer::Refusal;
use drain_device::ByteSource;
use drain_grid::{OutOfMemory, PerProduct};
use drain_header::Header;
use drain_raster::RasterRows;
use drain_rows::{GridRows, RowBuffer};
use std::alloc::Global;
use std::marker::PhantomData;

/// Readers of the ground's rows and of each product's, from sources of this type.
#[derive(Drop)]
pub struct InputRows<R, M> {
    elevations: M,
    rasters: PerProduct<RasterRows>,
    source: PhantomData<R>,
}

/// The rows of this ground, and of the products with these headers, each from its first byte on.
pub(crate) fn begin_rows<R: ByteSource, T: GroundInput<R>, P: ProductInputs<R>>(
    alloc: Global,
    frame: &T::Frame,
    headers: PerProduct<Header>,
    products: &P,
) -> Result<InputRows<R, T::Rows>, Refusal>
    requires alike { AreAlike (P.inputs products.now) headers }
    ensures begun { IfOk result (λ rows. AreBegun (T.begun frame.now) headers (with_rasters P.readers rows)) }
    ensures no_memory { IfErr result (λ refusal. refusal ≡ Refusal.OutOfMemory) }
{
    let elevations = match T::begin(alloc, frame) {
        Ok(elevations) => elevations,
        Err(OutOfMemory) => return Err(Refusal::OutOfMemory),
    };
    let rasters = products.begin(headers);
    Ok(InputRows {
        elevations,
        rasters,
        source: PhantomData,
    })
}

/// Why the inputs are refused once all rows are read: for the length of an input of the ground, else the first product
/// that is short, else for the ground's values.
pub(crate) fn refusal_of_rows<R: ByteSource, T: GroundInput<R>, P: ProductInputs<R>>(
    frame: &T::Frame,
    rows: &InputRows<R, T::Rows>,
    products: &P,
) -> Option<Refusal>
    requires counted { T.count rows.now.elevations ≡ T.size frame.now }
    ensures refusal { (x : T.Texts) (inputs : List T) → T.framed frame.now x → T.after rows.now.elevations inputs (T.rows_of x) ((T.extent frame.now).rows + 1)
        → IsToldRefusal (T.terrain x) (HasStopped (with_rasters P.readers rows.now)) result }
    ensures of_bodies { IfSome result IsOfBodies }
    ensures no_read { result ≢ Some Refusal.ReadFailed }
{
    if let Some(refusal) = T::refusal_of_length(frame, &rows.elevations) {
        return Some(refusal);
    }
    if let Some(product) = products.first_short(&rows.rasters) {
        return Some(Refusal::RasterShort(product.product()));
    }
    T::refusal_of_values(frame, &rows.elevations)
}

impl<R: ByteSource, T: GroundInput<R>, P: ProductInputs<R>> GridRows<T, P>
    for InputRows<R, T::Rows> {
    ghost use Rattle.drain_verdict.specs.InputReads.{as_read};
    ghost use Rattle.drain_verdict.specs.ToGive.{AreGiven, HaveCome};

    type Stop = Refusal;

    ghost count = { λ rows. T.count rows.elevations };

    ghost gives = { λ state. AreGiven T.after R.bytes_left (as_read P.readers P.inputs state) };

    ghost has_read = { λ before now. HaveCome T.after T.has_read R.bytes_left R.counts (as_read P.readers P.inputs before) (as_read P.readers P.inputs now) };

    fn read_row(
        &mut self,
        inputs: &mut [T],
        products: &mut P,
        out: &mut RowBuffer,
    ) -> Result<(), Refusal> {
        // The laws of what is read.
        T::reading_laws();
        T::read_row(&mut self.elevations, inputs, &mut out.z)?;
        products.read_rasters(&mut self.rasters, &mut out.products)?;
        if !out.is_even() {
            out.clear();
        }
        Ok(())
    }
}
