//! The four products of an audit. Its rules ignore ranks, so dir's rows take their place.

ghost use Rattle.std.specs.Prelude.{◌≡◌};
ghost use Rattle.drain_verdict.specs.Names.{ℕ, OnOk, IfErr, Err, Coming, Progress, SetProduct, PerProduct, of_product, IsPixel, RasterRows};
ghost use Rattle.std.specs.List.{All};
ghost use Rattle.drain_verdict.specs.InputReads.{RastersHaveRead};
ghost use Rattle.drain_verdict.specs.InputRows.{AreAlike, IsFirstProduct, IsRasterBegun};
ghost use Rattle.drain_verdict.specs.Inputs.{Products, readers_as_five};
ghost use Rattle.drain_verdict.specs.Reading.{IsOfReading, told_by};
ghost use Rattle.drain_verdict.specs.ToGive.{IsAfterTold, IsNextRow};

use crate::next_rows::read_raster;
use drain_answer::Refusal;
use drain_device::ByteSource;
use drain_grid::{OutOfMemory, PerProduct, SetProduct};
use drain_header::Header;
use drain_pixels::PixelRow;
use drain_raster::RasterRows;
use drain_sets::AuditProducts;

/// The products of a call. They are always read as five: for a missing product, which the rules then
/// ignore, another is the substitute.
pub trait ProductInputs<R: ByteSource> {
    /// The five, each or its substitute.
    ghost inputs: { Self → Products R };

    /// The readers of the five, each or its substitute.
    ghost readers: { PerProduct RasterRows → PerProduct RasterRows };

    /// The header of each product, as a text.
    fn texts(&self) -> PerProduct<&[u8]>
        ensures { (p : SetProduct) → (of_product result p).now ≡ (of_product (inputs self.now) p).header };

    /// Readers of rasters with these headers, each from its first byte on.
    fn begin(&self, headers: PerProduct<Header>) -> PerProduct<RasterRows>
        requires alike { AreAlike (inputs self.now) headers }
        ensures begun { (p : SetProduct) → IsRasterBegun (of_product headers p) (of_product (readers result) p) };

    /// Reads the next row of each product. The first refusal ends it.
    fn read_rasters(
        &mut self,
        rasters: &mut PerProduct<RasterRows>,
        out: &mut PerProduct<PixelRow>,
    ) -> Result<(), Refusal>
        ensures rows { OnOk result ((p : SetProduct) (start : Coming) (n : ℕ) → IsAfterTold (of_product (readers rasters.old) p) (R.bytes_left (of_product (inputs self.old) p).body) start n → IsNextRow (of_product (readers rasters.new) p) (R.bytes_left (of_product (inputs self.new) p).body) start n (of_product out.new p)) }
        ensures pixels { OnOk result ((p : SetProduct) → All IsPixel (of_product out.new p)) }
        ensures read { RastersHaveRead R.bytes_left R.counts (readers rasters.old) (readers rasters.new) (inputs self.old) (inputs self.new) (told_by result) }
        ensures of_reading { IsOfReading (told_by result) };

    /// The first product whose rows have stopped.
    fn first_short(&self, rasters: &PerProduct<RasterRows>) -> Option<SetProduct>
        ensures { IsFirstProduct (λ p. (of_product (readers rasters.now) p).progress ≡ Progress.Stopped) result };
}

impl<R: ByteSource> ProductInputs<R> for AuditProducts<R> {
    ghost use Rattle.drain_verdict.specs.Inputs.{as_five, readers_as_five};

    ghost inputs = { as_five };

    ghost readers = { readers_as_five };

    fn texts(&self) -> PerProduct<&[u8]> {
        PerProduct {
            con: self.con.header.as_slice(),
            dir: self.dir.header.as_slice(),
            acc: self.acc.header.as_slice(),
            bas: self.bas.header.as_slice(),
            rnk: self.dir.header.as_slice(),
        }
    }

    fn begin(&self, headers: PerProduct<Header>) -> PerProduct<RasterRows> {
        PerProduct {
            con: RasterRows::new(headers.con),
            dir: RasterRows::new(headers.dir),
            acc: RasterRows::new(headers.acc),
            bas: RasterRows::new(headers.bas),
            rnk: RasterRows::new(headers.dir),
        }
    }

    fn read_rasters(
        &mut self,
        rasters: &mut PerProduct<RasterRows>,
        out: &mut PerProduct<PixelRow>,
    ) -> Result<(), Refusal> {
        let told = read_raster(Ok(()), &mut rasters.con, &mut self.con.body, &mut out.con);
        let told = read_raster(told, &mut rasters.dir, &mut self.dir.body, &mut out.dir);
        let told = read_raster(told, &mut rasters.acc, &mut self.acc.body, &mut out.acc);
        let told = read_raster(told, &mut rasters.bas, &mut self.bas.body, &mut out.bas);
        copy_row(told, &out.dir, &mut out.rnk)
    }

    fn first_short(&self, rasters: &PerProduct<RasterRows>) -> Option<SetProduct> {
        first_stopped(rasters)
    }
}

/// The first product whose rows have stopped; the substitute for ranks has stopped where dir has.
fn first_stopped(rasters: &PerProduct<RasterRows>) -> Option<SetProduct>
    ensures { IsFirstProduct (λ p. (of_product (readers_as_five rasters.now) p).progress ≡ Progress.Stopped) result }
{
    for product in SetProduct::ALL {
        if reader_of(rasters, product).is_stopped() {
            return Some(product);
        }
    }
    None
}

/// The reader of a product, or its substitute.
fn reader_of(rasters: &PerProduct<RasterRows>, product: SetProduct) -> &RasterRows
    ensures { result.now ≡ of_product (readers_as_five rasters.now) product }
{
    match product {
        SetProduct::Rnk => &rasters.dir,
        _ => rasters.of(product),
    }
}

/// A second copy of a row's numbers, if nothing was refused before.
fn copy_row(told: Result<(), Refusal>, from: &PixelRow, out: &mut PixelRow) -> Result<(), Refusal>
    ensures copied { OnOk result (out.new ≡ from.now) }
    ensures stays { IfErr told (λ refusal. result ≡ Err refusal) }
    ensures of_memory { OnOk told (IfErr result (λ refusal. refusal ≡ Refusal.OutOfMemory)) }
{
    told?;
    match out.copy_from(from) {
        Ok(()) => Ok(()),
        Err(_) => Err(Refusal::OutOfMemory),
    }
}
