//! Reads the next row of each product. After the last row there are no numbers; a reader keeps its fault.

ghost use Rattle.std.specs.Prelude.{◌≡◌, ◌≤◌};
ghost use Rattle.drain_verdict.specs.Names.{ℕ, Err, IfErr, IsTrue, OnOk, length, Coming, SetProduct, of_product, IsPixel};
ghost use Rattle.std.specs.List.{All};
ghost use Rattle.drain_verdict.specs.InputReads.{RasterHasRead, RastersHaveRead};
ghost use Rattle.drain_verdict.specs.Reading.{IsOfReading, gave_up, told_by};
ghost use Rattle.drain_verdict.specs.ToGive.{IsAfterTold, IsNextRow};

use drain_answer::Refusal;
use drain_device::{ByteSource, ReadFault, RowSource};
use drain_grid::PerProduct;
use drain_pixels::PixelRow;
use drain_raster::RasterRows;
use drain_sets::Products;

/// Reads the next row of each product. The first refusal ends it.
pub fn read_rasters<R: ByteSource>(
    rasters: &mut PerProduct<RasterRows>,
    products: &mut Products<R>,
    out: &mut PerProduct<PixelRow>,
) -> Result<(), Refusal>
    ensures rows { OnOk result ((p : SetProduct) (start : Coming) (n : ℕ) → IsAfterTold (of_product rasters.old p) (R.bytes_left (of_product products.old p).body) start n → IsNextRow (of_product rasters.new p) (R.bytes_left (of_product products.new p).body) start n (of_product out.new p)) }
    ensures pixels { OnOk result ((p : SetProduct) → All IsPixel (of_product out.new p)) }
    ensures read { RastersHaveRead R.bytes_left R.counts rasters.old rasters.new products.old products.new (told_by result) }
    ensures of_reading { IsOfReading (told_by result) }
{
    let told = read_raster(
        Ok(()),
        &mut rasters.con,
        &mut products.con.body,
        &mut out.con,
    );
    let told = read_raster(told, &mut rasters.dir, &mut products.dir.body, &mut out.dir);
    let told = read_raster(told, &mut rasters.acc, &mut products.acc.body, &mut out.acc);
    let told = read_raster(told, &mut rasters.bas, &mut products.bas.body, &mut out.bas);
    read_raster(told, &mut rasters.rnk, &mut products.rnk.body, &mut out.rnk)
}

/// Reads the next row of a product, if nothing was refused before: none where its raster has ended or is short.
pub fn read_raster<R: ByteSource>(
    told: Result<(), Refusal>,
    raster: &mut RasterRows,
    body: &mut R,
    out: &mut PixelRow,
) -> Result<(), Refusal>
    ensures rows { OnOk result ((start : Coming) (n : ℕ) → IsAfterTold raster.old (R.bytes_left body.old) start n → IsNextRow raster.new (R.bytes_left body.new) start n out.new) }
    ensures pixels { OnOk result (All IsPixel out.new) }
    ensures read { RasterHasRead (R.bytes_left body.old) (R.bytes_left body.new) (R.counts body.old) (R.counts body.new) raster.old raster.new (IsTrue (gave_up (told_by told) (told_by result))) }
    ensures narrow { OnOk result (length out.new ≤ raster.old.header.cols) }
    ensures keeps_len { raster.new.header.cols ≡ raster.old.header.cols }
    ensures stays { IfErr told (λ refusal. result ≡ Err refusal) }
    ensures of_reading { OnOk told (IsOfReading (told_by result)) }
{
    if let Err(refusal) = told {
        return Err(refusal);
    }
    match raster.next_pixels(body, out) {
        Ok(_) => Ok(()),
        Err(ReadFault::WrongLength) => Ok(()),
        Err(ReadFault::AlreadyFailed) => Ok(()),
        Err(ReadFault::ReadFailed) => Err(Refusal::ReadFailed),
        Err(ReadFault::OutOfMemory) => Err(Refusal::OutOfMemory),
    }
}
