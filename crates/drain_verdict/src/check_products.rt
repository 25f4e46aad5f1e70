//! The five products of a check, each with a reader of its own.

ghost use Rattle.std.specs.Prelude.{◌≡◌};
ghost use Rattle.drain_verdict.specs.Names.{Progress, of_product};
ghost use Rattle.drain_verdict.specs.InputRows.{IsFirstProduct};

use crate::audit_products::ProductInputs;
use crate::next_rows::read_rasters;
use drain_answer::Refusal;
use drain_device::ByteSource;
use drain_grid::{PerProduct, SetProduct};
use drain_header::Header;
use drain_pixels::PixelRow;
use drain_raster::RasterRows;
use drain_sets::{Products, RasterInput};

impl<R: ByteSource> ProductInputs<R> for PerProduct<RasterInput<R>> {
    ghost inputs = { λ products. products };

    ghost readers = { λ readers. readers };

    fn texts(&self) -> PerProduct<&[u8]> {
        PerProduct {
            con: self.con.header.as_slice(),
            dir: self.dir.header.as_slice(),
            acc: self.acc.header.as_slice(),
            bas: self.bas.header.as_slice(),
            rnk: self.rnk.header.as_slice(),
        }
    }

    fn begin(&self, headers: PerProduct<Header>) -> PerProduct<RasterRows> {
        PerProduct {
            con: RasterRows::new(headers.con),
            dir: RasterRows::new(headers.dir),
            acc: RasterRows::new(headers.acc),
            bas: RasterRows::new(headers.bas),
            rnk: RasterRows::new(headers.rnk),
        }
    }

    fn read_rasters(
        &mut self,
        rasters: &mut PerProduct<RasterRows>,
        out: &mut PerProduct<PixelRow>,
    ) -> Result<(), Refusal> {
        read_rasters(rasters, self, out)
    }

    fn first_short(&self, rasters: &PerProduct<RasterRows>) -> Option<SetProduct> {
        first_stopped(rasters)
    }
}

/// The first product whose rows have stopped.
fn first_stopped(rasters: &PerProduct<RasterRows>) -> Option<SetProduct>
    ensures { IsFirstProduct (λ p. (of_product rasters.now p).progress ≡ Progress.Stopped) result }
{
    for product in SetProduct::ALL {
        if rasters.of(product).is_stopped() {
            return Some(product);
        }
    }
    None
}
