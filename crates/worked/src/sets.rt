//! A product set of rasters that were made one by one.

ghost use Rattle.std.specs.Prelude.{◌≡◌};
ghost use Rattle.drain_grid.specs.PerProduct.{of_product};
ghost use Rattle.drain_grid.specs.declared.set_product.SetProduct.{SetProduct};

use drain_grid::{PerProduct, ProductSet, Raster};

/// The set of these rasters, which have one shape.
pub fn product_set(rasters: PerProduct<Raster>) -> ProductSet
    requires { (p : SetProduct) → (of_product rasters p).extent ≡ rasters.con.extent }
    ensures { result.con ≡ rasters.con }
{
    let PerProduct {
        con,
        dir,
        acc,
        bas,
        rnk,
    } = rasters;
    ProductSet {
        con,
        dir,
        acc,
        bas,
        rnk,
    }
}
