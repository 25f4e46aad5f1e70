//! No-data numbers.
//!
//! They are apart from the values at a cell because their range is wider: a raster's header may give any number from
//! -10,000,000,000 to 10,000,000,000, even one that no pixel of the raster can encode.

ghost use Rattle.std.specs.Prelude.{◌≡◌};
ghost use Rattle.drain_grid.specs.Product.{default_numbers};

use crate::product::Product;
use std::marker::Model;

/// The least no-data number.
pub const LEAST_NODATA: i64 = -10000000000;

/// The greatest no-data number.
pub const GREATEST_NODATA: i64 = 10000000000;

/// The no-data number of each product.
#[derive(Clone, Copy, PartialEq, Eq, Debug)]
pub struct NoData {
    pub con: i64,
    pub dir: i64,
    pub acc: i64,
    pub bas: i64,
    pub spl: i64,
    pub rnk: i64,
}

impl Model for NoData {
    ghost use Rattle.drain_grid.specs.Values.{NoDataNumbers, AreNoDataInRange};

    ghost Value = { NoDataNumbers };

    ghost view = { λ n. record { con = n.con; dir = n.dir; acc = n.acc; bas = n.bas; spl = n.spl; rnk = n.rnk } };

    ghost invariant = { λ n. AreNoDataInRange (record { con = n.con; dir = n.dir; acc = n.acc; bas = n.bas; spl = n.spl; rnk = n.rnk }) };

    ghost inverse = { λ n. record { con = n.con; dir = n.dir; acc = n.acc; bas = n.bas; spl = n.spl; rnk = n.rnk } };
}

impl NoData {
    /// The default no-data numbers.
    pub fn defaults() -> NoData
        ensures { result ≡ default_numbers }
    {
        NoData {
            con: Product::Con.default_no_data(),
            dir: Product::Dir.default_no_data(),
            acc: Product::Acc.default_no_data(),
            bas: Product::Bas.default_no_data(),
            spl: Product::Spl.default_no_data(),
            rnk: Product::Rnk.default_no_data(),
        }
    }
}
