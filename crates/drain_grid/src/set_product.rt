//! The products that a set of products holds.
//!
//! They have an enumeration of their own because [`Product`] also names the spill parents, which are read only by a
//! check of the conditioned elevation alone, and which no set holds.

ghost use Rattle.std.specs.Prelude.{◌≡◌};
ghost use Rattle.drain_grid.specs.SetProduct.{product_of};

use crate::product::Product;

/// A product that a set holds, in the order in which a set is read.
#[derive(Clone, Copy, PartialEq, Eq, Debug)]
pub enum SetProduct {
    /// Conditioned elevation.
    Con,
    /// Direction.
    Dir,
    /// Accumulation.
    Acc,
    /// Basin.
    Bas,
    /// Rank, the certificate.
    Rnk,
}

impl SetProduct {
    /// The held products in their order.
    pub const ALL: [SetProduct; 5] = [
        SetProduct::Con,
        SetProduct::Dir,
        SetProduct::Acc,
        SetProduct::Bas,
        SetProduct::Rnk,
    ];

    /// The product that it is.
    pub fn product(self) -> Product
        ensures { result ≡ product_of self }
    {
        match self {
            SetProduct::Con => Product::Con,
            SetProduct::Dir => Product::Dir,
            SetProduct::Acc => Product::Acc,
            SetProduct::Bas => Product::Bas,
            SetProduct::Rnk => Product::Rnk,
        }
    }
}
