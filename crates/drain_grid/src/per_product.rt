//! Five things, one for each product that a set holds.

ghost use Rattle.std.specs.Prelude.{◌≡◌, ◌<◌, Ok, Err, IfOk, IfErr};
ghost use Rattle.drain_grid.specs.declared.set_product.SetProduct.{SetProduct};
ghost use Rattle.drain_grid.specs.SetProduct.{rank_of};
ghost use Rattle.drain_grid.specs.PerProduct.{of_product};

use crate::set_product::SetProduct;

/// One thing for each product that a set holds.
#[derive(Drop)]
pub struct PerProduct<T> {
    pub con: T,
    pub dir: T,
    pub acc: T,
    pub bas: T,
    pub rnk: T,
}

impl<T> PerProduct<T> {
    /// The product's own.
    pub fn of(&self, product: SetProduct) -> &T
        ensures { result.now ≡ of_product self.now product }
    {
        match product {
            SetProduct::Con => &self.con,
            SetProduct::Dir => &self.dir,
            SetProduct::Acc => &self.acc,
            SetProduct::Bas => &self.bas,
            SetProduct::Rnk => &self.rnk,
        }
    }
}

impl<T: Drop> PerProduct<T> {
    /// What `give` returns for each product, called in their order. The first error ends it.
    pub fn from_each<E, F: Fn(SetProduct) -> Result<T, E>>(give: &F) -> Result<PerProduct<T>, E>
        requires { F.IsAlwaysCallable give.now }
        ensures each { IfOk result (λ things. (p : SetProduct) → F.post give.now p (Ok (of_product things p))) }
        ensures first { IfErr result (λ e. (p : SetProduct) × F.post give.now p (Err e) × ((q : SetProduct) → rank_of q < rank_of p → (x : T) × F.post give.now q (Ok x))) }
    {
        let con = give(SetProduct::Con)?;
        let dir = give(SetProduct::Dir)?;
        let acc = give(SetProduct::Acc)?;
        let bas = give(SetProduct::Bas)?;
        let rnk = give(SetProduct::Rnk)?;
        Ok(PerProduct {
            con,
            dir,
            acc,
            bas,
            rnk,
        })
    }
}
