//! Of each product alone: the voids at which it has a number, and the data cells at which it has none.
//!
//! The rules VoidCell and Missing are about all judged products at once; to repair them one needs to know which is wrong
//! where.

ghost use Rattle.std.specs.Prelude.{◌≡◌, ◌≢◌, ◌↔◌};
ghost use Rattle.drain_faults.specs.Names.{IsNone, IsSome, IsTrue, None, product_of, number_for, value_of, SetProduct, VoidCell, Missing, of_product, tried};
ghost use Rattle.drain_faults.specs.ByProduct.{MissingHoldsOf, VoidCellHoldsOf, AreProductsNotedAt, IsProductNotedAt};
ghost use Rattle.drain_faults.specs.CellFaults.{TellsFault};

use crate::patch_faults::RuleFaults;
use crate::per_rule::PerRule;
use drain_grid::{Cell, CellValues, NoData, Patch, PerProduct, Rules, SetProduct};

/// Whether the product has its no-data number, if the cell is a void. True of one that isn't judged.
pub fn keeps_void_cell(patch: &Patch, rules: &Rules, product: SetProduct) -> bool
    ensures { IsTrue result ↔ VoidCellHoldsOf rules.now product patch.now }
{
    if rules.judged.has(product) {
        is_blank_if_void(&patch.here, &rules.nodata, product)
    } else {
        true
    }
}

/// Whether the product has another number than its no-data number, if the cell has data. True of one that isn't judged.
pub fn keeps_missing(patch: &Patch, rules: &Rules, product: SetProduct) -> bool
    ensures { IsTrue result ↔ MissingHoldsOf rules.now product patch.now }
{
    if rules.judged.has(product) {
        is_there_if_data(&patch.here, &rules.nodata, product)
    } else {
        true
    }
}

/// Whether the product has its no-data number, or the cell has data.
fn is_blank_if_void(here: &CellValues, nodata: &NoData, product: SetProduct) -> bool
    ensures { IsTrue result ↔ (IsNone here.now.z → value_of here.now (product_of product) ≡ number_for nodata.now (product_of product)) }
{
    here.z.is_some() || is_blank(here, nodata, product)
}

/// Whether the product has another number than its no-data number, or the cell is a void.
fn is_there_if_data(here: &CellValues, nodata: &NoData, product: SetProduct) -> bool
    ensures { IsTrue result ↔ (IsSome here.now.z → value_of here.now (product_of product) ≢ number_for nodata.now (product_of product)) }
{
    here.z.is_none() || !is_blank(here, nodata, product)
}

/// Whether the product has its no-data number at the cell.
fn is_blank(here: &CellValues, nodata: &NoData, product: SetProduct) -> bool
    ensures { IsTrue result ↔ (value_of here.now (product_of product) ≡ number_for nodata.now (product_of product)) }
{
    are_same(number_at(here, product), nodata_of(nodata, product))
}

/// Whether two numbers are the same.
fn are_same(one: i64, other: i64) -> bool
    ensures { IsTrue result ↔ (one ≡ other) }
{
    one == other
}

/// The product's number at the cell.
pub fn number_at(here: &CellValues, product: SetProduct) -> i64
    ensures { result ≡ value_of here.now (product_of product) }
{
    match product {
        SetProduct::Con => here.con,
        SetProduct::Dir => here.dir,
        SetProduct::Acc => here.acc,
        SetProduct::Bas => here.bas,
        SetProduct::Rnk => here.rnk,
    }
}

/// The product's no-data number.
pub fn nodata_of(nodata: &NoData, product: SetProduct) -> i64
    ensures { result ≡ number_for nodata.now (product_of product) }
{
    match product {
        SetProduct::Con => nodata.con,
        SetProduct::Dir => nodata.dir,
        SetProduct::Acc => nodata.acc,
        SetProduct::Bas => nodata.bas,
        SetProduct::Rnk => nodata.rnk,
    }
}

/// The cells at which a product and the elevation differ on whether there is data.
#[derive(Clone, Copy, PartialEq, Eq, Debug)]
pub struct ProductFaults {
    /// The voids at which it has another number than its no-data number (rule VoidCell).
    pub at_voids: RuleFaults,
    /// The data cells at which it has its no-data number (rule Missing).
    pub at_data: RuleFaults,
}

impl ProductFaults {
    /// No cell.
    pub fn none() -> ProductFaults
        ensures { result ≡ record { at_voids = record { cells = 0; first = None }; at_data = record { cells = 0; first = None } } }
    {
        ProductFaults {
            at_voids: RuleFaults::none(),
            at_data: RuleFaults::none(),
        }
    }

    /// With one cell more, with this patch, if the product fails there. Cells come in row order.
    fn with(self, cell: Cell, patch: &Patch, rules: &Rules, product: SetProduct) -> ProductFaults
        ensures { IsProductNotedAt rules.now cell patch.now product self result }
    {
        ProductFaults {
            at_voids: self
                .at_voids
                .with(cell, !keeps_void_cell(patch, rules, product)),
            at_data: self
                .at_data
                .with(cell, !keeps_missing(patch, rules, product)),
        }
    }
}

/// For each product no cell.
pub fn no_faults() -> PerProduct<ProductFaults>
    ensures { (product : SetProduct) → of_product result product ≡ record { at_voids = record { cells = 0; first = None }; at_data = record { cells = 0; first = None } } }
{
    PerProduct {
        con: ProductFaults::none(),
        dir: ProductFaults::none(),
        acc: ProductFaults::none(),
        bas: ProductFaults::none(),
        rnk: ProductFaults::none(),
    }
}

/// Adds one cell, with this patch and these failing rules. Products are checked only if VoidCell or Missing fails.
pub(crate) fn note_products(
    faults: &mut PerProduct<ProductFaults>,
    cell: Cell,
    patch: &Patch,
    rules: &Rules,
    fails: &PerRule<bool>,
)
    requires void_cell { TellsFault fails.now.void_cell (tried rules.now patch.now VoidCell) }
    requires missing { TellsFault fails.now.missing (tried rules.now patch.now Missing) }
    ensures { AreProductsNotedAt rules.now cell patch.now faults.old faults.new }
{
    if fails.void_cell || fails.missing {
        *faults = with_products(faults, cell, patch, rules);
    }
}

/// Each product with one cell more.
fn with_products(
    so_far: &PerProduct<ProductFaults>,
    cell: Cell,
    patch: &Patch,
    rules: &Rules,
) -> PerProduct<ProductFaults>
    ensures { AreProductsNotedAt rules.now cell patch.now so_far.now result }
{
    PerProduct {
        con: so_far.con.with(cell, patch, rules, SetProduct::Con),
        dir: so_far.dir.with(cell, patch, rules, SetProduct::Dir),
        acc: so_far.acc.with(cell, patch, rules, SetProduct::Acc),
        bas: so_far.bas.with(cell, patch, rules, SetProduct::Bas),
        rnk: so_far.rnk.with(cell, patch, rules, SetProduct::Rnk),
    }
}
