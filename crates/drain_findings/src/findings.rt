//! What the rules say of every cell of a grid, and which rules and products were looked at.

ghost use Rattle.std.specs.Prelude.{◌≡◌, ◌≢◌, IsTrue};
ghost use Rattle.drain_findings.specs.LookedAt.{judged, looks_at, rules_of};
ghost use Rattle.drain_grid.specs.declared.patch.Patch.{Patch};

use crate::elevation_range::ElevationRange;
use crate::slopes::Slopes;
use drain_faults::{FaultMap, FaultyPatch, PerRule, ProductFaults, RuleFaults};
use drain_grid::{Cell, PerProduct, Rule, Rules, SetProduct};
use drain_paths::EndlessPath;

/// What every cell of a grid showed.
#[derive(Drop)]
pub struct Findings<F> {
    /// Where the grid lies: the layout of its tiles, or the header of the raster of its elevations.
    pub layout: F,
    /// The rules that were tried: which rasters they are about, and the no-data numbers.
    pub rules: Rules,
    /// For each rule that was tried the number of cells at which it fails, and the first.
    pub by_rule: PerRule<RuleFaults>,
    /// For each judged product the number of cells at which it breaks rule VoidCell or Missing, and the first.
    pub by_product: PerProduct<ProductFaults>,
    /// The first cell at which any rule that was tried fails, and what it shows.
    pub first: Option<FaultyPatch>,
    /// With a map, a number for each cell in row order: that of the least rule that fails there; 0 if none does, and
    /// 255 at a void.
    pub map: Option<FaultMap>,
    /// Without ranks, the first data cell whose path doesn't end, and where its path leads.
    pub endless: Option<(Cell, EndlessPath)>,
    /// The least and the greatest elevation of data cells, none if there is no data cell.
    pub elevations: Option<ElevationRange>,
    /// Over which distances slopes were compared.
    pub slopes: Slopes,
}

impl<F> Findings<F> {
    /// Whether the rules looked at this product.
    pub fn looks_at(&self, product: SetProduct) -> bool
        ensures { result ≡ looks_at self.now product }
    {
        self.rules.judged.has(product)
    }

    /// Whether the rule was tried: not if it judges a product that wasn't looked at, or none of a set.
    pub fn tries(&self, rule: Rule) -> bool
        // A rule from VoidCell to Label that was tried requires something: some patch breaks it. One that wasn't is
        // none of those about the judged rasters: every patch keeps it.
        ensures tried { IsTrue result → rule ≢ Rule.SharedLabel → (p : Patch) × ¬ rules_of self.now p rule }
        ensures untried { ¬ IsTrue result → (p : Patch) → rules_of self.now p rule }

        // SharedLabel compares cells, so no patch breaks it: it was tried if labels were looked at.
        ensures shared { rule ≡ Rule.SharedLabel → result ≡ looks_at self.now SetProduct.Bas }
    {
        match rule {
            Rule::VoidCell | Rule::Missing => true,
            _ => match judged_product(rule) {
                Some(product) => self.looks_at(product),
                None => false,
            },
        }
    }
}

/// The product whose number the rule judges. None of VoidCell and Missing, which judge each, and of the rules on spill
/// parents, which no set holds.
pub fn judged_product(rule: Rule) -> Option<SetProduct>
    ensures { result ≡ judged rule }
{
    match rule {
        Rule::VoidCell | Rule::Missing => None,
        Rule::NoSpill | Rule::SpillHeight | Rule::SpillRank => None,
        Rule::BelowGround | Rule::OpenRaised | Rule::NotLeast => Some(SetProduct::Con),
        Rule::BadCode | Rule::Slope | Rule::OutletCode | Rule::FlatStep => Some(SetProduct::Dir),
        Rule::Accumulation => Some(SetProduct::Acc),
        Rule::Label | Rule::SharedLabel => Some(SetProduct::Bas),
    }
}
