//! Fifteen things, one for each rule.

ghost use Rattle.std.specs.Prelude.{◌≡◌};
ghost use Rattle.drain_faults.specs.Names.{false, Rule, IsAnyRule, IsLeastFault};
ghost use Rattle.drain_faults.specs.CellFaults.{of_rule};

use drain_grid::Rule;

/// One thing for each rule.
#[derive(Drop)]
pub struct PerRule<T> {
    pub void_cell: T,
    pub missing: T,
    pub bad_code: T,
    pub below_ground: T,
    pub open_raised: T,
    pub no_spill: T,
    pub spill_height: T,
    pub spill_rank: T,
    pub not_least: T,
    pub slope: T,
    pub outlet_code: T,
    pub flat_step: T,
    pub accumulation: T,
    pub label: T,
    pub shared_label: T,
}

impl<T> PerRule<T> {
    /// The rule's own.
    pub fn of(&self, rule: Rule) -> &T
        ensures { result.now ≡ of_rule self.now rule }
    {
        match rule {
            Rule::VoidCell => &self.void_cell,
            Rule::Missing => &self.missing,
            Rule::BadCode => &self.bad_code,
            Rule::BelowGround => &self.below_ground,
            Rule::OpenRaised => &self.open_raised,
            Rule::NoSpill => &self.no_spill,
            Rule::SpillHeight => &self.spill_height,
            Rule::SpillRank => &self.spill_rank,
            Rule::NotLeast => &self.not_least,
            Rule::Slope => &self.slope,
            Rule::OutletCode => &self.outlet_code,
            Rule::FlatStep => &self.flat_step,
            Rule::Accumulation => &self.accumulation,
            Rule::Label => &self.label,
            Rule::SharedLabel => &self.shared_label,
        }
    }
}

impl<T: Copy> PerRule<T> {
    /// The same for each rule.
    pub fn same(thing: T) -> PerRule<T>
        ensures { (r : Rule) → of_rule result r ≡ thing }
    {
        PerRule {
            void_cell: thing,
            missing: thing,
            bad_code: thing,
            below_ground: thing,
            open_raised: thing,
            no_spill: thing,
            spill_height: thing,
            spill_rank: thing,
            not_least: thing,
            slope: thing,
            outlet_code: thing,
            flat_step: thing,
            accumulation: thing,
            label: thing,
            shared_label: thing,
        }
    }
}

/// The rules in their order.
pub const RULES: [Rule; 15] = [
    Rule::VoidCell,
    Rule::Missing,
    Rule::BadCode,
    Rule::BelowGround,
    Rule::OpenRaised,
    Rule::NoSpill,
    Rule::SpillHeight,
    Rule::SpillRank,
    Rule::NotLeast,
    Rule::Slope,
    Rule::OutletCode,
    Rule::FlatStep,
    Rule::Accumulation,
    Rule::Label,
    Rule::SharedLabel,
];

impl PerRule<bool> {
    /// The least rule whose flag is set, none if none is.
    pub fn least(&self) -> Option<Rule>
        ensures { IsLeastFault IsAnyRule (λ r. of_rule self.now r ≡ false) result }
    {
        for rule in RULES {
            if *self.of(rule) {
                return Some(rule);
            }
        }
        None
    }
}
