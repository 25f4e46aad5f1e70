//! The rules VoidCell, Missing and BadCode without ranks: they check con, dir, acc and bas only.

ghost use Rattle.std.specs.Prelude.{◌↔◌, IsTrue};

use crate::nodata::NoData;
use crate::patch::Patch;
use crate::presence::is_code;
use crate::rule::Rule;
use crate::values::CellValues;

impl Patch {
    ghost use Rattle.drain_grid.specs.Rule.{IsLeastFault, IsPresenceRule};
    ghost use Rattle.drain_grid.specs.Unranked.{unranked};

    /// The first of the three rules that fails at the cell, spl and rnk ignored; none if they all hold.
    pub fn presence_fault_without_ranks(&self, nodata: &NoData) -> Option<Rule>
        ensures least { IsLeastFault IsPresenceRule (unranked nodata.now self.now) result }
    {
        match self.here.z {
            None if self.here.is_blank_without_rank(nodata) => None,
            None => Some(Rule::VoidCell),
            Some(_) if !self.here.is_complete_without_rank(nodata) => Some(Rule::Missing),
            Some(_) if is_code(self.here.dir) => None,
            Some(_) => Some(Rule::BadCode),
        }
    }
}

impl CellValues {
    ghost use Rattle.drain_grid.specs.Unranked.{IsBlankWithoutRank, IsCompleteWithoutRank};

    /// Whether con, dir, acc and bas have their no-data numbers.
    pub(crate) fn is_blank_without_rank(&self, nodata: &NoData) -> bool
        ensures { IsTrue result ↔ IsBlankWithoutRank nodata.now self.now }
    {
        self.con == nodata.con
            && self.dir == nodata.dir
            && self.acc == nodata.acc
            && self.bas == nodata.bas
    }

    /// Whether none of con, dir, acc and bas has its no-data number.
    pub(crate) fn is_complete_without_rank(&self, nodata: &NoData) -> bool
        ensures { IsTrue result ↔ IsCompleteWithoutRank nodata.now self.now }
    {
        self.con != nodata.con
            && self.dir != nodata.dir
            && self.acc != nodata.acc
            && self.bas != nodata.bas
    }
}
