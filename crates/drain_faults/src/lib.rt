//! Every rule about judged rasters that fails at each cell, not only the first: of each rule at how many cells it fails,
//! and where first; of each judged product where only it has numbers or none; the patch of the first fault; and a map of
//! the least rule that fails at each cell.
//!
//! The verdict (`drain_rules`) stops at the first fault. To repair products one needs more, so this walk stops at no
//! fault. The rules are checked one by one, since of each group of rules the crates below return the first that fails,
//! which may hide another. The walk scans a row as the verdict's does: cells that a row clears keep every rule, and are
//! passed at once. It counts as that one does, so it gives the verdict too.
#![tactic(auto)]

pub mod fault_map;
pub mod fault_walk;
pub mod laws;
pub mod patch_faults;
pub mod per_rule;
pub mod product_faults;
pub mod row_faults;

pub use fault_map::{FaultMap, SOUND, SOUND_VOID};
pub use fault_walk::FaultWalk;
pub use patch_faults::{FaultyPatch, RuleFaults};
pub use per_rule::{PerRule, RULES};
pub use product_faults::ProductFaults;
