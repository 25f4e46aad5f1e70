//! The verdict on rasters made from tiles: from the bytes that readers give to an acceptance, a rejection or a refusal.
#![tactic(auto)]

pub mod audit_products;
pub mod auditor;
mod check_products;
pub mod checker;
pub mod decider;
mod dem_ground;
pub mod given;
pub mod ground;
mod input_rows;
pub mod judgement;
pub mod laws;
pub mod listings;
pub mod next_rows;
pub mod outcome;
pub mod part_auditor;
mod placing;
pub mod read_set;
pub mod stages;
mod tile_ground;

pub use auditor::{audit, audit_on};
pub use checker::{check, check_on};
pub use decider::certify;
pub use dem_ground::dem_header;
pub use drain_answer::{AuditVerdict, Outcome, Refusal, audit_report, fill_report, report};
pub use drain_grid::{
    Counts, FillCounts, FillRefusal, FillVerdict, Spacing, SpacingInput, Verdict,
};
pub use drain_paths::CertifyRefusal;
pub use drain_rules::check_fill;
pub use drain_sets::{AuditProducts, Products, RasterInput};
pub use given::Given;
pub use judgement::Judgement;
pub use part_auditor::audit_part_on;
