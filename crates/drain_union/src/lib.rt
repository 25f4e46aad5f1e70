//! A union of any size, judged by windows.
#![tactic(auto)]

pub mod laws;
pub mod place;
pub mod report;
pub mod seam_values;
pub mod size;
pub mod union_grid;
pub mod verdict;
pub mod verdict_line;

pub use place::{InnerSides, Place, SEAM_DEPTH};
pub use report::{
    AuditNoData, Outlet, Report, Shown, WindowReport, first_shared, same_spacing, sort_by_label,
    spacing_at,
};
pub use seam_values::SeamValues;
pub use size::UnionSize;
pub use union_grid::{Decimal, DemPart, UnionGrid};
pub use verdict::{Fault, UnionCounts, UnionVerdict};
