//! The reports of the windows of a union, combined into one verdict on the union.
#![tactic(auto)]

mod all_lists;
mod box_places;
mod checks;
mod edges;
mod filling;
pub mod joined;
mod joined_spacings;
pub mod laws;
pub mod map_merge;
pub mod merge_verdict;
mod outer_seams;
pub mod places;
mod seams;
mod shared;
pub mod smallest_box;
mod spacings;
pub mod totals;
mod unjudged;

pub use joined::join;
pub use map_merge::{MapVerdict, merge_on_map};
pub use merge_verdict::{MergeRefusal, merge_line};
pub use places::Clash;
pub use smallest_box::UnionBox;
pub use totals::UnionSinks;
