//! Whether a surface is the filled one. A surface that comes row by row is kept until its last row. Then it is raised
//! until it drains: it was the filled one if nothing had to be raised, and else the first cell that was names the fault.
#![tactic(auto)]

pub mod compare;
pub mod con_rows;
mod first_marks;
pub mod ground;
mod kept_rows;
pub mod laws;
pub mod marked;
pub mod surfaces;

pub use compare::first_unfilled;
pub use con_rows::ConRows;
pub use ground::Ground;
pub use marked::filled_surface;
pub use surfaces::Surfaces;
