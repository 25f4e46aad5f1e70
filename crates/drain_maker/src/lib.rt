//! Products made from elevations, proved to be correct, and their files: a flood from the outlets inwards, directions
//! on its surface, and what follows from them. And what follows from directions that are read row by row.
//!
//! Source: the flood is Priority-Flood (Barnes, Lehman and Mulla 2014); directions are D8 (O'Callaghan and Mark 1984).
#![tactic(auto)]

pub mod dem;
pub mod derivation;
mod header_texts;
pub mod laws;
mod maker;
pub mod mosaic;
mod narrow;
pub mod product_files;
mod products;
pub mod whole_dem;

pub use dem::{AsRaster, make_dem};
pub use derivation::{DeriveRefusal, Derived, derive_from_flows, derive_on};
pub use drain_flood::LevelQueue;
pub use drain_sets::{
    DERIVED_COUNT, DERIVED_FILES, FILE_COUNT, FilePart, Follow, SET_FILES, SetFault, SetFile,
    Stage, Unfollowed, header_on,
};
pub use drain_verdict::{CertifyRefusal, certify};
pub use maker::{MakeRefusal, make, make_freeing};
pub use mosaic::{AsElevation, Mosaic, read_mosaic};
pub use product_files::product_header;
pub use whole_dem::{Dem, read_dem};
