//! The files of a product set and of derived rasters, and why not all of them were written.

use drain_grid::SetProduct;

/// What a file holds of a product.
#[derive(Clone, Copy, PartialEq, Eq, Debug)]
pub enum FilePart {
    Header,
    Raster,
}

/// A file of a product set, or of derived rasters.
#[derive(Clone, Copy, PartialEq, Eq, Debug)]
pub struct SetFile {
    pub product: SetProduct,
    pub part: FilePart,
}

/// The files of these products: of each its header, and then its raster.
macro_rules! files_of {
    ($($product:ident)*) => {
        [$(
            SetFile { product: SetProduct::$product, part: FilePart::Header },
            SetFile { product: SetProduct::$product, part: FilePart::Raster },
        )*]
    };
}

/// How many files a product set has.
pub const FILE_COUNT: usize = 10;

/// The files of a product set in their order.
pub const SET_FILES: [SetFile; FILE_COUNT] = files_of!(Con Dir Acc Bas Rnk);

/// How many files derived rasters have.
pub const DERIVED_COUNT: usize = 6;

/// The files of derived rasters in their order.
pub const DERIVED_FILES: [SetFile; DERIVED_COUNT] = files_of!(Acc Bas Rnk);

/// Why not every file was written.
#[derive(Clone, Copy, PartialEq, Eq, Debug)]
pub enum SetFault {
    /// A sink failed, was interrupted for the 1,000th time, or accepted no byte of some.
    WriteFailed,
    /// Memory was refused for the text of a header.
    OutOfMemory,
}
