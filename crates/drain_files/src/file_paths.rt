//! The paths of products' files and of a map, the name in a tile's path, and the folder of an output.

ghost use Rattle.std.specs.Prelude.{◌≡◌, ◌++◌, ◌↔◌};
ghost use Rattle.drain_files.specs.Names.{IfOk, IsTrue, string_bytes, product_name};
ghost use Rattle.drain_files.specs.FilePaths.{dem_file, dem_file_ending, product_path, separator, header_ending, raster_ending, ending_of, IsFolderPart, IsLastPart, IsProductName, part_name};

use drain_answer::lines::{push_number, words};
use drain_args::requests::{DemArgs, DemEnding};
use drain_grid::Product;
use drain_sets::FilePart;
use memchr::memrchr;
use std::alloc::{AllocError, Global};

/// The path of a product's header in this folder, as `DIR/con.hdr`.
pub fn header_path(alloc: Global, folder: &str, product: Product) -> Result<String, AllocError>
    ensures { IfOk result (λ path. string_bytes path ≡ product_path folder.now product header_ending) }
{
    product_path(alloc, folder, product, ".hdr")
}

/// The path of a product's raster in this folder, as `DIR/con.bil`.
pub fn raster_path(alloc: Global, folder: &str, product: Product) -> Result<String, AllocError>
    ensures { IfOk result (λ path. string_bytes path ≡ product_path folder.now product raster_ending) }
{
    product_path(alloc, folder, product, ".bil")
}

/// The path of a product's file with this ending: the folder as given, one slash, and the file's name.
pub fn product_path(
    alloc: Global,
    folder: &str,
    product: Product,
    ending: &str,
) -> Result<String, AllocError>
    ensures { IfOk result (λ path. string_bytes path ≡ product_path folder.now product ending.now) }
{
    let mut path = String::from_str(alloc, folder)?;
    path.push_str(separator(folder))?;
    path.push_str(product.name())?;
    path.push_str(ending)?;
    Ok(path)
}

fn separator(folder: &str) -> &'static str
    ensures { result.now ≡ separator folder.now }
{
    if folder.as_bytes().ends_with(b"/") {
        ""
    } else {
        "/"
    }
}

/// The path of the header or the raster of elevations: the raster's is as given, the header's next to it.
pub fn dem_path(alloc: Global, dem: &DemArgs<'_>, part: FilePart) -> Result<String, AllocError>
    ensures { IfOk result (λ path. string_bytes path ≡ dem_file dem.now part) }
{
    let mut path = String::from_str(alloc, dem.stem)?;
    path.push_str(dem_file_ending(dem.ending, part))?;
    Ok(path)
}

fn dem_file_ending(ending: DemEnding, part: FilePart) -> &'static str
    ensures { result.now ≡ dem_file_ending ending part }
{
    match (ending, part) {
        (DemEnding::Lower, part) => ending_of(part),
        (DemEnding::Upper, FilePart::Header) => ".HDR",
        (DemEnding::Upper, FilePart::Raster) => ".BIL",
    }
}

/// The path of a map's file: the header is next to the raster, with `.hdr` in place of `.bil`.
pub fn map_path(alloc: Global, stem: &str, part: FilePart) -> Result<String, AllocError>
    ensures { IfOk result (λ path. string_bytes path ≡ stem.now ++ ending_of part) }
{
    let mut path = String::from_str(alloc, stem)?;
    path.push_str(ending_of(part))?;
    Ok(path)
}

fn ending_of(part: FilePart) -> &'static str
    ensures { result.now ≡ ending_of part }
{
    match part {
        FilePart::Header => ".hdr",
        FilePart::Raster => ".bil",
    }
}

/// The name of a tile's file: what follows the last slash of its path, or the whole path.
pub fn tile_name(path: &[u8]) -> &[u8]
    ensures { IsLastPart path.now result.now }
{
    match memrchr(b'/', path) {
        Some(slash) => &path[slash + 1..],
        None => path,
    }
}

/// The folder in a path: what ends in its last slash, empty if it has none.
pub(crate) fn folder_of(path: &str) -> &str
    ensures { IsFolderPart path.now result.now }
{
    match path.rfind('/') {
        Some(slash) => &path[..slash + 1],
        None => "",
    }
}

/// The path of an output that isn't whole yet, as `DIR/drain-1.part`: beside the output, with no product's name.
pub fn part_path(alloc: Global, folder: &str, number: u32) -> Result<String, AllocError>
    ensures { IfOk result (λ path. string_bytes path ≡ folder.now ++ part_name number) }
{
    let mut name = words("drain-");
    push_number(&mut name, number);
    name.push_str(".part");
    let mut path = String::from_str(alloc, folder)?;
    path.push_str(name.as_str())?;
    Ok(path)
}

/// Whether this is the name of a product that a check reads, as `rnk`.
pub fn is_product_name(name: &[u8]) -> bool
    ensures { IsTrue result ↔ IsProductName name.now }
{
    is_name_of(Product::Con, name)
        || is_name_of(Product::Dir, name)
        || is_name_of(Product::Acc, name)
        || is_name_of(Product::Bas, name)
        || is_name_of(Product::Rnk, name)
}

fn is_name_of(product: Product, name: &[u8]) -> bool
    ensures { IsTrue result ↔ (name.now ≡ product_name product) }
{
    name == product.name().as_bytes()
}
