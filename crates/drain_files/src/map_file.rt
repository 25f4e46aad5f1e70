//! The files of a map of the faults: a raster of a byte for each cell, and its header.

ghost use Rattle.std.specs.Prelude.{◌≡◌, ◌++◌, ◌∷◌};
ghost use Rattle.drain_files.specs.Names.{[], IfOk, map, string_bytes, vec_len, WritesFiles};
ghost use Rattle.drain_files.specs.FilePaths.{header_ending, raster_ending};
ghost use Rattle.drain_header.specs.Text.{text_of};
ghost use Rattle.drain_sets.specs.Missing.{map_header};

use crate::file_id::{FileId, Target, first_clash, is_input};
use crate::file_paths::{folder_of, is_product_name, map_path, tile_name};
use crate::open_files::OpenFault;
use crate::outputs::{look, target_at};
use crate::whole_input::write_bytes;
use drain_device::ByteSink;
use drain_header::{Header, header_text};
use drain_sets::missing::map_header;
use drain_sets::{FilePart, SetFault};
use std::alloc::{AllocError, Global};

/// Why a map must not be written there.
#[derive(Clone, Copy)]
pub enum MapClash {
    /// The file at its path is an input.
    Input,
    /// Its header and its raster are one file.
    Output,
    /// A later check or audit would take it for a product.
    Product,
}

/// The paths of the files of a map: its header and its raster.
pub fn map_paths(alloc: Global, stem: &str) -> Result<Vec<String>, AllocError>
    ensures paths { IfOk result (λ paths. map string_bytes paths.items ≡ (stem.now ++ header_ending) ∷ (stem.now ++ raster_ending) ∷ []) }
    ensures count { IfOk result (λ paths. vec_len paths ≡ 2) }
{
    let mut paths = Vec::new(alloc);
    paths.push(map_path(alloc, stem, FilePart::Header)?)?;
    paths.push(map_path(alloc, stem, FilePart::Raster)?)?;
    Ok(paths)
}

/// The path of the first file of a map that must not be written there, and why; `products` is the folder of the products. Device and inode of the files decide,
/// so any other way to the same file counts.
pub fn map_clash(
    rt: &HostRuntime,
    products: &str,
    stem: &str,
    inputs: &[FileId],
) -> Result<Option<(String, MapClash)>, OpenFault> {
    let mut paths = map_paths(rt.alloc(), stem)?;
    let mut targets = Vec::new(rt.alloc());
    for path in paths.as_slice() {
        if targets.push(target_at(rt, path.as_str())?).is_err() {
            return Err(OpenFault::no_memory());
        }
    }
    let (place, clash) = match first_clash(targets.as_slice(), inputs) {
        Some(place) => (place, clash_of(targets.as_slice(), place, inputs)),
        None if is_named_as_product(rt, products, stem)? => (1, MapClash::Product),
        None => return Ok(None),
    };
    if place < paths.len() {
        return Ok(Some((paths.swap_remove(place), clash)));
    }
    Ok(None)
}

/// Why the file in this place clashes.
fn clash_of(targets: &[Target], place: usize, inputs: &[FileId]) -> MapClash {
    match targets.get(place) {
        Some(target) if is_input(*target, inputs) => MapClash::Input,
        _ => MapClash::Output,
    }
}

/// Whether a file with this path before its ending has the name of a product and lies in this folder.
pub fn is_named_as_product(
    rt: &HostRuntime,
    products: &str,
    stem: &str,
) -> Result<bool, OpenFault> {
    if !is_product_name(tile_name(stem.as_bytes())) {
        return Ok(false);
    }
    let folder = folder_of(stem);
    let folder = if folder.is_empty() { "." } else { folder };
    match (look(rt, folder)?, look(rt, products)?) {
        (Some(here), Some(there)) => Ok(FileId::of(&here).is(FileId::of(&there))),
        _ => Ok(false),
    }
}

/// Writes the header of a map that lies as this one's raster does, and then the pixels. The first file that can't be written ends it.
pub fn write_map<F: ByteSink>(
    alloc: Global,
    like: &Header,
    pixels: &[u8],
    header: &mut F,
    raster: &mut F,
) -> Result<(), SetFault>
    ensures { WritesFiles F.ByteSink (header.old ∷ raster.old ∷ []) (header.new ∷ raster.new ∷ []) (text_of (map_header like.now) ∷ pixels.now ∷ []) result }
{
    let Ok(text) = header_text(alloc, &map_header(like)) else {
        return Err(SetFault::OutOfMemory);
    };
    match write_bytes(header, &text) {
        Ok(()) => write_bytes(raster, pixels),
        Err(fault) => Err(fault),
    }
}
