//! Paths of products' files and of maps, and names of tiles in paths.

use crate::printed::{holds, same_bytes};
use drain_args::requests::map_stem;
use drain_files::file_paths::{header_path, map_path, raster_path, tile_name};
use drain_grid::Product;
use drain_sets::FilePart;
use std::alloc::{AllocError, Global};
use std::test::Fail;

/// Whether this is the path of con's header in a folder.
fn is_header(alloc: Global, folder: &str, path: &str) -> Result<bool, AllocError> {
    Ok(header_path(alloc, folder, Product::Con)?.as_str() == path)
}

/// Whether this is the path of rnk's raster in a folder.
fn is_raster(alloc: Global, folder: &str, path: &str) -> Result<bool, AllocError> {
    Ok(raster_path(alloc, folder, Product::Rnk)?.as_str() == path)
}

/// A folder, and the paths in it of con's header and of rnk's raster.
static PATHS: [(&str, &str, &str); 4] = [
    ("out", "out/con.hdr", "out/rnk.bil"),
    ("out/", "out/con.hdr", "out/rnk.bil"),
    ("a/b//", "a/b//con.hdr", "a/b//rnk.bil"),
    ("/", "/con.hdr", "/rnk.bil"),
];

#[test]
fn puts_one_slash_between_folder_and_file(rt: HostRuntime) -> Result<(), Fail> {
    for &(folder, header, raster) in &PATHS {
        let is_header = is_header(rt.alloc(), folder, header)?;
        let is_raster = is_raster(rt.alloc(), folder, raster)?;
        holds(&rt, folder, is_header && is_raster);
    }
    Ok(())
}

/// The path of a tile, and its name.
static NAMES: [(&str, &str); 5] = [
    ("N00E000.hgt", "N00E000.hgt"),
    ("tiles/N00E000.hgt", "N00E000.hgt"),
    ("/a//b/n.hgt", "n.hgt"),
    ("folder/", ""),
    ("", ""),
];

#[test]
fn takes_the_name_of_a_tile_from_its_path(rt: HostRuntime) -> Result<(), Fail> {
    for &(path, name) in &NAMES {
        same_bytes(&rt, path, tile_name(path.as_bytes()), name.as_bytes());
    }
    Ok(())
}

/// The path of a map, and the part before its ending.
static STEMS: [(&str, Option<&str>); 7] = [
    ("faults.bil", Some("faults")),
    ("a/b.c.bil", Some("a/b.c")),
    (".bil", Some("")),
    ("faults", None),
    ("faults.hdr", None),
    ("faults.BIL", None),
    ("", None),
];

#[test]
fn a_map_ends_in_bil(rt: HostRuntime) -> Result<(), Fail> {
    for &(path, stem) in &STEMS {
        holds(&rt, path, map_stem(path) == stem);
    }
    Ok(())
}

/// A part of a map, and the path of its file.
static MAP_PATHS: [(FilePart, &str); 2] = [
    (FilePart::Raster, "a/faults.bil"),
    (FilePart::Header, "a/faults.hdr"),
];

#[test]
fn the_header_of_a_map_lies_beside_it(rt: HostRuntime) -> Result<(), Fail> {
    for &(part, expected) in &MAP_PATHS {
        let path = map_path(rt.alloc(), "a/faults", part)?;
        same_bytes(&rt, expected, path.as_bytes(), expected.as_bytes());
    }
    Ok(())
}
