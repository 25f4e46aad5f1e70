//! Worked names and samples, from the format's own table.

use crate::agree::same;
use drain_device::{ByteList, SliceSource, read_body};
use drain_hgt::input::TileInput;
use drain_hgt::name::{NameFault, TileName};
use drain_hgt::tile::{TileFault, read_tile};
use std::alloc::Global;
use std::test::Fail;

/// Two tiles by their names.
pub fn two_named(names: [&str; 2]) -> Result<[TileName; 2], NameFault> {
    Ok([
        TileName::parse(names[0].as_bytes())?,
        TileName::parse(names[1].as_bytes())?,
    ])
}

/// Four tiles by their names.
pub fn four_named(names: [&str; 4]) -> Result<[TileName; 4], NameFault> {
    let [first, second] = two_named([names[0], names[1]])?;
    let [third, fourth] = two_named([names[2], names[3]])?;
    Ok([first, second, third, fourth])
}

/// Names, each with its degrees of latitude and of longitude, and as it is printed.
static NAMES: [(&str, i8, i16, &str); 5] = [
    ("n37w105.HGT", 37, -105, "N37W105.hgt"),
    ("N00E000.hgt", 0, 0, "N00E000.hgt"),
    ("N89E179.hgt", 89, 179, "N89E179.hgt"),
    ("s01w001.Hgt", -1, -1, "S01W001.hgt"),
    ("S90W180.hgt", -90, -180, "S90W180.hgt"),
];

#[test]
fn names_and_their_degrees(rt: HostRuntime) -> Result<(), Fail> {
    for &(name, lat, lon, printed) in &NAMES {
        let tile = TileName::parse(name.as_bytes())?;
        let text = tile.text();
        let told = (tile.lat(), tile.lon(), text.as_str());
        same(&rt, name, told, (lat, lon, printed));
    }
    Ok(())
}

/// What names no tile, each with why.
static NO_NAMES: [(&str, NameFault); 15] = [
    ("S00E000.hgt", NameFault::BadRange),
    ("N90E000.hgt", NameFault::BadRange),
    ("S91E000.hgt", NameFault::BadRange),
    ("N00E180.hgt", NameFault::BadRange),
    ("N00W000.hgt", NameFault::BadRange),
    ("N00W181.hgt", NameFault::BadRange),
    ("N99E999.hgt", NameFault::BadRange),
    ("N7W105.hgt", NameFault::BadForm),
    ("N037W105.hgt", NameFault::BadForm),
    ("N37W105.hgt ", NameFault::BadForm),
    ("E37N105.hgt", NameFault::BadForm),
    ("N3:W105.hgt", NameFault::BadForm),
    ("N37W1/5.hgt", NameFault::BadForm),
    ("N37W105_hgt", NameFault::BadForm),
    ("", NameFault::BadForm),
];

#[test]
fn names_of_no_tile(rt: HostRuntime) -> Result<(), Fail> {
    for &(name, fault) in &NO_NAMES {
        same(&rt, name, TileName::parse(name.as_bytes()), Err(fault));
    }
    Ok(())
}

#[test]
fn samples_most_significant_byte_first(rt: HostRuntime) -> Result<(), Fail> {
    let bytes = [0x00, 0x01, 0x80, 0x00, 0xff, 0xff, 0x7f, 0xff];
    let samples = read_tile(rt.alloc(), 2, &bytes)?;
    let expected = [1, -32768, -1, 32767];
    same(&rt, "samples", samples.as_slice(), expected.as_slice());
    Ok(())
}

/// A side, bytes of no tile of that side, and why they are none.
static NO_TILES: [(u32, &[u8], TileFault); 6] = [
    (2, &[0; 7], TileFault::BadLength),
    (3, &[0; 8], TileFault::BadLength),
    (3601, &[0; 8], TileFault::BadLength),
    (1, &[0; 2], TileFault::BadSide),
    (0, &[], TileFault::BadSide),
    (3602, &[0; 8], TileFault::BadSide),
];

#[test]
fn bytes_of_no_tile(rt: HostRuntime) -> Result<(), Fail> {
    for &(side, bytes, fault) in &NO_TILES {
        let answer = read_tile(rt.alloc(), side, bytes);
        same(&rt, side, answer.err(), Some(fault));
    }
    Ok(())
}

/// The name of a tile of side 2, and its samples where there are four.
fn read_input(
    alloc: Global,
    input: &mut TileInput<SliceSource<'_>>,
) -> Result<(TileName, Option<[i16; 4]>), Fail> {
    let name = TileName::parse(input.name.as_slice())?;
    let body = read_body(alloc, &mut input.body, 8)?;
    let samples = read_tile(alloc, 2, &body)?;
    Ok((name, samples.as_slice().try_into().ok()))
}

#[test]
fn a_tile_as_it_is_handed_in(rt: HostRuntime) -> Result<(), Fail> {
    let bytes = [0, 7, 0, 8, 0, 9, 0, 10];
    let mut input = TileInput {
        name: ByteList::new(b"s01w001.hgt".to_vec(rt.alloc())?),
        body: SliceSource::new(&bytes),
    };
    let (name, samples) = read_input(rt.alloc(), &mut input)?;
    same(&rt, "name", name.text().as_str(), "S01W001.hgt");
    same(&rt, "samples", samples, Some([7, 8, 9, 10]));
    Ok(())
}
