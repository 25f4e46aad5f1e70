//! What the names and the rows of tiles promise.
//!
//! A law is a function with an empty body: its contract is the law, and code that calls it can use the law.

ghost use Rattle.std.specs.Prelude.{◌≡◌};
ghost use Rattle.drain_hgt.specs.Laws.{NameReadsBack, NamesGiveCorners, OneName, TileRowsAreSamples, TileRowsTellLengths};

use crate::name::{HALF_TURN, NAME_LENGTH, POLE};

/// The numerals of the constants that definitions name: degrees of a quarter and of half a turn, and the bytes of a name.
///
/// Source: the SRTM HGT documentation.
pub fn constants()
    ensures pole { POLE ≡ 90 }
    ensures half_turn { HALF_TURN ≡ 180 }
    ensures name_length { NAME_LENGTH ≡ 11 }
{}

/// The text of a tile's name is read as that name.
pub fn name_reads_back()
    ensures { NameReadsBack }
{}

/// Which tile bytes name is a function of the bytes.
pub fn names_give_corners()
    ensures { NamesGiveCorners }
{}

/// Bytes name one tile, or have one fault.
pub fn one_name()
    ensures { OneName }
{}

/// The rows of a whole tile are its samples.
pub fn tile_rows_are_samples()
    ensures { TileRowsAreSamples }
{}

/// A tile's rows end wrong exactly where its length is wrong.
pub fn tile_rows_tell_lengths()
    ensures { TileRowsTellLengths }
{}
