//! What the definitions of mosaics promise.
//!
//! A law is a function with an empty body: its contract is the law, and code that calls it can use the law.

ghost use Rattle.std.specs.Prelude.{◌≡◌};
ghost use Rattle.drain_mosaic.specs.declared.layout.TheConstants.{MAX_BOX};
ghost use Rattle.drain_mosaic.specs.Laws.{AgreementGivesElevation, NewRowsAreOfBodies, RowsAreFirstValues, RowsAreWhole, RowsEnd, RowsTellLengths, RowsTellSeams, WholeTilesGiveTheirSamples};

use drain_device::ByteSource;

/// Where tiles agree, the first value of each cell is its one value.
pub fn agreement_gives_elevation()
    ensures { AgreementGivesElevation }
{}

/// New rows are those of the bodies that the devices give.
pub fn new_rows_are_of_bodies<R: ByteSource>()
    ensures { NewRowsAreOfBodies R.bytes_left }
{}

/// All rows come, and then the end.
pub fn rows_end()
    ensures { RowsEnd }
{}

/// Each row has a number for each column, and none follows the last.
pub fn rows_are_whole()
    ensures { RowsAreWhole }
{}

/// Each number of a row is the first value of its cell.
pub fn rows_are_first_values()
    ensures { RowsAreFirstValues }
{}

/// The seam that rows report is the first.
pub fn rows_tell_seams()
    ensures { RowsTellSeams }
{}

/// The tile of wrong length that rows report is the first.
pub fn rows_tell_lengths()
    ensures { RowsTellLengths }
{}

/// Tiles of the right length give all their samples.
pub fn whole_tiles_give_their_samples()
    ensures { WholeTilesGiveTheirSamples }
{}

/// A box has at most 8 tiles from north to south, and from west to east. Source: this project's own choice; with the
/// greatest tiles, of 3,601 samples along an edge, that is 28,801 rows and columns, the greatest grid.
pub fn constants()
    ensures max_box { MAX_BOX ≡ 8 }
{}
