//! The tiles of a report, by their names.

ghost use Rattle.std.specs.Prelude.{◌≡◌, ◌++◌};
ghost use Rattle.drain_report.specs.Names.{ℕ, List, IfSome, MatchOption, Corner, IsOnMap, name_of};
ghost use Rattle.drain_report.specs.Facts.{tile_line};

use crate::facts::ReportLine;
use crate::fault::ReportFault;
use crate::lines::{Lines, after_word, push, unread};
use drain_grid::OutOfMemory;
use drain_hgt::TileName;
use drain_hgt::laws::{name_reads_back, one_name};
use drain_hgt::name::NAME_LENGTH;

/// The tile that a text names first, as names are printed, and what follows the name.
fn first_name(text: &[u8]) -> Option<(TileName, &[u8])>
    ensures sound { IfSome result (λ found. text.now ≡ name_of found.0 ++ found.1.now) }
    ensures back { (c : Corner) (rest : List ℕ) → IsOnMap c → text.now ≡ name_of c ++ rest → MatchOption result ⊥ (λ found. (found.0 ≡ c) × (found.1.now ≡ rest)) }
{
    name_reads_back();
    one_name();
    if text.len() < NAME_LENGTH {
        return None;
    }
    let bytes = &text[..NAME_LENGTH];
    let Ok(tile) = TileName::parse(bytes) else {
        return None;
    };
    if tile.text().as_bytes() != bytes {
        return None;
    }
    Some((tile, &text[NAME_LENGTH..]))
}

/// The tile of the first line, and what follows the line.
fn first_tile(text: &[u8]) -> Option<(TileName, &[u8])>
    ensures sound { IfSome result (λ found. text.now ≡ tile_line found.0 ++ found.1.now) }
    ensures back { (c : Corner) (rest : List ℕ) → IsOnMap c → text.now ≡ tile_line c ++ rest → MatchOption result ⊥ (λ found. (found.0 ≡ c) × (found.1.now ≡ rest)) }
{
    let Some(after) = after_word(text, b"tile ") else {
        return None;
    };
    let Some((tile, end)) = first_name(after) else {
        return None;
    };
    let Some(rest) = after_word(end, b"\n") else {
        return None;
    };
    Some((tile, rest))
}

impl ReportLine for TileName {
    ghost line_of = { tile_line };

    ghost fits = { IsOnMap };

    fn read_from<'a>(lines: Lines<'a>) -> Result<(TileName, Lines<'a>), ReportFault> {
        let Some(found) = first_tile(lines.rest) else {
            return Err(unread(lines));
        };
        Ok((found.0, lines.after_first(found.1)))
    }

    fn push_to(&self, text: &mut Vec<u8>) -> Result<(), OutOfMemory> {
        let _on_map = self.lat();
        push(text, b"tile ")?;
        push(text, self.text().as_bytes())?;
        push(text, b"\n")
    }
}
