//! Which heights a header says that it has, before it is parsed for them.

ghost use Rattle.std.specs.Prelude.{◌≡◌, if◌then◌else◌};
ghost use Rattle.drain_header.specs.Names.{option_map, lines_of};
ghost use Rattle.drain_header.specs.Lines.{is_some_key, kind_said as kind_meant, says_float as float_meant};

use crate::key::Key;
use crate::line::{key_and_value, reads};
use drain_grid::HeightKind;
use drain_text::first_line;

/// The kind of heights that a header says: floats exactly if the first line with the keyword PIXELTYPE has the value
/// FLOAT, in either letter case.
///
/// A header of floats is read by `parse_header_of` for this kind; read for whole heights it is `BadPixelType`.
pub fn kind_said(text: &[u8]) -> HeightKind
    ensures { result ≡ kind_meant (lines_of text.now) }
{
    let mut rest = text;
    loop {
        let (line, after) = first_line(rest);
        let (keyword, word) = key_and_value(line);
        if is_pixel_type(keyword) {
            return kind_of(word);
        }
        let Some(next) = after else {
            return HeightKind::Whole;
        };
        rest = next;
    }
}

fn is_pixel_type(keyword: Option<Key>) -> bool
    ensures { result ≡ is_some_key Key.PixelType keyword }
{
    matches!(keyword, Some(Key::PixelType))
}

/// The kind that the value of the pixel type says, if there is one.
fn kind_of(word: Option<&[u8]>) -> HeightKind
    ensures { result ≡ if float_meant (option_map (λ w. w.now) word.entry) then HeightKind.Single else HeightKind.Whole }
{
    match word {
        Some(word) if reads("FLOAT", word) => HeightKind::Single,
        _ => HeightKind::Whole,
    }
}
