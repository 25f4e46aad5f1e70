//! The keyword and the value of a line.

ghost use Rattle.std.specs.Prelude.{◌≡◌, option_map};
ghost use Rattle.drain_header.specs.Lines.{line_key, line_value, named_key, reads as reads_word};

use crate::key::Key;
use drain_text::first_word;

/// The keywords in the order of the table.
const KEYS: [Key; 15] = [
    Key::Nrows,
    Key::Ncols,
    Key::Nbands,
    Key::Nbits,
    Key::ByteOrder,
    Key::Layout,
    Key::PixelType,
    Key::SkipBytes,
    Key::BandRowBytes,
    Key::TotalRowBytes,
    Key::Ulxmap,
    Key::Ulymap,
    Key::Xdim,
    Key::Ydim,
    Key::Nodata,
];

/// The keyword of a line, if its first word is one, and its second word, if it has one.
pub fn key_and_value(line: &[u8]) -> (Option<Key>, Option<&[u8]>)
    ensures key { result.0 ≡ line_key line.now }
    ensures value { option_map (λ word. word.now) result.1 ≡ line_value line.now }
{
    let Some((first, rest)) = first_word(line) else {
        return (None, None);
    };
    let key = named_by(first);
    match first_word(rest) {
        Some((second, _)) => (key, Some(second)),
        None => (key, None),
    }
}

/// The keyword of a word, in either letter case.
fn named_by(word: &[u8]) -> Option<Key>
    ensures { result ≡ named_key word.now }
{
    for key in KEYS {
        if reads(key.name(), word) {
            return Some(key);
        }
    }
    None
}

/// Whether a word is this text, in either letter case.
pub fn reads(text: &str, word: &[u8]) -> bool
    ensures { result ≡ reads_word text.now word.now }
{
    let text = text.as_bytes();
    if word.len() != text.len() {
        return false;
    }
    for (at, byte) in word.iter().enumerate() {
        if byte.to_ascii_uppercase() != text[at] {
            return false;
        }
    }
    true
}
