//! Lines of a text, each a part of the text.
//!
//! A line ends at a line feed, and the last one at the end of the text. A carriage return at its end is no part of it.

ghost use Rattle.std.specs.Prelude.{◌≡◌, option_map, IfSome, ◌<◌, length};
ghost use Rattle.std.specs.Str.Lines.{strip_carriage_return};
ghost use Rattle.drain_text.specs.Parts.{IsFirstLine};

use memchr::memchr;

/// The first line, without a carriage return at its end, and the text after its line feed if it has one.
///
/// Of two carriage returns only the last is dropped. An empty text has one line, which is empty.
pub fn first_line(text: &[u8]) -> (&[u8], Option<&[u8]>)
    ensures first { IsFirstLine text.now result.0.now (option_map (λ rest. rest.now) result.1) }
    ensures shorter { IfSome result.1 (λ rest. length rest.now < length text.now) }
{
    match memchr(b'\n', text) {
        Some(end) => (without_return(&text[..end]), Some(&text[end + 1..])),
        None => (without_return(text), None),
    }
}

fn without_return(line: &[u8]) -> &[u8]
    ensures { result.now ≡ strip_carriage_return line.now }
{
    if line.is_empty() || line[line.len() - 1] != b'\r' {
        line
    } else {
        &line[..line.len() - 1]
    }
}
