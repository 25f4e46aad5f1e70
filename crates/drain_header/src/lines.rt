//! The lines of a header, one after another: each keyword's value, or the first fault of a line.

ghost use Rattle.std.specs.Prelude.{◌≡◌, ◌≤◌};
ghost use Rattle.drain_header.specs.Names.{None, is_some, length, slice_index_or, lines_of};
ghost use Rattle.drain_header.specs.Faults.{lacking};
ghost use Rattle.drain_header.specs.Lines.{key_order};
ghost use Rattle.drain_header.specs.Reading.{nothing, with_header_line as line_added, with_lines as lines_added};

use crate::fault::HeaderFault;
use crate::key::Key;
use crate::line::key_and_value;
use crate::value::{Value, read_value};
use drain_grid::HeightKind;
use drain_text::first_line;

/// A keyword's value is at its place in the table, none if no line so far has the keyword.
pub type Seen = [Option<Value>; 15];

/// The values in the lines of a header of heights of a kind, or the fault of the first line that has one.
pub fn read_lines(text: &[u8], kind: HeightKind) -> Result<Seen, HeaderFault>
    requires { length text.now ≤ 65536 }
    ensures { result ≡ lines_added kind nothing 1 (lines_of text.now) }
{
    let mut seen: Seen = [None; 15];
    let mut number = 1u32;
    let mut rest = text;
    loop {
        let (line, after) = first_line(rest);
        seen = with_line(kind, seen, number, line)?;
        let Some(next) = after else {
            return Ok(seen);
        };
        number += 1;
        rest = next;
    }
}

/// The values with that of one more line.
fn with_line(kind: HeightKind, seen: Seen, number: u32, line: &[u8]) -> Result<Seen, HeaderFault>
    ensures { result ≡ line_added kind seen number line.now }
{
    let (keyword, word) = key_and_value(line);
    let Some(key) = keyword else {
        return Ok(seen);
    };
    if has_value(&seen, key) {
        return Err(HeaderFault::RepeatedKey(number));
    }
    let Some(word) = word else {
        return Err(HeaderFault::BadValue(number));
    };
    let Some(value) = read_value(kind, key, word) else {
        return Err(HeaderFault::BadValue(number));
    };
    let mut next = seen;
    next[key as usize] = Some(value);
    Ok(next)
}

/// Whether a line so far has the keyword.
fn has_value(seen: &Seen, key: Key) -> bool
    ensures { result ≡ is_some (slice_index_or seen.now (key_order key) None) }
{
    seen[key as usize].is_some()
}

/// The first keyword that a header must have and that no line has.
pub fn missing_key(seen: &Seen) -> Option<Key>
    ensures { result ≡ lacking seen.now }
{
    if seen[Key::Nrows as usize].is_none() {
        return Some(Key::Nrows);
    }
    if seen[Key::Ncols as usize].is_none() {
        return Some(Key::Ncols);
    }
    if seen[Key::Ulxmap as usize].is_none() {
        return Some(Key::Ulxmap);
    }
    if seen[Key::Ulymap as usize].is_none() {
        return Some(Key::Ulymap);
    }
    if seen[Key::Xdim as usize].is_none() {
        return Some(Key::Xdim);
    }
    if seen[Key::Ydim as usize].is_none() {
        return Some(Key::Ydim);
    }
    None
}
