//! Words of a line, each a part of the line.
//!
//! Words are separated by spaces and tabs; any other byte is part of a word.

ghost use Rattle.std.specs.Prelude.{◌≡◌, ◌∷◌, [], MatchOption};
ghost use Rattle.std.specs.List.{prefix_len};
ghost use Rattle.drain_text.specs.Parts.{is_blank as is_blank_byte, is_inked};
ghost use Rattle.drain_text.specs.Text.{words_of};

/// The first word of a line and what follows it, none if the line has no word.
pub fn first_word(line: &[u8]) -> Option<(&[u8], &[u8])>
    ensures { MatchOption result (words_of line.now ≡ [])
        (λ found. words_of line.now ≡ found.0.now ∷ words_of found.1.now) }
{
    let rest = &line[blanks(line)..];
    if rest.is_empty() {
        return None;
    }
    let end = word_length(rest);
    Some((&rest[..end], &rest[end..]))
}

fn is_blank(byte: u8) -> bool
    ensures { result ≡ is_blank_byte byte }
{
    byte == b' ' || byte == b'\t'
}

/// How many spaces and tabs a line begins with.
fn blanks(line: &[u8]) -> usize
    ensures { result ≡ prefix_len is_blank_byte line.now }
{
    for (at, byte) in line.iter().enumerate() {
        if !is_blank(*byte) {
            return at;
        }
    }
    line.len()
}

/// How many bytes come before the first space or tab of a line.
fn word_length(line: &[u8]) -> usize
    ensures { result ≡ prefix_len is_inked line.now }
{
    for (at, byte) in line.iter().enumerate() {
        if is_blank(*byte) {
            return at;
        }
    }
    line.len()
}
