//! Lines of texts, words of lines, and whole numbers, each with the parts or the value that it has.

use crate::agree::same;
use drain_text::{first_line, first_word, whole_number};
use std::test::Fail;

/// Texts, each with its first line and what follows it.
static TEXTS: [(&str, &[u8], Option<&[u8]>); 8] = [
    ("", b"", None),
    ("a b", b"a b", None),
    ("a\n", b"a", Some(b"")),
    ("\na", b"", Some(b"a")),
    ("a\r\nb\nc", b"a", Some(b"b\nc")),
    ("a\r\r\nb", b"a\r", Some(b"b")),
    ("a\rb\r", b"a\rb", None),
    ("\r", b"", None),
];

#[test]
fn first_lines(rt: HostRuntime) -> Result<(), Fail> {
    for &(text, line, rest) in &TEXTS {
        same(&rt, text, first_line(text.as_bytes()), (line, rest));
    }
    Ok(())
}

/// Lines, each with its first word and what follows it.
static WORDS: [(&str, Option<(&[u8], &[u8])>); 5] = [
    ("", None),
    (" \t ", None),
    ("a", Some((b"a", b""))),
    ("\t ab\tc d", Some((b"ab", b"\tc d"))),
    ("a\rb ", Some((b"a\rb", b" "))),
];

#[test]
fn first_words(rt: HostRuntime) -> Result<(), Fail> {
    for &(line, expected) in &WORDS {
        same(&rt, line, first_word(line.as_bytes()), expected);
    }
    Ok(())
}

/// Texts, each with the whole number that it is.
static NUMBERS: [(&str, Option<u32>); 8] = [
    ("0", Some(0)),
    ("000000000000000000000000000007", Some(7)),
    ("4294967295", Some(4294967295)),
    ("4294967296", None),
    ("99999999999999999999999999", None),
    ("", None),
    ("+1", None),
    ("1.", None),
];

#[test]
fn whole_numbers(rt: HostRuntime) -> Result<(), Fail> {
    for &(text, expected) in &NUMBERS {
        same(&rt, text, whole_number(text.as_bytes()), expected);
    }
    Ok(())
}
