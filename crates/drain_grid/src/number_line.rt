//! A line of two whole numbers.

ghost use Rattle.std.specs.Prelude.{◌≡◌};
ghost use Rattle.drain_grid.specs.Listings.{line_says};

use drain_text::{first_word, whole_number};

/// The meaning of a line.
#[derive(Clone, Copy, PartialEq, Eq, Debug)]
pub enum LineSays {
    /// The line has no word.
    Nothing,
    /// Its two words are these whole numbers.
    Numbers(u32, u32),
    /// It has words, but they aren't two whole numbers.
    Other,
}

/// The meaning of a line: whether it has no word, two whole numbers or anything else.
pub(crate) fn read_line(line: &[u8]) -> LineSays
    ensures { result ≡ line_says line.now }
{
    let Some((first_number, after_first)) = first_word(line) else {
        return LineSays::Nothing;
    };
    let Some((second_number, after_second)) = first_word(after_first) else {
        return LineSays::Other;
    };
    if first_word(after_second).is_some() {
        return LineSays::Other;
    }
    let Some(first) = whole_number(first_number) else {
        return LineSays::Other;
    };
    let Some(second) = whole_number(second_number) else {
        return LineSays::Other;
    };
    LineSays::Numbers(first, second)
}
