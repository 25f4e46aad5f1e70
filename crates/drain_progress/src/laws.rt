//! Laws on when lines about progress are printed.
//!
//! A law is a function with an empty body: its contract is the law, and a caller gets the law by calling it.

ghost use Rattle.std.specs.Prelude.{◌≡◌};
ghost use Rattle.drain_progress.specs.Progress.{AtMostOneLineInASecond, AtMostTwoLinesInASecond};

use crate::throttle::APART;

/// At all times of testing, even if the clock went back: at most one of the due lines comes in any one second, and at
/// most two if among them is a line that is printed without being due.
pub fn at_most_two_lines_in_a_second()
    ensures when_due { AtMostOneLineInASecond }
    ensures with_one_more { AtMostTwoLinesInASecond }
{}

/// The numeral of the constant in definitions: lines that are due come a thousand milliseconds apart. This project's
/// own.
pub fn constants()
    ensures apart { APART ≡ 1000 }
{}
