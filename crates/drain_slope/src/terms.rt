//! The sign of a sum of numbers times powers of two, by numbers of 128 bits.
//!
//! Terms are added from the greatest shift down, the sum so far doubled at each step. As soon as it is greater than all
//! that the lower terms can come to, its sign is that of the whole sum: so it never needs more bits than a few more than a
//! term has, however far the shifts are apart.

ghost use Rattle.std.specs.Prelude.{◌↔◌, ◌≡◌, ◌*◌, ◌^◌, ◌≤◌, IsTrue, pos, neg_ℤ, ◌+ℤ◌, ◌*ℤ◌, ◌<ℤ◌, ◌≤ℤ◌};
ghost use Rattle.drain_slope.specs.Terms.{AreBelow, AreFrom, AreWithin, IsWithin, level_of, number_at, sum_value};

/// More than all lower terms can come to, in units of the power at hand.
const LIMIT: i128 = 10384593717069655257060992658440192;

/// A number times a power of two.
#[derive(Clone, Copy)]
pub struct Term {
    pub number: i128,
    pub shift: u32,
}

/// A sum of five.
#[derive(Clone, Copy)]
pub struct Sum {
    pub a: Term,
    pub b: Term,
    pub c: Term,
    pub d: Term,
    pub e: Term,
}

/// The number of a term of this shift, else 0.
fn number_at(term: Term, shift: u32) -> i128
    requires { IsWithin (2 ^ 110) term }
    ensures value { result ≡ number_at shift term }
    ensures low { neg_ℤ (pos (2 ^ 110)) ≤ℤ result }
    ensures high { result ≤ℤ pos (2 ^ 110) }
{
    if term.shift == shift { term.number } else { 0 }
}

/// The sum of two numbers.
fn plus(a: i128, b: i128) -> i128
    requires low_a { neg_ℤ (pos (2 ^ 120)) ≤ℤ a }
    requires high_a { a ≤ℤ pos (2 ^ 120) }
    requires low_b { neg_ℤ (pos (2 ^ 120)) ≤ℤ b }
    requires high_b { b ≤ℤ pos (2 ^ 120) }
    ensures { result ≡ a +ℤ b }
{
    a + b
}

/// The numbers of the terms of this shift, added.
fn level(sum_of: &Sum, shift: u32) -> i128
    requires { AreWithin (2 ^ 110) sum_of.now }
    ensures value { result ≡ level_of shift sum_of.now }
    ensures low { neg_ℤ (pos (5 * 2 ^ 110)) ≤ℤ result }
    ensures high { result ≤ℤ pos (5 * 2 ^ 110) }
{
    let last = plus(number_at(sum_of.d, shift), number_at(sum_of.e, shift));
    let more = plus(number_at(sum_of.c, shift), last);
    plus(
        number_at(sum_of.a, shift),
        plus(number_at(sum_of.b, shift), more),
    )
}

/// Twice what was added so far, and a level more.
fn next_head(head: i128, level: i128) -> i128
    requires low { neg_ℤ (pos (2 ^ 113)) <ℤ head }
    requires high { head <ℤ pos (2 ^ 113) }
    requires low_level { neg_ℤ (pos (5 * 2 ^ 110)) ≤ℤ level }
    requires high_level { level ≤ℤ pos (5 * 2 ^ 110) }
    ensures { result ≡ (pos 2 *ℤ head) +ℤ level }
{
    2 * head + level
}

/// Whether the sum is above 0, whose shifts are all from `bottom` on and below `top`.
pub fn is_above_0(sum_of: &Sum, bottom: u32, top: u32) -> bool
    requires ordered { bottom ≤ top }
    requires from { AreFrom bottom sum_of.now }
    requires few { AreWithin (2 ^ 110) sum_of.now }
    requires below { AreBelow top sum_of.now }
    ensures { IsTrue result ↔ (pos 0 <ℤ sum_value sum_of.now) }
{
    let mut head = 0i128;
    for step in 0..top - bottom {
        head = next_head(head, level(sum_of, top - 1 - step));
        if LIMIT <= head {
            return true;
        }
        if head <= -LIMIT {
            return false;
        }
    }
    0 < head
}
