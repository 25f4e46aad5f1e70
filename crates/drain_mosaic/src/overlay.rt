//! Laying a part over a row of numbers; `seams` does the same with the samples of whole tiles.

ghost use Rattle.std.specs.Prelude.{◌≡◌, ◌↔◌, ◌≤◌, ◌<◌, ◌+◌};
ghost use Rattle.drain_mosaic.specs.Names.{ℕ, length, EachIndex, IsTrue, slice_index_or, VOID};
ghost use Rattle.drain_mosaic.specs.JoinedRows.{ConflictAt, IsLaidOver, IsLeastOf, IsRefusedAt, filled, first_of};

use drain_grid::VOID;

/// The number of a void.
pub const VOID_NUMBER: i64 = VOID as i64;

/// Lays a part over a row from `left` on: it fills the voids there. Finds the first column where both have data and differ.
pub fn lay_over(row: &mut [i64], left: usize, part: &[i64]) -> Option<usize>
    requires { left + length part.now ≤ length row.old }
    ensures { IsLaidOver left part.now row.old row.new result }
{
    let under = &mut row[left..left + part.len()];
    match lay(under, part) {
        Some(k) => Some(left + k),
        None => None,
    }
}

/// Replaces each void by the other number. Finds the first place where both have data and differ.
fn lay(here: &mut [i64], other: &[i64]) -> Option<usize>
    requires { length here.old ≡ length other.now }
    ensures values { EachIndex here.new (λ k. slice_index_or here.new k VOID ≡ filled (slice_index_or here.old k VOID) (slice_index_or other.now k VOID)) }
    ensures first { IsLeastOf (ConflictAt here.old other.now) (length here.old) result }
{
    if fill_voids(here, other) {
        return None;
    }
    first_refused(here, other)
}

/// Replaces each void by the other number. Returns whether no place is in conflict.
///
/// Each place is tested and written without a branch, so a processor takes many at a time.
fn fill_voids(here: &mut [i64], other: &[i64]) -> bool
    requires { length here.old ≡ length other.now }
    ensures values { EachIndex here.new (λ k. slice_index_or here.new k VOID ≡ filled (slice_index_or here.old k VOID) (slice_index_or other.now k VOID)) }
    ensures agree { IsTrue result ↔ ((k : ℕ) → k < length here.old → ¬ ConflictAt here.old other.now k) }
{
    let mut all = true;
    for k in 0..here.len() {
        all &= agree_at(here, other, k);
        here[k] = if here[k] == VOID_NUMBER {
            other[k]
        } else {
            here[k]
        };
    }
    all
}

/// Whether the numbers at a place are equal or one is a void.
fn agree_at(here: &[i64], other: &[i64], k: usize) -> bool
    requires inside { k < length here.now }
    requires inside_too { k < length other.now }
    ensures { IsTrue result ↔ ¬ ConflictAt here.now other.now k }
{
    (here[k] == VOID_NUMBER) | (other[k] == VOID_NUMBER) | (here[k] == other[k])
}

/// The first place whose other number has data and isn't the number that is there.
fn first_refused(here: &[i64], other: &[i64]) -> Option<usize>
    requires { length here.now ≡ length other.now }
    ensures { IsLeastOf (IsRefusedAt here.now other.now) (length here.now) result }
{
    for k in 0..here.len() {
        if other[k] != VOID_NUMBER && here[k] != other[k] {
            return Some(k);
        }
    }
    None
}

/// The lesser of two places, each of which may be missing.
pub fn first_of(one: Option<usize>, other: Option<usize>) -> Option<usize>
    ensures { result ≡ first_of one other }
{
    match (one, other) {
        (Some(a), Some(b)) => Some(a.min(b)),
        (Some(a), None) => Some(a),
        (None, found) => found,
    }
}
