//! The keywords' values by their kinds: none if no line has the keyword.

ghost use Rattle.std.specs.Prelude.{◌≡◌};
ghost use Rattle.drain_header.specs.Said.{said_by, said_number, ordering_in, sign_in, coordinate_in, said_nodata};

use crate::header::ByteOrdering;
use crate::key::Key;
use crate::lines::Seen;
use crate::value::Value;

pub fn number(seen: &Seen, key: Key) -> Option<u32>
    ensures { result ≡ said_by said_number key seen.now }
{
    let value = seen[key as usize];
    match value {
        Some(Value::Number(number)) => Some(number),
        _ => None,
    }
}

pub fn ordering(seen: &Seen, key: Key) -> Option<ByteOrdering>
    ensures { result ≡ said_by ordering_in key seen.now }
{
    let value = seen[key as usize];
    match value {
        Some(Value::Ordering(order)) => Some(order),
        _ => None,
    }
}

pub fn sign(seen: &Seen, key: Key) -> Option<bool>
    ensures { result ≡ said_by sign_in key seen.now }
{
    let value = seen[key as usize];
    match value {
        Some(Value::Signed(signed)) => signed,
        _ => None,
    }
}

pub fn coordinate(seen: &Seen, key: Key) -> Option<i128>
    ensures { result ≡ said_by coordinate_in key seen.now }
{
    let value = seen[key as usize];
    match value {
        Some(Value::Coordinate(units)) => Some(units),
        _ => None,
    }
}

pub fn nodata(seen: &Seen, key: Key) -> Option<i64>
    ensures { result ≡ said_by said_nodata key seen.now }
{
    let value = seen[key as usize];
    match value {
        Some(Value::Nodata(number)) => Some(number),
        _ => None,
    }
}
