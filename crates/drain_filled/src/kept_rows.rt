//! A row's numbers, and which of its cells have data, put after those of earlier rows.

ghost use Rattle.std.specs.Prelude.{◌≡◌, ◌++◌, OnErr, OnOk, length, map};
ghost use Rattle.drain_filled.specs.ConRows.{mark_of};

use drain_flood::layers::{UNREACHED, VOID};
use drain_grid::OutOfMemory;
use drain_pixels::{GroundRow, PixelNumbers};

/// Puts a row's numbers after the others.
pub(crate) fn push_numbers<N: PixelNumbers>(
    out: &mut Vec<i64>,
    numbers: &N,
) -> Result<(), OutOfMemory>
    ensures put { OnOk result (out.new.items ≡ out.old.items ++ N.numbers numbers.now) }
    ensures kept { OnErr result (out.new.items ≡ out.old.items) }
{
    let before = out.len();
    let Some(end) = before.checked_add(numbers.len()) else {
        return Err(OutOfMemory);
    };
    out.resize(end, 0)?;
    fill_numbers(&mut out[before..], numbers);
    Ok(())
}

/// Such numbers, one to each place.
fn fill_numbers<N: PixelNumbers>(out: &mut [i64], numbers: &N)
    requires { length out.old ≡ length (N.numbers numbers.now) }
    ensures { out.new ≡ N.numbers numbers.now }
{
    for k in 0..numbers.len() {
        out[k] = numbers.at(k);
    }
}

/// Puts the marks of a row's cells after the others: which of them have data.
pub(crate) fn push_marks(out: &mut Vec<u8>, z: &GroundRow) -> Result<(), OutOfMemory>
    ensures put { OnOk result (out.new.items ≡ out.old.items ++ map mark_of z.now) }
    ensures kept { OnErr result (out.new.items ≡ out.old.items) }
{
    let before = out.len();
    let Some(end) = before.checked_add(z.len()) else {
        return Err(OutOfMemory);
    };
    out.resize(end, VOID)?;
    fill_marks(&mut out[before..], z);
    Ok(())
}

/// Such marks, one to each place.
fn fill_marks(out: &mut [u8], z: &GroundRow)
    requires { length out.old ≡ length z.now }
    ensures { out.new ≡ map mark_of z.now }
{
    for k in 0..z.len() {
        out[k] = mark_of(z.z(k));
    }
}

/// The mark of a cell with this elevation.
fn mark_of(z: Option<i64>) -> u8
    ensures { result ≡ mark_of z }
{
    match z {
        Some(_) => UNREACHED,
        None => VOID,
    }
}
