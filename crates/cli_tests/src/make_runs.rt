//! A set of files in memory is written for a tile, and one of them fails.

ghost use Rattle.std.specs.Prelude.{◌≡◌, length, IfOk};

use crate::making::{make, pit};
use crate::printed::{Printed, room, same_number, same_run};
use drain_device::faults::{ScriptSink, Scripted, SinkAnswer};
use drain_sets::FILE_COUNT;
use std::alloc::{AllocError, Global};
use std::process::Abort;
use std::test::Fail;
use worked::calls::at_calls;

/// A file that accepts five bytes a call, and faults by the script or never.
fn scripted_file<'a>(
    alloc: Global,
    faults: bool,
    script: &'a [Scripted<SinkAnswer>],
) -> Result<ScriptSink<'a>, AllocError> {
    let script = if faults { script } else { &[] };
    Ok(ScriptSink::new(room(alloc)?, 5, script))
}

/// Files for the products; the one in this place has this script.
fn scripted_files<'a>(
    alloc: Global,
    place: usize,
    script: &'a [Scripted<SinkAnswer>],
) -> Result<Vec<ScriptSink<'a>>, Fail>
    ensures { IfOk result (λ files. length files.items ≡ FILE_COUNT) }
{
    let mut files = Vec::new(alloc);
    for k in 0..FILE_COUNT {
        files.push(scripted_file(alloc, k == place, script)?)?;
    }
    if files.len() != FILE_COUNT {
        return Err("ten files".into());
    }
    Ok(files)
}

/// How many bytes each file accepted.
fn lengths_of(files: &[ScriptSink<'_>]) -> [usize; FILE_COUNT] {
    let mut lengths = [0; FILE_COUNT];
    for (length, file) in lengths.iter_mut().zip(files) {
        *length = file.as_slice().len();
    }
    lengths
}

/// The output of writing the pit's files, where the one in this place accepts some bytes and then fails, and how many
/// bytes each accepted.
fn lengths_where_one_fails(
    alloc: Global,
    place: usize,
) -> Result<(Printed, [usize; FILE_COUNT]), Fail> {
    let fails = [at_calls((2, 2), SinkAnswer::Failed)];
    let mut files = scripted_files(alloc, place, &fails)?;
    let run = make(alloc, 3, &pit(), &[], files.as_mut_slice())?;
    Ok((run, lengths_of(files.as_slice())))
}

/// The place of the first file that accepted a wrong number of bytes when the one in this place fails; the number of
/// files if none did.
fn first_wrong(place: usize, lengths: &[usize; FILE_COUNT], whole: &[usize; FILE_COUNT]) -> usize {
    let wrong = lengths.iter().zip(whole.iter()).enumerate().position(|(k, (length, all))| {
        let is_right = if k == place {
            0 < *length && length < all
        } else {
            *length == if k < place { *all } else { 0 }
        };
        !is_right
    });
    wrong.unwrap_or(FILE_COUNT)
}

/// Fails the test if the first header or a raster has a wrong length.
fn same_lengths(rt: &impl Abort, given: [usize; 6], wanted: [usize; 6]) {
    assert_eq!(rt; given, wanted);
}

#[test]
fn a_file_that_fails_ends_the_writing(rt: HostRuntime) -> Result<(), Fail> {
    let whole = lengths_where_one_fails(rt.alloc(), FILE_COUNT)?.1;
    let [header, con, _, dir, _, acc, _, bas, _, rnk] = whole;
    same_lengths(
        &rt,
        [header, con, dir, acc, bas, rnk],
        [230, 18, 9, 36, 36, 36],
    );
    for place in 0..FILE_COUNT {
        let (run, lengths) = lengths_where_one_fails(rt.alloc(), place)?;
        same_run(&rt, place as u64, &run, b"failed WriteFailed\n", 3);
        let wrong = first_wrong(place, &lengths, &whole);
        same_number(&rt, place as u64, wrong as u64, FILE_COUNT as u64);
    }
    Ok(())
}
