//! The paths of the files that a run writes into a folder, and whether one leads to an input.

ghost use Rattle.std.specs.Prelude.{◌≡◌};
ghost use Rattle.drain_files.specs.Names.{IfOk, Ok, length, string_bytes, vec_len, AllZip};
ghost use Rattle.drain_files.specs.FilePaths.{IsPathOf};

use crate::file_id::is_input;
use crate::file_paths::{header_path, raster_path};
use crate::open_failure::print_open_fault;
use crate::open_files::{OpenFault, Opener};
use crate::outputs::target_at;
use drain_answer::outcome::Status;
use drain_answer::print::print_failure;
use drain_device::{BodyFault, ByteSink, write_nothing};
use drain_sets::{FilePart, SetFile};
use std::alloc::{AllocError, Global};

/// The paths of these files in this folder, in their order.
pub fn paths_in(alloc: Global, folder: &str, files: &[SetFile]) -> Result<Vec<String>, AllocError>
    ensures paths { IfOk result (λ paths. AllZip (λ file path. IsPathOf folder.now file (string_bytes path)) files.now paths.items) }
    ensures count { IfOk result (λ paths. vec_len paths ≡ length files.now) }
{
    let mut paths = Vec::new(alloc);
    for file in files {
        paths.push(path_of(alloc, folder, *file)?)?;
    }
    Ok(paths)
}

/// The path of a file of a product set in this folder.
fn path_of(alloc: Global, folder: &str, file: SetFile) -> Result<String, AllocError>
    ensures { IfOk result (λ path. IsPathOf folder.now file (string_bytes path)) }
{
    let product = file.product.product();
    match file.part {
        FilePart::Header => header_path(alloc, folder, product),
        FilePart::Raster => raster_path(alloc, folder, product),
    }
}

/// The paths of these files, before any file is opened; or it prints that memory ran out, and returns the exit status.
///
/// If standard output is closed no file may be opened, as the first would take its place: it returns the status of a
/// failure.
pub fn output_paths<W: ByteSink>(
    alloc: Global,
    folder: &str,
    files: &[SetFile],
    out: &mut W,
) -> Result<Vec<String>, u8>
    ensures paths { IfOk result (λ paths. AllZip (λ file path. IsPathOf folder.now file (string_bytes path)) files.now paths.items) }
    ensures count { IfOk result (λ paths. vec_len paths ≡ length files.now) }
{
    if write_nothing(out).is_err() {
        return Err(Status::Failed.code());
    }
    match paths_in(alloc, folder, files) {
        Ok(paths) => Ok(paths),
        Err(_) => Err(print_failure(out, BodyFault::OutOfMemory)),
    }
}

/// The inputs that were opened; or it prints why they aren't open, or that one of these paths of outputs, such as `the
/// products`, leads to an input, which is a usage error, and returns the exit status.
pub fn inputs_or_print<T: Drop>(
    opener: &Opener<'_>,
    opened: Result<T, OpenFault>,
    outputs: &str,
    paths: &[String],
    out: &mut impl ByteSink,
) -> Result<T, u8>
    ensures { IfOk result (λ inputs. opened ≡ Ok inputs) }
{
    match opened {
        Ok(inputs) => match print_overwriting(opener, outputs, paths) {
            Some(status) => Err(status),
            None => Ok(inputs),
        },
        Err(fault) => Err(print_open_fault(opener.rt(), fault, out)),
    }
}

/// If one of these paths of outputs leads to an input, prints the usage error for the first, and returns the exit
/// status. Where that can't be found out, the file is tested when it is created.
pub fn print_overwriting(opener: &Opener<'_>, outputs: &str, paths: &[String]) -> Option<u8> {
    for path in paths {
        if let Ok(target) = target_at(opener.rt(), path.as_str()) {
            if is_input(target, opener.ids()) {
                let _ = eprintln!(opener.rt();
                    "error: {outputs} would overwrite {path}, which is an input"
                );
                return Some(Status::Refused.code());
            }
        }
    }
    None
}
