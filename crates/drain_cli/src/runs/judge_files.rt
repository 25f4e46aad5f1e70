//! Judging the products of a folder: its files are opened, and the answer is printed as a line or as an object.

use crate::runs::judge::run_judged;
use crate::runs::judge_json::{print_object, run_judged_json};
use crate::runs::run_explain::{failed_open, headers_of};
use crate::runs::slips::{other_kind, other_shape};
use drain_answer::outcome::Status;
use drain_answer::print::print_text;
use drain_args::form::Form;
use drain_args::requests::{Elevations, ProductArgs};
use drain_device::{BodyFault, ByteSink, ByteSource};
use drain_files::open_failure::{print_no_spacing, print_open_fault, print_reason};
use drain_files::open_files::{OpenFault, Opener};
use drain_files::open_judged::{JudgedProducts, OpenElevations, open_judged};
use drain_grid::Judged;
use drain_page::{OUT_OF_MEMORY_ANSWER, Parts, USAGE_ERROR_ANSWER, answer_json};
use drain_progress::progress::Progress;
use drain_verdict::Refusal;
use std::alloc::Global;

/// Opens the elevations and the products of a folder, judges these rasters, and returns the exit status.
pub fn judge_files(
    rt: &HostRuntime,
    args: &ProductArgs<'_, Elevations<'_>>,
    judged: Judged,
    form: Form,
    out: &mut impl ByteSink,
) -> u8 {
    let progress = Progress::new(rt, args.progress);
    match open_judged(&mut Opener::new(rt), args, judged, &progress) {
        Ok(mut files) => {
            let status = match form {
                Form::Text => run_judged(rt.alloc(), &mut files, out),
                Form::Json => run_judged_json(rt.alloc(), &mut files, out),
            };
            print_slip(rt, status, &files.elevations, &files.products);
            status
        }
        Err(fault) => match form {
            Form::Text => print_open_fault(rt, fault, out),
            Form::Json => print_fault_object(rt, fault, out),
        },
    }
}

/// If products were refused since one has another shape, or con another kind of numbers, says so.
fn print_slip<R: ByteSource>(
    rt: &HostRuntime,
    status: u8,
    elevations: &OpenElevations<R>,
    products: &JudgedProducts<R>,
) {
    let headers = headers_of(products);
    if let Some(shape) = other_shape(rt.alloc(), status, elevations, &headers) {
        shape.print(rt);
    }
    if let Some(kind) = other_kind(status, elevations, &headers) {
        kind.print(rt);
    }
}

/// Prints why files aren't open as an object, and returns the exit status.
fn print_fault_object(rt: &HostRuntime, fault: OpenFault, out: &mut impl ByteSink) -> u8 {
    match fault {
        OpenFault::Open(path, reason) => {
            print_reason(rt, path.as_str(), reason);
            print_failed_open(rt.alloc(), path.as_str(), out)
        }
        OpenFault::Body(BodyFault::ReadFailed) => {
            print_object(rt.alloc(), &Err(Refusal::ReadFailed), out)
        }
        OpenFault::Body(BodyFault::OutOfMemory) => print_no_memory(out),
        OpenFault::NoSpacing => {
            print_no_spacing(rt);
            print_usage_error(out)
        }
    }
}

fn print_failed_open(alloc: Global, path: &str, out: &mut impl ByteSink) -> u8 {
    let Ok(line) = failed_open(alloc, path) else {
        return print_no_memory(out);
    };
    match answer_json(alloc, line.as_str(), Parts::failed()) {
        Ok(object) => print_text(out, object.as_bytes(), Status::Failed),
        Err(_) => print_no_memory(out),
    }
}

/// Prints the object for the failure that there is no memory for an object.
fn print_no_memory(out: &mut impl ByteSink) -> u8 {
    print_text(out, OUT_OF_MEMORY_ANSWER.as_bytes(), Status::Failed)
}

/// Prints the object of a usage error, and returns its exit status.
pub fn print_usage_error(out: &mut impl ByteSink) -> u8 {
    print_text(out, USAGE_ERROR_ANSWER.as_bytes(), Status::Refused)
}
