//! The program `drain`: it reads the arguments, opens the standard streams and the named files as devices, passes them
//! to a run, and returns its status. What a run does is in the other modules, each with its contract.

use crate::runs::derive_set::derive_files;
use crate::runs::explain_files::explain_files;
use crate::runs::judge_files::{judge_files, print_usage_error};
use crate::runs::make_set::make_from_files;
use crate::runs::run_explain::print_out_of_memory;
use crate::runs::run_fill::run_fill;
use crate::runs::run_header::run_header;
use crate::runs::run_merge::merge_files;
use crate::runs::run_window::window_files;
use crate::runs::slips::print_raster_as_header;
use clap::Error;
use clap::error::ErrorKind;
use drain_answer::outcome::Status;
use drain_answer::print::{print_failure, print_text};
use drain_args::form::{Form, requested_form};
use drain_args::requests::{Request, parse};
use drain_device::{BodyFault, ByteSink, Reader, Writer};
use drain_files::open_failure::{Reason, print_open_failure, print_reason};
use drain_grid::Judged;
use std::fs::File;
use std::io;

/// Does what the command line requests, and returns the exit status.
pub fn run_program(rt: &HostRuntime) -> u8 {
    let mut out = Writer::new(rt.stdout());
    match arguments(rt) {
        Ok(args) => run(rt, args.as_slice(), &mut out),
        Err(error) if error.kind() == io::ErrorKind::OutOfMemory => print_no_memory(rt, &mut out),
        Err(error) => {
            let _ = eprintln!(rt; "error: the command line can't be read: {error}");
            Status::Refused.code()
        }
    }
}

/// The arguments of the command line.
fn arguments(rt: &HostRuntime) -> io::Result<Vec<String>> {
    Ok(std::env::args(rt)?.collect(rt.alloc())?)
}

/// Does what the arguments request, and returns the exit status.
fn run(rt: &HostRuntime, args: &[String], out: &mut impl ByteSink) -> u8 {
    match parse(rt.alloc(), args) {
        Ok(Request::Audit(args)) => {
            judge_files(rt, &args.inputs, args.judged, form_of(args.json), out)
        }
        Ok(Request::Check(args)) => {
            let form = form_of(args.json);
            judge_files(rt, &args.inputs, Judged::AllWithRanks, form, out)
        }
        Ok(Request::Explain(args)) => explain_files(rt, &args, out),
        Ok(Request::Make(args)) => make_from_files(rt, &args, out),
        Ok(Request::Derive(args)) => derive_files(rt, &args, out),
        Ok(Request::Window(args)) => window_files(rt, &args, out),
        Ok(Request::Merge(args)) => merge_files(rt, &args, out),
        Ok(Request::Fill { side }) => run_fill(rt.alloc(), side, &mut Reader::new(rt.stdin()), out),
        Ok(Request::Header { path }) => header_of_file(rt, path, out),
        Err(error) if error.kind() == ErrorKind::OutOfMemory => print_no_memory(rt, out),
        Err(error) => tell(rt, &error, out),
    }
}

/// The form of an answer: JSON if a flag says so.
fn form_of(json: bool) -> Form {
    if json { Form::Json } else { Form::Text }
}

/// Prints that there is no memory for the request, in its form, and returns the exit status.
fn print_no_memory(rt: &HostRuntime, out: &mut impl ByteSink) -> u8 {
    match requested_form(rt) {
        Form::Text => print_failure(out, BodyFault::OutOfMemory),
        Form::Json => print_out_of_memory(out),
    }
}

/// Opens the file and prints its header, and returns the exit status.
fn header_of_file(rt: &HostRuntime, path: &str, out: &mut impl ByteSink) -> u8 {
    match File::open(rt, path) {
        Ok(file) => {
            let status = run_header(rt.alloc(), &mut Reader::new(file), out);
            print_raster_as_header(rt, status, path);
            status
        }
        Err(error) => {
            let status = print_open_failure(rt.alloc(), out, path);
            print_reason(rt, path, Reason::of(&error));
            status
        }
    }
}

/// Prints help, the version or a usage error, and returns the exit status. Help and the version go to standard output, and
/// so does an object if the answer was to be one; there an interrupted call is tried again.
fn tell(rt: &HostRuntime, error: &Error, out: &mut impl ByteSink) -> u8 {
    if error.use_stderr() {
        let _ = error.print(rt);
        return match requested_form(rt) {
            Form::Text => Status::Refused.code(),
            Form::Json => print_usage_error(out),
        };
    }
    match format!(in rt.alloc(); "{error}") {
        Ok(text) => print_text(out, text.as_bytes(), Status::Done),
        Err(_) => print_failure(out, BodyFault::OutOfMemory),
    }
}
