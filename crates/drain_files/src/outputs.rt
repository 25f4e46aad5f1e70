//! The files that a run writes. A new file, or one in place of a plain file, is written under another name in the same
//! folder, and takes its own name when all files of the run are whole: a run that fails or is interrupted leaves the
//! files that were there. Where a name is a link, a pipe or a device, it is written as it is.

ghost use Rattle.std.specs.Prelude.{◌≡◌, IfOk, length, vec_len};

use crate::file_id::{FileId, Target, first_clash, meets};
use crate::file_paths::{folder_of, part_path};
use crate::open_failure::{Placing, Reason, print_reason};
use crate::open_files::OpenFault;
use drain_device::Writer;
use drain_sets::SetFault;
use std::alloc::Global;
use std::cell::Cell;
use std::fs::{File, Metadata};
use std::io::{ErrorKind, Write};
use std::os::unix::fs::MetadataExt;
use std::{fs, io};

/// The files that a run writes, in their order.
#[derive(Drop)]
pub struct Outputs<'a> {
    rt: &'a HostRuntime,
    all: Vec<Output<'a>>,
    failure: &'a Failure,
}

/// A file that was begun: its path, the path under which it is written until it is whole, and what was in its place.
#[derive(Drop)]
struct Output<'a> {
    path: &'a str,
    part: Option<String>,
    target: Target,
}

/// Which output failed last, and why.
#[derive(Drop)]
pub struct Failure {
    last: Cell<Option<(usize, Reason)>>,
}

/// An output that is open. It keeps why a write failed.
#[derive(Drop)]
pub struct OutputSink<'a> {
    file: File,
    place: usize,
    failure: &'a Failure,
}

impl Failure {
    pub fn none() -> Failure {
        Failure {
            last: Cell::new(None),
        }
    }

    fn keep(&self, place: usize, error: &io::Error) {
        self.last.set(Some((place, Reason::of(error))));
    }

    /// An interrupted write was made again.
    fn forget(&self) {
        self.last.set(None);
    }
}

impl<'a> Output<'a> {
    /// An output at this path, in place of this plain file, if there is one; written under that name, or as it is.
    fn new(path: &'a str, part: Option<String>, id: Option<FileId>) -> Output<'a> {
        let is_straight = part.is_none();
        Output {
            path,
            part,
            target: Target { id, is_straight },
        }
    }

    /// Whether nothing was in its place.
    fn is_new(&self) -> bool {
        !self.target.is_straight && self.target.id.is_none()
    }
}

impl<'a> Outputs<'a> {
    pub fn new(rt: &'a HostRuntime, failure: &'a Failure) -> Outputs<'a> {
        Outputs {
            rt,
            all: Vec::new(rt.alloc()),
            failure,
        }
    }

    /// Where its memory comes from.
    pub fn alloc(&self) -> Global {
        self.rt.alloc()
    }

    /// Begins the files at these paths, in this order, and empties those that are written as they are, once all are
    /// open and none is an input or another output. The first fault ends it; then call `end`.
    pub fn begin(
        &mut self,
        paths: &'a [String],
        inputs: &[FileId],
    ) -> Result<Vec<Writer<OutputSink<'a>>>, OpenFault>
        ensures { IfOk result (λ files. vec_len files ≡ length paths.now) }
    {
        let mut files = Vec::new(self.rt.alloc());
        for path in paths {
            let file = self.begin_one(path.as_str())?;
            if files.push(file).is_err() {
                return Err(OpenFault::no_memory());
            }
        }
        self.test(inputs)?;
        self.empty(files.as_slice())?;
        self.writers(files)
    }

    /// The open files as devices.
    fn writers(&self, files: Vec<OutputSink<'a>>) -> Result<Vec<Writer<OutputSink<'a>>>, OpenFault>
        ensures { IfOk result (λ writers. vec_len writers ≡ vec_len files.entry) }
    {
        let mut writers = Vec::new(self.alloc());
        for file in files {
            if writers.push(Writer::new(file)).is_err() {
                return Err(OpenFault::no_memory());
            }
        }
        Ok(writers)
    }

    fn begin_one(&mut self, path: &'a str) -> Result<OutputSink<'a>, OpenFault> {
        match self.opened(path) {
            Ok(file) => Ok(file),
            Err(error) => Err(OpenFault::at(self.rt, path, &error)),
        }
    }

    fn opened(&mut self, path: &'a str) -> io::Result<OutputSink<'a>> {
        self.all.reserve(1)?;
        let (file, output) = opened_at(self.rt, path)?;
        let place = self.all.len();
        self.all.push(output)?;
        Ok(OutputSink {
            file,
            place,
            failure: self.failure,
        })
    }

    /// Tests that no output is an input or another output.
    fn test(&self, inputs: &[FileId]) -> Result<(), OpenFault> {
        let mut targets = Vec::new(self.rt.alloc());
        for output in self.all.as_slice() {
            if targets.push(target_now(self.rt, output)?).is_err() {
                return Err(OpenFault::no_memory());
            }
        }
        match first_clash(targets.as_slice(), inputs) {
            None => Ok(()),
            Some(place) => Err(self.taken(targets.as_slice(), place)),
        }
    }

    /// That the output in this place is taken. New files that were made through a link, as another output is one, are
    /// removed.
    fn taken(&self, targets: &[Target], place: usize) -> OpenFault {
        for (k, output) in self.all.as_slice().iter().enumerate() {
            if output.is_new() && is_made_by_link(targets, k) {
                let _ = fs::remove_file(self.rt, output.path);
            }
        }
        match self.all.as_slice().get(place) {
            Some(output) => OpenFault::because(self.rt, output.path, Reason::Taken),
            None => OpenFault::no_memory(),
        }
    }

    /// Empties the plain files that are written as they are.
    fn empty(&self, files: &[OutputSink<'a>]) -> Result<(), OpenFault> {
        for (output, open) in self.all.as_slice().iter().zip(files) {
            if output.target.is_straight && output.target.id.is_some() {
                if let Err(error) = open.file.set_len(0) {
                    return Err(OpenFault::at(self.rt, output.path, &error));
                }
            }
        }
        Ok(())
    }

    /// Ends the outputs: removes those that have no name of their own yet, and prints why one couldn't be written.
    pub fn end(&mut self) {
        self.abandon();
        self.print_failure();
    }

    /// Removes what was begun and has no name of its own yet.
    fn abandon(&mut self) {
        for output in self.all.as_mut_slice() {
            if let Some(part) = output.part.take() {
                let _ = fs::remove_file(self.rt, part.as_str());
            }
        }
    }

    /// Prints on standard error why a file couldn't be written, if one couldn't.
    fn print_failure(&self) {
        if let Some((place, reason)) = self.failure.last.get() {
            if let Some(output) = self.all.as_slice().get(place) {
                print_reason(self.rt, output.path, reason);
            }
        }
    }
}

impl Placing for Outputs<'_> {
    ghost has_placed = { λ old new result. Unit {0} };

    fn place(&mut self) -> Result<(), SetFault> {
        for (place, output) in self.all.as_mut_slice().iter_mut().enumerate() {
            if let Some(part) = &output.part {
                if let Err(error) = fs::rename(self.rt, part.as_str(), output.path) {
                    self.failure.keep(place, &error);
                    return Err(SetFault::WriteFailed);
                }
                output.part = None;
            }
        }
        Ok(())
    }
}

impl Write for OutputSink<'_> {
    fn write(&mut self, buf: &[u8]) -> io::Result<usize> {
        match self.file.write(buf) {
            Ok(taken) => {
                self.failure.forget();
                Ok(taken)
            }
            Err(error) => {
                self.failure.keep(self.place, &error);
                Err(error)
            }
        }
    }

    fn flush(&mut self) -> io::Result<()> {
        self.file.flush()
    }
}

/// Opens an output: under another name if nothing or a plain file is at the path, else as it is.
fn opened_at<'a>(rt: &HostRuntime, path: &'a str) -> io::Result<(File, Output<'a>)> {
    match fs::symlink_metadata(rt, path) {
        Ok(there) if there.is_file() => replacing(rt, path),
        Ok(_) => straight(rt, path),
        Err(error) if error.kind() == ErrorKind::NotFound => new_file(rt, path),
        Err(error) => Err(error),
    }
}

fn new_file<'a>(rt: &HostRuntime, path: &'a str) -> io::Result<(File, Output<'a>)> {
    let (file, part) = new_part(rt, path)?;
    Ok((file, Output::new(path, Some(part), None)))
}

/// Begins a file in place of a plain one that can be written. It gets the permissions of that one.
fn replacing<'a>(rt: &HostRuntime, path: &'a str) -> io::Result<(File, Output<'a>)> {
    let there = File::options().write(true).open(rt, path)?.metadata()?;
    let (file, part) = new_part(rt, path)?;
    if let Err(error) = keep_mode(&file, &there) {
        let _ = fs::remove_file(rt, part.as_str());
        return Err(error);
    }
    let output = Output::new(path, Some(part), FileId::of_plain(&there));
    Ok((file, output))
}

/// Gives the file the permissions of another, if it has others.
fn keep_mode(file: &File, other: &Metadata) -> io::Result<()> {
    if file.metadata()?.mode() == other.mode() {
        return Ok(());
    }
    file.set_permissions(other.permissions())
}

/// Opens the file that is there, or that a link leads to. It isn't emptied yet.
fn straight<'a>(rt: &HostRuntime, path: &'a str) -> io::Result<(File, Output<'a>)> {
    let file = File::options().write(true).create(true).open(rt, path)?;
    let there = file.metadata()?;
    Ok((file, Output::new(path, None, FileId::of_plain(&there))))
}

/// Creates a file in the folder of this path, under a name that no file has.
fn new_part(rt: &HostRuntime, path: &str) -> io::Result<(File, String)> {
    let folder = folder_of(path);
    for number in 1..u32::MAX {
        let part = part_path(rt.alloc(), folder, number)?;
        match File::create_new(rt, part.as_str()) {
            Ok(file) => return Ok((file, part)),
            Err(error) if error.kind() == ErrorKind::AlreadyExists => {}
            Err(error) => return Err(error),
        }
    }
    Err(ErrorKind::AlreadyExists.into())
}

/// What is in the place of an output now: a file may have been made there through a link.
fn target_now(rt: &HostRuntime, output: &Output<'_>) -> Result<Target, OpenFault> {
    if !output.is_new() {
        return Ok(output.target);
    }
    Ok(Target {
        id: plain_at(rt, output.path)?,
        is_straight: false,
    })
}

/// Whether the file in this place is one with an output that is written as it is.
fn is_made_by_link(targets: &[Target], place: usize) -> bool {
    match targets.get(place) {
        Some(target) => targets
            .iter()
            .any(|other| other.is_straight && meets(*target, *other)),
        None => false,
    }
}

/// What is in the place of an output that isn't begun.
pub fn target_at(rt: &HostRuntime, path: &str) -> Result<Target, OpenFault> {
    let is_link = match if_there(rt, path, fs::symlink_metadata(rt, path))? {
        Some(there) => there.is_symlink(),
        None => false,
    };
    Ok(Target {
        id: plain_at(rt, path)?,
        is_straight: is_link,
    })
}

/// The plain file that a path leads to, if there is one.
fn plain_at(rt: &HostRuntime, path: &str) -> Result<Option<FileId>, OpenFault> {
    match look(rt, path)? {
        Some(there) => Ok(FileId::of_plain(&there)),
        None => Ok(None),
    }
}

/// What a path leads to, none if nothing is there. A failure is never taken for that.
pub fn look(rt: &HostRuntime, path: &str) -> Result<Option<Metadata>, OpenFault> {
    if_there(rt, path, fs::metadata(rt, path))
}

/// What was found at a path, none if nothing is there.
fn if_there(
    rt: &HostRuntime,
    path: &str,
    looked: io::Result<Metadata>,
) -> Result<Option<Metadata>, OpenFault> {
    match looked {
        Ok(there) => Ok(Some(there)),
        Err(error) => match error.kind() {
            ErrorKind::NotFound | ErrorKind::NotADirectory => Ok(None),
            _ => Err(OpenFault::at(rt, path, &error)),
        },
    }
}
