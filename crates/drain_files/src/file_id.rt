//! Which file is which, by device and inode: paths lead to one file if these are equal, whatever the paths say; and
//! which output would be written over an input or another output.

ghost use Rattle.std.specs.Prelude.{◌≡◌, ◌↔◌, IfSome, IsNone, IsTrue, ℕ};
ghost use Rattle.drain_files.specs.FileIds.{Clashes, IsAmong, IsInput, Meets, MeetsSome};

use std::fs::Metadata;
use std::os::unix::fs::MetadataExt;

/// A file of the system: the device that it is on, and its number there.
#[derive(Clone, Copy, PartialEq, Eq, Debug)]
pub struct FileId {
    pub device: u64,
    pub inode: u64,
}

/// What is in the place of an output before it is written.
#[derive(Clone, Copy, PartialEq, Eq, Debug)]
pub struct Target {
    /// The plain file that is there, if one is.
    pub id: Option<FileId>,
    /// Whether it is written as it is. Otherwise a new file replaces it.
    pub is_straight: bool,
}

impl FileId {
    /// The file with this metadata.
    pub fn of(metadata: &Metadata) -> FileId {
        FileId {
            device: metadata.dev(),
            inode: metadata.ino(),
        }
    }

    /// The plain file with this metadata; none of a folder, a pipe or a device, whose bytes aren't overwritten.
    pub fn of_plain(metadata: &Metadata) -> Option<FileId> {
        if metadata.is_file() {
            Some(FileId::of(metadata))
        } else {
            None
        }
    }

    /// Whether it is that file.
    pub fn is(self, other: FileId) -> bool
        ensures { IsTrue result ↔ (self ≡ other) }
    {
        self.device == other.device && self.inode == other.inode
    }
}

/// The place of the first output that is an input, or one file with an earlier output. Two outputs that are both
/// replaced by new files don't meet, even if they are two names of one file.
pub fn first_clash(outputs: &[Target], inputs: &[FileId]) -> Option<usize>
    ensures clash { IfSome result (Clashes outputs.now inputs.now) }
    ensures none { IsNone result → (k : ℕ) → ¬ Clashes outputs.now inputs.now k }
{
    for (k, output) in outputs.iter().enumerate() {
        if is_input(*output, inputs) || meets_some(*output, &outputs[..k]) {
            return Some(k);
        }
    }
    None
}

/// Whether the plain file in the place of the output is an input.
pub fn is_input(output: Target, inputs: &[FileId]) -> bool
    ensures { IsTrue result ↔ IsInput output inputs.now }
{
    match output.id {
        Some(id) => is_among(id, inputs),
        None => false,
    }
}

fn is_among(id: FileId, inputs: &[FileId]) -> bool
    ensures { IsTrue result ↔ IsAmong id inputs.now }
{
    for input in inputs {
        if id.is(*input) {
            return true;
        }
    }
    false
}

/// Whether the output meets one of the others.
fn meets_some(output: Target, others: &[Target]) -> bool
    ensures { IsTrue result ↔ MeetsSome output others.now }
{
    for other in others {
        if meets(output, *other) {
            return true;
        }
    }
    false
}

/// Whether one plain file is in the place of both outputs, and at least one of them is written as it is.
pub fn meets(output: Target, other: Target) -> bool
    ensures { IsTrue result ↔ Meets output other }
{
    match (output.id, other.id) {
        (Some(id), Some(there)) => id.is(there) && (output.is_straight || other.is_straight),
        _ => false,
    }
}
