//! Opening files to read, tiles, a list of sinks and a text of widths among them, and creating files to write.

ghost use Rattle.std.specs.Prelude.{◌≡◌, ◌≤◌};
ghost use Rattle.drain_files.specs.Names.{IfOk, length, vec_len, [], None, AllZip, names_of};
ghost use Rattle.drain_files.specs.FilePaths.{IsLastPart};
ghost use Rattle.drain_sets.specs.declared.set_files.TheConstants.{FILE_COUNT};

use crate::file_id::FileId;
use crate::file_paths::tile_name;
use crate::open_failure::{Reason, print_reason};
use crate::outputs::{OutputSink, Outputs};
use crate::source_or_ones::SourceOrOnes;
use crate::whole_input::{MAX_TEXT_BYTES, MAX_WIDTHS_BYTES, read_text};
use drain_device::{BodyFault, ByteList, Reader, Writer};
use drain_header::Header;
use drain_hgt::TileInput;
use drain_progress::counted_device::CountedDevice;
use drain_progress::progress::Progress;
use drain_progress::rows::written_rows;
use drain_sets::{FilePart, SET_FILES, SetFile};
use std::alloc::{AllocError, Global};
use std::fs::File;
use std::io;
use std::io::ErrorKind;

/// A file to read, or ones in place of a missing raster, and a file to write; rows of each may be counted.
pub type InputFile<'a> = CountedDevice<'a, SourceOrOnes<Reader<File>>>;

pub type OutputFile<'g, 'a> = CountedDevice<'g, Writer<OutputSink<'a>>>;

/// Opens files to read, and keeps which plain files these are.
#[derive(Drop)]
pub struct Opener<'a> {
    rt: &'a HostRuntime,
    ids: Vec<FileId>,
}

impl<'a> Opener<'a> {
    pub fn new(rt: &'a HostRuntime) -> Opener<'a> {
        Opener {
            rt,
            ids: Vec::new(rt.alloc()),
        }
    }

    pub fn rt(&self) -> &'a HostRuntime {
        self.rt
    }

    /// Where its memory comes from.
    pub fn alloc(&self) -> Global {
        self.rt.alloc()
    }

    /// The plain files that were opened.
    pub fn ids(&self) -> &[FileId] {
        self.ids.as_slice()
    }

    pub fn into_ids(self) -> Vec<FileId> {
        let Opener { rt: _, ids } = self;
        ids
    }

    /// Opens a file to read.
    pub fn open(&mut self, path: &str) -> Result<Reader<File>, OpenFault> {
        match self.opened(path) {
            Ok(file) => Ok(Reader::new(file)),
            Err(error) => Err(OpenFault::at(self.rt, path, &error)),
        }
    }

    fn opened(&mut self, path: &str) -> io::Result<File> {
        let file = File::open(self.rt, path)?;
        if let Some(id) = FileId::of_plain(&file.metadata()?) {
            self.ids.push(id)?;
        }
        Ok(file)
    }
}

/// Why the files aren't open.
#[derive(Drop)]
pub enum OpenFault {
    /// The file at this path can't be opened, for this reason.
    Open(String, Reason),
    /// A header, a list of sinks or a text of widths can't be read, or memory was refused.
    Body(BodyFault),
    /// No two whole numbers from 1 to 2^30 are in the ratio of the header's pixel sizes.
    NoSpacing,
}

impl OpenFault {
    /// That the file at this path can't be opened, or that memory was refused.
    pub fn at(rt: &HostRuntime, path: &str, error: &io::Error) -> OpenFault {
        if error.kind() == ErrorKind::OutOfMemory {
            return OpenFault::no_memory();
        }
        OpenFault::because(rt, path, Reason::of(error))
    }

    /// That the file at this path can't be opened, for this reason.
    pub fn because(rt: &HostRuntime, path: &str, reason: Reason) -> OpenFault {
        match String::from_str(rt.alloc(), path) {
            Ok(path) => OpenFault::Open(path, reason),
            Err(_) => OpenFault::no_memory(),
        }
    }

    pub fn no_memory() -> OpenFault {
        OpenFault::Body(BodyFault::OutOfMemory)
    }
}

impl From<AllocError> for OpenFault {
    fn from(_fault: AllocError) -> OpenFault {
        OpenFault::no_memory()
    }
}

/// Opens the tiles at these paths, in their order; each has the name at the end of its path. The first fault ends it.
pub fn open_tiles<'a>(
    opener: &mut Opener<'_>,
    paths: &[&str],
) -> Result<Vec<TileInput<InputFile<'a>>>, OpenFault>
    ensures { IfOk result (λ tiles. AllZip (λ path name. IsLastPart path.now name) paths.now (names_of tiles.items)) }
{
    let mut tiles = Vec::new(opener.alloc());
    for path in paths {
        if tiles.push(open_tile(opener, path)?).is_err() {
            return Err(OpenFault::no_memory());
        }
    }
    Ok(tiles)
}

fn open_tile<'a>(opener: &mut Opener<'_>, path: &str) -> Result<TileInput<InputFile<'a>>, OpenFault>
    ensures { IfOk result (λ tile. IsLastPart path.now tile.name) }
{
    let name = Vec::from_slice(opener.alloc(), tile_name(path.as_bytes()))?;
    let body = CountedDevice::new(SourceOrOnes::Source(opener.open(path)?));
    Ok(TileInput {
        name: ByteList::new(name),
        body,
    })
}

/// The bytes of the list of sinks at this path; none if no list is named.
pub fn list_at(opener: &mut Opener<'_>, path: Option<&str>) -> Result<Vec<u8>, OpenFault>
    ensures { path.entry ≡ None → IfOk result (λ text. text.items ≡ []) }
{
    let alloc = opener.alloc();
    let Some(path) = path else {
        return Ok(Vec::new(alloc));
    };
    text_at(opener, path)
}

/// The bytes of the text at this path. The file is closed again.
pub fn text_at(opener: &mut Opener<'_>, path: &str) -> Result<Vec<u8>, OpenFault> {
    text_of_at_most(opener, path, MAX_TEXT_BYTES)
}

/// The bytes of the text of widths at this path.
pub fn widths_at(opener: &mut Opener<'_>, path: &str) -> Result<Vec<u8>, OpenFault> {
    text_of_at_most(opener, path, MAX_WIDTHS_BYTES)
}

/// The bytes of the text at this path, which may have no more than these. The file is closed again. A line on standard
/// error says why it can't be read.
fn text_of_at_most(opener: &mut Opener<'_>, path: &str, most: usize) -> Result<Vec<u8>, OpenFault>
    requires { most ≤ MAX_TEXT_BYTES }
{
    let mut file = opener.open(path)?;
    match read_text(opener.alloc(), &mut file, most) {
        Ok(text) => Ok(text),
        Err(fault) => {
            if fault == BodyFault::ReadFailed {
                print_reason(opener.rt(), path, Reason::NoText(most));
            }
            Err(OpenFault::Body(fault))
        }
    }
}

/// Creates the files of a product set on elevations with this header at these paths, in the order of `SET_FILES`, and
/// has the rows of rasters counted. The first fault ends it.
pub fn create_files<'g, 'a>(
    outputs: &mut Outputs<'a>,
    paths: &'a [String],
    inputs: &[FileId],
    elevations: &Header,
    progress: &'g Progress<'g>,
) -> Result<Vec<OutputFile<'g, 'a>>, OpenFault>
    requires { length paths.now ≡ FILE_COUNT }
    ensures { IfOk result (λ files. vec_len files ≡ FILE_COUNT) }
{
    let begun = outputs.begin(paths, inputs)?;
    let mut files = Vec::new(outputs.alloc());
    for file in begun {
        let place = SET_FILES[files.len()];
        if files
            .push(counted(file, place, elevations, progress))
            .is_err()
        {
            return Err(OpenFault::no_memory());
        }
    }
    Ok(files)
}

/// The file, whose rows are counted if it is a raster's.
fn counted<'g, 'a>(
    begun: Writer<OutputSink<'a>>,
    file: SetFile,
    elevations: &Header,
    progress: &'g Progress<'g>,
) -> OutputFile<'g, 'a> {
    let mut created = CountedDevice::new(begun);
    if let FilePart::Raster = file.part {
        created.count_by(progress.counter(written_rows(elevations, file.product)));
    }
    created
}
