//! The command-line arguments: which command is required.

ghost use Rattle.std.specs.Prelude.{◌≡◌, ◌++◌};
ghost use Rattle.drain_args.specs.Names.{IfOk, IfSome, codes, found_of};
ghost use Rattle.drain_args.specs.Requests.{IsFlag, IsListOption, IsMap, IsMergeArgs, IsProductArgs, IsRequestOf, IsStart, map_ending};

use crate::clusters::first_cluster;
use crate::commands::{AUDIT, CHECK, CommandSpec, DERIVE, EXPLAIN, MAKE, WINDOW, command, program};
use crate::elevations::elevations_given;
use crate::given::{flag_given, option_given, paths_given, side_given, text_given};
use crate::place_texts::{first_cell, inner_sides, window_place};
use crate::spacings::{SpacingChoice, spacing_given};
use crate::{explain_texts, help_texts, window_texts};
use clap::error::ErrorKind;
use clap::{ArgMatches, Error};
use drain_grid::{Cell, Judged};
use drain_union::Place;
use std::alloc::{AllocError, Global};

/// The request of the arguments.
#[derive(Drop)]
pub enum Request<'a> {
    /// `drain audit`: check the four products in this folder, or some of them alone, without ranks.
    Audit(AuditArgs<'a>),
    /// `drain check`: check the five products in this folder.
    Check(CheckArgs<'a>),
    /// `drain explain`: report what is wrong with the products in this folder, where, and how much of it.
    Explain(ExplainArgs<'a>),
    /// `drain window`: judge one window of a union, and write its report.
    Window(WindowArgs<'a>),
    /// `drain merge`: put the reports of a union's windows together.
    Merge(MergeArgs<'a>),
    /// `drain make`: make products of elevations, and write them into this folder.
    Make(ProductArgs<'a, Elevations<'a>>),
    /// `drain derive`: compute accumulation, labels and ranks of the directions in this folder, and write them into
    /// another.
    Derive(DeriveArgs<'a>),
    /// `drain fill`: check a conditioned surface from standard input.
    Fill { side: u32 },
    /// `drain header`: print the header file at this path.
    Header { path: &'a str },
}

/// Where elevations come from, the list of sinks at this path, how far apart cells are, and the folder of the products: a
/// check reads them there, `make` writes them there; and whether progress is reported.
#[derive(Drop)]
pub struct ProductArgs<'a, E> {
    pub elevations: E,
    pub folder: &'a str,
    pub sinks: Option<&'a str>,
    pub spacing: SpacingChoice<'a>,
    pub progress: bool,
}

/// The tiles at these paths, each with this number of samples along an edge.
#[derive(Drop)]
pub struct TileArgs<'a> {
    pub side: u32,
    pub paths: Vec<&'a str>,
}

/// One raster of elevations: its path without its ending.
#[derive(Clone, Copy, PartialEq, Eq, Debug)]
pub struct DemArgs<'a> {
    pub stem: &'a str,
    pub ending: DemEnding,
}

/// How the path of a raster of elevations ends. That of its header ends alike.
#[derive(Clone, Copy, PartialEq, Eq, Debug)]
pub enum DemEnding {
    /// `.bil`; the header is in `.hdr`.
    Lower,
    /// `.BIL`; the header is in `.HDR`.
    Upper,
}

/// Where elevations come from: tiles, or one raster.
#[derive(Drop)]
pub enum Elevations<'a> {
    Tiles(TileArgs<'a>),
    Dem(DemArgs<'a>),
}

/// The inputs to be audited, and which rasters are judged: all four if no list is given; and whether the answer is a
/// JSON object.
#[derive(Drop)]
pub struct AuditArgs<'a> {
    pub inputs: ProductArgs<'a, Elevations<'a>>,
    pub judged: Judged,
    pub json: bool,
}

/// The inputs to be checked, and whether the answer is a JSON object.
#[derive(Drop)]
pub struct CheckArgs<'a> {
    pub inputs: ProductArgs<'a, Elevations<'a>>,
    pub json: bool,
}

/// The elevations and the products in this folder, the cell of the whole at which a raster of elevations begins, where the
/// window lies in the mosaic or the raster, and the path of its report.
#[derive(Drop)]
pub struct WindowArgs<'a> {
    pub inputs: ProductArgs<'a, Elevations<'a>>,
    pub at: Cell,
    pub place: Place,
    pub report: &'a str,
}

/// The reports at these paths, the list of the union's sinks at this path, and the path for the report of their box.
#[derive(Drop)]
pub struct MergeArgs<'a> {
    pub reports: Vec<&'a str>,
    pub sinks: Option<&'a str>,
    pub report: Option<&'a str>,
}

/// What is to be derived from, and the folder for it.
#[derive(Drop)]
pub struct DeriveArgs<'a> {
    pub inputs: ProductArgs<'a, Elevations<'a>>,
    pub out: &'a str,
}

/// What is to be explained, as a text or as JSON; and the path of a map of the faults, without `.bil`.
#[derive(Drop)]
pub struct ExplainArgs<'a> {
    pub inputs: ProductArgs<'a, Elevations<'a>>,
    pub only: Option<Judged>,
    pub map: Option<&'a str>,
    pub json: bool,
}

/// The request of the arguments. The first argument is the program's own name.
///
/// Help and the version come as an error of their kind, as in `clap`, and so does a usage error. An argument such as
/// `-h.hgt` is one: `clap` would take it for `-h`.
pub fn parse<'a>(alloc: Global, args: &'a [String]) -> Result<Request<'a>, Error> {
    if let Some(word) = first_cluster(args.get(1..).unwrap_or(&[])) {
        return Err(bad_cluster(alloc, word)?);
    }
    let matches = program(alloc)?.try_get_matches_from(args)?;
    match matches.subcommand() {
        Some((name, given)) => request_of(alloc, name, given),
        None => Err(no_command(alloc)?),
    }
}

/// The usage error for an argument of several letters behind one hyphen.
fn bad_cluster(alloc: Global, word: &str) -> Result<Error, AllocError> {
    let message = format!(in alloc;
        "{word:?} is no option; for a file write ./ before its name, or -- before all files"
    )?;
    let mut program = program(alloc)?;
    program.error(ErrorKind::UnknownArgument, message.as_str())
}

/// The usage error where no command of the program is named.
fn no_command(alloc: Global) -> Result<Error, AllocError> {
    let mut program = program(alloc)?;
    program.error(ErrorKind::MissingSubcommand, "a command is required")
}

/// The request of the command of this name, with these values of its arguments.
///
/// A map whose name doesn't end in `.bil` is a usage error, and so are a raster of elevations whose name doesn't end in
/// `.bil` or `.BIL`, another list of rasters, a side that is no number, a spacing that is none, or that of a header
/// beside tiles, or two of them, a box that is none, other letters than those of sides, a raster of elevations of a window without the cell at which it
/// begins, tiles with one, and a name that is no command's.
pub fn request_of<'a>(
    alloc: Global,
    name: &str,
    given: &ArgMatches<'a>,
) -> Result<Request<'a>, Error>
    ensures { IfOk result (IsRequestOf name.now (found_of given.now)) }
{
    match name {
        "audit" => audit_request(alloc, given),
        "check" => check_request(alloc, given),
        "explain" => explain_request(alloc, given),
        "window" => window_request(alloc, given),
        "merge" => Ok(Request::Merge(merge_args(alloc, given)?)),
        "make" => Ok(Request::Make(inputs_given(alloc, &MAKE, given, "out")?)),
        "derive" => derive_request(alloc, given),
        "fill" => Ok(Request::Fill {
            side: side_given(alloc, given)?,
        }),
        "header" => Ok(Request::Header {
            path: text_given(given, "file"),
        }),
        _ => Err(no_command(alloc)?),
    }
}

/// The inputs of this command, and the folder of their products that this option names.
fn inputs_given<'a>(
    alloc: Global,
    spec: &'static CommandSpec,
    given: &ArgMatches<'a>,
    option: &str,
) -> Result<ProductArgs<'a, Elevations<'a>>, Error>
    ensures { IfOk result (IsProductArgs option.now (found_of given.now)) }
{
    let elevations = elevations_given(alloc, spec, given)?;
    let Ok(spacing) = spacing_given(given, &elevations) else {
        return Err(bad_value(alloc, spec, help_texts::BAD_SPACING)?);
    };
    Ok(ProductArgs {
        elevations,
        folder: text_given(given, option),
        sinks: option_given(given, "sinks"),
        spacing,
        progress: flag_given(given, "progress"),
    })
}

/// What is to be audited.
fn audit_request<'a>(alloc: Global, given: &ArgMatches<'a>) -> Result<Request<'a>, Error>
    ensures { IfOk result (IsRequestOf (codes "audit") (found_of given.now)) }
{
    let Ok(list) = list_given(given) else {
        return Err(bad_value(alloc, &AUDIT, help_texts::BAD_LIST)?);
    };
    let inputs = inputs_given(alloc, &AUDIT, given, "products")?;
    let judged = match list {
        Some(judged) => judged,
        None => Judged::All,
    };
    Ok(Request::Audit(AuditArgs {
        inputs,
        judged,
        json: json_given(given),
    }))
}

/// What is to be checked.
fn check_request<'a>(alloc: Global, given: &ArgMatches<'a>) -> Result<Request<'a>, Error>
    ensures { IfOk result (IsRequestOf (codes "check") (found_of given.now)) }
{
    let inputs = inputs_given(alloc, &CHECK, given, "products")?;
    let json = json_given(given);
    Ok(Request::Check(CheckArgs { inputs, json }))
}

/// Whether the answer is to be a JSON object.
fn json_given(given: &ArgMatches<'_>) -> bool
    ensures { IsFlag (codes "json") (found_of given.now) result }
{
    flag_given(given, "json")
}

/// The list of rasters is another one.
#[derive(Clone, Copy)]
struct OtherList;

/// The list of rasters, if there is one.
fn list_given(given: &ArgMatches<'_>) -> Result<Option<Judged>, OtherList>
    ensures { IfOk result (IsListOption (found_of given.now)) }
{
    let Some(list) = option_given(given, "only") else {
        return Ok(None);
    };
    match list {
        "con" => Ok(Some(Judged::Con)),
        "con,dir" => Ok(Some(Judged::ConDir)),
        "con,dir,acc" => Ok(Some(Judged::ConDirAcc)),
        "con,dir,bas" => Ok(Some(Judged::ConDirBas)),
        "con,dir,acc,bas" => Ok(Some(Judged::All)),
        _ => Err(OtherList),
    }
}

/// The usage error for the value of an argument of this command.
pub(crate) fn bad_value(
    alloc: Global,
    spec: &'static CommandSpec,
    message: &'static str,
) -> Result<Error, AllocError> {
    let name = format!(in alloc; "drain {}", spec.name)?;
    let mut command = command(alloc, spec)?.bin_name(name.as_str())?;
    command.error(ErrorKind::ValueValidation, message)
}

/// What is to be explained.
fn explain_request<'a>(alloc: Global, given: &ArgMatches<'a>) -> Result<Request<'a>, Error>
    ensures { IfOk result (IsRequestOf (codes "explain") (found_of given.now)) }
{
    let Ok(map) = map_given(given) else {
        return Err(bad_value(alloc, &EXPLAIN, explain_texts::BAD_MAP)?);
    };
    let Ok(only) = list_given(given) else {
        return Err(bad_value(alloc, &EXPLAIN, help_texts::BAD_LIST)?);
    };
    let inputs = inputs_given(alloc, &EXPLAIN, given, "products")?;
    Ok(Request::Explain(ExplainArgs {
        inputs,
        only,
        map,
        json: json_given(given),
    }))
}

/// The path of a map has another ending.
#[derive(Clone, Copy)]
struct OtherEnding;

/// The path of a map, without `.bil`.
fn map_given<'a>(given: &ArgMatches<'a>) -> Result<Option<&'a str>, OtherEnding>
    ensures { IfOk result (IsMap (found_of given.now)) }
{
    let Some(path) = option_given(given, "map") else {
        return Ok(None);
    };
    match map_stem(path) {
        Some(stem) => Ok(Some(stem)),
        None => Err(OtherEnding),
    }
}

/// The part of a map's path before `.bil`, none if the path ends otherwise.
pub fn map_stem(path: &str) -> Option<&str>
    ensures { IfSome result (λ stem. path.now ≡ stem.now ++ map_ending) }
{
    path.strip_suffix(".bil")
}

/// The cell of the whole at which a raster of elevations begins: that of an option, which has to be there. For tiles it
/// must not, and the cell is the first. None if it isn't so, or the option names no cell.
fn start_given(given: &ArgMatches<'_>, elevations: &Elevations<'_>) -> Option<Cell>
    ensures { IfSome result (IsStart (found_of given.now) elevations.now) }
{
    match (elevations, option_given(given, "at")) {
        (Elevations::Tiles(_), None) => Some(Cell { row: 0, col: 0 }),
        (Elevations::Dem(_), Some(text)) => first_cell(text),
        _ => None,
    }
}

/// The window to be judged.
fn window_request<'a>(alloc: Global, given: &ArgMatches<'a>) -> Result<Request<'a>, Error>
    ensures { IfOk result (IsRequestOf (codes "window") (found_of given.now)) }
{
    let Some(inner) = inner_sides(text_given(given, "inner")) else {
        return Err(bad_value(alloc, &WINDOW, window_texts::BAD_INNER)?);
    };
    let Some(place) = window_place(text_given(given, "box"), inner) else {
        return Err(bad_value(alloc, &WINDOW, window_texts::BAD_BOX)?);
    };
    let inputs = inputs_given(alloc, &WINDOW, given, "products")?;
    let Some(at) = start_given(given, &inputs.elevations) else {
        return Err(bad_value(alloc, &WINDOW, window_texts::BAD_AT)?);
    };
    Ok(Request::Window(WindowArgs {
        inputs,
        at,
        place,
        report: text_given(given, "report"),
    }))
}

/// The reports to be put together.
fn merge_args<'a>(alloc: Global, given: &ArgMatches<'a>) -> Result<MergeArgs<'a>, AllocError>
    ensures { IfOk result (IsMergeArgs (found_of given.now)) }
{
    let reports = paths_given(alloc, given, "reports")?;
    Ok(MergeArgs {
        reports,
        sinks: option_given(given, "sinks"),
        report: option_given(given, "report"),
    })
}

/// What is to be derived.
fn derive_request<'a>(alloc: Global, given: &ArgMatches<'a>) -> Result<Request<'a>, Error>
    ensures { IfOk result (IsRequestOf (codes "derive") (found_of given.now)) }
{
    let inputs = inputs_given(alloc, &DERIVE, given, "products")?;
    Ok(Request::Derive(DeriveArgs {
        inputs,
        out: text_given(given, "out"),
    }))
}
