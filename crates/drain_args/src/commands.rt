//! The program and its commands, as described to `clap`: their names, help texts and arguments.

use crate::{explain_texts, help_texts, window_texts};
use clap::builder::ValueParser;
use clap::{Arg, ArgAction, Command};
use drain_answer::VERSION;
use std::alloc::{AllocError, Global};

/// A command: its name, its help texts, and its arguments, in the order of its help.
pub(crate) struct CommandSpec {
    pub(crate) name: &'static str,
    about: &'static str,
    long_about: &'static str,
    after: &'static str,
    args: &'static [ArgSpec],
}

/// An argument of a command: an option, a flag, or paths without a name of their own.
#[derive(Clone, Copy)]
enum ArgSpec {
    Dem,
    Side,
    Products,
    Out,
    Only,
    Sinks,
    Spacing,
    Widths,
    Progress,
    Map,
    Json,
    At,
    WindowBox,
    Inner,
    Report,
    BoxReport,
    Tiles,
    Reports,
    Header,
}

/// The default side of a tile: that of 3 arc seconds, as a number and as written in the help.
pub(crate) const DEFAULT_SIDE: u32 = 1201;

const DEFAULT_SIDE_TEXT: &str = "1201";

pub(crate) const AUDIT: CommandSpec = CommandSpec {
    name: "audit",
    about: help_texts::AUDIT_ABOUT,
    long_about: help_texts::AUDIT_LONG_ABOUT,
    after: help_texts::AUDIT_AFTER,
    args: &[
        ArgSpec::Dem,
        ArgSpec::Side,
        ArgSpec::Products,
        ArgSpec::Only,
        ArgSpec::Sinks,
        ArgSpec::Spacing,
        ArgSpec::Widths,
        ArgSpec::Progress,
        ArgSpec::Json,
        ArgSpec::Tiles,
    ],
};

pub(crate) const CHECK: CommandSpec = CommandSpec {
    name: "check",
    about: help_texts::CHECK_ABOUT,
    long_about: help_texts::CHECK_LONG_ABOUT,
    after: help_texts::CHECK_AFTER,
    args: &[
        ArgSpec::Dem,
        ArgSpec::Side,
        ArgSpec::Products,
        ArgSpec::Sinks,
        ArgSpec::Spacing,
        ArgSpec::Widths,
        ArgSpec::Progress,
        ArgSpec::Json,
        ArgSpec::Tiles,
    ],
};

pub(crate) const EXPLAIN: CommandSpec = CommandSpec {
    name: "explain",
    about: explain_texts::ABOUT,
    long_about: explain_texts::LONG_ABOUT,
    after: explain_texts::AFTER,
    args: &[
        ArgSpec::Dem,
        ArgSpec::Side,
        ArgSpec::Products,
        ArgSpec::Only,
        ArgSpec::Sinks,
        ArgSpec::Spacing,
        ArgSpec::Widths,
        ArgSpec::Progress,
        ArgSpec::Tiles,
        ArgSpec::Map,
        ArgSpec::Json,
    ],
};

pub(crate) const WINDOW: CommandSpec = CommandSpec {
    name: "window",
    about: window_texts::WINDOW_ABOUT,
    long_about: window_texts::WINDOW_LONG_ABOUT,
    after: window_texts::WINDOW_AFTER,
    args: &[
        ArgSpec::Dem,
        ArgSpec::At,
        ArgSpec::Side,
        ArgSpec::Products,
        ArgSpec::WindowBox,
        ArgSpec::Inner,
        ArgSpec::Report,
        ArgSpec::Sinks,
        ArgSpec::Spacing,
        ArgSpec::Widths,
        ArgSpec::Progress,
        ArgSpec::Tiles,
    ],
};

const MERGE: CommandSpec = CommandSpec {
    name: "merge",
    about: window_texts::MERGE_ABOUT,
    long_about: window_texts::MERGE_LONG_ABOUT,
    after: window_texts::MERGE_AFTER,
    args: &[ArgSpec::Sinks, ArgSpec::BoxReport, ArgSpec::Reports],
};

pub(crate) const MAKE: CommandSpec = CommandSpec {
    name: "make",
    about: help_texts::MAKE_ABOUT,
    long_about: help_texts::MAKE_LONG_ABOUT,
    after: help_texts::MAKE_AFTER,
    args: &[
        ArgSpec::Dem,
        ArgSpec::Side,
        ArgSpec::Out,
        ArgSpec::Sinks,
        ArgSpec::Spacing,
        ArgSpec::Widths,
        ArgSpec::Progress,
        ArgSpec::Tiles,
    ],
};

pub(crate) const DERIVE: CommandSpec = CommandSpec {
    name: "derive",
    about: help_texts::DERIVE_ABOUT,
    long_about: help_texts::DERIVE_LONG_ABOUT,
    after: help_texts::DERIVE_AFTER,
    args: &[
        ArgSpec::Dem,
        ArgSpec::Side,
        ArgSpec::Products,
        ArgSpec::Out,
        ArgSpec::Sinks,
        ArgSpec::Tiles,
    ],
};

const FILL: CommandSpec = CommandSpec {
    name: "fill",
    about: help_texts::FILL_ABOUT,
    long_about: help_texts::FILL_LONG_ABOUT,
    after: help_texts::FILL_AFTER,
    args: &[ArgSpec::Side],
};

const HEADER: CommandSpec = CommandSpec {
    name: "header",
    about: help_texts::HEADER_ABOUT,
    long_about: help_texts::HEADER_LONG_ABOUT,
    after: help_texts::HEADER_AFTER,
    args: &[ArgSpec::Header],
};

/// The commands, in the order of the program's help.
static COMMANDS: [CommandSpec; 9] = [
    AUDIT, CHECK, EXPLAIN, WINDOW, MERGE, MAKE, DERIVE, FILL, HEADER,
];

/// The program and its commands.
pub(crate) fn program<'a>(alloc: Global) -> Result<Command<'a>, AllocError> {
    let mut program = without_commands(alloc)?;
    for spec in &COMMANDS {
        program = with(alloc, program, spec)?;
    }
    Ok(program)
}

/// The program with one more command.
fn with<'a>(
    alloc: Global,
    program: Command<'a>,
    spec: &'static CommandSpec,
) -> Result<Command<'a>, AllocError> {
    program.subcommand(command(alloc, spec)?)
}

/// The program without its commands.
fn without_commands<'a>(alloc: Global) -> Result<Command<'a>, AllocError> {
    Command::new(alloc, "drain")
        .version(VERSION)
        .about(help_texts::ABOUT)
        .after_help(help_texts::AFTER)
        .subcommand_required(true)
        .arg_required_else_help(true)
        .bin_name("drain")
}

/// A command and its arguments.
pub(crate) fn command<'a>(
    alloc: Global,
    spec: &'static CommandSpec,
) -> Result<Command<'a>, AllocError> {
    let arguments = arguments(alloc, spec.args)?;
    Command::new(alloc, spec.name)
        .about(spec.about)
        .long_about(spec.long_about)
        .after_long_help(spec.after)
        .args(arguments)
}

fn arguments<'a>(alloc: Global, specs: &[ArgSpec]) -> Result<Vec<Arg<'a>>, AllocError> {
    let mut arguments = Vec::new(alloc);
    for spec in specs {
        arguments.push(argument(alloc, *spec)?)?;
    }
    Ok(arguments)
}

fn argument<'a>(alloc: Global, spec: ArgSpec) -> Result<Arg<'a>, AllocError> {
    Ok(match spec {
        ArgSpec::Dem => dem(alloc)?,
        ArgSpec::Side => side(alloc),
        ArgSpec::Products => folder(alloc, "products", help_texts::PRODUCTS_HELP),
        ArgSpec::Out => folder(alloc, "out", help_texts::OUT_HELP),
        ArgSpec::Only => only(alloc),
        ArgSpec::Sinks => file(alloc, "sinks", help_texts::SINKS_HELP),
        ArgSpec::Spacing => spacing(alloc)?,
        ArgSpec::Widths => file(alloc, "widths", help_texts::WIDTHS_HELP),
        ArgSpec::Progress => flag(alloc, "progress", help_texts::PROGRESS_HELP),
        ArgSpec::Map => file(alloc, "map", explain_texts::MAP_HELP),
        ArgSpec::Json => flag(alloc, "json", help_texts::JSON_HELP),
        ArgSpec::At => at(alloc),
        ArgSpec::WindowBox => window_box(alloc),
        ArgSpec::Inner => inner(alloc),
        ArgSpec::Report => file(alloc, "report", window_texts::REPORT_HELP).required(true),
        ArgSpec::BoxReport => box_report(alloc)?,
        ArgSpec::Tiles => paths(alloc, "tiles", "TILE", help_texts::TILES_HELP),
        ArgSpec::Reports => paths(alloc, "reports", "REPORT", window_texts::REPORTS_HELP),
        ArgSpec::Header => header(alloc),
    })
}

/// One raster of elevations, which goes with no tile and no side.
fn dem<'a>(alloc: Global) -> Result<Arg<'a>, AllocError> {
    file(alloc, "dem", help_texts::DEM_HELP)
        .conflicts_with("side")?
        .conflicts_with("tiles")
}

fn side<'a>(alloc: Global) -> Arg<'a> {
    Arg::new(alloc, "side")
        .long("side")
        .value_name("N")
        .value_parser(clap::value_parser!(u32))
        .default_value(DEFAULT_SIDE_TEXT)
        .help(help_texts::SIDE_HELP)
}

/// Width and height of all cells, which go with no text that says them row by row.
fn spacing<'a>(alloc: Global) -> Result<Arg<'a>, AllocError> {
    path(alloc, "spacing", "W,H", help_texts::SPACING_HELP)
        .long("spacing")
        .conflicts_with("widths")
}

/// A required option that names a folder.
fn folder<'a>(alloc: Global, name: &'static str, help: &'static str) -> Arg<'a> {
    path(alloc, name, "DIR", help).long(name).required(true)
}

/// An option that names a file.
fn file<'a>(alloc: Global, name: &'static str, help: &'static str) -> Arg<'a> {
    path(alloc, name, "FILE", help).long(name)
}

fn flag<'a>(alloc: Global, name: &'static str, help: &'static str) -> Arg<'a> {
    Arg::new(alloc, name)
        .long(name)
        .action(ArgAction::SetTrue)
        .help(help)
}

fn only<'a>(alloc: Global) -> Arg<'a> {
    path(alloc, "only", "LIST", help_texts::ONLY_HELP).long("only")
}

fn at<'a>(alloc: Global) -> Arg<'a> {
    path(alloc, "at", "ROW,COL", window_texts::AT_HELP).long("at")
}

fn window_box<'a>(alloc: Global) -> Arg<'a> {
    path(alloc, "box", "TOP,LEFT,ROWS,COLS", window_texts::BOX_HELP)
        .long("box")
        .required(true)
}

fn inner<'a>(alloc: Global) -> Arg<'a> {
    path(alloc, "inner", "SIDES", window_texts::INNER_HELP).long("inner")
}

/// Any number of paths without a name of their own.
fn paths<'a>(
    alloc: Global,
    name: &'static str,
    value: &'static str,
    help: &'static str,
) -> Arg<'a> {
    path(alloc, name, value, help).action(ArgAction::Append)
}

/// The report of the box, with which no list of sinks is compared: its rows and columns are those of the union.
fn box_report<'a>(alloc: Global) -> Result<Arg<'a>, AllocError> {
    file(alloc, "report", window_texts::BOX_REPORT_HELP).conflicts_with("sinks")
}

fn header<'a>(alloc: Global) -> Arg<'a> {
    path(alloc, "file", "FILE", help_texts::FILE_HELP).required(true)
}

/// A path or another text, which isn't empty.
fn path<'a>(alloc: Global, name: &'static str, value: &'static str, help: &'static str) -> Arg<'a> {
    Arg::new(alloc, name)
        .value_name(value)
        .value_parser(ValueParser::NonEmptyString)
        .help(help)
}
