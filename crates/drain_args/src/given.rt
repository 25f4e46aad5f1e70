//! The values of a command's arguments, as `clap` found them: by the names of the arguments.

ghost use Rattle.std.specs.Prelude.{◌≡◌};
ghost use Rattle.drain_args.specs.Names.{[], IfOk, map, option_map, unwrap_or, first_value, found_of, matched_of, raw_values};
ghost use Rattle.drain_args.specs.Requests.{IsFlag, IsSideOption};

use crate::commands::{DEFAULT_SIDE, program};
use crate::help_texts;
use clap::error::ErrorKind;
use clap::{ArgMatches, Error};
use std::alloc::{AllocError, Global};

/// The value of a required argument; empty if it isn't there.
pub fn text_given<'a>(given: &ArgMatches<'a>, name: &str) -> &'a str
    ensures { result.now ≡ unwrap_or (first_value (found_of given.now) name.now) [] }
{
    match given.get_str(name) {
        Some(text) => text,
        None => "",
    }
}

/// The value of an argument that may be absent.
pub fn option_given<'a>(given: &ArgMatches<'a>, name: &str) -> Option<&'a str>
    ensures { option_map (λ text. text.now) result ≡ first_value (found_of given.now) name.now }
{
    given.get_str(name)
}

/// Whether a flag is there.
pub fn flag_given(given: &ArgMatches<'_>, name: &str) -> bool
    ensures { IsFlag name.now (found_of given.now) result }
{
    given.get_flag(name)
}

/// The paths of an argument that may be repeated, in the order given.
pub fn paths_given<'a>(
    alloc: Global,
    given: &ArgMatches<'a>,
    name: &str,
) -> Result<Vec<&'a str>, AllocError>
    ensures { IfOk result (λ paths. map (λ path. path.now) paths.items ≡ unwrap_or (option_map raw_values (matched_of (found_of given.now) name.now)) []) }
{
    match given.get_strs(name) {
        Some(paths) => Vec::from_slice(alloc, paths),
        None => Ok(Vec::new(alloc)),
    }
}

/// The requested side, or the default if none is. A value that is no number is a usage error: `clap` refuses it before.
pub fn side_given(alloc: Global, given: &ArgMatches<'_>) -> Result<u32, Error>
    ensures { IfOk result (IsSideOption (found_of given.now)) }
{
    match given.try_get_one::<u32>("side") {
        Ok(Some(side)) => Ok(side),
        Ok(None) => Ok(DEFAULT_SIDE),
        Err(_) => Err(bad_side(alloc)?),
    }
}

fn bad_side(alloc: Global) -> Result<Error, AllocError> {
    let mut program = program(alloc)?;
    program.error(ErrorKind::ValueValidation, help_texts::BAD_SIDE)
}
