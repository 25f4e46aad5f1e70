//! The members that say an answer part by part, which each object has; and the object of an audit or a check, which has
//! these alone beside the answer's line.

ghost use Rattle.std.specs.Prelude.{◌≡◌, IfOk, string_bytes};
ghost use Rattle.drain_page.specs.Texts.{IsAnswerLine};

use crate::json_text::JsonText;
use drain_answer::outcome::Status;
use drain_answer::{Outcome, Refusal};
use drain_grid::OutOfMemory;
use std::alloc::{AllocError, Global};

/// The version of what objects have: it grows if a member changes its meaning or goes.
const SCHEMA: u8 = 1;

/// The parts of an answer: the exit status; of a rejection its rule's number, its name and its cell; of a refusal its cell.
#[derive(Clone, Copy)]
pub struct Parts {
    status: Status,
    rule: Option<u8>,
    name: Option<&'static str>,
    row: Option<u32>,
    col: Option<u32>,
}

impl Parts {
    /// The parts of an answer with this exit status.
    pub fn of(answer: &Result<Outcome, Refusal>, status: Status) -> Parts {
        match answer {
            Ok(Outcome::Rejected { rule, row, col }) => Parts {
                status,
                rule: Some(rule.number()),
                name: Some(rule.name()),
                row: Some(*row),
                col: Some(*col),
            },
            Ok(Outcome::NoEnd { row, col }) => Parts::at(status, Some("NoEnd"), *row, *col),
            Ok(Outcome::NotFilled { row, col }) => Parts::at(status, Some("NotFilled"), *row, *col),
            Err(Refusal::SeamMismatch(cell)) => Parts::at(status, None, cell.row, cell.col),
            _ => Parts::status_alone(status),
        }
    }

    /// Those of a failure.
    pub fn failed() -> Parts {
        Parts::status_alone(Status::Failed)
    }

    fn at(status: Status, name: Option<&'static str>, row: u32, col: u32) -> Parts {
        Parts {
            status,
            rule: None,
            name,
            row: Some(row),
            col: Some(col),
        }
    }

    fn status_alone(status: Status) -> Parts {
        Parts {
            status,
            rule: None,
            name: None,
            row: None,
            col: None,
        }
    }
}

/// The version, and the parts of an answer.
pub(crate) fn write_parts(json: &mut JsonText, parts: Parts) -> Result<(), AllocError>
    ensures { json.new ≡ json.old }
{
    json.member("schema", SCHEMA)?;
    json.member("status", parts.status.code())?;
    json.member("rule", parts.rule)?;
    json.member("name", parts.name)?;
    json.member("row", parts.row)?;
    json.member("col", parts.col)
}

/// The object of an answer with this line, on one line which ends with a line feed. Its first member is that line.
pub fn answer_json(alloc: Global, line: &str, parts: Parts) -> Result<String, OutOfMemory>
    ensures { IfOk result (λ text. IsAnswerLine line.now (string_bytes text)) }
{
    let mut json = JsonText::new(alloc, line)?;
    write_parts(&mut json, parts)?;
    json.end_object()?;
    Ok(json.into_line()?)
}

/// The object for the failure that there is no memory for an object.
pub const OUT_OF_MEMORY_ANSWER: &str =
    "{\"answer\":\"failed OutOfMemory\",\"schema\":1,\"status\":3,\"rule\":null,\"name\":null,\"row\":null,\"col\":null}\n";

/// The object of a usage error, which has no line.
pub const USAGE_ERROR_ANSWER: &str =
    "{\"answer\":\"usage error\",\"schema\":1,\"status\":2,\"rule\":null,\"name\":null,\"row\":null,\"col\":null}\n";
