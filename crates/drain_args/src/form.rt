//! The form of an answer, and the one that a command line requests, found without memory.
//!
//! Where memory runs out before the arguments are understood, the answer still comes in that form.

use std::env::{Env, FillError};

/// The form of an answer.
#[derive(Clone, Copy)]
pub enum Form {
    /// As text to read.
    Text,
    /// As one JSON object.
    Json,
}

/// JSON, if the command is `audit`, `check` or `explain`, and a later argument before `--` is `--json`; else a text.
pub fn requested_form(env: &impl Env) -> Form {
    if !is_word(env, 1, b"audit") && !is_word(env, 1, b"check") && !is_word(env, 1, b"explain") {
        return Form::Text;
    }
    for place in 2..usize::MAX {
        if is_word(env, place, b"--json") {
            return Form::Json;
        }
        if is_word(env, place, b"--") || !is_there(env, place) {
            return Form::Text;
        }
    }
    Form::Text
}

/// The most bytes of a word that is looked for.
const ROOM: usize = 8;

/// Whether the argument in this place is this word, of at most `ROOM` bytes.
fn is_word(env: &impl Env, place: usize, word: &[u8]) -> bool {
    let mut bytes = [0; ROOM];
    match env.arg(place, &mut bytes) {
        Ok(length) => &bytes[..length] == word,
        Err(_) => false,
    }
}

/// Whether there is an argument in this place.
fn is_there(env: &impl Env, place: usize) -> bool {
    match env.arg(place, &mut [0; ROOM]) {
        Ok(_) | Err(FillError::TooLong) => true,
        Err(FillError::NotPresent) => false,
    }
}
