//! The page of an explanation: the facts about an answer as a text to read, or as JSON.
#![tactic(auto)]

pub mod answer_object;
pub mod degrees;
mod expected;
pub mod facts;
mod float_ways;
pub mod frame;
pub mod json_page;
mod json_text;
mod kind_words;
pub mod laws;
mod names;
mod numerals;
mod patch_json;
mod patch_text;
mod refusal;
mod rules;
mod run;
mod slopes;
pub mod text_page;

pub use answer_object::{OUT_OF_MEMORY_ANSWER, Parts, USAGE_ERROR_ANSWER, answer_json};
pub use facts::Facts;
pub use frame::Frame;
pub use json_page::{OUT_OF_MEMORY_OBJECT, failure_json, page_json};
pub use text_page::page_text;
