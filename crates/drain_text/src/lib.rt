//! Texts: their lines, the words of a line, and the whole number of a word.
//!
//! A text is bytes, and each line and each word is a part of the text, so nothing here takes memory. The crate that
//! reads a line defines the meaning of its words.
#![tactic(auto)]

pub mod lines;
pub mod numbers;
pub mod words;

pub use lines::first_line;
pub use numbers::whole_number;
pub use words::first_word;
