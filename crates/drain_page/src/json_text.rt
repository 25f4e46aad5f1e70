//! A JSON object that begins with an answer and is appended token by token: members with their names, and items of a
//! list. The caller closes what it opens.

ghost use Rattle.std.specs.Prelude.{◌≡◌};
ghost use Rattle.drain_page.specs.Names.{IfOk, string_bytes, IsPrintable};
ghost use Rattle.json.specs.Reads.{token_of};
ghost use Rattle.drain_page.specs.Texts.{IsJsonLine, answer_head};

use crate::frame::Coordinate;
use crate::names::units_text;
use itoa::Buffer;
use json::{Token, Writer, is_number};
use std::alloc::{AllocError, Global};
use std::marker::Model;

/// The text so far. Contracts see its first three tokens, which stay: those of an object up to its answer.
#[derive(Drop)]
pub(crate) struct JsonText {
    writer: Writer,
}

impl Model for JsonText {
    ghost use Rattle.drain_page.specs.Names.{List, take, Token};
    ghost use Rattle.drain_page.specs.Texts.{IsBegun};

    ghost Value = { List Token };

    ghost view = { λ text. take 3 text.writer.tokens };

    ghost invariant = { λ text. IsBegun text.writer };
}

impl JsonText {
    /// An object whose first member is this answer.
    pub(crate) fn new(alloc: Global, answer: &str) -> Result<JsonText, AllocError>
        ensures { IfOk result (λ text. text ≡ answer_head answer.now) }
    {
        let mut writer = Writer::new(Vec::new(alloc));
        writer.begin_object()?;
        writer.key("answer")?;
        writer.string(answer)?;
        Ok(JsonText { writer })
    }

    /// The text and a line feed.
    pub(crate) fn into_line(self) -> Result<String, AllocError>
        ensures { IfOk result (λ line. IsJsonLine self (string_bytes line)) }
    {
        let JsonText { writer } = self;
        let mut line = String::from_utf8(writer.into_inner()).unwrap();
        line.push('\n')?;
        Ok(line)
    }

    /// A token.
    fn token(&mut self, token: Token<'_>) -> Result<(), AllocError>
        requires { IsPrintable (token_of token) }
        ensures { self.new ≡ self.old }
    {
        self.writer.token(token)
    }

    /// A member of this name.
    pub(crate) fn member<V: JsonValue>(&mut self, name: &str, value: V) -> Result<(), AllocError>
        ensures { self.new ≡ self.old }
    {
        self.token(Token::Key(name))?;
        value.append(self)
    }

    /// A member that is null.
    pub(crate) fn null(&mut self, name: &str) -> Result<(), AllocError>
        ensures { self.new ≡ self.old }
    {
        self.token(Token::Key(name))?;
        self.token(Token::Null)
    }

    /// A member that is this word: a number if it is one, else a string.
    pub(crate) fn word(&mut self, name: &str, word: &str) -> Result<(), AllocError>
        ensures { self.new ≡ self.old }
    {
        self.token(Token::Key(name))?;
        append_word(self, word)
    }

    /// A member that is a list of these.
    pub(crate) fn list<V: JsonValue>(&mut self, name: &str, items: &[V]) -> Result<(), AllocError>
        ensures { self.new ≡ self.old }
    {
        self.begin_list(name)?;
        for item in items {
            item.append(self)?;
        }
        self.end_list()
    }

    /// Opens an object that is a member of this name.
    pub(crate) fn begin_object(&mut self, name: &str) -> Result<(), AllocError>
        ensures { self.new ≡ self.old }
    {
        self.token(Token::Key(name))?;
        self.token(Token::BeginObject)
    }

    /// Opens an object that is an item.
    pub(crate) fn begin_object_item(&mut self) -> Result<(), AllocError>
        ensures { self.new ≡ self.old }
    {
        self.token(Token::BeginObject)
    }

    /// Closes an object.
    pub(crate) fn end_object(&mut self) -> Result<(), AllocError>
        ensures { self.new ≡ self.old }
    {
        self.token(Token::EndObject)
    }

    /// Opens a list that is a member of this name.
    pub(crate) fn begin_list(&mut self, name: &str) -> Result<(), AllocError>
        ensures { self.new ≡ self.old }
    {
        self.token(Token::Key(name))?;
        self.token(Token::BeginArray)
    }

    /// Opens a list that is an item.
    pub(crate) fn begin_list_item(&mut self) -> Result<(), AllocError>
        ensures { self.new ≡ self.old }
    {
        self.token(Token::BeginArray)
    }

    /// Closes a list.
    pub(crate) fn end_list(&mut self) -> Result<(), AllocError>
        ensures { self.new ≡ self.old }
    {
        self.token(Token::EndArray)
    }
}

/// What can be a member or an item.
pub(crate) trait JsonValue: Copy {
    /// Appends it.
    fn append(self, json: &mut JsonText) -> Result<(), AllocError>
        ensures { json.new ≡ json.old };
}

impl<V: JsonValue> JsonValue for Option<V> {
    /// Null for none.
    fn append(self, json: &mut JsonText) -> Result<(), AllocError> {
        match self {
            Some(value) => value.append(json),
            None => json.token(Token::Null),
        }
    }
}

impl JsonValue for bool {
    fn append(self, json: &mut JsonText) -> Result<(), AllocError> {
        json.token(Token::Bool(self))
    }
}

impl<'a> JsonValue for &'a str {
    fn append(self, json: &mut JsonText) -> Result<(), AllocError> {
        json.token(Token::String(self))
    }
}

impl JsonValue for u8 {
    fn append(self, json: &mut JsonText) -> Result<(), AllocError> {
        json.writer.u64(u64::from(self))
    }
}

impl JsonValue for u32 {
    fn append(self, json: &mut JsonText) -> Result<(), AllocError> {
        json.writer.u64(u64::from(self))
    }
}

impl JsonValue for u64 {
    fn append(self, json: &mut JsonText) -> Result<(), AllocError> {
        json.writer.u64(self)
    }
}

impl JsonValue for i16 {
    fn append(self, json: &mut JsonText) -> Result<(), AllocError> {
        json.writer.i64(i64::from(self))
    }
}

impl JsonValue for i64 {
    fn append(self, json: &mut JsonText) -> Result<(), AllocError> {
        json.writer.i64(self)
    }
}

impl JsonValue for u128 {
    fn append(self, json: &mut JsonText) -> Result<(), AllocError> {
        let mut buffer = Buffer::new();
        append_digits(json, buffer.format(self))
    }
}

impl JsonValue for Coordinate {
    /// Degrees as the nearest floating-point number; the header's unit with its fifteen places.
    fn append(self, json: &mut JsonText) -> Result<(), AllocError> {
        match self {
            Coordinate::Degrees(degrees) => degrees.value().append(json),
            Coordinate::Units(units) => append_digits(json, units_text(units).as_str()),
        }
    }
}

/// Appends digits, which always are a number.
fn append_digits(json: &mut JsonText, digits: &str) -> Result<(), AllocError>
    ensures { json.new ≡ json.old }
{
    if is_number(digits) {
        json.token(Token::Number(digits))
    } else {
        json.token(Token::Null)
    }
}

/// Appends a word: a number if it is one, else a string.
pub(crate) fn append_word(json: &mut JsonText, word: &str) -> Result<(), AllocError>
    ensures { json.new ≡ json.old }
{
    if is_number(word) {
        json.token(Token::Number(word))
    } else {
        json.token(Token::String(word))
    }
}

impl JsonValue for f64 {
    /// The nearest decimal number, or null if it isn't finite.
    fn append(self, json: &mut JsonText) -> Result<(), AllocError> {
        if self.is_finite() {
            json.writer.float_with_plus(self)
        } else {
            json.token(Token::Null)
        }
    }
}
