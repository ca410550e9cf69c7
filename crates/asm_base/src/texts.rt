//! Byte strings of the crate's own, which contracts see as lists: the text of a source, and bytes that are made.

ghost use Rattle.std.specs.Prelude.{◌≡◌, ℕ, List, IfOk};
ghost use Rattle.std.specs.Option.{unwrap_or};

use std::alloc::{AllocError, Global};
use std::marker::Model;

/// The bytes of a source, or of a part of it.
#[derive(Drop)]
pub struct Text {
    bytes: Vec<u8>,
}

impl Model for Text {
    ghost Value = { List ℕ };

    ghost view = { λ t. t.bytes.items };
}

impl Text {
    /// The text of these bytes.
    pub fn new(bytes: Vec<u8>) -> Text
        ensures { result ≡ bytes.items }
    {
        Text { bytes }
    }

    /// The bytes of the text.
    pub fn as_bytes(&self) -> &[u8]
        ensures { result.now ≡ self.now }
    {
        self.bytes.as_slice()
    }
}

/// A text that a statement says, or none. In a box, so that each result that holds it stays small.
#[derive(Drop)]
pub struct SaidText {
    text: Box<Option<Text>>,
}

impl Model for SaidText {
    ghost use Rattle.std.specs.Prelude.{ℕ, List, Option};

    ghost Value = { Option (List ℕ) };

    ghost view = { λ said. said.text.value };
}

impl SaidText {
    /// This text, or none.
    pub fn new(alloc: Global, text: Option<Text>) -> Result<SaidText, AllocError>
        ensures { IfOk result (λ said. said ≡ text) }
    {
        Ok(SaidText {
            text: Box::new(alloc, text)?,
        })
    }

    /// The text, or this one where there is none.
    pub fn or<'a>(&'a self, other: &'a [u8]) -> &'a [u8]
        ensures { result.now ≡ unwrap_or self.now other.now }
    {
        match &*self.text {
            Some(text) => text.as_bytes(),
            None => other,
        }
    }
}

/// Bytes that were made: the text of a message, or an object.
#[derive(Drop)]
pub struct Bytes {
    bytes: Vec<u8>,
}

impl Model for Bytes {
    ghost Value = { List ℕ };

    ghost view = { λ b. b.bytes.items };
}

impl Bytes {
    /// These bytes.
    pub fn new(bytes: Vec<u8>) -> Bytes
        ensures { result ≡ bytes.items }
    {
        Bytes { bytes }
    }

    /// All of them.
    pub fn as_slice(&self) -> &[u8]
        ensures { result.now ≡ self.now }
    {
        self.bytes.as_slice()
    }
}
