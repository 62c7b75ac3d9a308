//! The text that a tree is shown on.

use crate::lines::show_bytes;
use c_ast::{Name, NumberType};
use std::alloc::{AllocError, Global};

/// The text of a tree, with or without the numbers of its tokens.
#[derive(Drop)]
pub struct Page {
    text: String,
    has_numbers: bool,
}

impl Page {
    pub(super) fn new(alloc: Global, has_numbers: bool) -> Page {
        Page {
            text: String::new(alloc),
            has_numbers,
        }
    }

    pub(super) fn has_numbers(&self) -> bool {
        self.has_numbers
    }

    pub(super) fn into_text(self) -> String {
        self.text
    }

    /// A blank between two parts.
    fn gap(&mut self) -> Result<(), AllocError> {
        if self.text.is_empty() {
            return Ok(());
        }
        self.text.push_str(" ")
    }

    pub(super) fn word(&mut self, word: &str) -> Result<(), AllocError> {
        self.gap()?;
        self.text.push_str(word)
    }

    /// The number of a token, behind `@`.
    fn number(&mut self, token: u32) -> Result<(), AllocError> {
        if self.has_numbers {
            write!(self.text, "@{token}")?;
        }
        Ok(())
    }

    /// A word of this token.
    pub(super) fn mark(&mut self, word: &str, token: u32) -> Result<(), AllocError> {
        self.word(word)?;
        self.number(token)
    }

    /// Begins a node with this word and token.
    pub(super) fn open(&mut self, word: &str, token: u32) -> Result<(), AllocError> {
        self.gap()?;
        self.text.push_str("(")?;
        self.text.push_str(word)?;
        self.number(token)
    }

    /// Begins a node that has no token of its own.
    pub(super) fn open_bare(&mut self, word: &str) -> Result<(), AllocError> {
        self.gap()?;
        self.text.push_str("(")?;
        self.text.push_str(word)
    }

    pub(super) fn close(&mut self) -> Result<(), AllocError> {
        self.text.push_str(")")
    }

    pub(super) fn name(&mut self, name: &Name) -> Result<(), AllocError> {
        self.gap()?;
        show_bytes(&mut self.text, name.text.as_slice())?;
        self.number(name.token)
    }

    /// A name, or `_` where there is none.
    pub(super) fn tag(&mut self, name: Option<&Name>) -> Result<(), AllocError> {
        match name {
            Some(name) => self.name(name),
            None => self.word("_"),
        }
    }

    /// A string in quotes.
    pub(super) fn quoted(&mut self, bytes: &[u8], token: u32) -> Result<(), AllocError> {
        self.word("\"")?;
        show_bytes(&mut self.text, bytes)?;
        self.text.push_str("\"")?;
        self.number(token)
    }

    /// A number, and its type if that isn't int.
    pub(super) fn value(
        &mut self,
        value: u64,
        of: NumberType,
        token: u32,
    ) -> Result<(), AllocError> {
        self.gap()?;
        write!(self.text, "{value}")?;
        if of != NumberType::Int {
            write!(self.text, ":{of:?}")?;
        }
        self.number(token)
    }

    /// A character by its value, behind a quote.
    pub(super) fn character(&mut self, value: u64, token: u32) -> Result<(), AllocError> {
        self.gap()?;
        write!(self.text, "'{value}")?;
        self.number(token)
    }
}
