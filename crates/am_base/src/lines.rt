//! Printed lines.

ghost use Rattle.std.specs.Prelude.{◌≡◌, ◌↔◌, [], ◌∷◌, ◌++◌, length, IsTrue, OnOk, OnErr};

use crate::Bytes;
use std::alloc::{AllocError, Global};
use std::marker::Model;

/// A line that a rank printed, without its newline. A rank's lines are numbered from 0.
#[derive(Debug, Drop)]
pub struct Line {
    pub number: u32,
    pub text: Bytes,
}

/// Lines that contracts see as a list.
#[derive(Debug, Drop)]
pub struct LineList {
    inner: Vec<Line>,
}

impl Model for LineList {
    ghost use Rattle.std.specs.Prelude.{List};
    ghost use Rattle.am_base.specs.declared.lines.Line.{Line};

    ghost Value = { List Line };

    ghost view = { λ l. l.inner.items };
}

impl LineList {
    pub fn new(alloc: Global) -> LineList
        ensures { result ≡ [] }
    {
        LineList {
            inner: Vec::new(alloc),
        }
    }

    pub fn from_vec(inner: Vec<Line>) -> LineList
        ensures { result ≡ inner.items }
    {
        LineList { inner }
    }

    pub fn into_vec(self) -> Vec<Line>
        ensures { result.items ≡ self }
    {
        let LineList { inner } = self;
        inner
    }

    pub fn as_slice(&self) -> &[Line]
        ensures { result.now ≡ self.now }
    {
        self.inner.as_slice()
    }

    pub fn len(&self) -> usize
        ensures { result ≡ length self.now }
    {
        self.inner.len()
    }

    pub fn is_empty(&self) -> bool
        ensures { IsTrue result ↔ (self.now ≡ []) }
    {
        self.inner.is_empty()
    }

    pub fn push(&mut self, line: Line) -> Result<(), AllocError>
        ensures ok { OnOk result (self.new ≡ self.old ++ line ∷ []) }
        ensures err { OnErr result (self.new ≡ self.old) }
    {
        self.inner.push(line)?;
        Ok(())
    }
}
