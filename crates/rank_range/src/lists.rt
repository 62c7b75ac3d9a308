//! Words and offsets as lists.

ghost use Rattle.std.specs.Prelude.{◌≡◌, [], ◌∷◌, ◌++◌, length, OnOk, OnErr};

use std::alloc::{AllocError, Global};
use std::marker::Model;

/// Words of 64 bits that contracts see as a list.
#[derive(Debug, Drop)]
pub struct WordList {
    inner: Vec<u64>,
}

impl Model for WordList {
    ghost use Rattle.std.specs.Prelude.{List, ℕ};

    ghost Value = { List ℕ };

    ghost view = { λ l. l.inner.items };
}

impl WordList {
    pub fn new(alloc: Global) -> WordList
        ensures { result ≡ [] }
    {
        WordList {
            inner: Vec::new(alloc),
        }
    }

    pub fn from_vec(inner: Vec<u64>) -> WordList
        ensures { result ≡ inner.items }
    {
        WordList { inner }
    }

    pub fn into_vec(self) -> Vec<u64>
        ensures { result.items ≡ self }
    {
        let WordList { inner } = self;
        inner
    }

    pub fn as_slice(&self) -> &[u64]
        ensures { result.now ≡ self.now }
    {
        self.inner.as_slice()
    }

    pub fn len(&self) -> usize
        ensures { result ≡ length self.now }
    {
        self.inner.len()
    }

    pub fn push(&mut self, word: u64) -> Result<(), AllocError>
        ensures ok { OnOk result (self.new ≡ self.old ++ word ∷ []) }
        ensures err { OnErr result (self.new ≡ self.old) }
    {
        self.inner.push(word)?;
        Ok(())
    }
}

/// Offsets that contracts see as a list.
#[derive(Debug, Drop)]
pub struct OffsetList {
    inner: Vec<u32>,
}

impl Model for OffsetList {
    ghost use Rattle.std.specs.Prelude.{List, ℕ};

    ghost Value = { List ℕ };

    ghost view = { λ l. l.inner.items };
}

impl OffsetList {
    pub fn new(alloc: Global) -> OffsetList
        ensures { result ≡ [] }
    {
        OffsetList {
            inner: Vec::new(alloc),
        }
    }

    pub fn from_vec(inner: Vec<u32>) -> OffsetList
        ensures { result ≡ inner.items }
    {
        OffsetList { inner }
    }

    pub fn into_vec(self) -> Vec<u32>
        ensures { result.items ≡ self }
    {
        let OffsetList { inner } = self;
        inner
    }

    pub fn as_slice(&self) -> &[u32]
        ensures { result.now ≡ self.now }
    {
        self.inner.as_slice()
    }

    pub fn len(&self) -> usize
        ensures { result ≡ length self.now }
    {
        self.inner.len()
    }

    pub fn push(&mut self, offset: u32) -> Result<(), AllocError>
        ensures ok { OnOk result (self.new ≡ self.old ++ offset ∷ []) }
        ensures err { OnErr result (self.new ≡ self.old) }
    {
        self.inner.push(offset)?;
        Ok(())
    }
}
