//! Files by name, in memory.
ghost use Rattle.std.specs.Prelude.{◌≡◌, [], ◌∷◌, ◌++◌, OnOk, OnErr};
ghost use Rattle.std.specs.Option.{option_copied};
ghost use Rattle.am_io.specs.Contents.{file_of};

use std::alloc::{AllocError, Global};
use std::marker::Model;

/// A file's name and bytes.
#[derive(Drop)]
struct NamedBytes {
    name: String,
    bytes: Vec<u8>,
}

/// Files in memory, which contracts see as names with bytes.
#[derive(Drop)]
pub struct FileList {
    alloc: Global,
    files: Vec<NamedBytes>,
}

impl Model for FileList {
    ghost use Rattle.std.specs.Prelude.{List, ℕ, map};
    ghost use Rattle.am_io.specs.Listed.{named_bytes};

    ghost Value = { List (List ℕ × List ℕ) };

    ghost view = { λ l. map named_bytes l.files.items };
}

impl FileList {
    pub fn new(alloc: Global) -> FileList
        ensures { result ≡ [] }
    {
        FileList {
            alloc,
            files: Vec::new(alloc),
        }
    }

    /// Adds a file behind the others, so it is found only if none before it has its name.
    pub fn add(&mut self, name: &str, bytes: &[u8]) -> Result<(), AllocError>
        ensures ok { OnOk result (self.new ≡ self.old ++ (name.now, bytes.now) ∷ []) }
        ensures err { OnErr result (self.new ≡ self.old) }
    {
        let name = String::from_str(self.alloc, name)?;
        let bytes = Vec::from_slice(self.alloc, bytes)?;
        self.files.push(NamedBytes { name, bytes })?;
        Ok(())
    }

    /// The bytes of the first file of that name.
    pub fn find(&self, name: &str) -> Option<&[u8]>
        ensures { option_copied result ≡ file_of self.now name.now }
    {
        for file in &self.files {
            if file.name.as_str() == name {
                return Some(file.bytes.as_slice());
            }
        }
        None
    }
}
