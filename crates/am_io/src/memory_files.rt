//! Files in memory, and loads that fail.
ghost use Rattle.std.specs.Prelude.{◌≡◌, ◌+◌, ◌≤◌, [], ◌∷◌, ◌++◌, length, take, Some, IfOk, OnOk, OnErr, IsErrOf, IsOkUnless, IsTrue, ◌↔◌};
ghost use Rattle.am_io.specs.Contents.{bytes_of};
ghost use Rattle.am_io.specs.Memory.{is_refused, after_load};

use crate::file_list::FileList;
use crate::{Files, LoadError};
use std::alloc::{AllocError, Global};
use std::marker::Model;

/// Files in memory that are always read. A name that was not added stands for an empty file.
#[derive(Drop)]
pub struct SureFiles {
    list: FileList,
}

impl Model for SureFiles {
    ghost use Rattle.std.specs.Prelude.{List, ℕ};

    ghost Value = { List (List ℕ × List ℕ) };

    ghost view = { λ f. f.list };
}

impl SureFiles {
    pub fn new(alloc: Global) -> SureFiles
        ensures { result ≡ [] }
    {
        SureFiles {
            list: FileList::new(alloc),
        }
    }

    /// Adds a file. If one of that name was added before, that one is read.
    pub fn add(&mut self, name: &str, bytes: &[u8]) -> Result<(), AllocError>
        ensures ok { OnOk result (self.new ≡ self.old ++ (name.now, bytes.now) ∷ []) }
        ensures err { OnErr result (self.new ≡ self.old) }
    {
        self.list.add(name, bytes)
    }
}

impl Files for SureFiles {
    ghost held = { λ f. Some f };

    ghost faults = { λ _. 0 };

    fn load(&mut self, alloc: Global, name: &str, limit: u64) -> Result<Vec<u8>, LoadError>
        ensures bytes { IfOk result (λ v. v.items ≡ take (limit + 1) (bytes_of self.old name.now)) }
        ensures within { IfOk result (λ v. length v.items ≤ limit + 1) }
        ensures same { self.new ≡ self.old }
        ensures sure { IsOkUnless result LoadError.Memory }
    {
        let bytes = self.list.find(name).unwrap_or(&[]);
        copy_within(alloc, bytes, limit)
    }
}

/// Files in memory, some of whose loads fail.
#[derive(Drop)]
pub struct MemFiles {
    list: FileList,
    faults: u64,
    calls: u64,
    failing: Vec<u64>,
}

impl Model for MemFiles {
    ghost use Rattle.am_io.specs.Memory.{MemFilesState};

    ghost Value = { MemFilesState };

    ghost view = { λ f. record { files = f.list; faults = f.faults; calls = f.calls; failing = f.failing.items } };
}

impl MemFiles {
    pub fn new(alloc: Global) -> MemFiles
        ensures { result ≡ record { files = []; faults = 0; calls = 0; failing = [] } }
    {
        MemFiles {
            list: FileList::new(alloc),
            faults: 0,
            calls: 0,
            failing: Vec::new(alloc),
        }
    }

    /// Adds a file. If one of that name was added before, that one is read.
    pub fn add(&mut self, name: &str, bytes: &[u8]) -> Result<(), AllocError>
        ensures ok { OnOk result (self.new ≡ record self.old { files = self.old.files ++ (name.now, bytes.now) ∷ [] }) }
        ensures err { OnErr result (self.new ≡ self.old) }
    {
        self.list.add(name, bytes)
    }

    /// Lets the load of that number fail, counted from 0.
    pub fn fail_at(&mut self, call: u64) -> Result<(), AllocError>
        ensures ok { OnOk result (self.new ≡ record self.old { failing = self.old.failing ++ call ∷ [] }) }
        ensures err { OnErr result (self.new ≡ self.old) }
    {
        self.failing.push(call)?;
        Ok(())
    }

    /// How many loads have failed.
    pub fn faults(&self) -> u64
        ensures { result ≡ self.now.faults }
    {
        self.faults
    }

    /// How many loads were asked for.
    pub fn calls(&self) -> u64
        ensures { result ≡ self.now.calls }
    {
        self.calls
    }
}

impl Files for MemFiles {
    ghost held = { λ f. Some f.files };

    ghost faults = { λ f. f.faults };

    fn load(&mut self, alloc: Global, name: &str, limit: u64) -> Result<Vec<u8>, LoadError>
        ensures refused { IsErrOf result LoadError.Failed ↔ IsTrue (is_refused self.old name.now) }
        ensures bytes { IfOk result (λ v. v.items ≡ take (limit + 1) (bytes_of self.old.files name.now)) }
        ensures within { IfOk result (λ v. length v.items ≤ limit + 1) }
        ensures after { self.new ≡ after_load self.old name.now }
        ensures later { self.old.faults ≤ self.new.faults }
    {
        let fails = self.failing.contains(&self.calls);
        self.calls = self.calls.saturating_add(1);
        if !fails && let Some(bytes) = self.list.find(name) {
            return copy_within(alloc, bytes, limit);
        }
        self.faults = self.faults.saturating_add(1);
        Err(LoadError::Failed)
    }
}

/// A copy of the bytes, up to one more than `limit`.
fn copy_within(alloc: Global, bytes: &[u8], limit: u64) -> Result<Vec<u8>, LoadError>
    ensures bytes { IfOk result (λ v. v.items ≡ take (limit + 1) bytes.now) }
    ensures within { IfOk result (λ v. length v.items ≤ limit + 1) }
    ensures sure { IsOkUnless result LoadError.Memory }
{
    match Vec::from_slice(alloc, front(bytes, limit)) {
        Ok(copy) => Ok(copy),
        Err(AllocError) => Err(LoadError::Memory),
    }
}

/// The bytes, up to one more than `limit`.
fn front(bytes: &[u8], limit: u64) -> &[u8]
    ensures bytes { result.now ≡ take (limit + 1) bytes.now }
    ensures within { length result.now ≤ limit + 1 }
{
    if bytes.len() as u64 <= limit {
        bytes
    } else {
        &bytes[..limit as usize + 1]
    }
}
