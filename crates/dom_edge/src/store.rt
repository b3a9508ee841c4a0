//! Files by their names: the trait, in memory, and those of the system.
ghost use Rattle.std.specs.Prelude.{◌≡◌, ◌≢◌, ◌↔◌, ◌<◌, ◌≤◌, ◌⊎◌, List, ℕ, [], length, IfOk, IfErr, IfSome, Ok, Err, None, Some};
ghost use Rattle.std.specs.declared.option.Option.{Option};
ghost use Rattle.std.specs.Option.{option_copied};
ghost use Rattle.dom_edge.specs.Causes.{HasCause, IsCounted};
ghost use Rattle.dom_edge.specs.Stores.{Files, ReadsFile, file_named};
ghost use Rattle.dom_edge.specs.Memory.{IsPlanned, IsCalled, HasFault, IsLong, no_calls};

use crate::calls::PlannedCalls;
use dom_base::{Bytes, List as Rows, Text};
use std::alloc::Global;
use std::io::Read;
use std::marker::Model;
use std::rt::Files;
use std::{fs, io};

/// Why a file was not read: it has more bytes than the limit, the read failed (a name that is not
/// there is a fault), or memory ran out.
#[derive(Clone, Copy)]
pub enum StoreError {
    TooLong,
    Failed,
    NoMemory,
}

/// Files by their names.
pub trait Store {
    /// The files, where they are told.
    ghost files: { Self → Option Files };

    /// How often a read has failed. The count never falls, and stands still at the end of its type.
    ghost faults: { Self → ℕ };

    /// The name at which a read last failed, which is always told.
    ghost failed_at: { Self → List ℕ };

    /// The bytes of a file, which are no more than `limit`.
    fn read(&mut self, alloc: Global, name: &str, limit: usize) -> Result<Bytes, StoreError>
        ensures reads { ReadsFile (files self.old) name.now limit result }
        ensures within { IfOk result (λ bytes. length bytes ≤ limit) }
        ensures files { files self.new ≡ files self.old }
        ensures cause { HasCause (faults self.old) (faults self.new) (result ≡ Err StoreError.Failed) }
        ensures blame { result ≡ Err StoreError.Failed → failed_at self.new ≡ name.now }
        ensures keeps { result ≢ Err StoreError.Failed → failed_at self.new ≡ failed_at self.old };
}

/// A store in memory. The calls whose numbers, from 0, are in `fails` fail, and so does a name that
/// is not there. Of two files of one name the first is read.
#[derive(Drop)]
pub struct MemoryStore {
    files: Rows<(Text, Bytes)>,
    failed_at: Vec<u8>,
    calls: PlannedCalls,
}

impl Model for MemoryStore {
    ghost use Rattle.dom_edge.specs.Memory.{StoreState};

    ghost Value = { StoreState };

    ghost view = { λ s. record { files = s.files; failed_at = s.failed_at.items; calls = s.calls } };
}

impl MemoryStore {
    /// A store in memory of these files, by their names. Calls whose numbers, from 0, stand in `fails` fail, and so does each for a
    /// name that it has not.
    pub fn new(alloc: Global, files: Rows<(Text, Bytes)>, fails: Rows<u64>) -> Self
        ensures { result ≡ record { files = files; failed_at = []; calls = no_calls fails } }
    {
        MemoryStore {
            files,
            failed_at: Vec::new(alloc),
            calls: PlannedCalls::new(fails),
        }
    }

    /// The name at which a read last failed; empty before.
    pub fn failed_at(&self) -> &[u8]
        ensures { result.now ≡ self.now.failed_at }
    {
        self.failed_at.as_slice()
    }
}

// The first file of that name.
fn find_file<'a>(files: &'a [(Text, Bytes)], name: &str) -> Option<&'a [u8]>
    ensures { option_copied result ≡ file_named files.now name.now }
{
    for file in files {
        if file.0.as_str() == name {
            return Some(file.1.as_slice());
        }
    }
    None
}

// A copy of a slice.
fn copy_of(alloc: Global, bytes: &[u8]) -> Result<Vec<u8>, StoreError>
    ensures ok { IfOk result (λ v. v.items ≡ bytes.now) }
    ensures err { IfErr result (λ e. e ≡ StoreError.NoMemory) }
{
    match bytes.to_vec(alloc) {
        Ok(copy) => Ok(copy),
        Err(_) => Err(StoreError::NoMemory),
    }
}

impl Store for MemoryStore {
    ghost files = { λ s. Some (file_named s.files) };

    ghost faults = { λ s. s.calls.faults };

    ghost failed_at = { λ s. s.failed_at };

    /// Is too long exactly where the call is not one that is to fail, and fails only where it is or
    /// the name is not there: in its place memory may run out, since the name is kept.
    fn read(&mut self, alloc: Global, name: &str, limit: usize) -> Result<Bytes, StoreError>
        ensures reads { ReadsFile (Some (file_named self.old.files)) name.now limit result }
        ensures within { IfOk result (λ bytes. length bytes ≤ limit) }
        ensures files { Some (file_named self.new.files) ≡ Some (file_named self.old.files) }
        ensures cause { HasCause self.old.calls.faults self.new.calls.faults (result ≡ Err StoreError.Failed) }
        ensures blame { result ≡ Err StoreError.Failed → self.new.failed_at ≡ name.now }
        ensures keeps { result ≢ Err StoreError.Failed → self.new.failed_at ≡ self.old.failed_at }
        ensures too_long { result ≡ Err StoreError.TooLong ↔ (¬ IsPlanned self.old.calls × IsLong self.old name.now limit) }
        ensures fault { result ≡ Err StoreError.Failed → HasFault self.old name.now }
        ensures no_answer { HasFault self.old name.now → (result ≡ Err StoreError.Failed) ⊎ (result ≡ Err StoreError.NoMemory) }
        ensures called { IsCalled self.old.calls self.new.calls (result ≡ Err StoreError.Failed) }
    {
        if self.calls.is_planned() {
            return self.fail(alloc, name);
        }
        if let Some(bytes) = find_file(self.files.as_slice(), name) {
            self.calls.pass();
            if bytes.len() > limit {
                return Err(StoreError::TooLong);
            }
            return Ok(Bytes::from_vec(copy_of(alloc, bytes)?));
        }
        self.fail(alloc, name)
    }
}

impl MemoryStore {
    // A call that fails, unless there is no memory to keep the name in.
    fn fail(&mut self, alloc: Global, name: &str) -> Result<Bytes, StoreError>
        ensures answer { (result ≡ Err StoreError.Failed) ⊎ (result ≡ Err StoreError.NoMemory) }
        ensures files { self.new.files ≡ self.old.files }
        ensures blame { result ≡ Err StoreError.Failed → self.new.failed_at ≡ name.now }
        ensures keeps { result ≢ Err StoreError.Failed → self.new.failed_at ≡ self.old.failed_at }
        ensures called { IsCalled self.old.calls self.new.calls (result ≡ Err StoreError.Failed) }
        ensures cause { HasCause self.old.calls.faults self.new.calls.faults (result ≡ Err StoreError.Failed) }
    {
        match copy_of(alloc, name.as_bytes()) {
            Ok(named) => {
                self.failed_at = named;
                self.calls.fail();
                Err(StoreError::Failed)
            }
            Err(_) => {
                self.calls.pass();
                Err(StoreError::NoMemory)
            }
        }
    }
}

// All that a reader has left, where that is no more than the limit. One byte more than the limit is read at the most.
fn read_within<R: Read + Drop>(alloc: Global, reader: R, limit: usize) -> io::Result<Option<Bytes>>
    ensures whole { IfOk result (λ got. IfSome got (λ bytes. IfSome (R.remaining reader) (λ left. bytes ≡ left))) }
    ensures within { IfOk result (λ got. IfSome got (λ bytes. length bytes ≤ limit)) }
    ensures too_long { result ≡ Ok None → IfSome (R.remaining reader) (λ left. limit < length left) }
{
    let most = (limit as u64).saturating_add(1);
    let mut bytes = Vec::new(alloc);
    reader.take(most).read_to_end(&mut bytes)?;
    if bytes.len() <= limit {
        Ok(Some(Bytes::from_vec(bytes)))
    } else {
        Ok(None)
    }
}

/// The files of the system. It tells nothing of what they hold. A name of anything else, as a folder or a
/// pipe, is a fault.
#[derive(Drop)]
pub struct FileStore<R: Files + Drop> {
    rt: R,
    faults: u64,
    failed_at: Vec<u8>,
}

impl<R: Files + Drop> Model for FileStore<R> {
    ghost use Rattle.dom_edge.specs.Memory.{FileCounts};

    ghost Value = { FileCounts };

    ghost view = { λ s. record { faults = s.faults; failed_at = s.failed_at.items } };
}

impl<R: Files + Drop> FileStore<R> {
    /// The files of the working folder.
    pub fn new(alloc: Global, rt: R) -> Self
        ensures { result ≡ record { faults = 0; failed_at = [] } }
    {
        FileStore {
            rt,
            faults: 0,
            failed_at: Vec::new(alloc),
        }
    }

    /// The name at which a read last failed; empty before.
    pub fn failed_at(&self) -> &[u8]
        ensures { result.now ≡ self.now.failed_at }
    {
        self.failed_at.as_slice()
    }

    // A file that is read to its end, or the word that it is too long. What is no regular file is refused: to open a pipe
    // would wait for somebody who writes into it.
    fn contents(&self, alloc: Global, name: &str, limit: usize) -> io::Result<Option<Bytes>>
        ensures { IfOk result (λ got. IfSome got (λ bytes. length bytes ≤ limit)) }
    {
        if !fs::metadata(&self.rt, name)?.is_file() {
            return Err(io::Error::from(io::ErrorKind::InvalidInput));
        }
        read_within(alloc, fs::open(&self.rt, name)?, limit)
    }
}

impl<R: Files + Drop> Store for FileStore<R> {
    ghost files = { λ _. None };

    ghost faults = { λ s. s.faults };

    ghost failed_at = { λ s. s.failed_at };

    fn read(&mut self, alloc: Global, name: &str, limit: usize) -> Result<Bytes, StoreError>
        ensures reads { ReadsFile None name.now limit result }
        ensures within { IfOk result (λ bytes. length bytes ≤ limit) }
        ensures files { ◌≡◌ {A = Option Files} None None }
        ensures cause { HasCause self.old.faults self.new.faults (result ≡ Err StoreError.Failed) }
        ensures blame { result ≡ Err StoreError.Failed → self.new.failed_at ≡ name.now }
        ensures keeps { result ≢ Err StoreError.Failed → self.new.failed_at ≡ self.old.failed_at }
        ensures counted { IsCounted self.old.faults self.new.faults (result ≡ Err StoreError.Failed) }
    {
        let named = copy_of(alloc, name.as_bytes())?;
        match self.contents(alloc, name, limit) {
            Ok(Some(bytes)) => Ok(bytes),
            Ok(None) => Err(StoreError::TooLong),
            Err(error) if error.kind() == io::ErrorKind::OutOfMemory => Err(StoreError::NoMemory),
            Err(_) => {
                self.failed_at = named;
                self.faults = self.faults.saturating_add(1);
                Err(StoreError::Failed)
            }
        }
    }
}
