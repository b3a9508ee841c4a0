//! Folders in which files are made once: the trait, and its form in memory.
ghost use Rattle.std.specs.Prelude.{◌≡◌, ◌≢◌, ◌⊎◌, ◌↔◌, List, ℕ, [], ◌∷◌, ◌++◌, drop, IfOk, OnOk, OnErr, IsTrue, MatchResult, Some, Ok, Err, Contains};
ghost use Rattle.std.specs.declared.option.Option.{Option};
ghost use Rattle.dom_edge.specs.Causes.{HasCause};
ghost use Rattle.dom_edge.specs.Folders.{Contents, Makes, Closes, Enters, Named, IsRefused, MayClose, first_plan};
ghost use Rattle.dom_edge.specs.declared.folder.FolderError.TheVariants as faults;
ghost use Rattle.dom_edge.specs.Memory.{SinkState, IsPlanned, IsCalled, no_calls};

use crate::calls::PlannedCalls;
use crate::named::MemoryFile;
use crate::sink::{MemorySink, Sink};
use crate::supply::Supply;
use dom_base::{Bytes, List as Rows, NoMemory, Text};
use std::alloc::Global;
use std::marker::Model;

/// Why a folder did not do what was asked: it could not (a name that is there already is a fault), or
/// memory ran out.
#[derive(Clone, Copy)]
pub enum FolderError {
    Failed,
    NoMemory,
}

impl From<NoMemory> for FolderError {
    ghost from_gives = { λ _ e. e ≡ faults.NoMemory };

    fn from(_: NoMemory) -> Self {
        FolderError::NoMemory
    }
}

/// A folder. A file in it is made once, and never written over.
pub trait Folder {
    /// The files that are made in it.
    type File: Sink + Drop;

    /// What stands in it, where that is told.
    ghost contents: { Self → Option Contents };

    /// How often a call has failed. The count never falls, and stands still at the end of its type.
    ghost faults: { Self → ℕ };

    /// The name at which a call last failed, which is always told.
    ghost failed_at: { Self → List ℕ };

    /// Makes a folder of that name in this one, and goes into it: from now on files are made there.
    fn enter(&mut self, alloc: Global, name: &str) -> Result<(), FolderError>
        ensures enters { Enters (contents self.old) (contents self.new) name.now result }
        ensures cause { HasCause (faults self.old) (faults self.new) (result ≡ Err FolderError.Failed) }
        ensures blame { result ≡ Err FolderError.Failed → failed_at self.new ≡ name.now }
        ensures keeps { result ≢ Err FolderError.Failed → failed_at self.new ≡ failed_at self.old };

    /// Makes a file of that name, which is empty. It fails where there is one already.
    fn create(&mut self, alloc: Global, name: &str) -> Result<Self::File, FolderError>
        ensures makes { Makes Self.File.written (contents self.old) (contents self.new) name.now result }
        ensures cause { HasCause (faults self.old) (faults self.new) (result ≡ Err FolderError.Failed) }
        ensures blame { result ≡ Err FolderError.Failed → failed_at self.new ≡ name.now }
        ensures keeps { result ≢ Err FolderError.Failed → failed_at self.new ≡ failed_at self.old };

    /// Closes a file that was made under that name, behind all that was written to it. It fails where the
    /// file is of another name, or can't be kept. Either way it takes nothing more.
    fn close(&mut self, alloc: Global, name: &str, file: Self::File) -> Result<(), FolderError>
        ensures closes { Closes (contents self.old) (contents self.new) name.now (Self.File.written file) result }
        ensures cause { HasCause (faults self.old) (faults self.new) (result ≡ Err FolderError.Failed) }
        ensures blame { result ≡ Err FolderError.Failed → failed_at self.new ≡ name.now }
        ensures keeps { result ≢ Err FolderError.Failed → failed_at self.new ≡ failed_at self.old };
}

// Whether a name is one of these.
#[tactic(auto, using(crate::proofs::Names::is_there))]
fn is_among(names: &[Text], name: &str) -> bool
    ensures { IsTrue result ↔ Contains names.now name.now }
{
    names.iter().any(|known| name == known.as_str())
}

/// A folder in memory. The calls whose numbers, from 0, are in `fails` fail.
#[derive(Drop)]
pub struct MemoryFolder {
    names: Rows<Text>,
    closed: Rows<(Text, Bytes)>,
    failed_at: Vec<u8>,
    plans: Supply<Rows<u64>>,
    calls: PlannedCalls,
}

impl Model for MemoryFolder {
    ghost use Rattle.dom_edge.specs.Folders.{FolderState};

    ghost Value = { FolderState };

    ghost view = { λ f. record {
      contents = record { names = f.names; closed = f.closed };
      failed_at = f.failed_at.items;
      plans = f.plans;
      calls = f.calls;
    } };
}

impl MemoryFolder {
    /// A folder in memory that has these names already. Calls whose numbers, from 0, stand in `fails` fail. The first
    /// file that is made fails at the writes whose numbers stand in the first of `plans`, the second at those in the
    /// second, and files behind the last take all.
    pub fn new(alloc: Global, names: Rows<Text>, plans: Rows<Rows<u64>>, fails: Rows<u64>) -> Self
        ensures { result ≡ record { contents = record { names = names; closed = [] }; failed_at = []; plans = plans; calls = no_calls fails } }
    {
        MemoryFolder {
            names,
            closed: Rows::new(alloc),
            failed_at: Vec::new(alloc),
            plans: Supply::new(plans),
            calls: PlannedCalls::new(fails),
        }
    }

    /// The files that were closed, with their names, oldest first.
    pub fn closed(&self) -> &[(Text, Bytes)]
        ensures { result.now ≡ self.now.contents.closed }
    {
        self.closed.as_slice()
    }

    /// The name at which a call last failed; empty before.
    pub fn failed_at(&self) -> &[u8]
        ensures { result.now ≡ self.now.failed_at }
    {
        self.failed_at.as_slice()
    }
}

impl Folder for MemoryFolder {
    type File = MemoryFile;

    ghost contents = { λ f. Some f.contents };

    ghost faults = { λ f. f.calls.faults };

    ghost failed_at = { λ f. f.failed_at };

    /// Fails only where the call is one that is to fail, or the name is there.
    fn enter(&mut self, alloc: Global, name: &str) -> Result<(), FolderError>
        ensures enters { Enters (Some self.old.contents) (Some self.new.contents) name.now result }
        ensures cause { HasCause self.old.calls.faults self.new.calls.faults (result ≡ Err FolderError.Failed) }
        ensures blame { result ≡ Err FolderError.Failed → self.new.failed_at ≡ name.now }
        ensures keeps { result ≢ Err FolderError.Failed → self.new.failed_at ≡ self.old.failed_at }
        ensures fault { result ≡ Err FolderError.Failed → IsRefused self.old name.now }
        ensures refused { IsRefused self.old name.now → (result ≡ Err FolderError.Failed) ⊎ (result ≡ Err FolderError.NoMemory) }
        ensures called { IsCalled self.old.calls self.new.calls (result ≡ Err FolderError.Failed) }
        ensures plans { self.new.plans ≡ self.old.plans }
    {
        if self.refuses(name) {
            return self.fail(alloc, name);
        }
        self.calls.pass();
        self.names = Rows::new(alloc);
        self.closed = Rows::new(alloc);
        Ok(())
    }

    /// Fails only where the call is one that is to fail, or the name is there.
    fn create(&mut self, alloc: Global, name: &str) -> Result<MemoryFile, FolderError>
        ensures makes { Makes (λ (f : Named SinkState). Some f.sink.written) (Some self.old.contents) (Some self.new.contents) name.now result }
        ensures cause { HasCause self.old.calls.faults self.new.calls.faults (result ≡ Err FolderError.Failed) }
        ensures blame { result ≡ Err FolderError.Failed → self.new.failed_at ≡ name.now }
        ensures keeps { result ≢ Err FolderError.Failed → self.new.failed_at ≡ self.old.failed_at }
        ensures fault { result ≡ Err FolderError.Failed → IsRefused self.old name.now }
        ensures refused { IsRefused self.old name.now → (result ≡ Err FolderError.Failed) ⊎ (result ≡ Err FolderError.NoMemory) }
        ensures called { IsCalled self.old.calls self.new.calls (result ≡ Err FolderError.Failed) }
        ensures file { IfOk result (λ f. (f ≡ record { name = name.now; sink = record { written = []; calls = no_calls (first_plan self.old.plans) } }) × (self.new.plans ≡ drop 1 self.old.plans)) }
    {
        if self.refuses(name) {
            return self.fail(alloc, name);
        }
        self.calls.pass();
        self.make(alloc, name)
    }

    /// Fails only where the call is one that is to fail, or no file of that name is given.
    fn close(&mut self, alloc: Global, name: &str, file: MemoryFile) -> Result<(), FolderError>
        ensures closes { Closes (Some self.old.contents) (Some self.new.contents) name.now (Some file.sink.written) result }
        ensures cause { HasCause self.old.calls.faults self.new.calls.faults (result ≡ Err FolderError.Failed) }
        ensures blame { result ≡ Err FolderError.Failed → self.new.failed_at ≡ name.now }
        ensures keeps { result ≢ Err FolderError.Failed → self.new.failed_at ≡ self.old.failed_at }
        ensures fault { result ≡ Err FolderError.Failed → ¬ MayClose self.old name.now file.name }
        ensures refused { ¬ MayClose self.old name.now file.name → (result ≡ Err FolderError.Failed) ⊎ (result ≡ Err FolderError.NoMemory) }
        ensures called { IsCalled self.old.calls self.new.calls (result ≡ Err FolderError.Failed) }
        ensures plans { self.new.plans ≡ self.old.plans }
    {
        let (given, bytes) = file.into_parts();
        if !self.may_close(&given, name) {
            return self.fail(alloc, name);
        }
        self.calls.pass();
        Ok(self.keep(given, bytes)?)
    }
}

impl MemoryFolder {
    // Whether the next call is to fail, or the name is there.
    fn refuses(&self, name: &str) -> bool
        ensures { IsTrue result ↔ IsRefused self.now name.now }
    {
        self.calls.is_planned() || is_among(self.names.as_slice(), name)
    }

    // Whether the next call is not to fail, and the file is the one of that name.
    fn may_close(&self, given: &Text, name: &str) -> bool
        ensures { IsTrue result ↔ MayClose self.now name.now given.now }
    {
        !self.calls.is_planned() && given.as_str() == name && is_among(self.names.as_slice(), name)
    }

    // Puts a file behind those that were closed.
    fn keep(&mut self, name: Text, bytes: Bytes) -> Result<(), NoMemory>
        ensures ok { OnOk result (self.new.contents ≡ record { names = self.old.contents.names; closed = self.old.contents.closed ++ (name, bytes) ∷ [] }) }
        ensures err { OnErr result (self.new.contents ≡ self.old.contents) }
        ensures failed_at { self.new.failed_at ≡ self.old.failed_at }
        ensures plans { self.new.plans ≡ self.old.plans }
        ensures calls { self.new.calls ≡ self.old.calls }
    {
        self.closed.push((name, bytes))
    }

    // A file of a name that the folder has not.
    fn make(&mut self, alloc: Global, name: &str) -> Result<MemoryFile, FolderError>
        ensures made { MatchResult result
            (λ f. (f ≡ record { name = name.now; sink = record { written = []; calls = no_calls (first_plan self.old.plans) } })
            × (self.new.contents ≡ record { names = self.old.contents.names ++ name.now ∷ []; closed = self.old.contents.closed })
            × (self.new.plans ≡ drop 1 self.old.plans))
            (λ e. (e ≡ FolderError.NoMemory) × (self.new.contents ≡ self.old.contents)) }
        ensures failed_at { self.new.failed_at ≡ self.old.failed_at }
        ensures calls { self.new.calls ≡ self.old.calls }
    {
        let known = Text::copy_of(alloc, name)?;
        let named = Text::copy_of(alloc, name)?;
        self.names.push(known)?;
        let fails = self.plans.next().unwrap_or(Rows::new(alloc));
        Ok(MemoryFile::new(named, MemorySink::new(alloc, fails)))
    }

    // A call that fails, unless there is no memory to keep the name in.
    fn fail<T: Drop>(&mut self, alloc: Global, name: &str) -> Result<T, FolderError>
        ensures answer { (result ≡ Err FolderError.Failed) ⊎ (result ≡ Err FolderError.NoMemory) }
        ensures contents { self.new.contents ≡ self.old.contents }
        ensures plans { self.new.plans ≡ self.old.plans }
        ensures blame { result ≡ Err FolderError.Failed → self.new.failed_at ≡ name.now }
        ensures keeps { result ≢ Err FolderError.Failed → self.new.failed_at ≡ self.old.failed_at }
        ensures called { IsCalled self.old.calls self.new.calls (result ≡ Err FolderError.Failed) }
        ensures cause { HasCause self.old.calls.faults self.new.calls.faults (result ≡ Err FolderError.Failed) }
    {
        match name.as_bytes().to_vec(alloc) {
            Ok(named) => {
                self.failed_at = named;
                self.calls.fail();
                Err(FolderError::Failed)
            }
            Err(_) => {
                self.calls.pass();
                Err(FolderError::NoMemory)
            }
        }
    }
}
