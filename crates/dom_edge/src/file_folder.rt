//! The folders of the system, in which files are made once.
ghost use Rattle.std.specs.Prelude.{◌≡◌, ◌≢◌, [], IfOk, Err, None};
ghost use Rattle.dom_edge.specs.Causes.{HasCause, IsCounted};
ghost use Rattle.dom_edge.specs.Folders.{path_below};

use crate::folder::{Folder, FolderError};
use crate::named::NamedFile;
use crate::sink::OutputSink;
use dom_base::{NoMemory, Text};
use std::alloc::Global;
use std::fs::{self, File, OpenFile};
use std::io::{self, Write};
use std::marker::Model;
use std::rt::Files;

/// A folder of the system. It tells nothing of what stands in it. A file is made by the one call of the system
/// that makes it or refuses, so that nothing is written over; where it is closed, the system is waited for until
/// what was written is on the disk.
#[derive(Drop)]
pub struct FileFolder<R: Files + Drop> {
    rt: R,
    path: Text,
    faults: u64,
    failed_at: Vec<u8>,
}

impl<R: Files + Drop> Model for FileFolder<R> {
    ghost use Rattle.dom_edge.specs.Folders.{FolderCounts};

    ghost Value = { FolderCounts };

    ghost view = { λ f. record { path = f.path; faults = f.faults; failed_at = f.failed_at.items } };
}

impl<R: Files + Drop> FileFolder<R> {
    /// The folder of that path.
    pub fn new(alloc: Global, rt: R, path: Text) -> Self
        ensures { result ≡ record { path = path; faults = 0; failed_at = [] } }
    {
        FileFolder {
            rt,
            path,
            faults: 0,
            failed_at: Vec::new(alloc),
        }
    }

    /// The name at which a call last failed; empty before.
    pub fn failed_at(&self) -> &[u8]
        ensures { result.now ≡ self.now.failed_at }
    {
        self.failed_at.as_slice()
    }

    // The path of a name in this folder.
    fn path_of(&self, alloc: Global, name: &str) -> Result<Text, NoMemory>
        ensures { IfOk result (λ path. path ≡ path_below self.now.path name.now) }
    {
        let mut path = self.path.as_str().to_string(alloc)?;
        path.push_str("/")?;
        path.push_str(name)?;
        Ok(Text::from_string(path))
    }

    // What the system did for a name; a refusal of memory apart, where it did not, the name and the fault are kept.
    fn judge<T: Drop>(&mut self, named: Vec<u8>, done: io::Result<T>) -> Result<T, FolderError>
        ensures path { self.new.path ≡ self.old.path }
        ensures cause { HasCause self.old.faults self.new.faults (result ≡ Err FolderError.Failed) }
        ensures counted { IsCounted self.old.faults self.new.faults (result ≡ Err FolderError.Failed) }
        ensures blame { result ≡ Err FolderError.Failed → self.new.failed_at ≡ named.items }
        ensures keeps { result ≢ Err FolderError.Failed → self.new.failed_at ≡ self.old.failed_at }
    {
        match done {
            Ok(value) => Ok(value),
            Err(error) if error.kind() == io::ErrorKind::OutOfMemory => Err(FolderError::NoMemory),
            Err(_) => {
                self.failed_at = named;
                self.faults = self.faults.saturating_add(1);
                Err(FolderError::Failed)
            }
        }
    }
}

// A copy of a name.
fn copy_of(alloc: Global, name: &str) -> Result<Vec<u8>, NoMemory>
    ensures { IfOk result (λ v. v.items ≡ name.now) }
{
    Ok(name.as_bytes().to_vec(alloc)?)
}

// Waits until what was written to a file is on the disk, where the file is of that name.
fn sync<F: Write + OpenFile + Drop>(name: &str, file: NamedFile<OutputSink<F>>) -> io::Result<()> {
    let (known, sink) = file.into_parts();
    if known.as_str() == name {
        sink.into_writer().sync_data()
    } else {
        Err(io::Error::from(io::ErrorKind::InvalidInput))
    }
}

impl<R: Files + Drop> Folder for FileFolder<R> {
    type File = NamedFile<OutputSink<R::File>>;

    ghost contents = { λ _. None };

    ghost faults = { λ f. f.faults };

    ghost failed_at = { λ f. f.failed_at };

    fn enter(&mut self, alloc: Global, name: &str) -> Result<(), FolderError> {
        let named = copy_of(alloc, name)?;
        let path = self.path_of(alloc, name)?;
        let made = fs::create_dir(&self.rt, path.as_str());
        self.judge(named, made)?;
        self.path = path;
        Ok(())
    }

    fn create(
        &mut self,
        alloc: Global,
        name: &str,
    ) -> Result<NamedFile<OutputSink<R::File>>, FolderError> {
        let named = copy_of(alloc, name)?;
        let known = Text::copy_of(alloc, name)?;
        let path = self.path_of(alloc, name)?;
        let made = File::create_new(&self.rt, path.as_str());
        let file = self.judge(named, made)?;
        Ok(NamedFile::new(known, OutputSink::new(file)))
    }

    fn close(
        &mut self,
        alloc: Global,
        name: &str,
        file: NamedFile<OutputSink<R::File>>,
    ) -> Result<(), FolderError> {
        let named = copy_of(alloc, name)?;
        let done = sync(name, file);
        self.judge(named, done)
    }
}
