//! What a record is asked for with, and its beginning.
ghost use Rattle.std.specs.Prelude.{◌≡◌, IfErr};
ghost use Rattle.network_serving.specs.Records.{HasFault, IsNoRecord};

use crate::served::Served;
use dom_base::{NoMemory, Text};
use dom_edge::{Calendar, FileFolder, Folder, MemoryFolder, Sink};
use plant_record::{Fault, Script, begin};
use std::alloc::Global;
use std::rt::Files;
use std::str::from_utf8;

/// A folder that tells at which name it last failed.
pub trait Blames: Folder {
    /// The name at which a call last failed; empty before.
    fn blamed(&self) -> &[u8]
        ensures { result.now ≡ Self.failed_at self.now };
}

impl Blames for MemoryFolder {
    fn blamed(&self) -> &[u8] {
        self.failed_at()
    }
}

impl<R: Files + Drop> Blames for FileFolder<R> {
    fn blamed(&self) -> &[u8] {
        self.failed_at()
    }
}

/// What a record is asked for with: the folder in which the folder of the run is made, and what that is called; the calendar that names
/// the run; the version of the program, as the record tells it; and where it is said that the record ended.
#[derive(Drop)]
pub struct Recording<G: Blames + Drop, M: Calendar + Drop, E: Sink + Drop> {
    pub folder: G,
    pub place: Text,
    pub calendar: M,
    pub version: Text,
    pub log: E,
}

// The path of a name in a folder that is called so; of no name the folder itself.
fn path_in(alloc: Global, place: &str, name: &[u8]) -> Result<Text, NoMemory> {
    let mut path = place.to_string(alloc)?;
    if let Ok(name) = from_utf8(name)
        && !name.is_empty()
    {
        path.push_str("/")?;
        path.push_str(name)?;
    }
    Ok(Text::from_string(path))
}

// There is no record, since of this name in the folder nothing could be made.
fn no_record(alloc: Global, place: &str, name: &[u8]) -> Served
    ensures { IsNoRecord (Unit {0}) result }
{
    match path_in(alloc, place, name) {
        Ok(path) => Served::NoRecord(path),
        Err(_) => Served::NoMemory,
    }
}

/// Begins the run of a record: its folder, the settings in it, and the first part of its script.
pub(crate) fn begin_script<G: Blames + Drop, M: Calendar + Drop, E: Sink + Drop>(
    alloc: Global,
    recording: &mut Recording<G, M, E>,
    settings: &[u8],
) -> Result<Script<G::File>, Served>
    ensures err { IfErr result (IsNoRecord (HasFault G.File.faults (G.faults recording.old.folder) (G.faults recording.new.folder))) }
{
    let version = recording.version.as_str();
    match begin(
        alloc,
        &mut recording.folder,
        &mut recording.calendar,
        settings,
        version,
    ) {
        Ok(script) => Ok(script),
        Err(Fault::NoMemory) => Err(Served::NoMemory),
        Err(Fault::Folder) => {
            Err(no_record(alloc, recording.place.as_str(), recording.folder.blamed()))
        }
        Err(Fault::Write) => Err(no_record(alloc, recording.place.as_str(), b"")),
    }
}
