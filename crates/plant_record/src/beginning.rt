//! The beginning of a record.
ghost use Rattle.std.specs.Prelude.{◌≡◌, List, IfOk, IfSome, OnOk};
ghost use Rattle.plant_text.specs.declared.settings.PeerRow.{PeerRow};
ghost use Rattle.plant_record.specs.Faults.{IsJudged};
ghost use Rattle.plant_record.specs.Parts.{settings_name};
ghost use Rattle.plant_record.specs.Recording.{Begins};

use crate::fault::Fault;
use crate::files::keep_file;
use crate::parts::open_part;
use crate::script::Script;
use dom_base::Text;
use dom_edge::{Calendar, Folder};
use std::alloc::Global;
use std::str::from_utf8;

/// Begins a run: makes a folder that is called by the moment, keeps the settings in it, and opens the first part. Where the folder
/// or one of these files is there already, or can't be made, it fails, and the folder tells the name.
pub fn begin<F: Folder, C: Calendar>(
    alloc: Global,
    folder: &mut F,
    calendar: &mut C,
    settings: &[u8],
    version: &str,
) -> Result<Script<F::File>, Fault>
    ensures begins { IfOk result (λ s. IfSome (F.contents folder.old) (λ _. (peers : List PeerRow) → Begins F.File.written peers (C.last calendar.new) settings.now version.now s (F.contents folder.new))) }
    ensures none { IfOk result (λ s. s.events ≡ 0) }
    ensures judged { IsJudged F.File.faults (F.faults folder.old) (F.faults folder.new) result }
{
    let moment = calendar.now();
    let text = moment.text();
    let Ok(name) = from_utf8(&text) else {
        return Err(Fault::NoMemory);
    };
    let named = Text::copy_of(alloc, name)?;
    let version = Text::copy_of(alloc, version)?;
    folder.enter(alloc, name)?;
    keep_file(alloc, folder, "net.toml", settings)?;
    let mut script = Script::new(alloc, named, version);
    if let Err(fault) = open_part(alloc, folder, &mut script, moment) {
        return Err(fault);
    }
    match script.flush() {
        Ok(()) => Ok(script),
        Err(fault) => Err(fault),
    }
}
