//! Parts are opened and closed.
ghost use Rattle.std.specs.Prelude.{◌≡◌, ◌++◌, ◌∷◌, [], List, OnOk, codes, decimal};
ghost use Rattle.plant_text.specs.declared.settings.PeerRow.{PeerRow};
ghost use Rattle.event_tape.specs.declared.told.Told.{Told};
ghost use Rattle.plant_record.specs.Faults.{IsJudged};
ghost use Rattle.plant_record.specs.Parts.{Title};
ghost use Rattle.plant_record.specs.Standing.{After, ClosesPart, IsBetween, Stands};

use crate::fault::Fault;
use crate::names::part_name;
use crate::script::Script;
use dom_base::{NoMemory, write_number};
use dom_edge::{Folder, Moment, Sink};
use std::alloc::Global;

fn push_numbered(words: &[u8], number: u64, into: &mut Vec<u8>) -> Result<(), NoMemory>
    ensures { OnOk result (into.new.items ≡ into.old.items ++ words.now ++ decimal number) }
{
    into.extend_from_slice(words)?;
    write_number(number, into)
}

fn push_named(words: &[u8], name: &[u8], into: &mut Vec<u8>) -> Result<(), NoMemory>
    ensures { OnOk result (into.new.items ≡ into.old.items ++ words.now ++ name.now) }
{
    into.extend_from_slice(words)?;
    into.extend_from_slice(name)?;
    Ok(())
}

// The comment with which the part of this number begins; the number of its first event is this.
fn push_head<F: Sink + Drop>(
    script: &Script<F>,
    number: u64,
    event: u64,
    moment: &[u8],
    into: &mut Vec<u8>,
) -> Result<(), NoMemory>
    ensures { OnOk result (into.new.items ≡ into.old.items ++ codes "# record " ++ script.now.name ++ codes " part " ++ decimal number ++ codes " tick " ++ decimal script.now.tick ++ codes " event " ++ decimal event ++ codes " at " ++ moment.now ++ codes " by " ++ script.now.version ++ 10 ∷ []) }
{
    push_named(b"# record ", script.name.as_str().as_bytes(), into)?;
    push_numbered(b" part ", number, into)?;
    push_numbered(b" tick ", script.tick, into)?;
    push_numbered(b" event ", event, into)?;
    push_named(b" at ", moment, into)?;
    push_named(b" by ", script.version.as_str().as_bytes(), into)?;
    into.push(b'\n')?;
    Ok(())
}

/// Opens the next part, which begins at this moment. Its comment waits to be written.
pub(crate) fn open_part<F: Folder>(
    alloc: Global,
    folder: &mut F,
    script: &mut Script<F::File>,
    moment: Moment,
) -> Result<(), Fault>
    ensures after { (peers : List PeerRow) (t : Title) (told : List Told) → IsBetween peers t told script.old (F.contents folder.old) → After F.File.written peers t told result script.new (F.contents folder.new) }
    ensures counted { OnOk result (script.new.events ≡ script.old.events) }
    ensures judged { IsJudged F.File.faults (F.faults folder.old) (F.faults folder.new) result }
{
    let Some(number) = script.number.checked_add(1) else {
        return Err(Fault::NoMemory);
    };
    let Some(event) = script.events.checked_add(1) else {
        return Err(Fault::NoMemory);
    };
    let mut head = Vec::new(alloc);
    push_head(script, number, event, &moment.text(), &mut head)?;
    let name = part_name(alloc, number)?;
    let file = folder.create(alloc, name.as_str())?;
    script.file = Some(file);
    script.number = number;
    script.octets = 0;
    script.day = moment.day();
    script.pending = head;
    Ok(())
}

/// Closes the part that is open, if one is.
pub(crate) fn close_part<F: Folder>(
    alloc: Global,
    folder: &mut F,
    script: &mut Script<F::File>,
) -> Result<(), Fault>
    ensures closes { ClosesPart F.File.written result script.old script.new (F.contents folder.old) (F.contents folder.new) }
    ensures judged { IsJudged F.File.faults (F.faults folder.old) (F.faults folder.new) result }
{
    let name = part_name(alloc, script.number)?;
    let Some(file) = script.file.take() else {
        return Ok(());
    };
    folder.close(alloc, name.as_str(), file)?;
    Ok(())
}

/// Ends the part that is open, and opens the next.
pub(crate) fn turn_page<F: Folder>(
    alloc: Global,
    folder: &mut F,
    script: &mut Script<F::File>,
    moment: Moment,
) -> Result<(), Fault>
    ensures after { (peers : List PeerRow) (t : Title) (told : List Told) → Stands F.File.written peers t told script.old (F.contents folder.old) → After F.File.written peers t told result script.new (F.contents folder.new) }
    ensures counted { OnOk result (script.new.events ≡ script.old.events) }
    ensures judged { IsJudged F.File.faults (F.faults folder.old) (F.faults folder.new) result }
{
    if let Err(fault) = script.flush() {
        return Err(fault);
    }
    if let Err(fault) = close_part(alloc, folder, script) {
        return Err(fault);
    }
    open_part(alloc, folder, script, moment)
}
