//! The end of a record.
ghost use Rattle.std.specs.Prelude.{◌≡◌, ◌≤◌, List, MatchResult};
ghost use Rattle.plant_text.specs.declared.settings.PeerRow.{PeerRow};
ghost use Rattle.event_tape.specs.declared.told.Told.{Told};
ghost use Rattle.plant_record.specs.Faults.{IsJudged};
ghost use Rattle.plant_record.specs.Parts.{Title};
ghost use Rattle.plant_record.specs.Recording.{Concludes, IsEndBy, IsPart, IsWhole, Leaves, Reaches};
ghost use Rattle.plant_record.specs.Standing.{Breaks, Stands};

use crate::fault::Fault;
use crate::names::{part_name, push_tail};
use crate::parts::close_part;
use crate::recorded::Recorded;
use crate::script::Script;
use dom_edge::Folder;
use event_tape::TapeEnd;
use std::alloc::Global;

// The part that is open is closed as it is, if that can be done.
fn abandon<F: Folder>(alloc: Global, folder: &mut F, script: &mut Script<F::File>)
    ensures part { (peers : List PeerRow) (t : Title) (told : List Told) → Breaks F.File.written peers t told script.old (F.contents folder.old) → IsPart peers t told (F.contents folder.new) }
    ensures later { F.faults folder.old ≤ F.faults folder.new }
{
    let Ok(name) = part_name(alloc, script.number) else {
        return;
    };
    if let Some(file) = script.file.take() {
        let _closed = folder.close(alloc, name.as_str(), file);
    }
}

// The last part ends, with a last line where the tape ended.
fn close_last<F: Folder>(
    alloc: Global,
    folder: &mut F,
    script: &mut Script<F::File>,
    ended: Option<TapeEnd>,
) -> Result<(), Fault>
    ensures after { (peers : List PeerRow) (t : Title) (told : List Told) → Stands F.File.written peers t told script.old (F.contents folder.old) →
        MatchResult result (λ _. IsWhole peers t told ended (F.contents folder.new)) (λ _. Breaks F.File.written peers t told script.new (F.contents folder.new)) }
    ensures judged { IsJudged F.File.faults (F.faults folder.old) (F.faults folder.new) result }
{
    push_tail(ended, &mut script.pending)?;
    if let Err(fault) = script.flush() {
        return Err(fault);
    }
    close_part(alloc, folder, script)
}

// The last part is closed, or what was begun is left as it is.
fn conclude<F: Folder>(
    alloc: Global,
    folder: &mut F,
    script: &mut Script<F::File>,
    ended: Option<TapeEnd>,
    end: Recorded,
) -> Recorded
    ensures after { (peers : List PeerRow) (t : Title) (told : List Told) → Stands F.File.written peers t told script.old (F.contents folder.old) → Concludes peers t told ended end result (F.contents folder.new) }
    ensures judged { IsEndBy F.File.faults (F.faults folder.old) (F.faults folder.new) end result }
{
    match close_last(alloc, folder, script, ended) {
        Ok(()) => end,
        Err(fault) => {
            abandon(alloc, folder, script);
            Recorded::Fault(fault)
        }
    }
}

/// Ends a record: the last part is closed, with a last line where the tape ended. Behind a fault what was begun is closed as it is,
/// if that can be done.
pub(crate) fn finish<F: Folder>(
    alloc: Global,
    folder: &mut F,
    script: &mut Script<F::File>,
    end: Recorded,
) -> Recorded
    ensures leaves { (peers : List PeerRow) (t : Title) (told : List Told) → Reaches F.File.written peers t told end script.old (F.contents folder.old) → Leaves peers t told result (F.contents folder.new) }
    ensures judged { IsEndBy F.File.faults (F.faults folder.old) (F.faults folder.new) end result }
{
    match end {
        Recorded::Ended(why) => conclude(alloc, folder, script, Some(why), end),
        Recorded::Fault(fault) => {
            abandon(alloc, folder, script);
            Recorded::Fault(fault)
        }
        Recorded::Turns | Recorded::Spent(_) | Recorded::Lost => {
            conclude(alloc, folder, script, None, end)
        }
    }
}
