//! The events of a hand are written.
ghost use Rattle.std.specs.Prelude.{◌≡◌, ◌+◌, ◌++◌, ◌∷◌, [], List, IfOk, OnErr, OnOk, length};
ghost use Rattle.plant_text.specs.declared.settings.PeerRow.{PeerRow};
ghost use Rattle.event_tape.specs.declared.told.Told.{Told};
ghost use Rattle.plant_record.specs.Books.{Adds, AreLoads, load_files};
ghost use Rattle.plant_record.specs.Faults.{IsJudged};
ghost use Rattle.plant_record.specs.Parts.{Title, loaded_by, tick_after};
ghost use Rattle.plant_record.specs.Standing.{After, Stands};

use crate::fault::Fault;
use crate::files::keep_topology;
use crate::parts::turn_page;
use crate::script::Script;
use dom_edge::{Folder, Moment};
use event_lines::push_line;
use event_tape::Told;
use plant_text::PeerRow;
use std::alloc::Global;

// The moment behind an event.
fn tick_after(tick: u64, told: &Told) -> u64
    ensures { result ≡ tick_after tick told.now }
{
    match told {
        Told::Tick(now) => now.0,
        _ => tick,
    }
}

// Keeps the topology of a load; answers how many loads there are by then.
fn keep_load<F: Folder>(
    alloc: Global,
    folder: &mut F,
    loads: u64,
    told: &Told,
) -> Result<u64, Fault>
    ensures ok { IfOk result (λ now. (now ≡ loads + length (loaded_by told.now)) × Adds (F.contents folder.old) (F.contents folder.new) (load_files loads (loaded_by told.now))) }
    ensures loads { OnOk result (AreLoads loads (loaded_by told.now)) }
    ensures err { OnErr result (Adds (F.contents folder.old) (F.contents folder.new) []) }
    ensures judged { IsJudged F.File.faults (F.faults folder.old) (F.faults folder.new) result }
{
    let Told::Load(_at, topology) = told else {
        return Ok(loads);
    };
    let Some(number) = loads.checked_add(1) else {
        return Err(Fault::NoMemory);
    };
    keep_topology(alloc, folder, number, topology)?;
    Ok(number)
}

// Keeps the topology of an event, if it loads one, and puts its line behind what waits to be written.
fn push_told<F: Folder>(
    alloc: Global,
    folder: &mut F,
    script: &mut Script<F::File>,
    peers: &[PeerRow],
    told: &Told,
) -> Result<(), Fault>
    ensures after { (t : Title) (before : List Told) → Stands F.File.written peers.now t before script.old (F.contents folder.old) → After F.File.written peers.now t (before ++ told.now ∷ []) result script.new (F.contents folder.new) }
    ensures counted { OnOk result (script.new.events ≡ script.old.events + 1) }
    ensures judged { IsJudged F.File.faults (F.faults folder.old) (F.faults folder.new) result }
{
    let Some(events) = script.events.checked_add(1) else {
        return Err(Fault::NoMemory);
    };
    let loads = keep_load(alloc, folder, script.loads, told)?;
    push_line(alloc, peers, loads, told, &mut script.pending)?;
    script.loads = loads;
    script.events = events;
    script.tick = tick_after(script.tick, told);
    Ok(())
}

// The next part begins, where that is due.
fn turn_due_page<F: Folder>(
    alloc: Global,
    folder: &mut F,
    script: &mut Script<F::File>,
    moment: Moment,
) -> Result<(), Fault>
    ensures after { (peers : List PeerRow) (t : Title) (told : List Told) → Stands F.File.written peers t told script.old (F.contents folder.old) → After F.File.written peers t told result script.new (F.contents folder.new) }
    ensures counted { OnOk result (script.new.events ≡ script.old.events) }
    ensures judged { IsJudged F.File.faults (F.faults folder.old) (F.faults folder.new) result }
{
    if script.is_over(moment) {
        turn_page(alloc, folder, script, moment)
    } else {
        Ok(())
    }
}

// One event: it begins a part where that is due.
fn write_event<F: Folder>(
    alloc: Global,
    folder: &mut F,
    script: &mut Script<F::File>,
    peers: &[PeerRow],
    told: &Told,
    moment: Moment,
) -> Result<(), Fault>
    ensures after { (t : Title) (before : List Told) → Stands F.File.written peers.now t before script.old (F.contents folder.old) → After F.File.written peers.now t (before ++ told.now ∷ []) result script.new (F.contents folder.new) }
    ensures counted { OnOk result (script.new.events ≡ script.old.events + 1) }
    ensures judged { IsJudged F.File.faults (F.faults folder.old) (F.faults folder.new) result }
{
    if let Err(fault) = turn_due_page(alloc, folder, script, moment) {
        return Err(fault);
    }
    if let Err(fault) = push_told(alloc, folder, script, peers, told) {
        return Err(fault);
    }
    if script.is_heavy() {
        script.flush()
    } else {
        Ok(())
    }
}

/// Writes the events of a hand: a line each, and before it the topology that it loads.
pub(crate) fn write_hand<F: Folder>(
    alloc: Global,
    folder: &mut F,
    script: &mut Script<F::File>,
    peers: &[PeerRow],
    items: &[Told],
    moment: Moment,
) -> Result<(), Fault>
    ensures after { (t : Title) (before : List Told) → Stands F.File.written peers.now t before script.old (F.contents folder.old) → After F.File.written peers.now t (before ++ items.now) result script.new (F.contents folder.new) }
    ensures counted { OnOk result (script.new.events ≡ script.old.events + length items.now) }
    ensures judged { IsJudged F.File.faults (F.faults folder.old) (F.faults folder.new) result }
{
    for told in items {
        if let Err(why) = write_event(alloc, folder, script, peers, told, moment) {
            return Err(why);
        }
    }
    script.flush()
}
