//! What a desk hands out is written, hand by hand.
ghost use Rattle.std.specs.Prelude.{◌≡◌, ◌≢◌, ◌++◌, [], List, Err};
ghost use Rattle.event_tape.specs.declared.told.Told.{Told as Event};
ghost use Rattle.plant_record.specs.Parts.{Title};
ghost use Rattle.plant_record.specs.Recording.{Leaves, Records};
ghost use Rattle.plant_record.specs.Standing.{Stands};
ghost use Rattle.plant_record.specs.Steps.{Counts, GoesOn, IsHandTaken, end_of};

use crate::desks::{Pause, TapeDesk};
use crate::ending::finish;
use crate::hands::write_hand;
use crate::recorded::Recorded;
use crate::script::Script;
use dom_base::List as Rows;
use dom_edge::{Calendar, Folder};
use event_tape::{Handed, Told};
use plant_text::PeerRow;
use std::alloc::Global;

// Writes a hand, and answers its items, or how the record ends with it.
fn take_hand<F: Folder, C: Calendar>(
    alloc: Global,
    folder: &mut F,
    calendar: &mut C,
    peers: &[PeerRow],
    script: &mut Script<F::File>,
    handed: Handed,
) -> Result<Rows<Told>, Recorded>
    ensures { IsHandTaken F.File.faults (F.faults folder.old) (F.faults folder.new) handed script.old.events script.new.events result (λ end. GoesOn F.File.written peers.now end script.old script.new (F.contents folder.old) (F.contents folder.new)) }
{
    let Handed {
        items,
        before,
        ended,
    } = handed;
    if before != script.events {
        return Err(Recorded::Lost);
    }
    let moment = calendar.now();
    if let Err(fault) = write_hand(alloc, folder, script, peers, items.as_slice(), moment) {
        return Err(Recorded::Fault(fault));
    }
    match ended {
        Some(why) => Err(Recorded::Ended(why)),
        None => Ok(items),
    }
}

// The same list without its items. They are dropped here, since the tape drops what is left under the lock.
fn emptied(items: Rows<Told>) -> Rows<Told>
    ensures { result ≡ [] }
{
    let mut items = items.into_vec();
    items.clear();
    Rows::from_vec(items)
}

// One turn: a hand is asked for and written.
fn turn<D: TapeDesk, F: Folder, C: Calendar>(
    alloc: Global,
    desk: &mut D,
    folder: &mut F,
    calendar: &mut C,
    peers: &[PeerRow],
    script: &mut Script<F::File>,
    room: Rows<Told>,
) -> Result<Rows<Told>, Recorded>
    ensures turned { Records F.File.faults (F.faults folder.old) (F.faults folder.new) 1 script.old.events (end_of result) (D.handed desk.old) (D.handed desk.new)
        (λ more. Counts result script.old.events script.new.events more × GoesOn F.File.written peers.now (end_of result) script.old script.new (F.contents folder.old) (F.contents folder.new) more) }
    ensures goes_on { result ≢ Err Recorded.Turns }
{
    match desk.hand(room) {
        Ok(handed) => take_hand(alloc, folder, calendar, peers, script, handed),
        Err(number) => Err(Recorded::Spent(number)),
    }
}

// All turns.
fn run<D: TapeDesk, F: Folder, C: Calendar, P: Pause>(
    alloc: Global,
    desk: &mut D,
    folder: &mut F,
    calendar: &mut C,
    pause: &mut P,
    peers: &[PeerRow],
    script: &mut Script<F::File>,
    turns: u64,
) -> Recorded
    ensures { Records F.File.faults (F.faults folder.old) (F.faults folder.new) turns script.old.events result (D.handed desk.old) (D.handed desk.new) (GoesOn F.File.written peers.now result script.old script.new (F.contents folder.old) (F.contents folder.new)) }
{
    let mut room = Rows::new(alloc);
    for _turn in 0..turns {
        match turn(alloc, desk, folder, calendar, peers, script, room) {
            Ok(items) => room = emptied(items),
            Err(end) => return end,
        }
        pause.pause();
    }
    Recorded::Turns
}

/// Writes what the desk hands out into the folder of the run, which was begun with this script: in each turn it asks for a hand,
/// and writes a line for each event, behind the file of the topology that it loads. A part ends where another day has begun (UTC),
/// or where it may have no room for one more line. Between two turns it pauses.
///
/// A script that goes on behind a fault would have a gap: so behind a failed call nothing more is written.
pub fn record<D: TapeDesk, F: Folder, C: Calendar, P: Pause>(
    alloc: Global,
    desk: &mut D,
    folder: &mut F,
    calendar: &mut C,
    pause: &mut P,
    peers: &[PeerRow],
    script: &mut Script<F::File>,
    turns: u64,
) -> Recorded
    ensures { Records F.File.faults (F.faults folder.old) (F.faults folder.new) turns script.old.events result (D.handed desk.old) (D.handed desk.new) (λ more. (t : Title) (before : List Event) → Stands F.File.written peers.now t before script.old (F.contents folder.old) → Leaves peers.now t (before ++ more) result (F.contents folder.new)) }
{
    let end = run(alloc, desk, folder, calendar, pause, peers, script, turns);
    finish(alloc, folder, script, end)
}
