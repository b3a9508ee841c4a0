//! What writes the record of a server.
ghost use Rattle.std.specs.Prelude.{◌≡◌, ℕ, Some};
ghost use Rattle.plant_record.specs.Hands.{Goes};
ghost use Rattle.turn_desk.specs.Desks.{IsStill, stand_of};
ghost use Rattle.turn_desk.specs.Seats.{seat_of};
ghost use Rattle.network_serving.specs.Bases.{Desk, base_of};
ghost use Rattle.network_serving.specs.Records.{IsLeft, hands_at};

use crate::footing::Footing;
use crate::telling::tell_record_end;
use dom_base::List as Rows;
use dom_edge::{Calendar, Folder, Sink};
use event_tape::{Handed, TapeEnd, Told};
use plant_record::{Fault, Nap, Recorded, Script, TapeDesk, record};
use plant_text::Network;
use std::alloc::Global;
use std::sync::Wait;
use std::time::Clock;
use turn_desk::TurnDesk;

/// A desk through which the tape is handed out, and how far that came.
#[derive(Drop)]
pub struct TapeSeat<R: Wait + Clock + Drop> {
    desk: TurnDesk<R>,
    // how many events were handed out before the last hand, and with it
    before: u64,
    now: u64,
}

impl<R: Wait + Clock + Drop> TapeSeat<R> {
    /// Nothing was handed out through it yet.
    pub(crate) fn new(desk: TurnDesk<R>) -> Self
        ensures { result.desk ≡ desk }
    {
        TapeSeat {
            desk,
            before: 0,
            now: 0,
        }
    }

    // How many events surely stand in a record that ended so.
    fn written(&self, end: Recorded) -> u64 {
        match end {
            Recorded::Fault(_) => self.before,
            _ => self.now,
        }
    }

    // The tape takes nothing more, where it has not ended by itself; and the server need not wait for its record.
    fn leave(&mut self, end: Recorded)
        ensures stays { IsStill (stand_of self.old.desk) (stand_of self.new.desk) }
        ensures same { (hands_at (seat_of self.new.desk)).hands ≡ (hands_at (seat_of self.old.desk)).hands }
        ensures spent { (t : ℕ) → (seat_of self.old.desk).spent ≡ Some t → (seat_of self.new.desk).spent ≡ Some t }
        ensures left { IsLeft end (seat_of self.new.desk) }
    {
        if !matches!(end, Recorded::Ended(_)) {
            let _stopped = self.desk.stop();
        }
        self.desk.end_record();
    }
}

impl<R: Wait + Clock + Drop> TapeDesk for TapeSeat<R> {
    ghost use Rattle.turn_desk.specs.Seats.{seat_of};
    ghost use Rattle.network_serving.specs.Records.{hands_at};

    ghost handed = { λ s. hands_at (seat_of s.desk) };

    fn hand(&mut self, room: Rows<Told>) -> Result<Handed, u64>
        ensures goes { Goes (hands_at (seat_of self.old.desk)) (hands_at (seat_of self.new.desk)) result }
        ensures stays { IsStill (stand_of self.old.desk) (stand_of self.new.desk) }
    {
        match self.desk.hand(room) {
            Ok(handed) => {
                self.before = handed.before;
                self.now = handed
                    .before
                    .saturating_add(handed.items.as_slice().len() as u64);
                Ok(handed)
            }
            Err(number) => Err(number),
        }
    }
}

/// Writes the record of a server: at its desk it is handed what was told of the turns, which it writes into the folder of the run. No
/// ticket of the lock is held meanwhile.
#[derive(Drop)]
pub struct Recorder<G: Folder + Drop, M: Calendar + Drop, E: Sink + Drop, R: Wait + Clock + Drop> {
    pub(crate) rt: R,
    pub(crate) seat: TapeSeat<R>,
    pub(crate) folder: G,
    pub(crate) calendar: M,
    pub(crate) log: E,
    pub(crate) network: Network,
    pub(crate) script: Script<G::File>,
}

/// What a record left: the desk and the folder, and how it ended.
#[derive(Drop)]
pub struct Written<G: Folder + Drop, R: Wait + Clock + Drop> {
    pub(crate) seat: TapeSeat<R>,
    pub(crate) folder: G,
    pub end: Recorded,
}

// Why a record ended, where that is to be told: one that was stopped did not fail.
fn why_ended(end: Recorded) -> Option<&'static [u8]> {
    match end {
        Recorded::Ended(TapeEnd::Stopped) => None,
        Recorded::Ended(TapeEnd::Behind) => Some(b"fell behind"),
        Recorded::Ended(TapeEnd::NoMemory) | Recorded::Fault(Fault::NoMemory) => Some(b"no memory"),
        Recorded::Fault(Fault::Folder | Fault::Write) => Some(b"write fault"),
        Recorded::Lost => Some(b"lost events"),
        Recorded::Turns | Recorded::Spent(_) => Some(b"no turns left"),
    }
}

impl<G: Folder + Drop, M: Calendar + Drop, E: Sink + Drop, R: Wait + Clock + Copy + Drop> Recorder<
    G,
    M,
    E,
    R,
> {
    ghost use Rattle.network_serving.specs.Records.{Writes};

    /// What stands behind it.
    pub(crate) fn footing(&self) -> Footing
        ensures { base_of result ≡ Desk (stand_of self.now.seat.desk) }
    {
        Footing::Desk(self.seat.desk.standing())
    }

    /// Writes what its desk hands out, in so many turns at most. Where the record ends by anything but the end of its tape, the tape is
    /// stopped; why it ended is said, unless it was stopped.
    pub fn run(self, alloc: Global, turns: u64) -> Written<G, R>
        ensures { Writes G.File.faults G.faults G.File.written G.contents turns self result }
    {
        let Recorder {
            rt,
            mut seat,
            mut folder,
            mut calendar,
            mut log,
            network,
            mut script,
        } = self;
        let peers = network.parts().peers.as_slice();
        let mut nap = Nap::new(rt);
        let end = record(
            alloc,
            &mut seat,
            &mut folder,
            &mut calendar,
            &mut nap,
            peers,
            &mut script,
            turns,
        );
        seat.leave(end);
        if let Some(why) = why_ended(end) {
            tell_record_end(alloc, &mut log, seat.written(end), why);
        }
        Written { seat, folder, end }
    }
}
