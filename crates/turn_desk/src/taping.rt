//! What whoever writes the tape calls.
ghost use Rattle.std.specs.Prelude.{◌≡◌};
ghost use Rattle.turn_desk.specs.Desks.{IsStill, stand_of};
ghost use Rattle.turn_desk.specs.Seats.{IsHand, IsStop, seat_of};
ghost use Rattle.turn_desk.specs.Telling.{DeskTells};

use crate::answers::handed_in;
use crate::desk::TurnDesk;
use dom_base::List;
use kept_plant::{Handed, KeptAct, Told};
use std::sync::Wait;
use std::time::Clock;

impl<R: Wait + Clock> TurnDesk<R> {
    /// The tape hands out what it holds, and goes on in the memory of this list; or the number at which the desk was spent.
    pub fn hand(&mut self, empty: List<Told>) -> Result<Handed, u64>
        ensures hands { IsHand empty result (seat_of self.old) (seat_of self.new) }
        ensures stays { IsStill (stand_of self.old) (stand_of self.new) }
        ensures own { (stand_of self.new).own ≡ (stand_of self.old).own }
    {
        match self.enter(KeptAct::Hand(empty)) {
            Ok(answer) => Ok(handed_in(answer)),
            Err(number) => Err(number),
        }
    }

    /// The tape ends, behind all that was done before; or the number at which the desk was spent.
    pub fn stop(&mut self) -> Result<(), u64>
        ensures stops { IsStop result (seat_of self.old) (seat_of self.new) }
        ensures stays { IsStill (stand_of self.old) (stand_of self.new) }
        ensures own { (stand_of self.new).own ≡ (stand_of self.old).own }
    {
        match self.enter(KeptAct::Stop) {
            Ok(_answer) => Ok(()),
            Err(number) => Err(number),
        }
    }

    /// What was handed out through this desk is a first part of what was told at the lock, none left out, none twice, where each hand
    /// begins where the one before ended: whatever other desks were handed. It is all of it where the last hand says that the tape had
    /// ended.
    pub fn hands_tell(&self)
        ensures { DeskTells (seat_of self.now) }
    {}
}
