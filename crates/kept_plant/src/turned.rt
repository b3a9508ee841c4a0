//! A network and its tape take turns as one value.
ghost use Rattle.std.specs.Prelude.{◌≡◌};

use crate::acts::{KeptAct, KeptAnswer};
use crate::folding::fold;
use crate::kept::KeptPlant;
use event_tape::TapeEnd;
use plant_lock::Turned;
use std::snapshot::Snapshot;

impl Turned for KeptPlant {
    ghost use Rattle.kept_plant.specs.Turns.{Kept, KeptAdmits, KeptAllows, KeptWarrants, kept_after, kept_of};
    ghost use Rattle.kept_plant.specs.TurnLaws.{kept_lasts};

    type Act = KeptAct;

    type Answer = KeptAnswer;

    ghost State = { Kept };

    ghost plain = { kept_of };

    ghost admits = { KeptAdmits };

    ghost allows = { KeptAllows };

    ghost after = { kept_after };

    ghost warrants = { KeptWarrants };

    fn turn(&mut self, act: KeptAct) -> KeptAnswer {
        match act {
            KeptAct::Turn(act) => {
                let turn = fold(self.alloc, &mut self.plant, &mut self.tape, act);
                KeptAnswer::Turned(turn, Snapshot::of(&self.tape))
            }
            KeptAct::Hand(empty) => KeptAnswer::Handed(self.tape.hand(empty)),
            KeptAct::Stop => {
                self.tape.end(TapeEnd::Stopped);
                KeptAnswer::Stopped
            }
        }
    }

    ghost lasts = { kept_lasts };
}
