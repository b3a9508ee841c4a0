//! What hands out the events of a tape, and what waits between two hands.
ghost use Rattle.std.specs.Prelude.{◌≡◌};
ghost use Rattle.plant_record.specs.Hands.{Goes, Hands};

use dom_base::List;
use event_tape::{Handed, Told};
use std::thread;
use std::time::{Clock, Duration};

// How long a nap is, in milliseconds.
const NAP_MILLIS: u64 = 50;

/// A desk stands for the list of what was handed out through it, and for the number at which it was spent.
pub trait TapeDesk {
    ghost handed: { Self → Hands };

    /// Hands out what the tape holds, unless the desk is spent. The tape goes on in the memory of the list that comes with it.
    fn hand(&mut self, room: List<Told>) -> Result<Handed, u64>
        ensures { Goes (handed self.old) (handed self.new) result };
}

/// Waits between two turns. No clause speaks of waiting.
pub trait Pause {
    fn pause(&mut self);
}

/// A pause of fifty milliseconds by the system's clock.
#[derive(Drop)]
pub struct Nap<R: Clock + Drop> {
    rt: R,
}

impl<R: Clock + Drop> Nap<R> {
    /// Naps by the clock of the system.
    pub fn new(rt: R) -> Self {
        Nap { rt }
    }
}

impl<R: Clock + Drop> Pause for Nap<R> {
    fn pause(&mut self) {
        thread::sleep(&self.rt, Duration::from_millis(NAP_MILLIS));
    }
}
