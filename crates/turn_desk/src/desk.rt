//! A desk: a seat at the lock of a network.
ghost use Rattle.std.specs.Arc.{arc_value};
ghost use Rattle.plant_lock.specs.Seats.{IsAt, view_of};
ghost use Rattle.turn_desk.specs.Histories.{Begins, plant_at};

use crate::bells::Bells;
use crate::line::Place;
use kept_plant::KeptPlant;
use plant_lock::{TurnSeat, Turnstile};
use std::alloc::Global;
use std::sync::{Arc, Wait};
use std::time::Clock;

/// A seat at the lock of a network. Each call makes one turn with just its act, until a turn is refused since the tickets are
/// used up: from then on none is made.
///
/// Behind each turn it rings those whom the turn stirred, where it has a board of bells.
pub struct TurnDesk<R: Wait + Clock> {
    pub(crate) rt: R,
    pub(crate) lock: Arc<Turnstile<KeptPlant>, Global>,
    pub(crate) seat: TurnSeat<KeptPlant>,
    pub(crate) spent_at: Option<u64>,
    pub(crate) bells: Option<Arc<Bells, Global>>,
    // the outside peer whose session this desk opened last
    pub(crate) own: Option<u32>,
    // its place in the line of those that have much to do
    pub(crate) place: Place,
    ghost here: { IsAt (arc_value lock) seat },
    ghost begun: { Begins (plant_at (view_of seat).start) },
}

// Written, so that it is proved in this crate alone.
impl<R: Wait + Clock + Drop> Drop for TurnDesk<R> {
    fn drop(self) {
        let TurnDesk {
            rt: _,
            lock: _,
            seat: _,
            spent_at: _,
            bells,
            own: _,
            mut place,
        } = self;
        if let Some(bells) = bells {
            place.leave(bells.line());
        }
    }
}
