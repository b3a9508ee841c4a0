//! A bench for one worker of several, none of whom takes a job that another is at.
ghost use Rattle.turn_desk.specs.Desks.{stand_of};
ghost use Rattle.turn_desk.specs.Works.{AreDone};

use crate::circle::Circle;
use crate::desk::TurnDesk;
use crate::notes::Note;
use dom_edge::Noted;
use std::sync::Wait;
use std::time::Clock;

/// A desk, at which a worker is told only of jobs that no other worker of the same board is at: each ready job is one worker's from
/// when it is told until it is finished, or is no longer there. The worker goes round the members of the network, and at each round those
/// who asked: so between two jobs of one member each other one with a job has its turn, and between two jobs of one asker each other asker
/// there. A worker that is told of none has waited until one may be ready, for a tenth of a second at most.
pub struct WorkBench<R: Wait + Clock> {
    pub(crate) desk: TurnDesk<R>,
    pub(crate) worker: usize,
    pub(crate) circle: Circle,
    pub(crate) noted: Noted<Note>,
    ghost done: { AreDone (stand_of desk) noted.items },
}

// Written, so that it is proved in this crate alone.
impl<R: Wait + Clock + Drop> Drop for WorkBench<R> {
    fn drop(self) {
        let WorkBench {
            desk: _,
            worker: _,
            circle: _,
            noted: _,
        } = self;
    }
}
