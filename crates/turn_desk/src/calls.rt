//! What sessions and workers call.
ghost use Rattle.std.specs.Prelude.{◌≡◌, IfOk, IfSome};
ghost use Rattle.plant_network.specs.declared.acts.Act.TheVariants.{Do, Look as LookAt, Ready as AskReady, Finish as FinishOf};
ghost use Rattle.plant_network.specs.declared.acts.Acted.TheVariants.{Looked, Found};
ghost use Rattle.plant_network.specs.plant_model.declared.event.Event.TheVariants.{Take};
ghost use Rattle.server_loops.specs.Desks as desk;
ghost use Rattle.server_loops.specs.Benches as bench;
ghost use Rattle.turn_desk.specs.Desks.{IsDone, IsFinish, IsOneTurn, IsStill, IsTaken, IsTurn, benched_of, desked_of, did_by, finished_as, stand_of, taken_as};

use crate::answers::{committed_in, did_in, found_in, looked_in};
use crate::desk::TurnDesk;
use dom_base::{As, NoMemory};
use plant_network::model::{Event, Outcome, Refused};
use plant_network::{Act, Done, Refusal, Rest, Work};
use server_loops::{Bench, Desk, DeskRefused, Finished};
use std::sync::Wait;
use std::time::Clock;

// What a worker is told of a solution.
fn told(answer: Result<Outcome, Refusal<Done>>) -> Finished
    ensures { result ≡ finished_as answer }
{
    let Err(refusal) = answer else {
        return Finished::Kept;
    };
    match refusal.why {
        Refused::NoMemory => Finished::NoMemory,
        _other => Finished::Stranger,
    }
}

// The outside peer of the session that a desk opened last, behind this event.
fn own_by(event: &Event, own: Option<u32>) -> Option<u32> {
    match event {
        Event::Open(peer, _holder) => Some(*peer),
        _ => own,
    }
}

// What a session is told of a take.
fn taken(answer: Result<Outcome, Refused>, rest: Rest) -> Result<Rest, DeskRefused>
    ensures { result ≡ taken_as answer rest }
{
    match answer {
        Ok(_) => Ok(rest),
        Err(why) => Err(DeskRefused::Plant(why)),
    }
}

impl<R: Wait + Clock> TurnDesk<R> {
    // Makes an event.
    pub(crate) fn make(&mut self, event: Event) -> Result<Outcome, DeskRefused>
        requires { desk.IsOwnLoad event }
        ensures { IsTurn (Do event) (did_by result) (stand_of self.old) (stand_of self.new) }
    {
        self.own = own_by(&event, self.own);
        match self.turn(Act::Do(event)) {
            Ok(acted) => {
                let answer = did_in(acted);
                match answer {
                    Ok(outcome) => Ok(outcome),
                    Err(why) => Err(DeskRefused::Plant(why)),
                }
            }
            Err(number) => Err(DeskRefused::Spent(number)),
        }
    }
}

impl<R: Wait + Clock> Desk for TurnDesk<R> {
    ghost use Rattle.turn_desk.specs.Desks.{desked_of, stand_of};

    ghost desked = { λ d. desked_of (stand_of d) };

    fn act(&mut self, event: Event) -> Result<Outcome, DeskRefused>
        requires { desk.IsOwnLoad event }
        ensures goes { desk.Goes (desked_of (stand_of self.old)) (desked_of (stand_of self.new)) event result }
        ensures stays { IsStill (stand_of self.old) (stand_of self.new) }
        ensures turn { IsOneTurn (Do event) (IsDone result) (stand_of self.old) (stand_of self.new) }
    {
        self.make(event)
    }

    fn take(&mut self, peer: u32) -> Result<Rest, DeskRefused>
        ensures takes { desk.Takes (desked_of (stand_of self.old)) (desked_of (stand_of self.new)) peer result }
        ensures stays { IsStill (stand_of self.old) (stand_of self.new) }
        ensures turn { IsOneTurn (Do (Take peer)) (IsTaken result) (stand_of self.old) (stand_of self.new) }
    {
        match self.turn_telling(Act::Do(Event::Take(peer))) {
            Ok((acted, rest)) => taken(did_in(acted), rest),
            Err(number) => Err(DeskRefused::Spent(number)),
        }
    }

    fn spent(&self) -> Option<u64> {
        self.spent_at
    }
}

impl<R: Wait + Clock> Bench for TurnDesk<R> {
    ghost use Rattle.turn_desk.specs.Desks.{benched_of, stand_of};

    ghost benched = { λ d. benched_of (stand_of d) };

    fn ready(&mut self, k: usize) -> Option<(As, u64)>
        ensures goes { bench.Goes (benched_of (stand_of self.old)) (benched_of (stand_of self.new)) (bench.Ready k result) }
        ensures stays { IsStill (stand_of self.old) (stand_of self.new) }
        ensures turn { IsOneTurn (AskReady k) (λ acted. acted ≡ Found result) (stand_of self.old) (stand_of self.new) }
    {
        match self.turn(Act::Ready(k)) {
            Ok(acted) => found_in(acted),
            Err(_number) => None,
        }
    }

    fn look(&mut self, at: As, number: u64) -> Result<Option<Work>, NoMemory>
        ensures goes { bench.Goes (benched_of (stand_of self.old)) (benched_of (stand_of self.new)) (bench.Look at number result) }
        ensures given { IfOk result (λ work. IfSome work (bench.IsGiven (benched_of (stand_of self.new)))) }
        ensures stays { IsStill (stand_of self.old) (stand_of self.new) }
        ensures turn { IsOneTurn (LookAt at number) (λ acted. acted ≡ Looked result) (stand_of self.old) (stand_of self.new) }
    {
        match self.turn(Act::Look(at, number)) {
            Ok(acted) => looked_in(acted),
            Err(_number) => Ok(None),
        }
    }

    fn finish(&mut self, done: Done) -> Finished
        requires { bench.WasGiven (benched_of (stand_of self.old)) done }
        ensures goes { bench.Goes (benched_of (stand_of self.old)) (benched_of (stand_of self.new)) (bench.Finish done result) }
        ensures stays { IsStill (stand_of self.old) (stand_of self.new) }
        ensures turn { IsOneTurn (FinishOf done) (IsFinish result) (stand_of self.old) (stand_of self.new) }
    {
        match self.turn(Act::Finish(done)) {
            Ok(acted) => told(committed_in(acted)),
            Err(_number) => Finished::Stranger,
        }
    }

    fn spent(&self) -> Option<u64> {
        self.spent_at
    }
}
