//! What tells the time.
ghost use Rattle.std.specs.Prelude.{◌≡◌, ◌≤◌};
ghost use Rattle.dom_edge.specs.Causes.{counted_on};
ghost use Rattle.server_loops.specs.Serving.{TellsTime};
ghost use Rattle.server_loops.specs.Sites.{Stays};
ghost use Rattle.server_loops.specs.Steps.{IsTold};

use crate::desks::Desk;
use dom_base::Tick;
use dom_edge::Clock;
use plant_model::Event;

// Tells a reading that is above the last one that was told, and returns the last one by then.
fn tell<D: Desk>(desk: &mut D, told: u64, now: Tick) -> u64
    ensures told { IsTold told now.0 result (D.desked desk.old) (D.desked desk.new) }
    ensures stays { Stays D.is_at desk.old desk.new }
{
    if now.0 <= told {
        return told;
    }
    let _answer = desk.act(Event::Tick(now));
    now.0
}

/// Whether what is done turn by turn is to end. No clause speaks of it.
pub trait Ends {
    fn is_over(&self) -> bool;
}

/// Reads the clock once in each turn, and tells each reading that is above the last one that it told, until serving is to end. Returns
/// in how many turns it did so.
#[tactic(auto, using(crate::proofs::Telling::none_told, crate::proofs::Telling::all_told))]
pub fn tick_on<D: Desk + Ends, C: Clock>(desk: &mut D, clock: &mut C, turns: u64) -> u64
    ensures within { result ≤ turns }
    ensures tells { TellsTime result (D.desked desk.old) (D.desked desk.new) (C.last clock.old) (C.last clock.new) }
    ensures stays { Stays D.is_at desk.old desk.new }
    ensures counted { C.readings clock.new ≡ counted_on result (C.readings clock.old) }
{
    let mut told = 0u64;
    for turn in 0..turns {
        if desk.is_over() {
            return turn;
        }
        let now = clock.now();
        told = tell(desk, told, now);
    }
    turns
}
