//! A network takes turns, so that a lock can hold it.
ghost use Rattle.std.specs.Prelude.{◌≡◌};
ghost use Rattle.plant_network.specs.Topologies.{whole};
ghost use Rattle.plant_network.specs.Turns.{Admits, IsAnswer, LastsTo, rest_for, taken_of};

use crate::acts::{Act, ActAnswer, Acted};
use crate::network::Network;
use crate::stirred::{delivers, stirred_by};
use crate::topologies::Plant;
use network_events::Rest;
use network_events::model::Event;
use network_members::Topologies;
use plant_lock::Turned;
use std::snapshot::Snapshot;

fn perform(plant: &mut Plant, act: Act) -> Acted
    requires admits { Admits (whole plant.old) act }
    ensures answer { IsAnswer (whole plant.old) act result (whole plant.new) }
    ensures lasts { LastsTo (whole plant.old) (whole plant.new) }
{
    match act {
        Act::Do(event) => Acted::Did(plant.step(event)),
        Act::Look(at, number) => Acted::Looked(plant.job(at, number)),
        Act::Ready(k) => Acted::Found(plant.ready(k)),
        Act::Next(at, behind) => Acted::Next(plant.next_job(at, behind)),
        Act::Finish(done) => Acted::Committed(plant.commit(done)),
        Act::Map(at) => Acted::Mapped(plant.topology(at)),
    }
}

// The outside peer of whom the act takes a message.
fn taken_of(act: &Act) -> Option<u32>
    ensures { result ≡ taken_of act.now }
{
    match act {
        Act::Do(Event::Take(peer)) => Some(*peer),
        _ => None,
    }
}

// What a take leaves to do for its peer.
fn rest_for(plant: &Plant, taken: Option<u32>) -> Rest
    ensures { result ≡ rest_for taken (whole plant.now) }
{
    match taken {
        Some(peer) => plant.rest(peer),
        None => Rest::Nothing,
    }
}

impl Turned for Network<Topologies> {
    ghost use Rattle.plant_network.specs.Topologies.{whole};
    ghost use Rattle.plant_network.specs.Whole.{Whole};
    ghost use Rattle.plant_network.specs.Turns.{Admits, Allowed, Warrants, left_by};
    ghost use Rattle.plant_network.specs.TurnLaws.{looks_last};

    type Act = Act;

    type Answer = ActAnswer;

    ghost State = { Whole };

    ghost plain = { whole };

    ghost admits = { Admits };

    ghost allows = { Allowed };

    ghost after = { left_by };

    ghost warrants = { λ act turn next. Warrants act turn.acted next };

    fn turn(&mut self, act: Act) -> ActAnswer {
        self.requests_have_given_numbers();
        let is_delivery = delivers(&act);
        let taken = taken_of(&act);
        let acted = perform(self, act);
        let stirred = stirred_by(self, is_delivery, &acted);
        ActAnswer {
            acted,
            left: Snapshot::of(self),
            rest: rest_for(self, taken),
            stirred,
        }
    }

    ghost lasts = { looks_last };
}
