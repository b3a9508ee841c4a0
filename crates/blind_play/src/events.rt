//! One event of a line, done and written to the transcript.
ghost use Rattle.std.specs.Prelude.{◌≡◌, ◌++◌, IfOk};
ghost use Rattle.plant_network.specs.plant_model.Blind.{IsBlindGiven};
ghost use Rattle.plant_network.specs.Blind.{whole};
ghost use Rattle.blind_play.specs.Making.{Makes, MakesTurn, lacks_memory};

use crate::telling::{drainer_of, write_heard};
use dom_base::NoMemory;
use plant_network::BlindPlant;
use plant_network::model::{BlindEvent, Outcome, Refused};
use std::alloc::Global;

/// The answer to an event: an outcome, or why it was refused.
pub(crate) type Answer = Result<Outcome, Refused>;

fn lacks_memory(answer: &Answer) -> bool
    ensures { result ≡ lacks_memory answer.now }
{
    match answer {
        Err(Refused::NoMemory) => true,
        _other => false,
    }
}

// Does an event. Running out of memory is an error, and no answer of the network.
fn done(plant: &mut BlindPlant, event: BlindEvent) -> Result<Answer, NoMemory>
    requires { IsBlindGiven event }
    ensures { IfOk result (λ answer. Makes (whole plant.old) event answer (whole plant.new)) }
{
    let answer = plant.step(event);
    if lacks_memory(&answer) {
        Err(NoMemory)
    } else {
        Ok(answer)
    }
}

/// Does an event, and writes what closed peers hear of it. Returns whether it was accepted.
pub(crate) fn play_event(
    alloc: Global,
    plant: &mut BlindPlant,
    line: u32,
    event: BlindEvent,
    into: &mut Vec<u8>,
) -> Result<bool, NoMemory>
    requires { IsBlindGiven event }
    ensures { IfOk result (λ accepted. MakesTurn line (whole plant.old) event accepted (whole plant.new) into.old.items into.new.items) }
{
    let drainer = drainer_of(&event);
    let answer = done(plant, event)?;
    write_heard(alloc, line, plant, drainer, &answer, into)?;
    Ok(answer.is_ok())
}
