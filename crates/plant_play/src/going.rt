//! A network goes on until nothing is due.
ghost use Rattle.std.specs.Prelude.{◌≡◌, IfErr, IfOk, IfSome, OnOk, slice_get};
ghost use Rattle.std.specs.Option.{option_map};
ghost use Rattle.plant_network.specs.plant_model.declared.event.Event.TheVariants.{Solve};
ghost use Rattle.plant_network.specs.Topologies.{whole};
ghost use Rattle.plant_play.specs.Due.{IsDue, jobs_due};
ghost use Rattle.network_files.specs.Reading.{IsWant};
ghost use Rattle.plant_play.specs.Making.{DoesAll, DoesLine, IsPossible, event_of, playing};
ghost use Rattle.plant_play.specs.Playing.{PlaysDue};

use crate::PlayError;
use crate::events::{Answer, Due, make_due};
use crate::log::{Log, write_answer};
use crate::showing::Modes;
use plant_network::Plant;
use plant_network::model::Outcome;
use std::alloc::Global;

/// How far a network goes on.
#[derive(Clone, Copy)]
pub enum Until {
    /// Until no message is on its way.
    Settled,
    /// Until, besides, no job can be solved.
    Finished,
}

fn job_due(plant: &Plant, until: Until) -> Option<Due>
    ensures possible { IfSome result (λ due. IsPossible (whole plant.now) (event_of due)) }
    ensures first { option_map event_of result ≡ option_map (λ p. Solve p.0 p.1) (slice_get (jobs_due until (whole plant.now).network (whole plant.now).state) 0) }
{
    match until {
        Until::Settled => None,
        Until::Finished => match plant.ready(0) {
            Some((at, number)) => Some(Due::Solve(at, number)),
            None => None,
        },
    }
}

// What is due: the message of the least pair is carried; where none is on its way, the least job is solved.
fn next_due(plant: &Plant, until: Until) -> Option<Due>
    ensures possible { IfSome result (λ due. IsPossible (whole plant.now) (event_of due)) }
    ensures due { IsDue until (whole plant.now).network (whole plant.now).state (option_map event_of result) }
{
    match plant.waiting() {
        Some((from, to)) => Some(Due::Carry(from, to)),
        None => job_due(plant, until),
    }
}

fn make_all(
    alloc: Global,
    plant: &mut Plant,
    modes: Modes,
    until: Until,
    line: u32,
    into: &mut Log,
) -> Result<(), PlayError>
    ensures plays { OnOk result (DoesAll line modes (IsDue until (whole plant.old).network) (whole plant.old) (whole plant.new) into.old into.new) }
    ensures refused { IfErr result IsWant }
{
    for _ in 0..u64::MAX {
        let Some(due) = next_due(plant, until) else {
            return Ok(());
        };
        make_due(alloc, plant, modes, line, due, into)?;
    }
    Err(PlayError::NoMemory)
}

/// Does what is due until nothing is.
pub(crate) fn go_on(
    alloc: Global,
    plant: &mut Plant,
    modes: Modes,
    until: Until,
    line: u32,
    into: &mut Log,
) -> Result<Answer, PlayError>
    ensures plays { IfOk result (DoesLine (whole plant.old) (PlaysDue line (playing modes (whole plant.old)) (IsDue until (whole plant.old).network)) (whole plant.new) into.old into.new) }
    ensures refused { IfErr result IsWant }
{
    make_all(alloc, plant, modes, until, line, into)?;
    let answer = Ok(Outcome::Done);
    write_answer(alloc, line, &answer, into)?;
    Ok(answer)
}
