//! One event of a line, done and written to the transcript.
ghost use Rattle.std.specs.Prelude.{◌≡◌, IfErr, Err, IfOk, IfSome, MatchBool, OnOk, Some};
ghost use Rattle.network_files.specs.Reading.{IsWant};
ghost use Rattle.plant_text.specs.Settings.{peer_row};
ghost use Rattle.plant_network.specs.plant_model.declared.event.Event.TheVariants.{Solve};
ghost use Rattle.plant_network.specs.Jobs.{IsOwn, solved_at, solved_number};
ghost use Rattle.plant_network.specs.Topologies.{whole};
ghost use Rattle.plant_network.specs.Whole.{IsOwnLoad, Stepped};
ghost use Rattle.transcript.specs.Lines.{name_from};
ghost use Rattle.plant_play.specs.Logs.{behind};
ghost use Rattle.plant_play.specs.Making.{DoesLine, IsToShow, LabelsIf, Makes, MakesTurn, Refuses, event_of, lacks_memory, playing};
ghost use Rattle.plant_play.specs.Playing.{PlaysNone, PlaysOne};
ghost use Rattle.plant_play.specs.Turns.{event_line};

use crate::PlayError;
use crate::log::{Log, write_answer, write_carry, write_solve, write_take};
use crate::showing::{Modes, job_to_show, write_brought, write_labels_if};
use border_costs::{Job, solve_labelled};
use dom_base::{As, NoMemory};
use plant_network::model::{Event, Outcome, Refused};
use plant_network::{Done, Plant};
use plant_text::PeerRow;
use std::alloc::Global;

/// The answer to an event: an outcome, or why it was refused.
pub type Answer = Result<Outcome, Refused>;

/// An event that is due in a network when none comes from outside.
#[derive(Clone, Copy)]
pub enum Due {
    Take(u32),
    Carry(As, As),
    Solve(As, u64),
}

fn event_of(due: Due) -> Event
    ensures { result ≡ event_of due }
{
    match due {
        Due::Take(peer) => Event::Take(peer),
        Due::Carry(from, to) => Event::Carry(from, to),
        Due::Solve(at, number) => Event::Solve(at, number),
    }
}

fn lacks_memory(answer: &Answer) -> bool
    ensures { result ≡ lacks_memory answer.now }
{
    match answer {
        Err(Refused::NoMemory) => true,
        _other => false,
    }
}

/// Does an event. Running out of memory is an error, and no answer of the network.
pub(crate) fn done(plant: &mut Plant, event: Event) -> Result<Answer, PlayError>
    requires { IsOwnLoad event }
    ensures refused { IfErr result IsWant }
    ensures makes { IfOk result (λ answer. Makes (whole plant.old) event answer (whole plant.new)) }
{
    let answer = plant.step(event);
    if lacks_memory(&answer) {
        Err(PlayError::NoMemory)
    } else {
        Ok(answer)
    }
}

// Answers a solved job. A refused job is dropped.
fn answered(plant: &mut Plant, solved: Done) -> Answer
    requires { IsOwn (whole plant.old) solved }
    ensures { Stepped (whole plant.old) (Solve (solved_at solved) (solved_number solved)) result (whole plant.new) }
{
    match plant.commit(solved) {
        Ok(outcome) => Ok(outcome),
        Err(refusal) => Err(refusal.why),
    }
}

// The same, where running out of memory is an error.
fn committed(plant: &mut Plant, solved: Done) -> Result<Answer, PlayError>
    requires { IsOwn (whole plant.old) solved }
    ensures refused { IfErr result IsWant }
    ensures makes { IfOk result (λ answer. Makes (whole plant.old) (Solve (solved_at solved) (solved_number solved)) answer (whole plant.new)) }
{
    let answer = answered(plant, solved);
    if lacks_memory(&answer) {
        Err(PlayError::NoMemory)
    } else {
        Ok(answer)
    }
}

// The event that solves a job to show: the job is solved once, and its labels are told in a second log.
fn solve_shown(
    alloc: Global,
    plant: &mut Plant,
    modes: Modes,
    line: u32,
    _event: &Event,
    job: &Job,
    labels: &mut Log,
) -> Result<Answer, PlayError>
    requires { IsToShow modes (whole plant.old) _event.now (Some job.now) }
    ensures refused { IfErr result IsWant }
    ensures makes { IfOk result (λ answer. Makes (whole plant.old) _event.now answer (whole plant.new)) }
    ensures labels { OnOk result (LabelsIf line modes.certify job.now labels.old labels.new) }
{
    let (solved, certificate) = solve_labelled(alloc, job)?;
    write_labels_if(line, modes.certify, &certificate, labels)?;
    committed(plant, Done::Domain(solved))
}

// Does an event; the labels of a job to show are told in a second log.
fn make(
    alloc: Global,
    plant: &mut Plant,
    modes: Modes,
    line: u32,
    event: Event,
    job: &Option<Job>,
    labels: &mut Log,
) -> Result<Answer, PlayError>
    requires own { IsOwnLoad event }
    requires to_show { IsToShow modes (whole plant.old) event job.now }
    ensures refused { IfErr result IsWant }
    ensures makes { IfOk result (λ answer. Makes (whole plant.old) event answer (whole plant.new)) }
    ensures labels { OnOk result (IfSome job.now (λ j. LabelsIf line modes.certify j labels.old labels.new)) }
{
    match job {
        Some(job) => solve_shown(alloc, plant, modes, line, &event, job, labels),
        None => done(plant, event),
    }
}

/// The event of a line: its answer is told first, and returned.
pub(crate) fn play_event(
    alloc: Global,
    plant: &mut Plant,
    modes: Modes,
    line: u32,
    event: Event,
    into: &mut Log,
) -> Result<Answer, PlayError>
    requires { IsOwnLoad event }
    ensures plays { IfOk result (DoesLine (whole plant.old) (PlaysOne line (playing modes (whole plant.old)) event) (whole plant.new) into.old into.new) }
    ensures refused { IfErr result IsWant }
{
    let job = job_to_show(plant, modes, &event)?;
    let mut labels = into.beside(alloc);
    let answer = make(alloc, plant, modes, line, event, &job, &mut labels)?;
    write_answer(alloc, line, &answer, into)?;
    write_brought(alloc, line, plant, modes, &answer, &job, &labels, into)?;
    Ok(answer)
}

// The name of an outside peer; nothing where there is none of that number.
fn name_at(peers: &[PeerRow], number: u32) -> &str
    ensures { result.now ≡ name_from (peer_row number peers.now) }
{
    match peers.get(number as usize) {
        Some(row) => row.name.as_str(),
        None => "",
    }
}

// The line of an event that is not the line's own.
fn write_due(line: u32, peers: &[PeerRow], due: Due, into: &mut Log) -> Result<(), NoMemory>
    ensures { OnOk result (into.new ≡ behind into.old (event_line line peers.now (event_of due))) }
{
    match due {
        Due::Take(peer) => write_take(line, name_at(peers, peer), into),
        Due::Carry(from, to) => write_carry(line, from, to, into),
        Due::Solve(at, number) => write_solve(line, at, number, into),
    }
}

/// An event that is not the line's own: it is told by a line of its own where it is not refused. Returns whether it was
/// accepted.
pub(crate) fn make_due(
    alloc: Global,
    plant: &mut Plant,
    modes: Modes,
    line: u32,
    due: Due,
    into: &mut Log,
) -> Result<bool, PlayError>
    ensures refused { IfErr result IsWant }
    ensures makes { IfOk result (λ accepted. MatchBool accepted
        (MakesTurn line modes (whole plant.old) (event_of due) (whole plant.new) into.old into.new)
        (Refuses (whole plant.old) (event_of due) (whole plant.new) into.old into.new)) }
{
    let event = event_of(due);
    let job = job_to_show(plant, modes, &event)?;
    let mut labels = into.beside(alloc);
    let answer = make(alloc, plant, modes, line, event, &job, &mut labels)?;
    if answer.is_err() {
        return Ok(false);
    }
    write_due(line, plant.parts().peers.as_slice(), due, into)?;
    write_brought(alloc, line, plant, modes, &answer, &job, &labels, into)?;
    Ok(true)
}
