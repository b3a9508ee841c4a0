//! Jobs are solved and answered.
ghost use Rattle.std.specs.Prelude.{◌≡◌, true, is_some, Some, IfErr, IfOk};
ghost use Rattle.network_events.specs.plant_model.declared.event.Event.TheVariants.{Solve};
ghost use Rattle.network_members.specs.Answering.{IsOwnDone, IsWeighedWork, back_of};
ghost use Rattle.plant_network.specs.Topologies.{IsSound, Moves, held};
ghost use Rattle.plant_network.specs.Jobs.{IsSolvedBy, solved_at, solved_number, told};

use border_costs::solve as solve_domain;
use dom_base::{As, NoMemory};
use network_events::model::{Outcome, Refused};
use network_events::{Traffic, answer as send_answer};
use network_members::{Done, Hierarchy, MemberPlan, Refusal, Topologies, Work, solve_border};
use std::alloc::Global;

fn at_of(done: &Done) -> As
    ensures { result ≡ solved_at done.now }
{
    match done {
        Done::Domain(solved) => solved.at(),
        Done::Border(_solved) => As(0),
    }
}

// What a plan was made for.
fn done_of(plan: MemberPlan<Topologies>) -> Done
    requires { is_some (back_of plan) ≡ true }
    ensures { back_of plan ≡ Some result }
{
    match plan.back() {
        Some(done) => done,
        None => unreachable!(),
    }
}

/// Answers a job that was solved; a refusal hands it back.
pub(crate) fn commit(
    alloc: Global,
    members: &mut Hierarchy<Topologies>,
    traffic: &mut Traffic,
    done: Done,
) -> Result<Outcome, Refusal<Done>>
    requires sound { IsSound (held members.old traffic.old) }
    requires own { IsOwnDone members.old (solved_at done) done }
    ensures moves { Moves (held members.old traffic.old) (Solve (solved_at done) (solved_number done)) (told result) (held members.new traffic.new) }
    ensures back { IfErr result (λ refusal. refusal.back ≡ done) }
{
    let at = at_of(&done);
    let plan = members.commit(at, done, traffic.clock())?;
    match send_answer(alloc, members, traffic, at, plan) {
        Ok(()) => Ok(Outcome::Done),
        Err(plan) => Err(Refusal {
            why: Refused::NoMemory,
            back: done_of(plan),
        }),
    }
}

fn solve_work(alloc: Global, work: &Work) -> Result<Done, NoMemory>
    requires { IsWeighedWork work.now }
    ensures { IfOk result (IsSolvedBy work.now) }
{
    match work {
        Work::Domain(job) => Ok(Done::Domain(solve_domain(alloc, job)?)),
        Work::Border(job) => Ok(Done::Border(solve_border(alloc, job)?)),
    }
}

/// Solves a job, and answers it.
pub(crate) fn solve(
    alloc: Global,
    members: &mut Hierarchy<Topologies>,
    traffic: &mut Traffic,
    at: As,
    number: u64,
) -> Result<Outcome, Refused>
    requires sound { IsSound (held members.old traffic.old) }
    ensures { Moves (held members.old traffic.old) (Solve at number) result (held members.new traffic.new) }
{
    if !members.has_jobs(at) {
        return Err(Refused::NoSuchPeer);
    }
    let Ok(found) = members.job(at, number) else {
        return Err(Refused::NoMemory);
    };
    let Some(work) = found else {
        return Err(Refused::NoSuchJob);
    };
    let Ok(done) = solve_work(alloc, &work) else {
        return Err(Refused::NoMemory);
    };
    match commit(alloc, members, traffic, done) {
        Ok(outcome) => Ok(outcome),
        Err(refusal) => Err(refusal.why),
    }
}
