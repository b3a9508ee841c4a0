//! Which job of a member is next: jobs stand in the order of those who asked, and those of one asker in the order of their numbers.
ghost use Rattle.std.specs.Prelude.{◌≡◌, ◌↔◌, ◌++◌, ◌∷◌, [], Bool, List, IsTrue};
ghost use Rattle.pce_common.specs.Rounds.{IsBehind, IsNext, Precedes, jobs_by, place_of};
ghost use Rattle.pce_common.specs.declared.rounds.AskedJob.{AskedJob as Asked};

use dom_base::Peer;
use request_table::Requests;

/// A job that can be solved: who asked for it, and the number of its request.
#[derive(Clone, Copy)]
pub struct AskedJob {
    pub asker: Peer,
    pub number: u64,
}

/// Where in the order of a member's jobs the next one is looked for.
#[derive(Clone, Copy)]
pub enum Behind {
    /// At the beginning.
    Nobody,
    /// Behind all jobs of this asker.
    Asker(Peer),
    /// Behind this job.
    Job(AskedJob),
}

// Where a peer stands among those who may ask.
fn place_of(peer: Peer) -> u64
    ensures { result ≡ place_of peer }
{
    match peer {
        Peer::Outside(index) => 2 * u64::from(index),
        Peer::Inner(domain) => 2 * u64::from(domain.0) + 1,
    }
}

fn precedes(one: AskedJob, other: AskedJob) -> bool
    ensures { IsTrue result ↔ Precedes one other }
{
    let (place, later) = (place_of(one.asker), place_of(other.asker));
    place < later || (place == later && one.number < other.number)
}

fn is_behind(behind: Behind, job: AskedJob) -> bool
    ensures { IsTrue result ↔ IsBehind behind job }
{
    match behind {
        Behind::Nobody => true,
        Behind::Asker(asker) => place_of(asker) < place_of(job.asker),
        Behind::Job(before) => precedes(before, job),
    }
}

/// The next of some jobs and one more, where `best` is the next of those alone.
fn next_of(behind: Behind, best: Option<AskedJob>, job: AskedJob) -> Option<AskedJob>
    ensures { (jobs : List Asked) → IsNext behind jobs best → IsNext behind (jobs ++ job ∷ []) result }
{
    if !is_behind(behind, job) {
        return best;
    }
    let Some(found) = best else {
        return Some(job);
    };
    if precedes(job, found) {
        Some(job)
    } else {
        best
    }
}

/// What belongs to a pending request, which can be solved at some time.
pub trait Solvable: Drop {
    // Whether it can be solved, as a contract tests it.
    ghost solvable: { Self → Bool };

    /// Whether it can be solved.
    fn is_ready(&self) -> bool
        ensures { result ≡ solvable self.now };
}

/// The next request that can be solved, in the order of those who asked and then of the numbers; takes no memory.
pub fn next_job<T: Solvable>(requests: &Requests<T>, behind: Behind) -> Option<AskedJob>
    ensures { IsNext behind (jobs_by T.solvable requests.now.kept.rows) result }
{
    let mut next = None;
    for i in 0..requests.len() {
        let Some((number, held)) = requests.row(i) else {
            unreachable!()
        };
        if held.item.is_ready() {
            let job = AskedJob {
                asker: held.key.peer,
                number,
            };
            next = next_of(behind, next, job);
        }
    }
    next
}
