//! A solved job, whose rows are right for its ask and its topology.
ghost use Rattle.std.specs.Prelude.{◌≡◌, IfOk, IsOkAnd};
ghost use Rattle.std.specs.Arc.{arc_value};
ghost use Rattle.te_links.specs.Rows.{IsTopology, IsInOrder};
ghost use Rattle.border_costs.specs.Solutions.{AreRows, AreLabelledRows};

use crate::answer::{Answer, LabelledAnswer};
use crate::job::{Ask, Job};
use crate::solution::{solve_labelled_rows, solve_rows};
use dom_base::{As, NoMemory};
use path_certificate::Certificate;
use std::alloc::Global;
use std::marker::Model;
use std::snapshot::Snapshot;
use te_links::{Counted, Topology};
use vspt_tree::Best;

/// A solved job: its rows, which are right for this very job and its topology.
pub struct Solved {
    ask: Snapshot<Ask>,
    topology: Snapshot<Topology>,
    at: As,
    number: u64,
    own: As,
    rows: Answer,
}

// Written, so that it is proved once: a derived one is proved anew in each crate that drops a value.
impl Drop for Solved {
    fn drop(self) {
        let Solved {
            ask: _,
            topology: _,
            at: _,
            number: _,
            own: _,
            rows: _,
        } = self;
    }
}

impl Model for Solved {
    ghost use Rattle.border_costs.specs.Solutions.{Solution};

    ghost Value = { Solution };

    ghost use Rattle.border_costs.specs.Fields.{solution_of, IsRight};

    ghost view = { solution_of };

    ghost invariant = { IsRight };
}

impl Solved {
    /// The rows of a job as its solution. It takes no memory, so it never answers `NoMemory`.
    pub fn of(job: &Job, rows: Answer) -> Result<Solved, NoMemory>
        requires rows { AreRows (arc_value job.now.topology) job.now.ask rows }
        ensures solved { IsOkAnd result (λ solved. solved ≡ record { ask = job.now.ask; topology = arc_value job.now.topology; rows = rows }) }
    {
        Ok(Solved {
            ask: Snapshot::of(&job.ask),
            topology: Snapshot::of(&job.topology),
            at: job.ask.at,
            number: job.ask.number,
            own: job.topology.own(),
            rows,
        })
    }

    /// The domain that the job was asked of.
    pub fn at(&self) -> As
        ensures at { result ≡ self.now.ask.at }
        ensures right { AreRows self.now.topology self.now.ask self.now.rows }
    {
        self.at
    }

    /// The domain of the topology that the job was solved in.
    pub fn own(&self) -> As
        ensures own { result ≡ self.now.topology.own }
        ensures rules { IsTopology self.now.topology }
        ensures order { IsInOrder self.now.topology }
    {
        self.own
    }

    /// The number of the request.
    pub fn number(&self) -> u64
        ensures { result ≡ self.now.ask.number }
    {
        self.number
    }

    /// The best way from each entry that has one.
    pub fn best(&self) -> &[Best]
        ensures { result.now ≡ self.now.rows.best }
    {
        self.rows.best.as_slice()
    }

    /// Whether the source is a node of the domain.
    pub fn source_known(&self) -> bool
        ensures { result ≡ self.now.rows.source_known }
    {
        self.rows.source_known
    }

    /// Whether the target is a node of the domain, or lies beyond it.
    pub fn target_known(&self) -> bool
        ensures { result ≡ self.now.rows.target_known }
    {
        self.rows.target_known
    }
}

/// Solves a job over its own topology. It waits for nobody.
pub fn solve(alloc: Global, job: &Job) -> Result<Solved, NoMemory>
    ensures ask { IfOk result (λ solved. solved.ask ≡ job.now.ask) }
    ensures topology { IfOk result (λ solved. solved.topology ≡ arc_value job.now.topology) }
    ensures rows { IfOk result (λ solved. AreRows (arc_value job.now.topology) job.now.ask solved.rows) }
{
    let mut links = Counted::new(&job.topology);
    let rows = solve_rows(alloc, &job.ask, &mut links)?;
    Solved::of(job, rows)
}

/// Solves a job over its own topology, with the labels of all nodes.
pub fn solve_labelled(alloc: Global, job: &Job) -> Result<(Solved, Certificate), NoMemory>
    ensures ask { IfOk result (λ told. told.0.ask ≡ job.now.ask) }
    ensures topology { IfOk result (λ told. told.0.topology ≡ arc_value job.now.topology) }
    ensures rows { IfOk result (λ told. AreLabelledRows (arc_value job.now.topology) job.now.ask (record { rows = told.0.rows; certificate = told.1 })) }
{
    let mut links = Counted::new(&job.topology);
    let LabelledAnswer { rows, certificate } = solve_labelled_rows(alloc, &job.ask, &mut links)?;
    Ok((Solved::of(job, rows)?, certificate))
}
