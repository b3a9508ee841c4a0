//! A request that the parent accepted, and what it waits for.
ghost use Rattle.std.specs.Prelude.{◌≡◌, [], true, false, IfOk, MatchOption};
ghost use Rattle.pce_common.specs.plant_model.Parent.{among};
ghost use Rattle.pce_parent.specs.Changes.{with_answer};
ghost use Rattle.pce_parent.specs.Answered.{IsAnsweredAt, Answers};
ghost use Rattle.pce_parent.specs.Joined.{joined};

use crate::copies::append_rows;
use crate::wait::Wait;
use dom_base::{List, NoMemory, Peer};
use pce_common::Solvable;
use pce_common::model::ChildRow;
use pcep_messages::Wanted;
use std::alloc::Global;
use std::marker::Model;

/// An accepted request: what it waits for, and the rows that came, answer by answer. There is memory for
/// the answers that it waits for.
#[derive(Drop)]
pub struct Asking {
    flags: u32,
    wanted: Wanted,
    waits: Vec<Wait>,
    answers: Vec<List<ChildRow>>,
}

impl Model for Asking {
    ghost use Rattle.pce_common.specs.plant_model.Parent.{Asking};

    ghost Value = { Asking };

    ghost use Rattle.pce_parent.specs.AskingFields.{asking_of, HasPlaces};

    ghost view = { asking_of };

    ghost invariant = { HasPlaces };
}

impl Asking {
    /// A request that waits for all its answers.
    pub fn new(
        alloc: Global,
        flags: u32,
        wanted: Wanted,
        waits: Vec<Wait>,
    ) -> Result<Asking, NoMemory>
        ensures { IfOk result (λ asking. asking ≡ record { flags = flags; wanted = wanted; waits = waits.items; rows = [] }) }
    {
        let answers = Vec::with_capacity(alloc, waits.len())?;
        Ok(Asking {
            flags,
            wanted,
            waits,
            answers,
        })
    }

    /// The flags of the request's RP, as they came.
    pub fn flags(&self) -> u32
        ensures { result ≡ self.now.flags }
    {
        self.flags
    }

    /// What is asked for: the two ends, metric, bound and constraints.
    pub fn wanted(&self) -> &Wanted
        ensures { result.now ≡ self.now.wanted }
    {
        &self.wanted
    }

    /// The requests to children that are not answered yet.
    pub fn waits(&self) -> &[Wait]
        ensures { result.now ≡ self.now.waits }
    {
        self.waits.as_slice()
    }

    /// Its rows in memory of their own.
    pub fn copy_rows(&self, alloc: Global) -> Result<List<ChildRow>, NoMemory>
        ensures { IfOk result (λ rows. rows ≡ self.now.rows) }
    {
        copy_answers(alloc, &self.answers)
    }

    /// The wait for the answer to an id of a peer.
    pub fn wait(&self, peer: Peer, id: u32) -> Option<Wait>
        ensures { MatchOption result (among peer self.now.waits id ≡ false) (λ wait. Answers peer id wait self.now.waits) }
    {
        let Some(place) = place_for(&self.waits, peer, id) else {
            return None;
        };
        Some(self.waits[place])
    }

    /// The answer to an id of a peer has come, with these rows; takes no memory.
    pub fn gather(&mut self, peer: Peer, id: u32, rows: List<ChildRow>)
        requires { among peer self.old.waits id ≡ true }
        ensures { self.new ≡ with_answer peer id rows self.old }
    {
        let Some(place) = place_for(&self.waits, peer, id) else {
            unreachable!()
        };
        let _wait = self.waits.remove(place);
        match self.answers.push(rows) {
            Ok(()) => {}
            Err(_) => unreachable!(),
        }
    }
}

// The place of the first wait for the answer to an id of a peer.
fn place_for(waits: &[Wait], peer: Peer, id: u32) -> Option<usize>
    ensures { MatchOption result (among peer waits.now id ≡ false) (λ i. IsAnsweredAt peer id i waits.now) }
{
    for i in 0..waits.len() {
        if waits[i].is_for(peer, id) {
            return Some(i);
        }
    }
    None
}

fn copy_answers(alloc: Global, answers: &[List<ChildRow>]) -> Result<List<ChildRow>, NoMemory>
    ensures { IfOk result (λ rows. rows ≡ joined answers.now) }
{
    let mut rows = List::new(alloc);
    for answer in answers {
        append_rows(alloc, &mut rows, answer.as_slice())?;
    }
    Ok(rows)
}

impl Solvable for Asking {
    ghost use Rattle.pce_common.specs.plant_model.Parent.{is_ready};

    ghost solvable = { is_ready };

    fn is_ready(&self) -> bool {
        self.waits.is_empty()
    }
}
