//! What may be done to a network in a turn, and what it answers.
use crate::stirred::Stirred;
use crate::topologies::Plant;
use dom_base::{As, NoMemory};
use network_events::model::{Event, Outcome, Refused};
use network_events::{AskedJob, Behind, Rest};
use network_members::{Done, Refusal, Work};
use std::snapshot::Snapshot;
use std::sync::Arc;
use te_links::Topology;

/// What may be done to a network in a turn.
#[derive(Drop)]
pub enum Act {
    /// An event is done. A topology is loaded by the element of its own domain.
    Do(Event),
    /// The job of a request is looked at.
    Look(As, u64),
    /// The k-th job that can be solved is asked for.
    Ready(usize),
    /// The next job of a member is asked for, behind another of its jobs: its jobs stand in the order of those who asked, and those of
    /// one asker in the order of their numbers.
    Next(As, Behind),
    /// A job that was solved is answered, which is the event of that solve.
    Finish(Done),
    /// The current topology of an element is asked for.
    Map(As),
}

/// What an act answers, each what the network's call of the same meaning does.
#[derive(Drop)]
pub enum Acted {
    Did(Result<Outcome, Refused>),
    Looked(Result<Option<Work>, NoMemory>),
    Found(Option<(As, u64)>),
    Next(Option<AskedJob>),
    Committed(Result<Outcome, Refusal<Done>>),
    Mapped(Result<Option<(u64, Arc<Topology>)>, NoMemory>),
}

/// The answer to an act, the network that the act left, what a take leaves to do for its peer, and whom the act stirred. Contracts alone speak of what is left: a solve leaves a
/// choice, and no answer shows all of it.
#[derive(Drop)]
pub struct ActAnswer {
    pub acted: Acted,
    pub left: Snapshot<Plant>,
    /// Of an act that takes a message: whether another one waits to be taken.
    pub rest: Rest,
    pub stirred: Stirred,
}
