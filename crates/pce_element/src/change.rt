//! A change of an element, and the messages that are sent with it.
use crate::accepted::Opening;
use crate::world::World;
use dom_base::{List, Peer, Tick};
use pce_common::model::Outputs;
use vspt_tree::Branch;

/// A change, with what was solved and what keys are to stand for.
#[derive(Drop)]
pub(crate) enum Change<D, S> {
    Nothing,
    /// A request is accepted, of a peer under an id.
    Opens {
        peer: Peer,
        id: u32,
        opening: Opening,
    },
    /// A request becomes ready with the branches of its answer.
    Readies {
        number: u64,
        branches: List<Branch>,
    },
    /// Requests end.
    Ends(List<u64>),
    /// A solved request ends, and these segments get keys.
    Solves {
        number: u64,
        solved: D,
        now: Tick,
        segments: List<S>,
    },
}

/// A change for which no memory was taken yet, and its messages.
#[derive(Drop)]
pub(crate) struct Draft<D, S> {
    pub change: Change<D, S>,
    pub outputs: Outputs,
}

/// A draft in a world.
pub(crate) type DraftIn<W> = Draft<<W as World>::Solved, <W as World>::Segment>;
