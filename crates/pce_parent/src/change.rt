//! A change of the parent, and the messages that are sent with it.
ghost use Rattle.std.specs.Prelude.{◌≡◌, []};

use crate::asking::Asking;
use crate::solved::BorderSolved;
use dom_base::{List, Peer};
use pce_common::Ways;
use pce_common::model::{ChildRow, Outputs};
use std::alloc::Global;

/// A change of the parent.
#[derive(Drop)]
pub enum Change {
    Nothing,
    /// A request is accepted, of a peer under an id, with the ids that were given for it.
    Opens {
        peer: Peer,
        id: u32,
        asking: Asking,
        ways: Ways,
    },
    /// A request gets the rows of the answer to an id of a peer.
    Gathers {
        number: u64,
        peer: Peer,
        id: u32,
        rows: List<ChildRow>,
    },
    /// Requests end.
    Ends(List<u64>),
    /// A solved request ends.
    Solves(BorderSolved),
}

/// A change for which no room was made yet, and its messages.
#[derive(Drop)]
pub struct Draft {
    pub change: Change,
    pub outputs: Outputs,
}

impl Draft {
    /// Nothing changes, and nothing is sent.
    pub fn nothing(alloc: Global) -> Draft
        ensures change { result.change ≡ Change.Nothing }
        ensures outputs { result.outputs ≡ [] }
    {
        Draft {
            change: Change::Nothing,
            outputs: List::new(alloc),
        }
    }
}
