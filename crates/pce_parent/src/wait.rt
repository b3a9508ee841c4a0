//! What a request waits for.
ghost use Rattle.std.specs.Prelude.{◌≡◌};
ghost use Rattle.request_table.specs.Pending.{same_peer};
ghost use Rattle.pce_common.specs.plant_model.Names.{same_id};
ghost use Rattle.pce_common.specs.plant_model.Parent.{among, any_on};
ghost use Rattle.pce_parent.specs.Sending.{wait_of};

use dom_base::{Addr, As, Peer};
use pce_common::is_same_peer;
use std::marker::Model;

/// A request to a child that is not answered yet.
#[derive(Clone, Copy)]
pub struct Wait {
    peer: Peer,
    id: u32,
    child: As,
    target: Addr,
}

impl Model for Wait {
    ghost use Rattle.pce_common.specs.plant_model.Parent.{Wait};

    ghost Value = { Wait };

    ghost view = { λ w. record { peer = w.peer; id = w.id; child = w.child; target = w.target } };

    ghost inverse = { λ w. record { peer = w.peer; id = w.id; child = w.child; target = w.target } };
}

impl Wait {
    /// A request to a child under an id.
    pub fn new(child: As, id: u32, target: Addr) -> Wait
        ensures { result ≡ wait_of child id target }
    {
        Wait {
            peer: Peer::Inner(child),
            id,
            child,
            target,
        }
    }

    /// The domain whose element was asked.
    pub fn child(&self) -> As
        ensures { result ≡ self.now.child }
    {
        self.child
    }

    /// The end about which it was asked.
    pub fn target(&self) -> Addr
        ensures { result ≡ self.now.target }
    {
        self.target
    }

    /// The id for whose answer it waits.
    pub fn id(&self) -> u32
        ensures { result ≡ self.now.id }
    {
        self.id
    }

    /// Whether it waits for the answer to an id of a peer.
    pub fn is_for(&self, peer: Peer, id: u32) -> bool
        ensures { result ≡ same_id self.now.peer self.now.id peer id }
    {
        is_same_peer(self.peer, peer) && self.id == id
    }

    /// Whether it waits on a peer.
    pub fn is_on(&self, peer: Peer) -> bool
        ensures { result ≡ same_peer self.now.peer peer }
    {
        is_same_peer(self.peer, peer)
    }
}

/// Whether one of the waits is for the answer to an id of a peer.
pub fn waits_for(waits: &[Wait], peer: Peer, id: u32) -> bool
    ensures { result ≡ among peer waits.now id }
{
    for wait in waits {
        if wait.is_for(peer, id) {
            return true;
        }
    }
    false
}

/// Whether one of the waits is on a peer.
pub fn waits_on(waits: &[Wait], peer: Peer) -> bool
    ensures { result ≡ any_on peer waits.now }
{
    for wait in waits {
        if wait.is_on(peer) {
            return true;
        }
    }
    false
}
