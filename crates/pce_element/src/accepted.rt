//! A request that was accepted.
ghost use Rattle.std.specs.Prelude.{◌≡◌, None, Some};
ghost use Rattle.std.specs.Option.{option_copied};
ghost use Rattle.pce_common.specs.plant_model.Element.{Ready, at_stage, waits_for, waits_on};
ghost use Rattle.request_table.specs.Pending.{same_peer};
ghost use Rattle.pce_element.specs.Items.{branches_at, id_sent_to, new_item};

use disclosure::Class;
use dom_base::{As, List, Peer};
use pce_common::{Solvable, is_same_peer};
use pcep_messages::Wanted;
use std::marker::Model;
use vspt_tree::Branch;

/// A request waits for the answer to the id that was sent to a peer, or it is ready with the branches
/// of that answer.
#[derive(Drop)]
pub(crate) enum Stage {
    Waits { on: Peer, id: u32 },
    Ready(List<Branch>),
}

/// What is asked for, by whom, and how far it is.
#[derive(Drop)]
pub(crate) struct Opening {
    pub class: Class,
    pub flags: u32,
    pub wanted: Wanted,
    pub sequence: List<As>,
    pub stage: Stage,
}

/// An accepted request, with what it pins.
#[derive(Drop)]
pub(crate) struct Accepted<P> {
    opening: Opening,
    pin: P,
}

impl<P> Model for Accepted<P> {
    ghost use Rattle.pce_common.specs.plant_model.Element.{Item};

    ghost Value = { Item P };

    ghost use Rattle.pce_element.specs.Items.{new_item};

    ghost view = { λ a. new_item a.opening a.pin };
}

impl<P: Drop> Accepted<P> {
    /// A request with its pin.
    pub fn new(opening: Opening, pin: P) -> Accepted<P>
        ensures { result ≡ new_item opening pin }
    {
        Accepted { opening, pin }
    }

    /// What it pins.
    pub fn pin(&self) -> &P
        ensures { result.now ≡ self.now.pin }
    {
        &self.pin
    }

    /// Gives its pin back.
    pub fn into_pin(self) -> P
        ensures { result ≡ self.pin }
    {
        self.pin
    }

    /// Whether a client, a neighbour or the parent asked.
    pub fn class(&self) -> Class
        ensures { result ≡ self.now.class }
    {
        self.opening.class
    }

    /// The flags of the request's RP, as they came.
    pub fn flags(&self) -> u32
        ensures { result ≡ self.now.flags }
    {
        self.opening.flags
    }

    /// What is asked for: the two ends, metric, bound and constraints.
    pub fn wanted(&self) -> &Wanted
        ensures { result.now ≡ self.now.wanted }
    {
        &self.opening.wanted
    }

    /// The domains that the path is to go through, the own one first.
    pub fn sequence(&self) -> &[As]
        ensures { result.now ≡ self.now.sequence }
    {
        self.opening.sequence.as_slice()
    }

    /// Whether it waits for the answer to an id of a peer.
    pub fn waits_for(&self, peer: Peer, id: u32) -> bool
        ensures { result ≡ waits_for peer id self.now.stage }
    {
        match self.opening.stage {
            Stage::Waits { on, id: sent } => is_same_peer(on, peer) && sent == id,
            Stage::Ready(_) => false,
        }
    }

    /// The id of a peer for whose answer it waits, where it waits for one of that peer.
    pub fn id_sent_to(&self, peer: Peer) -> Option<u32>
        ensures { result ≡ id_sent_to peer self.now.stage }
    {
        match self.opening.stage {
            Stage::Waits { on, id } if is_same_peer(on, peer) => Some(id),
            _ => None,
        }
    }

    /// Whether it waits on a peer.
    pub fn waits_on(&self, peer: Peer) -> bool
        ensures { result ≡ waits_on peer self.now.stage }
    {
        match self.opening.stage {
            Stage::Waits { on, id: _ } => is_same_peer(on, peer),
            Stage::Ready(_) => false,
        }
    }

    /// The branches with which it is ready, where it is.
    pub fn ready(&self) -> Option<&List<Branch>>
        ensures { option_copied result ≡ branches_at self.now.stage }
    {
        match &self.opening.stage {
            Stage::Waits { .. } => None,
            Stage::Ready(branches) => Some(branches),
        }
    }

    /// Makes it ready.
    pub fn make_ready(&mut self, branches: List<Branch>)
        ensures { self.new ≡ at_stage (Ready branches) self.old }
    {
        self.opening.stage = Stage::Ready(branches);
    }
}

impl<P: Drop> Solvable for Accepted<P> {
    ghost use Rattle.pce_common.specs.Rounds.{is_solvable};

    ghost solvable = { is_solvable };

    fn is_ready(&self) -> bool {
        match self.opening.stage {
            Stage::Waits { .. } => false,
            Stage::Ready(_) => true,
        }
    }
}
