//! The elements of a network and the parent above them, as the deeds of a network see them.
ghost use Rattle.std.specs.Prelude.{◌≡◌};
ghost use Rattle.plant_text.specs.Settings.{peer_row};
ghost use Rattle.pce_common.specs.plant_model.Deeds.{at_row};
ghost use Rattle.network_members.specs.Tiers.{FitsIn, lost_in, members_of, next_by, sent_by, standing_of};

use crate::hierarchy::{Hierarchy, is_parent};
use crate::plan::MemberPlan;
use crate::steps::has_one_part;
use dom_base::{As, NoMemory, Peer, Tick};
use pce_common::Members;
use pce_common::model::{Lost, Outputs};
use pce_element::World;
use pcep_messages::Message;
use plant_text::PeerRow;

// The element of a peer.
fn at_peer(peers: &[PeerRow], peer: u32) -> As
    ensures { result ≡ at_row (peer_row peer peers.now) }
{
    match peers.get(peer as usize) {
        Some(row) => row.at,
        None => As(0),
    }
}

impl<W: World> Members for Hierarchy<W> {
    type Plan = MemberPlan<W>;

    ghost Pin = { W.Pin };

    ghost Key = { W.Segment };

    ghost show = { W.show };

    ghost stands = { standing_of W.first };

    ghost fits = { FitsIn };

    ghost next = { next_by W.first };

    ghost sends = { sent_by };

    // A message with more parts than one was not split, and is refused.
    fn take(
        &mut self,
        at: As,
        peer: Peer,
        message: Message,
        now: Tick,
    ) -> Result<MemberPlan<W>, NoMemory> {
        if !has_one_part(&message) {
            return Err(NoMemory);
        }
        if is_parent(at) {
            self.take_above(at, peer, message, now)
        } else {
            self.take_below(at, peer, message, now)
        }
    }

    fn heed(&self, at: As, peer: u32, message: Message) -> Result<Message, NoMemory> {
        self.elements.heed(at, peer, message)
    }

    fn outputs(plan: &MemberPlan<W>) -> &Outputs {
        match plan {
            MemberPlan::Element { at: _at, plan } => plan.outputs(),
            MemberPlan::Parent(plan) => plan.outputs(),
        }
    }

    fn make(&mut self, plan: MemberPlan<W>) {
        match plan {
            MemberPlan::Element { at, plan } => self.make_below(at, plan),
            MemberPlan::Parent(plan) => self.make_above(plan),
        }
    }

    fn up(&mut self, at: As, peer: Peer) {
        if is_parent(at) {
            self.up_above(at, peer);
        } else {
            self.up_below(at, peer);
        }
    }

    fn down(&mut self, at: As, peer: Peer) {
        if is_parent(at) {
            self.down_above(at, peer);
        } else {
            self.down_below(at, peer);
        }
    }

    fn next_lost(&mut self, at: As) -> Option<Lost> {
        if is_parent(at) {
            self.next_lost_above(at)
        } else {
            self.next_lost_below(at)
        }
    }

    fn tick(&mut self, now: Tick) {
        self.elements.tick(now);
        self.clock = now;
    }

    fn owed(&self, at: As, peer: Peer) -> usize {
        if is_parent(at) {
            self.parent.owed(peer)
        } else {
            self.elements.owed(at, peer)
        }
    }

    fn pending(&self) -> usize {
        let _settings = self.network.parts();
        self.parent.pending() + self.elements.pending()
    }

    fn element_of(&self, peer: u32) -> As {
        at_peer(self.network.parts().peers.as_slice(), peer)
    }
}
