//! The state between the members of a network.
ghost use Rattle.std.specs.Prelude.{◌≡◌, ◌<◌, [], length, not, slice_get, Some, None, IfOk, OnOk, is_some};
ghost use Rattle.std.specs.Option.{option_map};
ghost use Rattle.plant_text.specs.Settings.{has_adjacency};
ghost use Rattle.network_links.specs.Adjacencies.{adjacency_of, are_adjacencies};
ghost use Rattle.plant_queues.specs.Messages.{Covers};
ghost use Rattle.plant_model.specs.Names.{is_empty};
ghost use Rattle.plant_model.specs.RealWire.{wire};
ghost use Rattle.plant_model.specs.Deeds as deeds;
ghost use Rattle.network_links.specs.Ends.{is_left_out};
ghost use Rattle.network_links.specs.Links.{next_sid};
ghost use Rattle.network_links.specs.Carried.{flow_of};
ghost use Rattle.network_links.specs.Flow.{ClearsSaid, Clears, Connects, DropsFirstAt, GrowsAt, GrowsSaid, IsBare, KeepsRoomAt, MaySet, Puts, Begins, change_access, first_at, inbox_of, queue_at, room_at, session_at, set_session, set_session_at, shut};
ghost use Rattle.network_links.specs.Inboxes.{first_type};
ghost use Rattle.network_links.specs.Happenings.{DrainsIn, FeedsIn};
ghost use Rattle.network_links.specs.Quiet.{IsReached, is_quiet_at, ticked_at};
ghost use Rattle.network_links.specs.Rests.{rest_of};

use crate::OWN_LENGTH;
use crate::links::Links;
use crate::own::{our_offer, own_text};
use crate::peers::{Drained, Peers};
use crate::rest::Rest;
use dom_base::{As, NoMemory, Peer, Tick};
use pcep_session::{Input, Own, Session};
use plant_model::Refused;
use plant_queues::Said;
use std::alloc::Global;
use std::marker::Model;

/// The clock, the connections of the outside peers, the inner links, and the messages that the last
/// step put into queues. A call that takes no memory never answers `Err`.
pub struct Traffic {
    alloc: Global,
    clock: Tick,
    peers: Peers,
    links: Links,
    said: Said,
}

// Written, so that it is proved once: a derived one is proved anew in each crate that drops a value.
impl Drop for Traffic {
    fn drop(self) {
        let Traffic {
            alloc: _,
            clock: _,
            peers: _,
            links: _,
            said: _,
        } = self;
    }
}

impl Model for Traffic {
    ghost use Rattle.network_links.specs.Carried.{Carried};

    ghost Value = { Carried };

    ghost use Rattle.network_links.specs.TrafficFields.{carried_of};

    ghost view = { carried_of };
}

impl Traffic {
    /// Links, each with its lower end first, and so many outside peers. Nothing has begun.
    pub fn new(alloc: Global, adjacencies: &[(As, As)], peers: usize) -> Result<Traffic, NoMemory>
        ensures { IfOk result (λ traffic. IsBare (are_adjacencies adjacencies.now) peers (flow_of traffic)) }
    {
        let peers = Peers::new(alloc, peers)?;
        let links = Links::new(alloc, adjacencies)?;
        Ok(Traffic {
            alloc,
            clock: Tick(0),
            peers,
            links,
            said: Said::new(alloc),
        })
    }

    /// The moment, in ticks.
    pub fn clock(&self) -> Tick
        ensures { result ≡ record { 0 = (flow_of self.now).clock } }
    {
        self.clock
    }

    /// Sets the moment; the caller sees to it that it does not fall.
    pub fn set_clock(&mut self, now: Tick)
        ensures { (flow_of self.new) ≡ record (flow_of self.old) { clock = now.0 } }
    {
        self.clock = now;
    }

    // ---- outside peers

    /// How many outside peers there are.
    pub fn peers(&self) -> usize
        ensures { result ≡ (flow_of self.now).peers }
    {
        self.peers.count()
    }

    /// Whether the peer's connection is open.
    pub fn is_open(&self, peer: u32) -> bool
        ensures { result ≡ is_some ((flow_of self.now).accesses peer).connection }
    {
        self.peers.is_open(peer)
    }

    /// Who holds the connection of an outside peer that is open.
    pub fn holder(&self, peer: u32) -> Option<u32>
        ensures { result ≡ option_map (λ x. x.holder) ((flow_of self.now).accesses peer).connection }
    {
        self.peers.holder(peer)
    }

    /// How many messages, and places of bad headers, wait of an outside peer; none where its connection is closed. It takes no memory.
    pub fn inbox_len(&self, peer: u32) -> usize
        ensures { result ≡ length (inbox_of ((flow_of self.now).accesses peer).connection) }
    {
        self.peers.inbox_len(peer)
    }

    /// The type of the first message that waits of an outside peer. None where none waits, or a bad header stands there. It takes no
    /// memory.
    pub fn first_type(&self, peer: u32) -> Option<u8>
        ensures { result ≡ first_type (inbox_of ((flow_of self.now).accesses peer).connection) }
    {
        self.peers.first_type(peer)
    }

    /// What a take leaves to do for an outside peer; nothing where its connection is closed. It takes no memory.
    pub fn rest(&self, peer: u32) -> Rest
        ensures { result ≡ rest_of ((flow_of self.now).accesses peer).connection }
    {
        self.peers.rest(peer)
    }

    /// Drops all that waits in the peer's inbox.
    pub fn empty_inbox(&mut self, peer: u32)
        ensures { (flow_of self.new) ≡ change_access peer (deeds.with_inbox []) (flow_of self.old) }
    {
        self.peers.empty_inbox(peer);
    }

    /// An outside peer gets a connection with this holder, whose session has not begun and has room for
    /// what it says of itself. An `Err` changes nothing.
    pub fn connect(&mut self, peer: u32, holder: u32) -> Result<(), NoMemory>
        requires { peer < (flow_of self.old).peers }
        ensures { Connects peer holder (flow_of self.old) result (flow_of self.new) }
    {
        self.peers.connect(self.alloc, peer, holder, self.clock)
    }

    /// The connection of an outside peer is closed.
    pub fn shut(&mut self, peer: u32)
        ensures { (flow_of self.new) ≡ shut peer (flow_of self.old) }
    {
        self.peers.shut(peer);
    }

    /// An outside peer feeds bytes.
    pub fn feed(&mut self, peer: u32, piece: &[u8]) -> Result<(), Refused>
        ensures { FeedsIn peer piece.now (flow_of self.old) result (flow_of self.new) }
    {
        self.peers.feed(peer, piece)
    }

    /// What waits for an outside peer is handed out to the holder of its connection.
    pub fn drain(&mut self, peer: u32, holder: u32) -> Result<Drained, Refused>
        ensures { DrainsIn peer holder (flow_of self.old) result (flow_of self.new) }
    {
        self.peers.drain(peer, holder)
    }

    // ---- inner links

    /// How many inner links there are.
    pub fn adjacencies(&self) -> usize
        ensures { result ≡ length (flow_of self.now).adjacencies }
    {
        self.links.count()
    }

    /// Whether a link joins these two, in either order.
    pub fn is_linked(&self, a: As, b: As) -> bool
        ensures { result ≡ has_adjacency a b (flow_of self.now).adjacencies }
    {
        self.links.is_linked(a, b)
    }

    /// The lower and the upper end of the k-th link.
    pub fn adjacency_at(&self, k: usize) -> Option<(As, As)>
        ensures { option_map adjacency_of result ≡ slice_get (flow_of self.now).adjacencies k }
    {
        self.links.adjacency_at(k)
    }

    /// Whether a message is on its way between two ends.
    pub fn is_on_its_way(&self, from: As, to: As) -> bool
        ensures { result ≡ not (is_empty ((flow_of self.now).queues from to)) }
    {
        self.links.is_on_its_way(from, to)
    }

    /// How many messages are on their way from one end to another; takes no memory.
    pub fn queued(&self, from: As, to: As) -> usize
        ensures { result ≡ length ((flow_of self.now).queues from to) }
    {
        self.links.queued(from, to)
    }

    /// Empties both queues of a link.
    pub fn clear(&mut self, a: As, b: As)
        ensures { Clears a b (flow_of self.old) (flow_of self.new) }
    {
        self.links.clear(a, b);
    }

    /// The number of the session after the present one.
    pub fn next_sid(&self, at: As, to: As) -> u8
        ensures { result ≡ next_sid ((flow_of self.now).sessions at to) }
    {
        self.links.next_sid(at, to)
    }

    /// Makes a new session at an end of a link and begins it: it says its Open.
    pub fn begin_end(&mut self, at: As, to: As, sid: u8)
        requires there { Covers ((flow_of self.old).room.inner at to) 1 OWN_LENGTH }
        requires said { Covers (flow_of self.old).room.said 1 OWN_LENGTH }
        ensures { Begins at to sid (flow_of self.old) (flow_of self.new) }
    {
        self.links.begin(at, to, sid, self.clock);
        let open = own_text(Own::Open(our_offer(sid)));
        self.said.put(at, Peer::Inner(to), open.as_slice());
    }

    // ---- both

    /// The session of a member with a peer; `None` where the peer is closed. A copy can be stepped and kept
    /// or not.
    pub fn session(&self, at: As, to: Peer) -> Option<Session>
        ensures { result ≡ session_at at to (flow_of self.now) }
    {
        match to {
            Peer::Outside(peer) => self.peers.session(peer),
            Peer::Inner(other) => Some(self.links.session(at, other)),
        }
    }

    /// Sets a later state of the session of a member with an open peer; at an end of a link its number stays
    /// the same.
    pub fn set_session(&mut self, at: As, to: Peer, session: Session)
        requires { MaySet at to session (flow_of self.old) }
        ensures { (flow_of self.new) ≡ set_session_at at to session (flow_of self.old) }
    {
        match to {
            Peer::Outside(peer) => self.peers.set_session(peer, session),
            Peer::Inner(other) => self.links.set_session(at, other, session),
        }
    }

    /// The first item that waits for a member from a peer, as the session takes it. It stays there.
    pub fn first_input(&self, at: As, from: Peer) -> Result<Option<Input>, NoMemory>
        ensures { IfOk result (λ input. input ≡ option_map (deeds.input_of wire) (first_at at from (flow_of self.now))) }
    {
        match from {
            Peer::Outside(peer) => self.peers.first_input(peer),
            Peer::Inner(other) => self.links.first_input(other, at),
        }
    }

    /// Drops the first item that waits for a member from a peer.
    pub fn drop_first(&mut self, at: As, from: Peer)
        ensures { DropsFirstAt at from (flow_of self.old) (flow_of self.new) }
    {
        match from {
            Peer::Outside(peer) => self.peers.drop_first(peer),
            Peer::Inner(other) => self.links.drop_first(other, at),
        }
    }

    /// Whether a message of the session itself is left out: a Keepalive at a tick, where the queue
    /// holds bytes.
    pub fn leaves_out(&self, at: As, to: Peer, ticks: bool, own: &Own) -> bool
        ensures { result ≡ is_left_out ticks own.now (queue_at at to (flow_of self.now)) }
    {
        match to {
            Peer::Outside(peer) => self.peers.leaves_out(peer, ticks, own),
            Peer::Inner(other) => self.links.leaves_out(at, other, ticks, own),
        }
    }

    /// Makes room in the queue from a member to a peer for so many more messages, of so many bytes
    /// together, besides those of the session itself. It also fails where there is no such queue.
    pub fn reserve(
        &mut self,
        at: As,
        to: Peer,
        messages: usize,
        bytes: usize,
    ) -> Result<(), NoMemory>
        ensures grows { GrowsAt at to (flow_of self.old) (flow_of self.new) }
        ensures ok { OnOk result (KeepsRoomAt at to messages bytes (flow_of self.new)) }
    {
        match to {
            Peer::Outside(peer) => self.peers.reserve(peer, messages, bytes),
            Peer::Inner(other) => self.links.reserve(at, other, messages, bytes),
        }
    }

    /// Makes room in the list of said messages.
    pub fn reserve_said(&mut self, messages: usize, bytes: usize) -> Result<(), NoMemory>
        ensures grows { GrowsSaid (flow_of self.old) (flow_of self.new) }
        ensures ok { OnOk result (Covers (flow_of self.new).room.said messages bytes) }
    {
        self.said.reserve(messages, bytes)
    }

    /// Another step begins: nothing has been said in it.
    pub fn clear_said(&mut self)
        ensures { ClearsSaid (flow_of self.old) (flow_of self.new) }
    {
        self.said.clear();
    }

    /// A message for which there is room is put into the queue from a member to a peer, and said.
    pub fn put(&mut self, at: As, to: Peer, message: &[u8])
        requires there { Covers (room_at at to (flow_of self.old)) 1 (length message.now) }
        requires said { Covers (flow_of self.old).room.said 1 (length message.now) }
        ensures { Puts at to message.now (flow_of self.old) (flow_of self.new) }
    {
        self.said.put(at, to, message);
        match to {
            Peer::Outside(peer) => self.peers.put(peer, message),
            Peer::Inner(other) => self.links.put(at, other, message),
        }
    }

    /// The messages that were said since they were last cleared.
    pub fn said(&self) -> &Said
        ensures { result.now ≡ record { kept = (flow_of self.now).said; spare = (flow_of self.now).room.said } }
    {
        &self.said
    }

    // ---- ticks

    /// A tick that may be silent: where the session of a member with a peer has nothing to say or to do, or the
    /// peer is closed, the tick is taken and the answer is true; else nothing changes.
    pub fn tick_quietly(&mut self, at: As, to: Peer, now: Tick) -> bool
        requires { IsReached at to (flow_of self.old) }
        ensures quiet { result ≡ is_quiet_at now at to (flow_of self.old) }
        ensures next { (flow_of self.new) ≡ ticked_at now at to (flow_of self.old) }
    {
        match to {
            Peer::Outside(peer) => self.peers.tick_quietly(peer, now),
            Peer::Inner(other) => self.links.tick_quietly(at, other, now),
        }
    }
}
