//! Outside peers by their numbers.
ghost use Rattle.std.specs.Prelude.{◌≡◌, ◌<◌, [], length, slice_get, IfOk, is_some};
ghost use Rattle.std.specs.Option.{option_map};
ghost use Rattle.plant_queues.specs.Messages.{Covers};
ghost use Rattle.plant_model.specs.RealWire.{wire};
ghost use Rattle.plant_model.specs.Deeds as deeds;
ghost use Rattle.network_links.specs.Accesses.{ConnectsGuest, DrainsGuest, FeedsGuest, Goes, GrowsGuest, SendsGuest, Shuts, TicksGuest};
ghost use Rattle.network_links.specs.Ends.{is_left_out};
ghost use Rattle.network_links.specs.Flow.{drop_first, inbox_of, out_of};
ghost use Rattle.network_links.specs.Inboxes.{first_type};
ghost use Rattle.network_links.specs.Peers.{Changes, guests_of, no_guests};
ghost use Rattle.network_links.specs.Rests.{rest_of};

use crate::access::Access;
use crate::accesses::{
    connect, drain, drop_first, empty_inbox, feed, put, reserve, set_session, shut, tick_quietly,
};
use crate::connection::Connection;
use crate::rest::Rest;
use dom_base::{Bytes, NoMemory, Tick};
use pcep_session::{Input, Own, Session};
use plant_model::Refused;
use std::alloc::Global;
use std::marker::Model;

/// The outside peers of a network, numbered from 0.
#[derive(Drop)]
pub(crate) struct Peers {
    rows: Vec<Access>,
}

impl Model for Peers {
    ghost use Rattle.std.specs.Prelude.{List};
    ghost use Rattle.network_links.specs.declared.access.Access.{Access};

    ghost Value = { List Access };

    ghost view = { λ a. a.rows.items };
}

/// What is handed out to the holder of a connection: the bytes that waited, and whether its session is over.
#[derive(Drop)]
pub struct Drained {
    pub bytes: Bytes,
    pub ended: bool,
}

impl Peers {
    /// A table of so many peers, none of them ever open.
    pub fn new(alloc: Global, count: usize) -> Result<Peers, NoMemory>
        ensures { IfOk result (λ peers. guests_of peers ≡ no_guests count) }
    {
        let mut rows = Vec::new(alloc);
        for _i in 0..count {
            rows.push(Access::new())?;
        }
        Ok(Peers { rows })
    }

    /// How many outside peers the settings have.
    pub fn count(&self) -> usize
        ensures { result ≡ (guests_of self.now).count }
    {
        self.rows.len()
    }

    fn connection(&self, peer: u32) -> Option<&Connection>
        ensures { option_map (λ x. x.now.kept) result ≡ ((guests_of self.now).accesses peer).connection }
    {
        let Some(access) = self.rows.get(peer as usize) else {
            return None;
        };
        access.connection.as_ref()
    }

    /// Whether the peer's connection is open.
    pub fn is_open(&self, peer: u32) -> bool
        ensures { result ≡ is_some ((guests_of self.now).accesses peer).connection }
    {
        match self.connection(peer) {
            Some(_) => true,
            None => false,
        }
    }

    /// Who holds the peer's connection, where it is open.
    pub fn holder(&self, peer: u32) -> Option<u32>
        ensures { result ≡ option_map (λ x. x.holder) ((guests_of self.now).accesses peer).connection }
    {
        match self.connection(peer) {
            Some(connection) => Some(connection.holder()),
            None => None,
        }
    }

    /// The peer's session, where its connection is open.
    pub fn session(&self, peer: u32) -> Option<Session>
        ensures { result ≡ option_map (λ x. x.session) ((guests_of self.now).accesses peer).connection }
    {
        match self.connection(peer) {
            Some(connection) => Some(connection.session()),
            None => None,
        }
    }

    /// The first item of a peer's inbox, as its session takes it.
    pub fn first_input(&self, peer: u32) -> Result<Option<Input>, NoMemory>
        ensures { IfOk result (λ input. input ≡ option_map (deeds.input_of wire) (slice_get (inbox_of ((guests_of self.now).accesses peer).connection) 0)) }
    {
        match self.connection(peer) {
            Some(connection) => connection.first_input(),
            None => Ok(None),
        }
    }

    /// How many messages, and places of bad headers, wait of a peer; none where its connection is closed.
    pub fn inbox_len(&self, peer: u32) -> usize
        ensures { result ≡ length (inbox_of ((guests_of self.now).accesses peer).connection) }
    {
        match self.connection(peer) {
            Some(connection) => connection.inbox_len(),
            None => 0,
        }
    }

    /// The type of the first message that waits of a peer.
    pub fn first_type(&self, peer: u32) -> Option<u8>
        ensures { result ≡ first_type (inbox_of ((guests_of self.now).accesses peer).connection) }
    {
        match self.connection(peer) {
            Some(connection) => connection.first_type(),
            None => None,
        }
    }

    /// What a take leaves to do for a peer; nothing where its connection is closed.
    pub fn rest(&self, peer: u32) -> Rest
        ensures { result ≡ rest_of ((guests_of self.now).accesses peer).connection }
    {
        match self.connection(peer) {
            Some(connection) => connection.rest(),
            None => Rest::Nothing,
        }
    }

    /// Whether a message of the session itself is left out.
    pub fn leaves_out(&self, peer: u32, ticks: bool, own: &Own) -> bool
        ensures { result ≡ is_left_out ticks own.now (out_of ((guests_of self.now).accesses peer).connection) }
    {
        match self.connection(peer) {
            Some(connection) => connection.leaves_out(ticks, own),
            None => false,
        }
    }

    /// Replaces the peer's session.
    pub fn set_session(&mut self, peer: u32, session: Session)
        ensures { Changes peer (Goes (deeds.with_session session)) (guests_of self.old) (guests_of self.new) }
    {
        if let Some(access) = self.rows.get_mut(peer as usize) {
            set_session(access, session);
        }
    }

    /// Takes the first message out of the peer's inbox.
    pub fn drop_first(&mut self, peer: u32)
        ensures { Changes peer (Goes drop_first) (guests_of self.old) (guests_of self.new) }
    {
        if let Some(access) = self.rows.get_mut(peer as usize) {
            drop_first(access);
        }
    }

    /// Drops all that waits in the peer's inbox.
    pub fn empty_inbox(&mut self, peer: u32)
        ensures { Changes peer (Goes (deeds.with_inbox [])) (guests_of self.old) (guests_of self.new) }
    {
        if let Some(access) = self.rows.get_mut(peer as usize) {
            empty_inbox(access);
        }
    }

    /// Opens the peer's connection in the name of this holder.
    pub fn connect(
        &mut self,
        alloc: Global,
        peer: u32,
        holder: u32,
        now: Tick,
    ) -> Result<(), NoMemory>
        requires { peer < (guests_of self.old).count }
        ensures { Changes peer (ConnectsGuest holder now result) (guests_of self.old) (guests_of self.new) }
    {
        match self.rows.get_mut(peer as usize) {
            Some(access) => connect(access, alloc, holder, now),
            None => unreachable!(),
        }
    }

    /// Shuts the peer's connection; what waits in it is dropped.
    pub fn shut(&mut self, peer: u32)
        ensures { Changes peer Shuts (guests_of self.old) (guests_of self.new) }
    {
        if let Some(access) = self.rows.get_mut(peer as usize) {
            shut(access);
        }
    }

    /// Makes room in the queue of a peer; fails where it is closed.
    pub fn reserve(&mut self, peer: u32, messages: usize, bytes: usize) -> Result<(), NoMemory>
        ensures { Changes peer (GrowsGuest messages bytes result) (guests_of self.old) (guests_of self.new) }
    {
        match self.rows.get_mut(peer as usize) {
            Some(access) => reserve(access, messages, bytes),
            None => Err(NoMemory),
        }
    }

    /// Sends a message for which there is room.
    pub fn put(&mut self, peer: u32, message: &[u8])
        requires { Covers ((guests_of self.old).room peer) 1 (length message.now) }
        ensures { Changes peer (SendsGuest message.now) (guests_of self.old) (guests_of self.new) }
    {
        match self.rows.get_mut(peer as usize) {
            Some(access) => put(access, message),
            None => unreachable!(),
        }
    }

    /// An outside peer feeds bytes.
    pub fn feed(&mut self, peer: u32, piece: &[u8]) -> Result<(), Refused>
        ensures { Changes peer (FeedsGuest piece.now result) (guests_of self.old) (guests_of self.new) }
    {
        match self.rows.get_mut(peer as usize) {
            Some(access) => feed(access, piece),
            None => Err(Refused::NoSuchPeer),
        }
    }

    /// What waits for an outside peer is handed out to the holder of its connection.
    pub fn drain(&mut self, peer: u32, holder: u32) -> Result<Drained, Refused>
        ensures { Changes peer (DrainsGuest holder result) (guests_of self.old) (guests_of self.new) }
    {
        if (peer as usize) < self.rows.len() {
            drain(&mut self.rows[peer as usize], holder)
        } else {
            Err(Refused::NoSuchPeer)
        }
    }

    /// A tick that may be silent: where the peer's session has nothing to say or to do, or the peer is closed,
    /// the tick is taken and the answer is true; else nothing changes.
    pub fn tick_quietly(&mut self, peer: u32, now: Tick) -> bool
        ensures { Changes peer (TicksGuest now result) (guests_of self.old) (guests_of self.new) }
    {
        match self.rows.get_mut(peer as usize) {
            Some(access) => tick_quietly(access, now),
            None => true,
        }
    }
}
