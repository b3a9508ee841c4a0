//! An open connection of an outside peer.
ghost use Rattle.std.specs.Prelude.{◌≡◌, [], drop, length, slice_get, IfOk, OnOk, OnErr, IsTrue, false, Some};
ghost use Rattle.std.specs.Option.{option_map};
ghost use Rattle.pcep_framing.specs.Frames.{joined};
ghost use Rattle.pcep_session.specs.Quiet.{is_quiet};
ghost use Rattle.plant_queues.specs.Messages.{Covers};
ghost use Rattle.plant_model.specs.RealWire.{wire};
ghost use Rattle.plant_model.specs.Deeds as deeds;
ghost use Rattle.plant_model.specs.Events as events;
ghost use Rattle.network_links.specs.Inboxes.{first_type};
ghost use Rattle.network_links.specs.Ends.{just_open, fed_while_up, is_left_out, with_kept};
ghost use Rattle.network_links.specs.QuietSides.{ticked_quietly};
ghost use Rattle.network_links.specs.Rests.{rest_of};
ghost use Rattle.network_links.specs.Rooms.{KeepsRoom, Grows, Spends, Frees, queue};

use crate::inbox::{Item, append_all, arrive, input_of, type_of};
use crate::rest::{BACKLOG_MAX, Rest};
use crate::side::Side;
use dom_base::{Bytes, List, NoMemory, Tick};
use pcep_framing::Framer;
use pcep_session::{Input, Own, Session};
use std::alloc::Global;
use std::collections::VecDeque;
use std::marker::Model;

/// An open connection of an outside peer: who holds it, its session, what has come and was not yet
/// taken, and what was sent and not yet drained.
#[derive(Drop)]
pub struct Connection {
    alloc: Global,
    holder: u32,
    side: Side,
    framer: Framer,
    inbox: VecDeque<Item>,
}

impl Model for Connection {
    ghost use Rattle.network_links.specs.Ends.{Connected};

    ghost Value = { Connected };

    ghost use Rattle.network_links.specs.ConnectionFields.{connection_of};

    ghost view = { connection_of };
}

impl Connection {
    /// A connection whose session has not begun. `sid` counts the earlier ones of its peer, modulo 256.
    /// It takes no memory.
    pub fn new(alloc: Global, holder: u32, sid: u8, now: Tick) -> Connection
        ensures { result.kept ≡ just_open holder sid now }
    {
        Connection {
            alloc,
            holder,
            side: Side::new(alloc, sid, now),
            framer: Framer::new(alloc),
            inbox: VecDeque::new(alloc),
        }
    }

    /// The number of whoever holds the connection.
    pub fn holder(&self) -> u32
        ensures { result ≡ self.now.kept.holder }
    {
        self.holder
    }

    /// Its session. A copy of it can be stepped, and then kept or dropped.
    pub fn session(&self) -> Session
        ensures { result ≡ self.now.kept.session }
    {
        self.side.session()
    }

    /// Replaces the session; queues and inbox stay.
    pub fn set_session(&mut self, session: Session)
        ensures { self.new ≡ with_kept (deeds.with_session session self.old.kept) self.old }
    {
        self.side.set_session(session);
    }

    /// Whether its session is over.
    pub fn is_down(&self) -> bool
        ensures { result ≡ events.is_down self.now.kept.session.phase }
    {
        self.side.is_down()
    }

    /// Takes a piece of the peer's stream: its whole messages go into the inbox, one for each request
    /// or reply. Once the session is over nothing does, and no memory is taken. An `Err` changes nothing.
    pub fn feed(&mut self, piece: &[u8]) -> Result<(), NoMemory>
        ensures ok { OnOk result (self.new ≡ with_kept (fed_while_up piece.now self.old.kept) self.old) }
        ensures err { OnErr result (self.new ≡ self.old) }
        ensures over { OnErr result (events.is_down self.old.kept.session.phase ≡ false) }
    {
        if self.is_down() {
            return Ok(());
        }
        let arrived = arrive(self.alloc, &self.framer, piece)?;
        append_all(&mut self.inbox, arrived.items)?;
        self.framer = arrived.framer;
        Ok(())
    }

    /// The first item of the inbox, as its session takes it. It stays in the inbox.
    pub fn first_input(&self) -> Result<Option<Input>, NoMemory>
        ensures { IfOk result (λ input. input ≡ option_map (deeds.input_of wire) (slice_get self.now.kept.inbox 0)) }
    {
        match self.inbox.front() {
            Some(item) => Ok(Some(input_of(self.alloc, item)?)),
            None => Ok(None),
        }
    }

    /// What a take leaves to do; takes no memory.
    pub fn rest(&self) -> Rest
        ensures { result ≡ rest_of (Some self.now.kept) }
    {
        if self.inbox.is_empty() {
            Rest::Nothing
        } else if self.side.joined().len() > BACKLOG_MAX {
            Rest::Backlog
        } else {
            Rest::Messages
        }
    }

    /// How many messages, and places of bad headers, wait to be taken; takes no memory.
    pub fn inbox_len(&self) -> usize
        ensures { result ≡ length self.now.kept.inbox }
    {
        let (front, back) = self.inbox.as_slices();
        front.len() + back.len()
    }

    /// The type of the first message that waits. None where none waits, or a bad header stands there. It takes no memory.
    pub fn first_type(&self) -> Option<u8>
        ensures { result ≡ first_type self.now.kept.inbox }
    {
        match self.inbox.front() {
            Some(Some(message)) => Some(type_of(message.as_slice())),
            _ => None,
        }
    }

    /// Drops the first item of the inbox; takes no memory.
    pub fn drop_first(&mut self)
        ensures { self.new ≡ with_kept (deeds.with_inbox (drop 1 self.old.kept.inbox) self.old.kept) self.old }
    {
        let _item = self.inbox.pop_front();
    }

    /// Empties the inbox; takes no memory.
    pub fn empty_inbox(&mut self)
        ensures { self.new ≡ with_kept (deeds.with_inbox [] self.old.kept) self.old }
    {
        self.inbox.clear();
    }

    /// Makes room for so many more messages, of so many bytes together, besides those of the session
    /// itself. An `Err` leaves all but the room as it was.
    pub fn reserve(&mut self, messages: usize, bytes: usize) -> Result<(), NoMemory>
        ensures same { self.new.kept ≡ self.old.kept }
        ensures ok { OnOk result (KeepsRoom messages bytes (queue self.new.kept.out self.new.spare)) }
        ensures room { Grows self.old.spare self.new.spare }
    {
        self.side.reserve(messages, bytes)
    }

    /// Sends a message for which there is room; takes no memory.
    pub fn put(&mut self, message: &[u8])
        requires { Covers self.old.spare 1 (length message.now) }
        ensures kept { self.new.kept ≡ deeds.with_more message.now self.old.kept }
        ensures room { Spends message.now self.old.spare self.new.spare }
    {
        self.side.put(message);
    }

    /// Whether a message of the session itself is left out: a Keepalive at a tick, where the queue
    /// holds bytes.
    pub fn leaves_out(&self, ticks: bool, own: &Own) -> bool
        ensures { result ≡ is_left_out ticks own.now self.now.kept.out }
    {
        self.side.leaves_out(ticks, own)
    }

    /// Hands out the bytes of the queue. An `Err` changes nothing.
    pub fn drain(&mut self) -> Result<Bytes, NoMemory>
        ensures bytes { IfOk result (λ bytes. bytes ≡ joined self.old.kept.out) }
        ensures ok { OnOk result (self.new.kept ≡ events.drained self.old.kept) }
        ensures room { OnOk result (Frees (queue self.old.kept.out self.old.spare) (queue self.new.kept.out self.new.spare)) }
        ensures err { OnErr result (self.new ≡ self.old) }
    {
        let bytes = Vec::from_slice(self.alloc, self.side.joined())?;
        self.side.clear();
        Ok(List::from_vec(bytes))
    }

    /// A tick that may be silent: where the session has nothing to say or to do, the tick is taken and the
    /// answer is true; else nothing changes. It takes no memory.
    pub fn tick_quietly(&mut self, now: Tick) -> bool
        ensures quiet { result ≡ is_quiet now self.old.kept.session }
        ensures next { self.new ≡ with_kept (ticked_quietly now self.old.kept) self.old }
    {
        self.side.tick_quietly(now)
    }
}
