//! One end of a session, and the queue of what it sends.
ghost use Rattle.std.specs.Prelude.{◌≡◌, [], drop, length, slice_get, OnOk};
ghost use Rattle.std.specs.Option.{option_copied};
ghost use Rattle.pcep_framing.specs.Frames.{joined};
ghost use Rattle.plant_queues.specs.Messages.{Covers};
ghost use Rattle.network_links.specs.Ends.{sends, begun, own_bytes, is_left_out, with_kept};
ghost use Rattle.network_links.specs.QuietSides.{sender_ticked};
ghost use Rattle.network_links.specs.Rooms.{KeepsRoom, Grows, Spends, Frees, queue};
ghost use Rattle.pcep_session.specs.Quiet.{is_quiet};
ghost use Rattle.pcep_session.specs.Table.{new_state};
ghost use Rattle.plant_model.specs.Deeds as deeds;
ghost use Rattle.plant_model.specs.Events as events;

use crate::OWN_LENGTH;
use crate::own::{open_text, our_offer};
use crate::session::{begun_session, is_over};
use dom_base::{NoMemory, Tick};
use pcep_session::{Own, Session};
use plant_queues::Queue;
use std::alloc::Global;
use std::marker::Model;

/// A session, and the queue of the messages that it has sent.
#[derive(Drop)]
pub(crate) struct Side {
    session: Session,
    out: Queue,
}

impl Model for Side {
    ghost use Rattle.network_links.specs.Ends.{Roomy, Sender};

    ghost Value = { Roomy Sender };

    ghost use Rattle.network_links.specs.SideFields.{sender_of};

    ghost view = { sender_of };
}

impl Side {
    /// A session that has not begun, and nothing sent.
    pub fn new(alloc: Global, sid: u8, now: Tick) -> Side
        ensures { result.kept ≡ record { session = new_state (deeds.our_offer sid) now; out = [] } }
    {
        Side {
            session: Session::new(our_offer(sid), now),
            out: Queue::new(alloc),
        }
    }

    /// The session at this end of the link.
    pub fn session(&self) -> Session
        ensures { result ≡ self.now.kept.session }
    {
        self.session
    }

    /// Replaces the session; the queue stays.
    pub fn set_session(&mut self, session: Session)
        ensures { self.new ≡ with_kept (record self.old.kept { session = session }) self.old }
    {
        self.session = session;
    }

    /// Whether the session is over.
    pub fn is_down(&self) -> bool
        ensures { result ≡ events.is_down self.now.kept.session.phase }
    {
        is_over(&self.session)
    }

    /// Makes room for so many more messages, of so many bytes together, besides those of the session
    /// itself.
    pub fn reserve(&mut self, messages: usize, bytes: usize) -> Result<(), NoMemory>
        ensures same { self.new.kept ≡ self.old.kept }
        ensures ok { OnOk result (KeepsRoom messages bytes (queue self.new.kept.out self.new.spare)) }
        ensures room { Grows self.old.spare self.new.spare }
    {
        let Some(messages) = messages.checked_add(3) else {
            return Err(NoMemory);
        };
        let Some(bytes) = bytes.checked_add(3 * OWN_LENGTH) else {
            return Err(NoMemory);
        };
        self.out.reserve(messages, bytes)
    }

    /// Sends a message for which there is room; takes no memory.
    pub fn put(&mut self, message: &[u8])
        requires { Covers self.old.spare 1 (length message.now) }
        ensures kept { self.new.kept ≡ sends message.now self.old.kept }
        ensures room { Spends message.now self.old.spare self.new.spare }
    {
        self.out.put(message);
    }

    /// Whether a message of the session itself is left out, at a tick or at another input.
    pub fn leaves_out(&self, ticks: bool, own: &Own) -> bool
        ensures { result ≡ is_left_out ticks own.now self.now.kept.out }
    {
        let is_keepalive = match own {
            Own::Keepalive => true,
            Own::Open(_) | Own::Error(_, _) | Own::Close(_) => false,
        };
        ticks && is_keepalive && !self.out.is_empty()
    }

    /// Makes a new session and begins it: its Open is sent. Takes no memory.
    pub fn begin(&mut self, sid: u8, now: Tick)
        requires { Covers self.old.spare 1 OWN_LENGTH }
        ensures kept { self.new.kept ≡ begun sid now self.old.kept }
        ensures room { Spends (own_bytes (Own.Open (deeds.our_offer sid))) self.old.spare self.new.spare }
    {
        self.session = begun_session(sid, now);
        self.put(open_text(sid).as_slice());
    }

    /// How many messages wait in the queue.
    pub fn queued(&self) -> usize
        ensures { result ≡ length self.now.kept.out }
    {
        self.out.len()
    }

    /// The first message that was sent and is on its way.
    pub fn first(&self) -> Option<&[u8]>
        ensures { option_copied result ≡ slice_get self.now.kept.out 0 }
    {
        self.out.first()
    }

    /// The first message has left.
    pub fn pop(&mut self)
        ensures kept { self.new.kept ≡ record self.old.kept { out = drop 1 self.old.kept.out } }
        ensures room { Frees (queue self.old.kept.out self.old.spare) (queue self.new.kept.out self.new.spare) }
    {
        self.out.pop();
    }

    /// All messages have left.
    pub fn clear(&mut self)
        ensures kept { self.new.kept ≡ record self.old.kept { out = [] } }
        ensures room { Frees (queue self.old.kept.out self.old.spare) (queue self.new.kept.out self.new.spare) }
    {
        self.out.clear();
    }

    /// The bytes of all messages that are on their way.
    pub fn joined(&self) -> &[u8]
        ensures { result.now ≡ joined self.now.kept.out }
    {
        self.out.joined()
    }

    /// A tick that may be silent: where the session has nothing to say or to do, the tick is taken and the
    /// answer is true; else nothing changes. It takes no memory.
    pub fn tick_quietly(&mut self, now: Tick) -> bool
        ensures quiet { result ≡ is_quiet now self.old.kept.session }
        ensures next { self.new ≡ with_kept (sender_ticked now self.old.kept) self.old }
    {
        self.session.tick_quietly(now)
    }
}
