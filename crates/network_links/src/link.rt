//! An inner link, between two elements or an element and the parent.
ghost use Rattle.std.specs.Prelude.{◌≡◌, [], drop, length, not, slice_get, Some, IfOk, OnOk};
ghost use Rattle.std.specs.Option.{option_map};
ghost use Rattle.pcep_session.specs.Quiet.{is_quiet};
ghost use Rattle.plant_queues.specs.Messages.{Covers};
ghost use Rattle.plant_model.specs.Names.{is_empty};
ghost use Rattle.plant_model.specs.RealWire.{wire};
ghost use Rattle.plant_model.specs.Deeds as deeds;
ghost use Rattle.network_links.specs.Ends as ends;
ghost use Rattle.network_links.specs.Ends.{sends, begun, own_bytes, is_left_out, with_kept};
ghost use Rattle.network_links.specs.Links.{at_end, set_end, new_sender, next_sid};
ghost use Rattle.network_links.specs.QuietSides.{sender_ticked};
ghost use Rattle.network_links.specs.Rooms.{KeepsRoom, Grows, Spends, Frees, queue};

use crate::OWN_LENGTH;
use crate::inbox::read_input;
use crate::side::Side;
use dom_base::{As, NoMemory, Tick};
use pcep_session::{Input, Own, Session};
use std::alloc::Global;
use std::marker::Model;

/// An end of a link, and the session and the queue of what this end sends.
#[derive(Clone, Copy)]
pub enum End {
    /// That of the lower number.
    Lower,
    Upper,
}

/// A link: a session at each end, and in each direction the messages that are on their way.
#[derive(Drop)]
pub struct Link {
    alloc: Global,
    below: As,
    above: As,
    lower_sid: u8,
    upper_sid: u8,
    lower: Side,
    upper: Side,
}

impl Model for Link {
    ghost use Rattle.network_links.specs.Links.{Joined};

    ghost Value = { Joined };

    ghost use Rattle.network_links.specs.LinkFields.{link_of, KeepsNumbers};

    ghost view = { link_of };

    ghost invariant = { KeepsNumbers };
}

impl Link {
    /// A link whose sessions have not begun; takes no memory.
    pub fn new(alloc: Global, lower: As, upper: As) -> Link
        ensures adjacency { result.adjacency ≡ record { lower = lower; upper = upper } }
        ensures lower { result.lower.kept ≡ new_sender }
        ensures upper { result.upper.kept ≡ new_sender }
    {
        Link {
            alloc,
            below: lower,
            above: upper,
            lower_sid: 0,
            upper_sid: 0,
            lower: Side::new(alloc, 0, Tick(0)),
            upper: Side::new(alloc, 0, Tick(0)),
        }
    }

    /// The lower number and the upper one.
    pub fn adjacency(&self) -> (As, As)
        ensures { result ≡ (self.now.adjacency.lower, self.now.adjacency.upper) }
    {
        (self.below, self.above)
    }

    fn side(&self, at: End) -> &Side
        ensures { result.now ≡ at_end at self.now }
    {
        match at {
            End::Lower => &self.lower,
            End::Upper => &self.upper,
        }
    }

    /// The session at an end. A copy of it can be stepped, and then kept or dropped.
    pub fn session(&self, at: End) -> Session
        ensures { result ≡ (at_end at self.now).kept.session }
    {
        self.side(at).session()
    }

    /// Sets a later state of the session at an end; its number stays the same.
    pub fn set_session(&mut self, at: End, session: Session)
        requires { session.offer.sid ≡ (at_end at self.old).kept.session.offer.sid }
        ensures { self.new ≡ set_end at (with_kept (record (at_end at self.old).kept { session = session }) (at_end at self.old)) self.old }
    {
        match at {
            End::Lower => self.lower.set_session(session),
            End::Upper => self.upper.set_session(session),
        }
    }

    /// Whether a message that an end has sent is on its way.
    pub fn has_sent(&self, from: End) -> bool
        ensures { result ≡ not (is_empty (at_end from self.now).kept.out) }
    {
        self.side(from).first().is_some()
    }

    /// How many messages an end has sent that are not taken yet.
    pub fn queued(&self, from: End) -> usize
        ensures { result ≡ length (at_end from self.now).kept.out }
    {
        self.side(from).queued()
    }

    /// The first message that an end has sent, as the session at the other end takes it. It stays in
    /// the queue.
    pub fn first_input(&self, from: End) -> Result<Option<Input>, NoMemory>
        ensures { IfOk result (λ input. input ≡ option_map (λ frame. deeds.input_of wire (Some frame)) (slice_get (at_end from self.now).kept.out 0)) }
    {
        match self.side(from).first() {
            Some(frame) => Ok(Some(read_input(self.alloc, frame)?)),
            None => Ok(None),
        }
    }

    /// Drops the first message that an end has sent; takes no memory.
    pub fn drop_first(&mut self, from: End)
        ensures kept { (at_end from self.new).kept ≡ record (at_end from self.old).kept { out = drop 1 (at_end from self.old).kept.out } }
        ensures rest { self.new ≡ set_end from (at_end from self.new) self.old }
        ensures room { Frees (queue (at_end from self.old).kept.out (at_end from self.old).spare) (queue (at_end from self.new).kept.out (at_end from self.new).spare) }
    {
        match from {
            End::Lower => self.lower.pop(),
            End::Upper => self.upper.pop(),
        }
    }

    /// Makes room for so many more messages of an end, of so many bytes together, besides those of the
    /// session itself. An `Err` leaves all but the room as it was.
    pub fn reserve(&mut self, at: End, messages: usize, bytes: usize) -> Result<(), NoMemory>
        ensures same { (at_end at self.new).kept ≡ (at_end at self.old).kept }
        ensures rest { self.new ≡ set_end at (at_end at self.new) self.old }
        ensures ok { OnOk result (KeepsRoom messages bytes (queue (at_end at self.new).kept.out (at_end at self.new).spare)) }
        ensures room { Grows (at_end at self.old).spare (at_end at self.new).spare }
    {
        match at {
            End::Lower => self.lower.reserve(messages, bytes),
            End::Upper => self.upper.reserve(messages, bytes),
        }
    }

    /// An end sends a message for which there is room; takes no memory.
    pub fn put(&mut self, at: End, message: &[u8])
        requires { Covers (at_end at self.old).spare 1 (length message.now) }
        ensures kept { (at_end at self.new).kept ≡ sends message.now (at_end at self.old).kept }
        ensures rest { self.new ≡ set_end at (at_end at self.new) self.old }
        ensures room { Spends message.now (at_end at self.old).spare (at_end at self.new).spare }
    {
        match at {
            End::Lower => self.lower.put(message),
            End::Upper => self.upper.put(message),
        }
    }

    /// Whether a message of the session itself is left out: a Keepalive at a tick, where the queue
    /// holds bytes.
    pub fn leaves_out(&self, at: End, ticks: bool, own: &Own) -> bool
        ensures { result ≡ is_left_out ticks own.now (at_end at self.now).kept.out }
    {
        self.side(at).leaves_out(ticks, own)
    }

    /// Empties both queues; takes no memory.
    pub fn clear(&mut self)
        ensures adjacency { self.new.adjacency ≡ self.old.adjacency }
        ensures lower { self.new.lower.kept ≡ record self.old.lower.kept { out = [] } }
        ensures upper { self.new.upper.kept ≡ record self.old.upper.kept { out = [] } }
        ensures lower_room { Frees (queue self.old.lower.kept.out self.old.lower.spare) (queue self.new.lower.kept.out self.new.lower.spare) }
        ensures upper_room { Frees (queue self.old.upper.kept.out self.old.upper.spare) (queue self.new.upper.kept.out self.new.upper.spare) }
    {
        self.lower.clear();
        self.upper.clear();
    }

    /// The number of the session after the present one at an end.
    pub fn next_sid(&self, at: End) -> u8
        ensures { result ≡ next_sid (at_end at self.now).kept.session }
    {
        match at {
            End::Lower => self.lower_sid.wrapping_add(1),
            End::Upper => self.upper_sid.wrapping_add(1),
        }
    }

    /// Makes a new session at an end and begins it: it sends its Open. It takes no memory.
    pub fn begin(&mut self, at: End, sid: u8, now: Tick)
        requires { Covers (at_end at self.old).spare 1 OWN_LENGTH }
        ensures kept { (at_end at self.new).kept ≡ begun sid now (at_end at self.old).kept }
        ensures rest { self.new ≡ set_end at (at_end at self.new) self.old }
        ensures room { Spends (own_bytes (Own.Open (deeds.our_offer sid))) (at_end at self.old).spare (at_end at self.new).spare }
    {
        match at {
            End::Lower => {
                self.lower.begin(sid, now);
                self.lower_sid = sid;
            }
            End::Upper => {
                self.upper.begin(sid, now);
                self.upper_sid = sid;
            }
        }
    }

    /// A tick that may be silent: where the session at an end has nothing to say or to do, the tick is taken
    /// and the answer is true; else nothing changes. It takes no memory.
    #[tactic(auto, using(crate::proofs::QuietSideLemmas::quiet_keeps_number))]
    pub fn tick_quietly(&mut self, at: End, now: Tick) -> bool
        ensures quiet { result ≡ is_quiet now (at_end at self.old).kept.session }
        ensures next { self.new ≡ set_end at (with_kept (sender_ticked now (at_end at self.old).kept) (at_end at self.old)) self.old }
    {
        match at {
            End::Lower => self.lower.tick_quietly(now),
            End::Upper => self.upper.tick_quietly(now),
        }
    }
}
