//! The messages that one step puts into queues.
ghost use Rattle.std.specs.Prelude.{◌≡◌, ◌≤◌, ◌<◌, ◌+◌, ◌↔◌, ◌-◌, ◌++◌, take, drop, [], ◌∷◌, length, slice_get, Some, OnOk, ◌==◌};
ghost use Rattle.std.specs.Option.{option_map};
ghost use Rattle.plant_queues.specs.Messages.{Covers, IsRoomAgain};
ghost use Rattle.plant_queues.specs.Sents.{sent_of, size_of};

use crate::buffer::append_within;
use dom_base::{As, NoMemory, Peer};
use std::alloc::Global;
use std::marker::Model;

/// Where a message stands in the bytes.
#[derive(Clone, Copy)]
pub struct MessageSpan {
    pub from: As,
    pub to: Peer,
    pub start: usize,
    pub end: usize,
}

/// The messages of one step, in order, with room for more.
#[derive(Drop)]
pub struct Said {
    bytes: Vec<u8>,
    places: Vec<MessageSpan>,
}

impl Model for Said {
    ghost use Rattle.plant_queues.specs.Messages.{Queued};
    ghost use Rattle.plant_queues.specs.declared.sent.Sent.{Sent};

    ghost Value = { Queued Sent };

    ghost use Rattle.plant_queues.specs.SaidFields.{said_of, HoldsSaid};

    ghost view = { said_of };

    ghost invariant = { HoldsSaid };
}

fn piece(bytes: &[u8], start: usize, end: usize) -> &[u8]
    requires ordered { start ≤ end }
    requires within { end ≤ length bytes.now }
    ensures { result.now ≡ take (end - start) (drop start bytes.now) }
{
    &bytes[start..end]
}

impl Said {
    /// No messages, and no room.
    pub fn new(alloc: Global) -> Said
        ensures { result.kept ≡ [] }
    {
        Said {
            bytes: Vec::new(alloc),
            places: Vec::new(alloc),
        }
    }

    /// Makes room for so many more messages, of so many bytes together. On `NoMemory` the messages
    /// are as before, and the room is no smaller.
    pub fn reserve(&mut self, messages: usize, bytes: usize) -> Result<(), NoMemory>
        ensures same { self.new.kept ≡ self.old.kept }
        ensures ok { OnOk result (Covers self.new.spare messages bytes) }
        ensures messages { self.old.spare.messages ≤ self.new.spare.messages }
        ensures bytes { self.old.spare.bytes ≤ self.new.spare.bytes }
    {
        self.places.reserve(messages)?;
        self.bytes.reserve(bytes)?;
        Ok(())
    }

    /// Appends a message for which there is room; takes no memory.
    pub fn put(&mut self, from: As, to: Peer, message: &[u8])
        requires { Covers self.old.spare 1 (length message.now) }
        ensures kept { self.new.kept ≡ self.old.kept ++ sent_of from to message.now ∷ [] }
        ensures messages { self.old.spare.messages ≤ self.new.spare.messages + 1 }
        ensures bytes { self.old.spare.bytes ≤ self.new.spare.bytes + length message.now }
    {
        let start = self.bytes.len();
        append_within(&mut self.bytes, message);
        let place = MessageSpan {
            from,
            to,
            start,
            end: self.bytes.len(),
        };
        match self.places.push(place) {
            Ok(()) => {}
            Err(_) => unreachable!(),
        }
    }

    /// Drops all messages.
    pub fn clear(&mut self)
        ensures kept { self.new.kept ≡ [] }
        ensures room { IsRoomAgain size_of self.old self.new }
    {
        self.bytes.clear();
        self.places.clear();
    }

    /// How many messages there are.
    pub fn len(&self) -> usize
        ensures { result ≡ length self.now.kept }
    {
        self.places.len()
    }

    /// Whether there is none.
    pub fn is_empty(&self) -> bool
        ensures { result ≡ (length self.now.kept == 0) }
    {
        self.len() == 0
    }

    /// Where the k-th message went from and to.
    pub fn way(&self, k: usize) -> (As, Peer)
        requires { k < length self.now.kept }
        ensures { option_map (λ sent. (sent.from, sent.to)) (slice_get self.now.kept k) ≡ Some result }
    {
        let place = self.places[k];
        (place.from, place.to)
    }

    /// The bytes of the k-th message.
    pub fn bytes(&self, k: usize) -> &[u8]
        requires { k < length self.now.kept }
        ensures { option_map (λ sent. sent.bytes) (slice_get self.now.kept k) ≡ Some result.now }
    {
        let place = self.places[k];
        piece(&self.bytes, place.start, place.end)
    }
}
