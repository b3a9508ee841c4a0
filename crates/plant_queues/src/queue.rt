//! A queue of messages.
ghost use Rattle.std.specs.Prelude.{◌≡◌, ◌≤◌, ◌+◌, ◌-◌, ◌++◌, [], ◌∷◌, drop, length, slice_get, OnOk, ◌==◌};
ghost use Rattle.std.specs.Option.{option_copied};
ghost use Rattle.plant_queues.specs.Messages.{Covers, IsRoomAgain, joined};

use crate::buffer::{append_within, drop_front, settle, wanted};
use dom_base::NoMemory;
use std::alloc::Global;
use std::collections::VecDeque;
use std::marker::Model;

/// Messages in order, with room for more. The bytes of the first stand at `head`; those before it
/// have left.
#[derive(Drop)]
pub struct Queue {
    bytes: Vec<u8>,
    head: usize,
    lengths: VecDeque<usize>,
}

impl Model for Queue {
    ghost use Rattle.std.specs.Prelude.{ℕ, List};
    ghost use Rattle.plant_queues.specs.Messages.{Queued};

    ghost Value = { Queued (List ℕ) };

    ghost use Rattle.plant_queues.specs.Fields.{queued_of, HoldsQueue};

    ghost view = { queued_of };

    ghost invariant = { HoldsQueue };
}

impl Queue {
    /// No messages, and no room.
    pub fn new(alloc: Global) -> Queue
        ensures { result.kept ≡ [] }
    {
        Queue {
            bytes: Vec::new(alloc),
            head: 0,
            lengths: VecDeque::new(alloc),
        }
    }

    /// Makes room for so many more messages, of so many bytes together. On `NoMemory` the messages
    /// are as before, and the room is no smaller.
    pub fn reserve(&mut self, messages: usize, bytes: usize) -> Result<(), NoMemory>
        ensures same { self.new.kept ≡ self.old.kept }
        ensures ok { OnOk result (Covers self.new.spare messages bytes) }
        ensures messages { self.old.spare.messages ≤ self.new.spare.messages }
        ensures bytes { self.old.spare.bytes ≤ self.new.spare.bytes }
    {
        self.lengths.reserve(messages)?;
        let Some(size) = wanted(self.bytes.len() - self.head, bytes) else {
            return Err(NoMemory);
        };
        if self.bytes.capacity() < size {
            drop_front(&mut self.bytes, self.head);
            self.head = 0;
            self.bytes.reserve(size - self.bytes.len())?;
        }
        Ok(())
    }

    /// Appends a message for which there is room; takes no memory.
    pub fn put(&mut self, message: &[u8])
        requires { Covers self.old.spare 1 (length message.now) }
        ensures kept { self.new.kept ≡ self.old.kept ++ message.now ∷ [] }
        ensures messages { self.old.spare.messages ≤ self.new.spare.messages + 1 }
        ensures bytes { self.old.spare.bytes ≤ self.new.spare.bytes + length message.now }
    {
        self.head = settle(&mut self.bytes, self.head, message.len());
        append_within(&mut self.bytes, message);
        match self.lengths.push_back(message.len()) {
            Ok(()) => {}
            Err(_) => unreachable!(),
        }
    }

    /// How many messages there are.
    pub fn len(&self) -> usize
        ensures { result ≡ length self.now.kept }
    {
        let (front, back) = self.lengths.as_slices();
        front.len() + back.len()
    }

    /// Whether there is no message.
    pub fn is_empty(&self) -> bool
        ensures { result ≡ (length self.now.kept == 0) }
    {
        match self.first() {
            Some(_) => false,
            None => true,
        }
    }

    /// The bytes of all messages, one behind the other, which stay in the queue.
    pub fn joined(&self) -> &[u8]
        ensures { result.now ≡ joined self.now.kept }
    {
        &self.bytes[self.head..]
    }

    /// The first message.
    pub fn first(&self) -> Option<&[u8]>
        ensures { option_copied result ≡ slice_get self.now.kept 0 }
    {
        let length = self.lengths.front()?;
        Some(&self.bytes[self.head..self.head + *length])
    }

    /// Drops the first message.
    pub fn pop(&mut self)
        ensures kept { self.new.kept ≡ drop 1 self.old.kept }
        ensures room { IsRoomAgain (λ message. length message) self.old self.new }
    {
        if let Some(length) = self.lengths.pop_front() {
            self.head += length;
        }
    }

    /// Drops all messages.
    pub fn clear(&mut self)
        ensures kept { self.new.kept ≡ [] }
        ensures room { IsRoomAgain (λ message. length message) self.old self.new }
    {
        self.bytes.clear();
        self.lengths.clear();
        self.head = 0;
    }
}
