//! The table of pending requests.
ghost use Rattle.std.specs.Prelude.{◌≡◌, ◌≢◌, ◌≤◌, ◌<◌, ◌+◌, ◌↔◌, ◌==◌, [], length, slice_get, Err, None, IfOk, IsOk, OnOk, OnErr, IfErr, IsSome};
ghost use Rattle.std.specs.Borrow.{sem};
ghost use Rattle.std.specs.Option.{option_copied, option_copied_mut, option_map};
ghost use Rattle.request_table.specs.Pending.{asked_by, number_of, item_of, key_at, pending_most, opened_of, closed_of, handed_back, IsFull, ArePending};

use crate::PENDING_MAX;
use crate::counts::Counts;
use crate::held::{Held, RequestKey};
use crate::rows::Rows;
use dom_base::{NoMemory, Peer};
use indexmap::IndexMap;
use std::alloc::Global;
use std::marker::Model;

/// Why a request was not opened. It hands the item back.
#[derive(Drop)]
pub enum OpenError<T> {
    Repeat(T),
    Full(T),
    NoMemory(T),
}

/// The pending requests, in the order of their numbers.
pub struct Requests<T> {
    limit: usize,
    given: u64,
    rows: Rows<Held<T>>,
    numbers: IndexMap<RequestKey, u64>,
    counts: Counts,
}

// Written, so that it is proved once: a derived one is proved anew in each crate that drops a value.
impl<T: Drop> Drop for Requests<T> {
    fn drop(self) {
        let Requests {
            limit: _,
            given: _,
            rows: _,
            numbers: _,
            counts: _,
        } = self;
    }
}

impl<T> Model for Requests<T> {
    ghost use Rattle.dom_base.specs.Room.{Room};
    ghost use Rattle.request_table.specs.Pending.{Pending};

    ghost Value = { Room (Pending T) };

    ghost use Rattle.request_table.specs.Fields.{room_of, HoldsPending};

    ghost view = { room_of };

    ghost invariant = { HoldsPending };
}

impl<T: Drop> Requests<T> {
    ghost use Rattle.request_table.specs.Lends.{lends_item};

    /// No requests, with the limit of an element.
    pub fn new(alloc: Global) -> Result<Requests<T>, NoMemory>
        ensures { IfOk result (λ table. table.kept ≡ record { limit = pending_most; given = 0; rows = [] }) }
    {
        Requests::with_limit(alloc, PENDING_MAX)
    }

    /// No requests, with a limit.
    pub fn with_limit(alloc: Global, limit: usize) -> Result<Requests<T>, NoMemory>
        requires { 1 ≤ limit }
        ensures { IfOk result (λ table. table.kept ≡ record { limit = limit; given = 0; rows = [] }) }
    {
        Ok(Requests {
            limit,
            given: 0,
            rows: Rows::new(alloc),
            numbers: IndexMap::new(alloc),
            counts: Counts::new(alloc),
        })
    }

    /// How many requests are pending. They obey the rules of a table.
    pub fn len(&self) -> usize
        ensures count { result ≡ length self.now.kept.rows }
        ensures rules { ArePending self.now.kept }
    {
        self.rows.len()
    }

    /// Whether none is pending.
    pub fn is_empty(&self) -> bool
        ensures { result ≡ (length self.now.kept.rows == 0) }
    {
        self.rows.len() == 0
    }

    /// Makes room for one more.
    pub fn reserve(&mut self) -> Result<(), NoMemory>
        ensures same { self.new.kept ≡ self.old.kept }
        ensures ok { OnOk result (1 ≤ self.new.spare) }
        ensures room { self.old.spare ≤ self.new.spare }
    {
        self.make_room()
    }

    // Where there is room, it needs no memory.
    fn make_room(&mut self) -> Result<(), NoMemory>
        ensures same { self.new.kept ≡ self.old.kept }
        ensures ok { OnOk result (1 ≤ self.new.spare) }
        ensures succeeds { 1 ≤ self.old.spare → IsOk result }
        ensures room { self.old.spare ≤ self.new.spare }
    {
        self.rows.reserve()?;
        self.numbers.reserve(1)?;
        self.counts.reserve()
    }

    /// How many requests of a peer are pending.
    pub fn asked_by(&self, peer: Peer) -> usize
        ensures { result ≡ asked_by peer self.now.kept.rows }
    {
        self.counts.of(peer)
    }

    /// The number of the request of a peer under an id.
    pub fn asked(&self, peer: Peer, id: u32) -> Option<u64>
        ensures { result ≡ number_of self.now.kept peer id }
    {
        match self.numbers.get(&RequestKey { peer, id }) {
            Some(number) => Some(*number),
            None => None,
        }
    }

    /// Opens a request under the next number.
    pub fn open(&mut self, peer: Peer, id: u32, item: T) -> Result<u64, OpenError<T>>
        ensures number { IfOk result (λ number. number ≡ self.old.kept.given + 1) }
        ensures ok { OnOk result (self.new.kept ≡ opened_of self.old.kept peer id item) }
        ensures repeat { (result ≡ Err (OpenError.Repeat item)) ↔ IsSome (number_of self.old.kept peer id) }
        ensures full { (result ≡ Err (OpenError.Full item)) ↔ ((number_of self.old.kept peer id ≡ None) × IsFull self.old.kept) }
        ensures back { IfErr result (λ why. handed_back why ≡ item) }
        ensures reserved { 0 < self.old.spare → result ≢ Err (OpenError.NoMemory item) }
        ensures err { OnErr result (self.new.kept ≡ self.old.kept) }
        ensures room { self.old.spare ≤ self.new.spare + 1 }
        ensures room_err { OnErr result (self.old.spare ≤ self.new.spare) }
    {
        if self.asked(peer, id).is_some() {
            return Err(OpenError::Repeat(item));
        }
        if self.rows.len() >= self.limit || self.given == u64::MAX {
            return Err(OpenError::Full(item));
        }
        if self.make_room().is_err() {
            return Err(OpenError::NoMemory(item));
        }
        let key = RequestKey { peer, id };
        let number = self.given + 1;
        self.rows.push(number, Held { key, item });
        self.counts.add(peer);
        match self.numbers.insert(key, number) {
            Ok(_) => {}
            Err(_) => unreachable!(),
        }
        self.given = number;
        Ok(number)
    }

    /// The item of a request.
    pub fn get(&self, number: u64) -> Option<&T>
        ensures { option_copied result ≡ item_of self.now.kept number }
    {
        match self.rows.get(number) {
            Some(held) => Some(&held.item),
            None => None,
        }
    }

    /// Who sent a request, and under which id.
    pub fn key(&self, number: u64) -> Option<RequestKey>
        ensures { result ≡ key_at self.now.kept number }
    {
        match self.rows.get(number) {
            Some(held) => Some(held.key),
            None => None,
        }
    }

    /// The item of a request, for writing.
    pub fn get_mut(&mut self, number: u64) -> Option<&mut T>
        ensures* writes_back { sem 𝓛 (lends_item T.row self.entry number result) }
        ensures value { option_copied_mut result ≡ item_of self.old.kept number }
    {
        match self.rows.get_mut(number) {
            Some(held) => Some(&mut held.item),
            None => None,
        }
    }

    /// The k-th request: its number, whose it is, and what belongs to it.
    pub fn row(&self, k: usize) -> Option<(u64, &Held<T>)>
        ensures { option_map (λ row. (row.0, row.1.now)) result ≡ slice_get self.now.kept.rows k }
    {
        self.rows.at(k)
    }

    /// Ends a request, and hands out what belongs to it.
    pub fn close(&mut self, number: u64) -> Option<T>
        ensures item { result ≡ item_of self.old.kept number }
        ensures kept { self.new.kept ≡ closed_of self.old.kept number }
        ensures room { self.old.spare ≤ self.new.spare }
    {
        let Some(held) = self.rows.remove(number) else {
            return None;
        };
        self.counts.take(held.key.peer);
        let _ = self.numbers.swap_remove(&held.key);
        Some(held.item)
    }
}
