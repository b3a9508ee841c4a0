//! The pending requests of an element, with what they pin.
ghost use Rattle.std.specs.Prelude.{◌≡◌, ◌≤◌, ◌<◌, ◌+◌, [], false, None, Some, IfOk, OnOk, MatchOption, slice_get, filter, length};
ghost use Rattle.std.specs.Option.{option_copied};
ghost use Rattle.request_table.specs.Pending.{ArePending, number_of, item_of, key_at, is_full, opened_of, closed_of, same_peer};
ghost use Rattle.pce_common.specs.plant_model.Element.{ready_numbers};
ghost use Rattle.pce_common.specs.Rounds.{IsNext, is_solvable, jobs_by};
ghost use Rattle.pce_element.specs.Items.{new_item};
ghost use Rattle.pce_element.specs.Rows.{row_of};
ghost use Rattle.pce_element.specs.Leaving.{LeavesAt, SameButSpare};
ghost use Rattle.pce_element.specs.Changes.{all_closed, readied};

use crate::accepted::{Accepted, Opening};
use crate::world::World;
use dom_base::{As, List, NoMemory, Peer};
use pce_common::model::Lost;
use pce_common::{AskedJob, Behind, Solvable, is_same_peer, next_job};
use request_table::{PENDING_MAX, RequestKey, Requests};
use std::alloc::Global;
use std::marker::Model;
use vspt_tree::Branch;

/// A pending request, with its number.
#[derive(Drop)]
pub(crate) struct Row<'a, P> {
    pub number: u64,
    pub key: RequestKey,
    pub item: &'a Accepted<P>,
}

/// What becomes of a request when a session goes down.
#[derive(Clone, Copy)]
pub(crate) enum Leaves {
    Stays,
    Drops,
    Loses(Lost),
}

/// Pending requests, each of which pins what was current when it was accepted.
#[derive(Drop)]
pub(crate) struct PinnedRequests<W: World> {
    pub(crate) world: W,
    pub(crate) requests: Requests<Accepted<W::Pin>>,
    /// The number of the last request that was accepted.
    pub(crate) last: u64,
}

impl<W: World> Model for PinnedRequests<W> {
    ghost use Rattle.pce_element.specs.Pinned.{HoldsPins, Pinned};

    ghost Value = { Pinned W.Pin };

    ghost view = { λ a. record { current = W.current a.world; pending = a.requests.kept; spare = a.requests.spare } };

    ghost invariant = { λ a. HoldsPins (W.Keeps a.world) a.requests.kept a.last };
}

impl<W: World> PinnedRequests<W> {
    /// No requests, in a world that begins.
    pub fn new(alloc: Global, own: As) -> Result<PinnedRequests<W>, NoMemory>
        ensures current { IfOk result (λ p. p.current ≡ W.first own) }
        ensures pending { IfOk result (λ p. p.pending ≡ record { limit = 1024; given = 0; rows = [] }) }
    {
        Ok(PinnedRequests {
            world: W::begin(alloc, own)?,
            requests: Requests::new(alloc)?,
            last: 0,
        })
    }

    /// Makes room for one more request.
    pub fn reserve(&mut self) -> Result<(), NoMemory>
        ensures same { self.new ≡ record self.old { spare = self.new.spare } }
        ensures ok { OnOk result (1 ≤ self.new.spare) }
        ensures room { self.old.spare ≤ self.new.spare }
    {
        self.requests.reserve()
    }

    /// The request at a place.
    pub fn row(&self, k: usize) -> Option<Row<'_, W::Pin>>
        ensures row { MatchOption result (length self.now.pending.rows ≤ k) (λ row. slice_get self.now.pending.rows k ≡ Some (row_of row)) }
        ensures rules { ArePending self.now.pending }
    {
        let _count = self.requests.len();
        let Some((number, held)) = self.requests.row(k) else {
            return None;
        };
        Some(Row {
            number,
            key: held.key,
            item: &held.item,
        })
    }

    /// How many requests are pending. They obey the rules of a table.
    pub fn len(&self) -> usize
        ensures count { result ≡ length self.now.pending.rows }
        ensures rules { ArePending self.now.pending }
        ensures few { result ≤ 1024 }
    {
        self.requests.len()
    }

    /// How many requests of a peer are pending.
    pub fn owed(&self, peer: Peer) -> usize
        ensures { result ≡ length (filter (λ h. same_peer h.1.key.peer peer) self.now.pending.rows) }
    {
        self.requests.asked_by(peer)
    }

    /// The number of the request of a peer under an id.
    pub fn asked(&self, peer: Peer, id: u32) -> Option<u64>
        ensures { result ≡ number_of self.now.pending peer id }
    {
        self.requests.asked(peer, id)
    }

    /// The accepted request of a number.
    pub fn get(&self, number: u64) -> Option<&Accepted<W::Pin>>
        ensures { option_copied result ≡ item_of self.now.pending number }
    {
        self.requests.get(number)
    }

    /// Who sent a request, and under which id.
    pub fn key(&self, number: u64) -> Option<RequestKey>
        ensures { result ≡ key_at self.now.pending number }
    {
        self.requests.key(number)
    }

    /// Whether no further request can be accepted.
    pub fn is_full(&self) -> bool
        ensures { result ≡ is_full self.now.pending }
    {
        self.requests.len() >= PENDING_MAX || self.last == u64::MAX
    }

    /// Accepts a request, with the current pin; takes no memory.
    pub fn open(&mut self, peer: Peer, id: u32, opening: Opening)
        requires room { 1 ≤ self.old.spare }
        requires new { number_of self.old.pending peer id ≡ None }
        requires fits { is_full self.old.pending ≡ false }
        ensures opened { SameButSpare (record self.old { pending = opened_of self.old.pending peer id (new_item opening self.old.current) }) self.new }
        ensures one { length self.new.pending.rows ≡ length self.old.pending.rows + 1 }
    {
        let _count = self.requests.len();
        let pin = self.world.pin();
        let item = Accepted::new(opening, pin);
        match self.requests.open(peer, id, item) {
            Ok(number) => self.last = number,
            Err(_) => unreachable!(),
        }
    }

    /// Ends a request, and gives its pin back; takes no memory.
    pub fn close(&mut self, number: u64)
        ensures closed { SameButSpare (record self.old { pending = closed_of self.old.pending number }) self.new }
        ensures fewer { length self.new.pending.rows ≤ length self.old.pending.rows }
        ensures room { self.old.spare ≤ self.new.spare }
    {
        if let Some(item) = self.requests.close(number) {
            self.world.release(item.into_pin());
        }
    }

    /// Ends requests, in order; takes no memory.
    pub fn close_all(&mut self, numbers: &[u64])
        ensures closed { SameButSpare (record self.old { pending = all_closed numbers.now self.old.pending }) self.new }
        ensures fewer { length self.new.pending.rows ≤ length self.old.pending.rows }
    {
        for number in numbers {
            self.close(*number);
        }
    }

    /// A session goes down: the request at a place is dropped if the peer asked for it, and lost if it
    /// waits on the peer; takes no memory.
    pub fn leave(&mut self, k: usize, peer: Peer) -> Leaves
        requires { k < length self.old.pending.rows }
        ensures { LeavesAt peer k self.old self.new result }
    {
        let Some(Row { number, key, item }) = self.row(k) else {
            unreachable!()
        };
        let waits = item.waits_on(peer);
        let lost = Lost {
            to: key.peer,
            flags: item.flags(),
            id: key.id,
        };
        if is_same_peer(key.peer, peer) {
            self.close(number);
            return Leaves::Drops;
        }
        if waits {
            self.close(number);
            return Leaves::Loses(lost);
        }
        Leaves::Stays
    }

    /// How many requests were accepted so far.
    pub fn given(&self) -> u64
        ensures { result ≡ self.now.pending.given }
    {
        self.last
    }

    /// How many requests can be solved.
    pub fn ready_count(&self) -> usize
        ensures { result ≡ length (ready_numbers self.now.pending.rows) }
    {
        let mut count = 0;
        for i in 0..self.len() {
            let Some(row) = self.row(i) else {
                unreachable!()
            };
            if row.item.is_ready() {
                count += 1;
            }
        }
        count
    }

    /// The number of the k-th request that can be solved.
    pub fn ready(&self, k: usize) -> Option<u64>
        ensures { result ≡ slice_get (ready_numbers self.now.pending.rows) k }
    {
        let mut left = k;
        for i in 0..self.len() {
            let Some(row) = self.row(i) else {
                unreachable!()
            };
            if row.item.is_ready() {
                if left == 0 {
                    return Some(row.number);
                }
                left -= 1;
            }
        }
        None
    }

    /// The next request that can be solved, in the order of those who asked and then of the numbers; takes no memory.
    pub fn next_job(&self, behind: Behind) -> Option<AskedJob>
        ensures { IsNext behind (jobs_by is_solvable self.now.pending.rows) result }
    {
        next_job(&self.requests, behind)
    }

    /// Makes a request ready with the branches of its answer; takes no memory.
    pub fn make_ready(&mut self, number: u64, branches: List<Branch>)
        ensures ready { self.new ≡ record self.old { pending = readied number branches self.old.pending } }
        ensures count { length self.new.pending.rows ≡ length self.old.pending.rows }
    {
        set_ready(&mut self.requests, number, branches);
    }
}

fn set_ready<P: Drop>(requests: &mut Requests<Accepted<P>>, number: u64, branches: List<Branch>)
    ensures kept { requests.new.kept ≡ readied number branches requests.old.kept }
    ensures spare { requests.new.spare ≡ requests.old.spare }
{
    if let Some(item) = requests.get_mut(number) {
        item.make_ready(branches);
    }
}
