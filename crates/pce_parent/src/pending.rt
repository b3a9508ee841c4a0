//! The pending requests of the parent, one by one.
ghost use Rattle.std.specs.Prelude.{◌≡◌, ◌≤◌, ◌<◌, ◌+◌, ◌++◌, ◌∷◌, [], length, nat_eq, slice_get, None, Some, MatchOption};
ghost use Rattle.std.specs.Map.{lookup};
ghost use Rattle.std.specs.VecDeque.{deque_capacity, deque_len};
ghost use Rattle.request_table.specs.Pending.{ArePending, closed_of, item_of};
ghost use Rattle.pce_common.specs.plant_model.Parent.{kept, lost, ready_numbers};
ghost use Rattle.pce_parent.specs.Pendings.{Leaves, row_of, with_rows};
ghost use Rattle.pce_parent.specs.Changes.{Waits, all_closed, answered_at};

use crate::asking::Asking;
use crate::wait::waits_on;
use dom_base::{List, Peer};
use pce_common::model::{ChildRow, Lost};
use pce_common::{Solvable, is_same_peer};
use request_table::{RequestKey, Requests};
use std::collections::VecDeque;

/// A pending request, with its number.
#[derive(Clone, Copy)]
pub struct Row<'a> {
    pub number: u64,
    pub key: RequestKey,
    pub item: &'a Asking,
}

/// The request at a place.
pub fn row_at(requests: &Requests<Asking>, k: usize) -> Option<Row<'_>>
    ensures row { MatchOption result (length requests.now.kept.rows ≤ k) (λ row. slice_get requests.now.kept.rows k ≡ Some (row_of row)) }
    ensures rules { ArePending requests.now.kept }
{
    let _count = requests.len();
    let Some((number, held)) = requests.row(k) else {
        return None;
    };
    Some(Row {
        number,
        key: held.key,
        item: &held.item,
    })
}

/// The request of a number.
pub fn row_with(requests: &Requests<Asking>, number: u64) -> Option<Row<'_>>
    ensures row { MatchOption result (lookup (nat_eq number) requests.now.kept.rows ≡ None) (λ row. lookup (nat_eq number) requests.now.kept.rows ≡ Some (row_of row).1) }
    ensures number { MatchOption result (Unit {0}) (λ row. row.number ≡ number) }
{
    let Some(item) = requests.get(number) else {
        return None;
    };
    let Some(key) = requests.key(number) else {
        unreachable!()
    };
    Some(Row { number, key, item })
}

/// The number of the k-th request that can be solved.
pub fn ready_at(requests: &Requests<Asking>, k: usize) -> Option<u64>
    ensures { result ≡ slice_get (ready_numbers requests.now.kept.rows) k }
{
    let mut left = k;
    for i in 0..requests.len() {
        let Some(row) = row_at(requests, i) else {
            unreachable!()
        };
        if row.item.is_ready() {
            if left == 0 {
                return Some(row.number);
            }
            left -= 1;
        }
    }
    None
}

// There is memory for it.
fn note(gone: &mut VecDeque<Lost>, lost: Lost)
    requires { deque_len gone.old < deque_capacity gone.old }
    ensures items { gone.new.items ≡ gone.old.items ++ lost ∷ [] }
    ensures len { deque_len gone.new ≡ deque_len gone.old + 1 }
    ensures capacity { deque_capacity gone.new ≡ deque_capacity gone.old }
{
    match gone.push_back(lost) {
        Ok(()) => {}
        Err(_) => unreachable!(),
    }
}

// The request at a place is dropped if the peer asked for it, and lost if it waits on the peer. Hands out the
// place of the next one.
fn leave_next(
    requests: &mut Requests<Asking>,
    gone: &mut VecDeque<Lost>,
    k: usize,
    peer: Peer,
) -> usize
    requires place { k < length requests.old.kept.rows }
    requires room { deque_len gone.old + length requests.old.kept.rows ≤ deque_capacity gone.old }
    ensures leaves { Leaves peer k requests.old.kept requests.new.kept gone.old.items gone.new.items result }
    ensures room { deque_len gone.new + length requests.new.kept.rows ≤ deque_capacity gone.new }
{
    let _count = requests.len();
    let Some(row) = row_at(requests, k) else {
        unreachable!()
    };
    let number = row.number;
    let waits = waits_on(row.item.waits(), peer);
    let own = is_same_peer(row.key.peer, peer);
    let lost = Lost {
        to: row.key.peer,
        flags: row.item.flags(),
        id: row.key.id,
    };
    if own {
        let _ = requests.close(number);
        return k;
    }
    if waits {
        let _ = requests.close(number);
        note(gone, lost);
        return k;
    }
    k + 1
}

/// The requests of a peer are dropped, and those that wait on it are lost; takes no memory.
pub fn leave_all(requests: &mut Requests<Asking>, gone: &mut VecDeque<Lost>, peer: Peer)
    requires { deque_len gone.old + length requests.old.kept.rows ≤ deque_capacity gone.old }
    ensures kept { requests.new.kept ≡ with_rows (kept peer requests.old.kept.rows) requests.old.kept }
    ensures lost { gone.new.items ≡ gone.old.items ++ lost peer requests.old.kept.rows }
    ensures room { deque_len gone.new + length requests.new.kept.rows ≤ deque_capacity gone.new }
{
    let mut k = 0;
    for _turn in 0..requests.len() {
        k = leave_next(requests, gone, k, peer);
    }
}

/// A request ends; takes no memory.
pub fn close_one(requests: &mut Requests<Asking>, number: u64)
    ensures kept { requests.new.kept ≡ closed_of requests.old.kept number }
    ensures fewer { length requests.new.kept.rows ≤ length requests.old.kept.rows }
{
    let _ = requests.close(number);
}

/// Requests end, in order; takes no memory.
pub fn close_all(requests: &mut Requests<Asking>, numbers: &[u64])
    ensures kept { requests.new.kept ≡ all_closed numbers.now requests.old.kept }
    ensures fewer { length requests.new.kept.rows ≤ length requests.old.kept.rows }
{
    for number in numbers {
        close_one(requests, *number);
    }
}

/// The answer to an id of a peer has come for a request, with these rows; takes no memory.
pub fn gather_at(
    requests: &mut Requests<Asking>,
    number: u64,
    peer: Peer,
    id: u32,
    rows: List<ChildRow>,
)
    requires { Waits peer id (item_of requests.old.kept number) }
    ensures kept { requests.new.kept ≡ answered_at number peer id rows requests.old.kept }
    ensures count { length requests.new.kept.rows ≡ length requests.old.kept.rows }
{
    if let Some(item) = requests.get_mut(number) {
        item.gather(peer, id, rows);
    }
}
