//! What becomes of the requests when a session goes down.
ghost use Rattle.std.specs.Prelude.{◌≡◌, ◌≤◌, ◌+◌, ◌++◌, length};
ghost use Rattle.std.specs.VecDeque.{deque_capacity, deque_len};
ghost use Rattle.pce_common.specs.plant_model.Element.{kept, lost};
ghost use Rattle.pce_element.specs.Leaving.{SameButSpare, with_rows};

use crate::pinned::{Leaves, PinnedRequests};
use crate::world::World;
use dom_base::Peer;
use pce_common::model::Lost;
use std::collections::VecDeque;

/// The requests of a peer are dropped, and those that wait on it are lost; takes no memory.
pub(crate) fn leave_all<W: World>(
    requests: &mut PinnedRequests<W>,
    gone: &mut VecDeque<Lost>,
    peer: Peer,
)
    requires { deque_len gone.old + length requests.old.pending.rows ≤ deque_capacity gone.old }
    ensures kept { SameButSpare (with_rows (kept peer requests.old.pending.rows) requests.old) requests.new }
    ensures lost { gone.new.items ≡ gone.old.items ++ lost peer requests.old.pending.rows }
    ensures room { deque_len gone.new + length requests.new.pending.rows ≤ deque_capacity gone.new }
{
    let mut k = 0;
    for _turn in 0..requests.len() {
        match requests.leave(k, peer) {
            Leaves::Stays => k += 1,
            Leaves::Drops => {}
            Leaves::Loses(lost) => match gone.push_back(lost) {
                Ok(()) => {}
                Err(_) => unreachable!(),
            },
        }
    }
}
