//! Peers that tell something of requests, and the requests that wait for their answers.
ghost use Rattle.std.specs.Prelude.{◌≡◌, None, Some, IfOk, MatchOption};
ghost use Rattle.pce_common.specs.plant_model.Element.{waiting};
ghost use Rattle.pce_common.specs.Waiting.{AreSaidOf, numbers_waiting};
ghost use Rattle.pce_element.specs.Changes.{all_closed};
ghost use Rattle.pce_element.specs.Rows.{row_of};
ghost use Rattle.pce_element.specs.Tellers.{Knows, waits_under};

use crate::pinned::{PinnedRequests, Row};
use crate::world::World;
use dom_base::{NoMemory, Peer};
use pce_common::{Ended, Waiter, Waiters};
use std::alloc::Global;

/// A peer that tells something of requests, and who waits for its answers, where that was gathered.
#[derive(Drop)]
pub(crate) struct Teller {
    pub peer: Peer,
    pub waiters: Option<Waiters>,
}

impl<W: World> PinnedRequests<W> {
    /// Who waits for the answers of a peer, by the ids that were sent to it.
    pub fn waiters(&self, alloc: Global, peer: Peer) -> Result<Waiters, NoMemory>
        ensures { IfOk result (AreSaidOf (numbers_waiting (waits_under peer) self.now.pending.rows)) }
    {
        let mut waiters = Waiters::new(alloc);
        for k in 0..self.len() {
            let Some(row) = self.row(k) else {
                unreachable!()
            };
            if let Some(id) = row.item.id_sent_to(peer) {
                waiters.add(id, row.number)?;
            }
        }
        Ok(waiters)
    }

    /// The request that waits for the answer to an id of a peer, among those that have not ended. Nobody
    /// waits for an id for which another waits, so no walk is needed where it is known who waits.
    pub fn still_waiting(&self, teller: &Teller, ended: &Ended, id: u32) -> Option<Row<'_, W::Pin>>
        requires { Knows self.now.pending.rows teller.now }
        ensures { MatchOption result (waiting teller.now.peer id (all_closed ended.now self.now.pending).rows ≡ None) (λ row. waiting teller.now.peer id (all_closed ended.now self.now.pending).rows ≡ Some (row_of row)) }
    {
        let _count = self.len();
        let Some(waiters) = &teller.waiters else {
            return self.waiting(ended.as_slice(), teller.peer, id);
        };
        match waiters.at(id) {
            None => None,
            Some(Waiter::One(number)) if ended.has(number) => None,
            Some(Waiter::One(number)) => self.found(number),
            Some(Waiter::Several) => self.waiting(ended.as_slice(), teller.peer, id),
        }
    }

    /// A peer that tells something of requests; who waits for its answers is gathered where it names many.
    pub fn teller(&self, alloc: Global, peer: Peer, many: bool) -> Result<Teller, NoMemory>
        ensures peer { IfOk result (λ teller. teller.peer ≡ peer) }
        ensures knows { IfOk result (Knows self.now.pending.rows) }
    {
        let waiters = if many {
            Some(self.waiters(alloc, peer)?)
        } else {
            None
        };
        Ok(Teller { peer, waiters })
    }
}
