//! A pending request that a peer names by an id.
ghost use Rattle.std.specs.Prelude.{◌≡◌, None, Some, MatchOption};
ghost use Rattle.request_table.specs.Pending.{ArePending, same_key};
ghost use Rattle.pce_parent.specs.Pendings.{row_of};
ghost use Rattle.pce_parent.specs.Soughts.{is_sought, first_sought, without_these};

use crate::asking::Asking;
use crate::pending::{Row, row_at};
use crate::wait::waits_for;
use dom_base::Peer;
use pce_common::{has_number, is_same_peer};
use request_table::{RequestKey, Requests};

/// What a peer names by an id.
#[derive(Clone, Copy)]
pub enum Sought {
    /// The request that the peer asked under the id.
    Asked(Peer, u32),
    /// The request that waits for the peer's answer to the id.
    Awaited(Peer, u32),
}

fn is_same_key(one: RequestKey, other: RequestKey) -> bool
    ensures { result ≡ same_key one other }
{
    is_same_peer(one.peer, other.peer) && one.id == other.id
}

impl Sought {
    fn is(self, row: Row<'_>) -> bool
        ensures { result ≡ is_sought self (row_of row.entry) }
    {
        match self {
            Sought::Asked(peer, id) => is_same_key(RequestKey { peer, id }, row.key),
            Sought::Awaited(peer, id) => waits_for(row.item.waits(), peer, id),
        }
    }
}

/// The first request that is sought, among those that have not ended.
pub fn find<'a>(requests: &'a Requests<Asking>, ended: &[u64], sought: Sought) -> Option<Row<'a>>
    ensures row { MatchOption result (first_sought sought (without_these ended.now requests.now.kept.rows) ≡ None) (λ row. first_sought sought (without_these ended.now requests.now.kept.rows) ≡ Some (row_of row)) }
    ensures rules { ArePending requests.now.kept }
{
    for i in 0..requests.len() {
        let Some(row) = row_at(requests, i) else {
            unreachable!()
        };
        if sought.is(row) && !has_number(ended, row.number) {
            return Some(row);
        }
    }
    None
}
