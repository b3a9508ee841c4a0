//! Pending requests that are looked for.
ghost use Rattle.std.specs.Prelude.{◌≡◌, false, Contains, None, Some, MatchOption, nat_eq};
ghost use Rattle.std.specs.Map.{lookup};
ghost use Rattle.request_table.specs.Pending.{number_of};
ghost use Rattle.pce_common.specs.plant_model.Element.{fresh_id, is_ready, is_waiting, waiting};
ghost use Rattle.pce_element.specs.Changes.{all_closed};
ghost use Rattle.pce_element.specs.Rows.{row_of};

use crate::pinned::{PinnedRequests, Row};
use crate::world::World;
use dom_base::Peer;
use pce_common::{Ended, after_id, has_number};

impl<W: World> PinnedRequests<W> {
    /// The request that waits for the answer to an id of a peer, where those of some numbers have
    /// ended.
    pub fn waiting(&self, ended: &[u64], peer: Peer, id: u32) -> Option<Row<'_, W::Pin>>
        ensures row { MatchOption result (waiting peer id (all_closed ended.now self.now.pending).rows ≡ None) (λ row. waiting peer id (all_closed ended.now self.now.pending).rows ≡ Some (row_of row)) }
        ensures has { MatchOption result (Unit {0}) (λ row. Contains self.now.pending.rows (row_of row)) }
        ensures waits { MatchOption result (Unit {0}) (λ row. is_ready (row_of row).1.item.stage ≡ false) }
    {
        for k in 0..self.len() {
            let Some(row) = self.row(k) else {
                unreachable!()
            };
            if row.item.waits_for(peer, id) && !has_number(ended, row.number) {
                return Some(row);
            }
        }
        None
    }

    /// The number of the request of a peer under an id, where those of some numbers have ended.
    pub fn asked_still(&self, ended: &Ended, peer: Peer, id: u32) -> Option<u64>
        ensures { result ≡ number_of (all_closed ended.now self.now.pending) peer id }
    {
        let _count = self.len();
        let Some(number) = self.asked(peer, id) else {
            return None;
        };
        if ended.has(number) {
            None
        } else {
            Some(number)
        }
    }

    /// The request of a number.
    pub fn found(&self, number: u64) -> Option<Row<'_, W::Pin>>
        ensures row { MatchOption result (lookup (nat_eq number) self.now.pending.rows ≡ None) (λ row. lookup (nat_eq number) self.now.pending.rows ≡ Some (row_of row).1) }
        ensures number { MatchOption result (Unit {0}) (λ row. row.number ≡ number) }
    {
        let Some(item) = self.get(number) else {
            return None;
        };
        let Some(key) = self.key(number) else {
            unreachable!()
        };
        Some(Row { number, key, item })
    }

    /// Whether a request waits for the answer to an id of a peer.
    fn is_waiting(&self, peer: Peer, id: u32) -> bool
        ensures { result ≡ is_waiting peer self.now.pending.rows id }
    {
        for k in 0..self.len() {
            let Some(row) = self.row(k) else {
                unreachable!()
            };
            if row.item.waits_for(peer, id) {
                return true;
            }
        }
        false
    }

    /// The next id towards a peer: one that waits is passed over.
    pub fn fresh_id(&self, peer: Peer, last: u32) -> u32
        ensures { result ≡ fresh_id peer last self.now.pending.rows }
    {
        let mut id = after_id(last);
        for _row in 0..self.len() {
            if !self.is_waiting(peer, id) {
                return id;
            }
            id = after_id(id);
        }
        id
    }
}
