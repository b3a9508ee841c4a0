//! Children that tell something of requests, and the requests that wait for their answers.
ghost use Rattle.std.specs.Prelude.{◌≡◌, ◌++◌, ◌∷◌, ℕ, List, [], None, Some, cond, IfOk, OnOk, MatchOption};
ghost use Rattle.pce_common.specs.plant_model.Parent.{among};
ghost use Rattle.pce_common.specs.Waiting.{AreSaidOf, numbers_waiting};
ghost use Rattle.request_table.specs.Pending.{ArePending};
ghost use Rattle.pce_parent.specs.declared.sought.Sought.TheVariants.{Awaited};
ghost use Rattle.pce_parent.specs.Pendings.{row_of};
ghost use Rattle.pce_parent.specs.Soughts.{first_sought, without_these};
ghost use Rattle.pce_parent.specs.Tellers.{Knows, waits_under};

use crate::asking::Asking;
use crate::pending::{Row, row_at, row_with};
use crate::sought::{Sought, find};
use dom_base::{NoMemory, Peer};
use pce_common::{Waiter, Waiters, has_number};
use request_table::Requests;
use std::alloc::Global;

/// A child that tells something of requests, and who waits for its answers, where that was gathered.
#[derive(Drop)]
pub struct Teller {
    pub peer: Peer,
    pub waiters: Option<Waiters>,
}

// The request waits for answers of a peer.
fn add_waits(waiters: &mut Waiters, peer: Peer, row: Row<'_>) -> Result<(), NoMemory>
    ensures { (before : ℕ → List ℕ) → AreSaidOf before waiters.old → OnOk result (AreSaidOf (λ id. before id ++ cond (among peer row.entry.item.now.waits id) (row.entry.number ∷ []) []) waiters.new) }
{
    for wait in row.item.waits() {
        if wait.is_on(peer) {
            waiters.add(wait.id(), row.number)?;
        }
    }
    Ok(())
}

// Who waits for the answers of a peer, by the ids that were sent to it.
fn waiters_of(alloc: Global, requests: &Requests<Asking>, peer: Peer) -> Result<Waiters, NoMemory>
    ensures { IfOk result (AreSaidOf (numbers_waiting (waits_under peer) requests.now.kept.rows)) }
{
    let mut waiters = Waiters::new(alloc);
    for i in 0..requests.len() {
        let Some(row) = row_at(requests, i) else {
            unreachable!()
        };
        add_waits(&mut waiters, peer, row)?;
    }
    Ok(waiters)
}

/// A child that tells something of requests; who waits for its answers is gathered where it names many.
pub fn teller_of(
    alloc: Global,
    requests: &Requests<Asking>,
    peer: Peer,
    many: bool,
) -> Result<Teller, NoMemory>
    ensures peer { IfOk result (λ teller. teller.peer ≡ peer) }
    ensures knows { IfOk result (Knows requests.now.kept.rows) }
{
    let waiters = if many {
        Some(waiters_of(alloc, requests, peer)?)
    } else {
        None
    };
    Ok(Teller { peer, waiters })
}

/// The request that waits for the answer to an id, among those that have not ended. No two wait for the same
/// id, so no walk is needed where it is known who waits.
pub fn find_waiting<'a>(
    requests: &'a Requests<Asking>,
    ended: &[u64],
    teller: &Teller,
    id: u32,
) -> Option<Row<'a>>
    requires { Knows requests.now.kept.rows teller.now }
    ensures row { MatchOption result (first_sought (Awaited teller.now.peer id) (without_these ended.now requests.now.kept.rows) ≡ None) (λ row. first_sought (Awaited teller.now.peer id) (without_these ended.now requests.now.kept.rows) ≡ Some (row_of row)) }
    ensures rules { ArePending requests.now.kept }
{
    let _count = requests.len();
    let Some(waiters) = &teller.waiters else {
        return find(requests, ended, Sought::Awaited(teller.peer, id));
    };
    match waiters.at(id) {
        None => None,
        Some(Waiter::One(number)) if has_number(ended, number) => None,
        Some(Waiter::One(number)) => row_with(requests, number),
        Some(Waiter::Several) => find(requests, ended, Sought::Awaited(teller.peer, id)),
    }
}
