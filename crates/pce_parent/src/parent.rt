//! The parent.
ghost use Rattle.std.specs.Prelude.{◌≡◌, ◌<◌, ◌≤◌, All, AllPairs, filter, length, slice_get, IfOk, IfSome};
ghost use Rattle.std.specs.Map.{lookup};
ghost use Rattle.std.specs.Prelude.{nat_eq};
ghost use Rattle.dom_base.specs.declared.names.As.{As as Domain};
ghost use Rattle.request_table.specs.Pending.{same_peer};
ghost use Rattle.pce_common.specs.plant_model.Parent.{upped, down_of, is_ready, next_lost_of, ready_numbers, start_of};
ghost use Rattle.pce_common.specs.Rounds.{IsNext, jobs_by};
ghost use Rattle.pce_parent.specs.Seen.{SameButRoom, IsNew, with_parent, with_losing, job_at};
ghost use Rattle.pce_parent.specs.Solution.{IsWeighed};

use crate::asking::Asking;
use crate::copies::copy_links;
use crate::pending::{leave_all, ready_at};
use dom_base::{Addr, As, List, NoMemory, ParentLink, Peer};
use pce_common::model::{BorderJob, Lost, PARENT_PENDING_MAX};
use pce_common::{AskedJob, Behind, Solvable, Ways, next_job};
use request_table::Requests;
use std::alloc::Global;
use std::collections::VecDeque;
use std::marker::Model;

/// The parent: its settings, the requests that it has accepted, and the children to which it sends
/// requests.
pub struct Parent {
    pub(crate) alloc: Global,
    pub(crate) id: Addr,
    pub(crate) links: List<ParentLink>,
    pub(crate) children: List<As>,
    pub(crate) requests: Requests<Asking>,
    /// The number of the last request that was accepted.
    pub(crate) last: u64,
    pub(crate) ways: Ways,
    pub(crate) lost: VecDeque<Lost>,
}

// Written, so that it is proved in this crate alone.
impl Drop for Parent {
    fn drop(self) {
        let Parent {
            alloc: _,
            id: _,
            links: _,
            children: _,
            requests: _,
            last: _,
            ways: _,
            lost: _,
        } = self;
    }
}

impl Model for Parent {
    ghost use Rattle.pce_parent.specs.Seen.{Seen};

    ghost Value = { Seen };

    ghost use Rattle.pce_parent.specs.ParentFields.{seen_of, HoldsParent};

    ghost view = { seen_of };

    ghost invariant = { HoldsParent };
}

// Who asks: a child.
fn start_of(peer: Peer) -> As
    ensures { result ≡ start_of peer }
{
    match peer {
        Peer::Inner(number) => number,
        Peer::Outside(_) => As(0),
    }
}

impl Parent {
    /// The parent of these children, with the links between their domains.
    pub fn new(
        alloc: Global,
        id: Addr,
        children: List<As>,
        links: List<ParentLink>,
    ) -> Result<Parent, NoMemory>
        requires rising { AllPairs (λ (a b : Domain). a.0 < b.0) children }
        requires weighed { All IsWeighed links }
        ensures { IfOk result (IsNew id (record { children = children; links = links })) }
    {
        let ways = Ways::new(alloc, children.as_slice())?;
        Ok(Parent {
            alloc,
            id,
            links,
            children,
            requests: Requests::with_limit(alloc, PARENT_PENDING_MAX)?,
            last: 0,
            ways,
            lost: VecDeque::new(alloc),
        })
    }

    /// Its id; takes no memory.
    pub fn id(&self) -> Addr
        ensures { result ≡ self.now.id }
    {
        self.id
    }

    /// How many requests are pending; takes no memory.
    pub fn pending(&self) -> usize
        ensures count { result ≡ length self.now.losing.parent.pending.rows }
        ensures few { result ≤ 64 }
    {
        self.requests.len()
    }

    /// How many requests were accepted so far; takes no memory.
    pub fn given(&self) -> u64
        ensures { result ≡ self.now.losing.parent.pending.given }
    {
        self.last
    }

    /// How many requests of a peer are pending; takes no memory.
    pub fn owed(&self, peer: Peer) -> usize
        ensures { result ≡ length (filter (λ h. same_peer h.1.key.peer peer) self.now.losing.parent.pending.rows) }
    {
        self.requests.asked_by(peer)
    }

    /// The number of the k-th request that can be solved; takes no memory.
    pub fn ready(&self, k: usize) -> Option<u64>
        ensures { result ≡ slice_get (ready_numbers self.now.losing.parent.pending.rows) k }
    {
        ready_at(&self.requests, k)
    }

    /// The next request that can be solved, in the order of those who asked and then of the numbers; takes no memory.
    pub fn next_job(&self, behind: Behind) -> Option<AskedJob>
        ensures { IsNext behind (jobs_by is_ready self.now.losing.parent.pending.rows) result }
    {
        next_job(&self.requests, behind)
    }

    /// The job of a request that can be solved.
    pub fn job(&self, number: u64) -> Result<Option<BorderJob>, NoMemory>
        ensures job { IfOk result (λ job. job ≡ job_at self.now number) }
        ensures weighed { IfOk result (λ job. IfSome job (λ job. All IsWeighed job.links)) }
    {
        let Some(item) = self.requests.get(number) else {
            return Ok(None);
        };
        let Some(key) = self.requests.key(number) else {
            unreachable!()
        };
        if !item.is_ready() {
            return Ok(None);
        }
        let wanted = item.wanted();
        Ok(Some(BorderJob {
            number,
            start: start_of(key.peer),
            source: wanted.source,
            target: wanted.target,
            query: wanted.query.copy(self.alloc)?,
            rows: item.copy_rows(self.alloc)?,
            links: copy_links(self.alloc, self.links.as_slice())?,
        }))
    }

    /// A session comes up; takes no memory.
    pub fn up(&mut self, peer: Peer)
        ensures { SameButRoom (with_parent (upped peer self.old.losing.parent) self.old) self.new }
    {
        self.ways.set_up(peer, true);
    }

    /// A session goes down: the requests of the peer are dropped, and those that wait on it are lost; takes
    /// no memory.
    pub fn down(&mut self, peer: Peer)
        ensures { SameButRoom (with_losing (down_of peer self.old.losing) self.old) self.new }
    {
        leave_all(&mut self.requests, &mut self.lost, peer);
        self.ways.set_up(peer, false);
    }

    /// Hands out the next lost request, in the order of their numbers; takes no memory.
    pub fn next_lost(&mut self) -> Option<Lost>
        ensures lost { result ≡ (next_lost_of self.old.losing).0 }
        ensures rest { SameButRoom (with_losing (next_lost_of self.old.losing).1 self.old) self.new }
    {
        self.lost.pop_front()
    }
}
