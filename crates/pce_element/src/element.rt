//! One path computation element.
ghost use Rattle.std.specs.Prelude.{◌≡◌, ◌≤◌, slice_get, IfOk};
ghost use Rattle.pce_common.specs.plant_model.Element.{upped, down_of, next_lost_of, ticked, ready_numbers};
ghost use Rattle.pce_common.specs.Rounds.{IsNext, is_solvable, jobs_by};
ghost use Rattle.pce_element.specs.Lasting.{ReadyLast};
ghost use Rattle.pce_element.specs.Seen.{SameButRoom, IsNew, with_element, with_losing};

use crate::leaving::leave_all;
use crate::pinned::PinnedRequests;
use crate::world::World;
use disclosure::Deny;
use dom_base::{Addr, As, List, NoMemory, Peer, Tick};
use path_keys::PathKeys;
use pce_common::model::{Lost, Route};
use pce_common::{AskedJob, Behind, Ways};
use std::alloc::Global;
use std::collections::VecDeque;
use std::marker::Model;

/// One path computation element: its settings, what it knows of its domain, the requests that it has
/// accepted, its keys and the peers to which it sends requests.
pub struct Element<W: World> {
    pub(crate) alloc: Global,
    pub(crate) own: As,
    pub(crate) id: Addr,
    pub(crate) parent: bool,
    pub(crate) deny: List<Deny>,
    pub(crate) routes: List<Route>,
    pub(crate) requests: PinnedRequests<W>,
    pub(crate) keys: PathKeys<W::Segment>,
    pub(crate) ways: Ways,
    pub(crate) lost: VecDeque<Lost>,
}

// Written, so that it is proved in this crate alone.
impl<W: World> Drop for Element<W> {
    fn drop(self) {
        let Element {
            alloc: _,
            own: _,
            id: _,
            parent: _,
            deny: _,
            routes: _,
            requests: _,
            keys: _,
            ways: _,
            lost: _,
        } = self;
    }
}

impl<W: World> Model for Element<W> {
    ghost use Rattle.pce_element.specs.Seen.{Seen};

    ghost Value = { Seen W.Pin W.Segment };

    ghost use Rattle.pce_element.specs.Fields.{seen_of, HoldsLost};

    ghost view = { λ a. seen_of (record { own = a.own; id = a.id; parent = a.parent; deny = a.deny; routes = a.routes }) a.requests a.keys a.ways a.lost };

    ghost invariant = { λ a. HoldsLost a.requests a.lost };
}

impl<W: World> Element<W> {
    /// The element of a domain of which nothing is known yet, without requests and keys. Its keys live for
    /// so many ticks. It may send requests to `links`, among them 0 where it has a parent, and by routes.
    pub fn new(
        alloc: Global,
        own: As,
        id: Addr,
        key_life: u16,
        parent: bool,
        links: &[As],
        deny: List<Deny>,
        routes: List<Route>,
    ) -> Result<Element<W>, NoMemory>
        requires least { 1 ≤ key_life }
        requires most { key_life ≤ 3600 }
        ensures { IfOk result (IsNew W.first (record { own = own; id = id; parent = parent; deny = deny; routes = routes }) key_life links.now) }
    {
        let ways = Ways::with_routes(alloc, links, routes.as_slice())?;
        Ok(Element {
            alloc,
            own,
            id,
            parent,
            deny,
            routes,
            requests: PinnedRequests::new(alloc, own)?,
            keys: PathKeys::new(alloc, key_life)?,
            ways,
            lost: VecDeque::new(alloc),
        })
    }

    /// The number of the k-th request that can be solved; takes no memory.
    pub fn ready(&self, k: usize) -> Option<u64>
        ensures { result ≡ slice_get (ready_numbers self.now.losing.element.pending.rows) k }
    {
        self.requests.ready(k)
    }

    /// The next request that can be solved, in the order of those who asked and then of the numbers; takes no memory.
    pub fn next_job(&self, behind: Behind) -> Option<AskedJob>
        ensures { IsNext behind (jobs_by is_solvable self.now.losing.element.pending.rows) result }
    {
        self.requests.next_job(behind)
    }

    /// A session comes up; takes no memory.
    pub fn up(&mut self, peer: Peer)
        ensures { SameButRoom (with_element (upped peer self.old.losing.element) self.old) self.new }
    {
        self.ways.set_up(peer, true);
    }

    /// A session goes down: the requests of the peer are dropped, and those that wait on it are lost;
    /// takes no memory.
    pub fn down(&mut self, peer: Peer)
        ensures down { SameButRoom (with_losing (down_of peer self.old.losing) self.old) self.new }
        ensures ready { ReadyLast self.old self.new }
    {
        let _count = self.requests.len();
        leave_all(&mut self.requests, &mut self.lost, peer);
        self.ways.set_up(peer, false);
    }

    /// Hands out the next lost request, in the order of their numbers; takes no memory.
    pub fn next_lost(&mut self) -> Option<Lost>
        ensures lost { result ≡ (next_lost_of self.old.losing).0 }
        ensures rest { SameButRoom (with_losing (next_lost_of self.old.losing).1 self.old) self.new }
    {
        self.lost.pop_front()
    }

    /// The moment: keys that are dead are forgotten; takes no memory. `now` never falls from call to
    /// call.
    pub fn tick(&mut self, now: Tick)
        requires { self.old.losing.element.keys.clock ≤ now.0 }
        ensures { SameButRoom (with_element (ticked now.0 self.old.losing.element) self.old) self.new }
    {
        self.keys.expire(now);
    }
}
