//! Look-ups in an element.
ghost use Rattle.std.specs.Prelude.{◌≡◌, ◌≤◌, ◌+◌, drop, filter, length, not};
ghost use Rattle.std.specs.Option.{option_copied};
ghost use Rattle.request_table.specs.Pending.{same_peer};
ghost use Rattle.path_keys.specs.Keys.{live_at, live_most, segment_of};
ghost use Rattle.disclosure.specs.Policy.{is_denied};
ghost use Rattle.pce_common.specs.plant_model.Element.{ready_numbers, sent_through, way_to};
ghost use Rattle.pce_common.specs.plant_model.Names.{same_addr};
ghost use Rattle.pce_common.specs.plant_model.Routes.{toward};

use crate::element::Element;
use crate::pinned::PinnedRequests;
use crate::world::World;
use disclosure::{Class, allows};
use dom_base::{Addr, As, Peer, Tick};
use pce_common::Way;
use pce_common::model::Route;

/// Whether two addresses are one.
pub(crate) fn is_same_addr(one: Addr, other: Addr) -> bool
    ensures { result ≡ same_addr one other }
{
    one == other
}

// How many domains follow the first.
fn behind_first(sequence: &[As]) -> usize
    ensures { result ≡ length (drop 1 sequence.now) }
{
    match sequence {
        [] => 0,
        [_own, rest @ ..] => rest.len(),
    }
}

// The peer that is asked for a domain.
fn toward(routes: &[Route], next: As) -> Peer
    ensures { result ≡ toward next routes.now }
{
    for route in routes {
        if route.next.0 == next.0 {
            return Peer::Outside(route.peer);
        }
    }
    Peer::Inner(next)
}

impl<W: World> Element<W> {
    /// The number of the domain whose element this is.
    pub fn own(&self) -> As
        ensures { result ≡ self.now.place.own }
    {
        self.own
    }

    /// How many requests are pending; takes no memory.
    pub fn pending(&self) -> usize
        ensures count { result ≡ length self.now.losing.element.pending.rows }
        ensures few { result ≤ 1024 }
    {
        self.requests.len()
    }

    /// How many requests were accepted so far; takes no memory.
    pub fn given(&self) -> u64
        ensures { result ≡ self.now.losing.element.pending.given }
    {
        self.requests.given()
    }

    /// How many requests can be solved; takes no memory.
    pub fn ready_count(&self) -> usize
        ensures { result ≡ length (ready_numbers self.now.losing.element.pending.rows) }
    {
        self.requests.ready_count()
    }

    /// How many more keys may be live; takes no memory.
    pub fn free_keys(&self, now: Tick) -> u32
        ensures { result + length (live_at self.now.losing.element.keys now.0) ≡ live_most }
    {
        self.keys.free(now)
    }

    /// How many requests of a peer are pending; takes no memory.
    pub fn owed(&self, peer: Peer) -> usize
        ensures { result ≡ length (filter (λ h. same_peer h.1.key.peer peer) self.now.losing.element.pending.rows) }
    {
        self.requests.owed(peer)
    }

    /// The request that waits for the answer to an id of a peer: through how many domains beyond its own the element
    /// sent it on. None where none waits. Takes no memory.
    pub fn sent(&self, peer: Peer, id: u32) -> Option<usize>
        ensures { result ≡ sent_through peer id self.now.losing.element.pending.rows }
    {
        let Some(row) = self.requests().waiting(&[], peer, id) else {
            return None;
        };
        Some(behind_first(row.item.sequence()))
    }

    pub(crate) fn id(&self) -> Addr
        ensures { result ≡ self.now.place.id }
    {
        self.id
    }

    pub(crate) fn has_parent(&self) -> bool
        ensures { result ≡ self.now.place.parent }
    {
        self.parent
    }

    pub(crate) fn requests(&self) -> &PinnedRequests<W>
        ensures pending { result.now.pending ≡ self.now.losing.element.pending }
        ensures current { result.now.current ≡ self.now.current }
    {
        &self.requests
    }

    /// The peer that is asked for a domain: that of a route there, else the domain's own element.
    pub(crate) fn toward(&self, next: As) -> Peer
        ensures { result ≡ toward next self.now.place.routes }
    {
        toward(self.routes.as_slice(), next)
    }

    /// The way to a peer.
    pub(crate) fn way_to(&self, peer: Peer) -> Option<&Way>
        ensures { option_copied result ≡ way_to peer self.now.losing.element.ways }
    {
        self.ways.to(peer)
    }

    /// Whether policy lets requests of a class go on to a domain.
    pub(crate) fn allows(&self, class: Class, next: As) -> bool
        ensures { result ≡ not (is_denied self.now.place.deny class next) }
    {
        allows(self.deny.as_slice(), class, next)
    }

    /// What a live key stands for.
    pub(crate) fn segment(&self, now: Tick, key: u16) -> Option<&W::Segment>
        ensures { option_copied result ≡ segment_of self.now.losing.element.keys now.0 key }
    {
        self.keys.expand(now, key)
    }

    /// The number that the next key will have.
    pub(crate) fn next_key(&self) -> u16
        ensures { result ≡ self.now.losing.element.keys.next }
    {
        self.keys.next()
    }
}
