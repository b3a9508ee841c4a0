//! The peers to which requests are sent: whether the session with each is up, and the last id sent to it.
ghost use Rattle.std.specs.Prelude.{◌≡◌, ◌<◌, ◌++◌, false, map, length, slice_set, IfOk, MatchOption};
ghost use Rattle.std.specs.List.{slice_index_or};
ghost use Rattle.std.specs.Option.{option_copied};
ghost use Rattle.plant_model.specs.Element.{way_to, with_last, with_up};
ghost use Rattle.plant_model.specs.Parent.{is_up};
ghost use Rattle.plant_model.specs.Settings.{outer_way};
ghost use Rattle.pce_common.specs.Ways.{way_of, no_way, IsFirstTo, IsNowhere};

use crate::peers::is_same_peer;
use dom_base::{As, List, NoMemory, Peer};
use plant_model::Route;
use std::alloc::Global;
use std::marker::Model;

/// A peer to which requests are sent.
#[derive(Clone, Copy)]
pub struct Way {
    peer: Peer,
    up: bool,
    last_id: u32,
}

impl Model for Way {
    ghost use Rattle.plant_model.specs.Element.{Way};

    ghost Value = { Way };

    ghost view = { λ w. record { peer = w.peer; up = w.up; last_id = w.last_id } };

    ghost inverse = { λ w. record { peer = w.peer; up = w.up; last_id = w.last_id } };
}

impl Way {
    fn new(peer: Peer) -> Way
        ensures { result ≡ record { peer = peer; up = false; last_id = 0 } }
    {
        Way {
            peer,
            up: false,
            last_id: 0,
        }
    }

    /// The member at the other end.
    pub fn peer(&self) -> Peer
        ensures { result ≡ self.now.peer }
    {
        self.peer
    }

    /// Whether the session with it is up.
    pub fn is_up(&self) -> bool
        ensures { result ≡ self.now.up }
    {
        self.up
    }

    /// The id that was last given to a request sent to it, 0 before the first.
    pub fn last_id(&self) -> u32
        ensures { result ≡ self.now.last_id }
    {
        self.last_id
    }

    fn set_up(&mut self, up: bool)
        ensures { self.new ≡ record self.old { up = up } }
    {
        self.up = up;
    }

    fn set_last(&mut self, id: u32)
        ensures { self.new ≡ record self.old { last_id = id } }
    {
        self.last_id = id;
    }
}

/// Ways in order; of two to one peer the first counts.
#[derive(Drop)]
pub struct Ways {
    rows: Vec<Way>,
}

impl Model for Ways {
    ghost use Rattle.std.specs.Prelude.{List};
    ghost use Rattle.plant_model.specs.Element.{Way};

    ghost Value = { List Way };

    ghost view = { λ a. a.rows.items };
}

impl Ways {
    /// A way to each of these numbers, none of them up.
    pub fn new(alloc: Global, links: &[As]) -> Result<Ways, NoMemory>
        ensures { IfOk result (λ ways. ways ≡ map way_of links.now) }
    {
        let mut rows = Vec::new(alloc);
        for number in links {
            rows.push(Way::new(Peer::Inner(*number)))?;
        }
        Ok(Ways { rows })
    }

    /// A way to each of these numbers, and behind them one by each of these routes, none of them up.
    pub fn with_routes(alloc: Global, links: &[As], routes: &[Route]) -> Result<Ways, NoMemory>
        ensures { IfOk result (λ ways. ways ≡ map way_of links.now ++ map outer_way routes.now) }
    {
        let mut ways = Ways::new(alloc, links)?;
        let outer = outer_rows(alloc, routes)?;
        ways.rows.extend_from_slice(&outer)?;
        Ok(ways)
    }

    /// Equal ways in memory of their own.
    pub fn copy(&self, alloc: Global) -> Result<Ways, NoMemory>
        ensures { IfOk result (λ ways. ways ≡ self.now) }
    {
        Ok(Ways {
            rows: Vec::from_slice(alloc, &self.rows)?,
        })
    }

    /// Whether the session with a peer is up.
    pub fn is_up(&self, peer: Peer) -> bool
        ensures { result ≡ is_up (way_to peer self.now) }
    {
        match self.to(peer) {
            None => false,
            Some(way) => way.is_up(),
        }
    }

    /// The way to a peer.
    pub fn to(&self, peer: Peer) -> Option<&Way>
        ensures { option_copied result ≡ way_to peer self.now }
    {
        match place_of(&self.rows, peer) {
            Some(i) => Some(&self.rows[i]),
            None => None,
        }
    }

    /// A session comes up or goes down.
    pub fn set_up(&mut self, peer: Peer, up: bool)
        ensures { self.new ≡ with_up peer up self.old }
    {
        if let Some(i) = place_of(&self.rows, peer) {
            set_up_at(&mut self.rows, i, up);
        }
    }

    /// An id was sent to a peer.
    pub fn set_last(&mut self, peer: Peer, id: u32)
        ensures { self.new ≡ with_last peer id self.old }
    {
        if let Some(i) = place_of(&self.rows, peer) {
            set_last_at(&mut self.rows, i, id);
        }
    }
}

fn outer_rows(alloc: Global, routes: &[Route]) -> Result<Vec<Way>, NoMemory>
    ensures { IfOk result (λ rows. rows.items ≡ map outer_way routes.now) }
{
    let mut rows = Vec::new(alloc);
    for route in routes {
        rows.push(Way::new(Peer::Outside(route.peer)))?;
    }
    Ok(rows)
}

// The place of the way to a peer.
fn place_of(rows: &[Way], peer: Peer) -> Option<usize>
    ensures { MatchOption result (IsNowhere peer rows.now) (λ i. IsFirstTo peer i rows.now) }
{
    for i in 0..rows.len() {
        if is_same_peer(rows[i].peer(), peer) {
            return Some(i);
        }
    }
    None
}

fn set_up_at(rows: &mut Vec<Way>, i: usize, up: bool)
    requires { i < length rows.old.items }
    ensures { rows.new.items ≡ slice_set rows.old.items i (record (slice_index_or rows.old.items i no_way) { up = up }) }
{
    rows[i].set_up(up);
}

fn set_last_at(rows: &mut Vec<Way>, i: usize, id: u32)
    requires { i < length rows.old.items }
    ensures { rows.new.items ≡ slice_set rows.old.items i (record (slice_index_or rows.old.items i no_way) { last_id = id }) }
{
    rows[i].set_last(id);
}
