//! The topology of one domain, by its rows in order.
ghost use Rattle.std.specs.Prelude.{◌≡◌, ◌↔◌, ◌<◌, ◌^◌, ℕ, [], vec_len, length, slice_get, Contains, Some, MatchOption};
ghost use Rattle.te_links.specs.Rows.{IsTopology, IsInOrder};
ghost use Rattle.te_links.specs.Index.{IsLinksInto, IsLinksFrom, IsLinkAt, LinkBeginsAt, LinkEndsAt};
ghost use Rattle.te_links.specs.Arrivals.{AreArrivals};
ghost use Rattle.te_links.specs.Indexed.{IsIndex};

use crate::arrivals::Arrivals;
use crate::groups::part;
use crate::index::{Index, place_of_node};
use crate::places::{Hints, place_near, place_of_far};
use crate::rows::{Entry, OutLink};
use dom_base::{Addr, As, Link};
use std::alloc::Global;
use std::marker::Model;

/// The topology of one routing domain, which obeys the rules. Its nodes stand in the order of
/// their addresses, inner links and out links in that of their far addresses, entries in that of
/// their domain and then their node. Rows are named by their places, from 0.
pub struct Topology {
    own: As,
    nodes: Vec<Addr>,
    links: Vec<Link>,
    outs: Vec<OutLink>,
    entries: Vec<Entry>,
    hints: Hints,
    index: Index,
}

// Written by hand, so that it is proved once: a derived one would be proved again in each crate that drops a value.
impl Drop for Topology {
    fn drop(self) {
        let Topology {
            own: _,
            nodes: _,
            links: _,
            outs: _,
            entries: _,
            hints: _,
            index: _,
        } = self;
    }
}

impl Model for Topology {
    ghost use Rattle.te_links.specs.Rows.{Rows};

    ghost Value = { Rows };

    ghost use Rattle.te_links.specs.Fields.{rows_of, HoldsRules};

    ghost view = { rows_of };

    ghost invariant = { HoldsRules };
}

impl Topology {
    pub(crate) fn of(
        own: As,
        nodes: Vec<Addr>,
        links: Vec<Link>,
        outs: Vec<OutLink>,
        entries: Vec<Entry>,
        hints: Hints,
        index: Index,
    ) -> Topology
        requires rules { IsTopology (record { own = own; nodes = nodes.items; links = links.items; outs = outs.items; entries = entries.items }) }
        requires order { IsInOrder (record { own = own; nodes = nodes.items; links = links.items; outs = outs.items; entries = entries.items }) }
        requires short { vec_len entries < 2 ^ 32 }
        requires index { IsIndex nodes.items links.items index }
        ensures { result ≡ record { own = own; nodes = nodes.items; links = links.items; outs = outs.items; entries = entries.items } }
    {
        Topology {
            own,
            nodes,
            links,
            outs,
            entries,
            hints,
            index,
        }
    }

    /// A topology without nodes; takes no memory.
    pub fn empty(alloc: Global, own: As) -> Topology
        ensures own { result.own ≡ own }
        ensures nodes { result.nodes ≡ [] }
        ensures links { result.links ≡ [] }
        ensures outs { result.outs ≡ [] }
        ensures entries { result.entries ≡ [] }
    {
        Topology {
            own,
            nodes: Vec::new(alloc),
            links: Vec::new(alloc),
            outs: Vec::new(alloc),
            entries: Vec::new(alloc),
            hints: Hints::none(alloc),
            index: Index::none(alloc),
        }
    }

    /// The number of the domain.
    pub fn own(&self) -> As
        ensures own { result ≡ self.now.own }
        ensures rules { IsTopology self.now }
        ensures order { IsInOrder self.now }
    {
        self.own
    }

    /// How many nodes there are, at most 1,024.
    pub fn node_count(&self) -> u32
        ensures count { result ≡ length self.now.nodes }
        ensures rules { IsTopology self.now }
        ensures order { IsInOrder self.now }
    {
        self.nodes.len() as u32
    }

    /// How many inner links there are, at most 8,192.
    pub fn link_count(&self) -> u32
        ensures count { result ≡ length self.now.links }
        ensures rules { IsTopology self.now }
        ensures order { IsInOrder self.now }
    {
        self.links.len() as u32
    }

    /// How many links leave the domain.
    pub fn out_count(&self) -> u32
        ensures count { result ≡ length self.now.outs }
        ensures rules { IsTopology self.now }
        ensures order { IsInOrder self.now }
    {
        self.outs.len() as u32
    }

    /// How many entries there are, each for one neighbouring domain.
    pub fn entry_count(&self) -> u32
        ensures count { result ≡ length self.now.entries }
        ensures rules { IsTopology self.now }
        ensures order { IsInOrder self.now }
    {
        self.entries.len() as u32
    }

    /// The node of that place; nodes stand in rising order.
    pub fn node_at(&self, i: u32) -> Addr
        requires { i < length self.now.nodes }
        ensures { slice_get self.now.nodes i ≡ Some result }
    {
        self.nodes[i as usize]
    }

    /// The inner link of that place; links stand in rising order of far addresses.
    pub fn link_at(&self, i: u32) -> &Link
        requires { i < length self.now.links }
        ensures { slice_get self.now.links i ≡ Some result.now }
    {
        &self.links[i as usize]
    }

    /// The place of the node that a link begins at.
    pub fn tail_of(&self, i: u32) -> u32
        requires { i < length self.now.links }
        ensures { LinkBeginsAt self.now.nodes self.now.links result i }
    {
        place_of_node(&self.nodes, &self.hints, self.links[i as usize].from)
    }

    /// The place of the node that a link ends at.
    pub fn head_of(&self, i: u32) -> u32
        requires { i < length self.now.links }
        ensures { LinkEndsAt self.now.nodes self.now.links result i }
    {
        self.index.heads[i as usize]
    }

    /// The link of that place that leaves the domain.
    pub fn out_at(&self, i: u32) -> &OutLink
        requires { i < length self.now.outs }
        ensures { slice_get self.now.outs i ≡ Some result.now }
    {
        &self.outs[i as usize]
    }

    /// The entry of that place.
    pub fn entry_at(&self, i: u32) -> Entry
        requires { i < length self.now.entries }
        ensures { slice_get self.now.entries i ≡ Some result }
    {
        self.entries[i as usize]
    }

    /// The place of a node; none where the address is no node. Takes logarithmic time.
    pub fn find_node(&self, addr: Addr) -> Option<u32>
        ensures { MatchOption result (¬ Contains self.now.nodes addr) (λ i. slice_get self.now.nodes i ≡ Some addr) }
    {
        let place = place_near(&self.nodes, &self.hints, addr)?;
        Some(place as u32)
    }

    /// The place of the link with a far address; none where there is no such link. Takes logarithmic
    /// time.
    pub fn find_link(&self, far: Addr) -> Option<u32>
        ensures { MatchOption result ((i : ℕ) → ¬ IsLinkAt self.now.links far i) (IsLinkAt self.now.links far) }
    {
        let Some(place) = place_of_far(&self.links, far) else {
            return None;
        };
        Some(place as u32)
    }

    /// The places of the links that end at a node, in the order of their far addresses.
    pub fn links_into(&self, node: u32) -> &[u32]
        requires { node < length self.now.nodes }
        ensures { IsLinksInto self.now.nodes self.now.links node result.now }
    {
        self.index.into.at(&self.nodes, node)
    }

    /// The places of the links that begin at a node, in the order of their far addresses.
    pub fn links_from(&self, node: u32) -> &[u32]
        requires { node < length self.now.nodes }
        ensures places { IsLinksFrom self.now.nodes self.now.links node result.now }
        ensures rules { IsTopology self.now }
        ensures order { IsInOrder self.now }
    {
        self.index.from.at(&self.nodes, node)
    }

    /// The links that end at a node, with their arcs.
    pub(crate) fn arrivals(&self, node: u32) -> Arrivals<'_>
        requires { node < length self.now.nodes }
        ensures { AreArrivals self.now node result }
    {
        let (start, end) = self.index.into.bounds(node);
        let arcs = part(&self.index.arcs, start, end);
        let places = self.index.into.at(&self.nodes, node);
        Arrivals::of(&self.links, places, arcs)
    }
}
