//! A topology that counts how often its links are read.
ghost use Rattle.std.specs.Prelude.{◌≡◌, ◌<◌, length};
ghost use Rattle.te_links.specs.Reads.{RoseBy};

use crate::arrivals::Arrivals;
use crate::links::Links;
use crate::rows::OutLink;
use crate::topology::Topology;
use dom_base::{Addr, Link};
use std::marker::Model;

/// A topology, with a count of how often an inner link was read. The count stands still at the
/// last value of its type.
#[derive(Drop)]
pub struct Counted<'a> {
    topology: &'a Topology,
    reads: u64,
}

impl<'a> Model for Counted<'a> {
    ghost use Rattle.te_links.specs.Reads.{Reading};

    ghost Value = { Reading };

    ghost view = { λ s. record { topology = s.topology.now; reads = s.reads } };
}

impl<'a> Counted<'a> {
    /// The links of this topology, with a count of 0.
    pub fn new(topology: &'a Topology) -> Counted<'a>
        ensures topology { result.topology ≡ topology.now }
        ensures reads { result.reads ≡ 0 }
    {
        Counted { topology, reads: 0 }
    }

    /// How many reads of links there were.
    pub fn reads(&self) -> u64
        ensures { result ≡ self.now.reads }
    {
        self.reads
    }

    // So many more links were read.
    fn count(&mut self, links: usize)
        ensures topology { self.new.topology ≡ self.old.topology }
        ensures counted { RoseBy links self.old.reads self.new.reads }
    {
        self.reads = self.reads.saturating_add(links as u64);
    }
}

impl<'a> Links<'a> for Counted<'a> {
    ghost rows = { λ s. s.topology };

    ghost reads = { λ s. s.reads };

    fn node_count(&self) -> u32 {
        self.topology.node_count()
    }

    fn link_count(&self) -> u32 {
        self.topology.link_count()
    }

    fn out_count(&self) -> u32 {
        self.topology.out_count()
    }

    fn node_at(&self, i: u32) -> Addr {
        self.topology.node_at(i)
    }

    fn find_node(&self, addr: Addr) -> Option<u32> {
        self.topology.find_node(addr)
    }

    fn links_into(&self, node: u32) -> &'a [u32] {
        self.topology.links_into(node)
    }

    fn links_from(&self, node: u32) -> &'a [u32] {
        self.topology.links_from(node)
    }

    fn out_at(&self, i: u32) -> &'a OutLink {
        self.topology.out_at(i)
    }

    fn read_into(&mut self, node: u32) -> Arrivals<'a> {
        let arrivals = self.topology.arrivals(node);
        self.count(arrivals.len());
        arrivals
    }

    fn link_at(&mut self, i: u32) -> &'a Link {
        self.count(1);
        self.topology.link_at(i)
    }

    fn link_with_head(&mut self, i: u32) -> (&'a Link, u32) {
        self.count(1);
        (self.topology.link_at(i), self.topology.head_of(i))
    }
}
