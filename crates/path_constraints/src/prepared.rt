//! A query whose exclusions are in order for look-ups.
ghost use Rattle.std.specs.Prelude.{◌≡◌, ◌⊎◌, ◌↔◌, IfOk, IsTrue};
ghost use Rattle.dom_base.specs.Admission.{Allows, BarsLink, BarsNode};
ghost use Rattle.path_constraints.specs.Spans.{AreRising, Covers};

use crate::admission::fits;
use crate::spans::{Span, covers};
use crate::tables::{excludes_domain, has_risk, risks_of, spans_of};
use dom_base::{Addr, Link, NoMemory, Query};
use std::alloc::Global;
use std::collections::BTreeSet;
use std::marker::Model;

// The attributes of a prefix that is excluded (RFC 5521, section 2.1.1).
const INTERFACE: u8 = 0;

const NODE: u8 = 1;

/// A query, with its exclusions in order: however many there are, the test of a link or a node takes
/// a few comparisons. To put n exclusions in order takes some n log n steps, so it is worth its while
/// where more than a few links are tested.
#[derive(Drop)]
pub struct Prepared<'a> {
    query: &'a Query,
    links: Vec<Span>,
    nodes: Vec<Span>,
    risks: BTreeSet<u32>,
    domain: bool,
}

impl<'a> Model for Prepared<'a> {
    ghost use Rattle.dom_base.specs.declared.query.Query.{Query};
    ghost use Rattle.path_constraints.specs.Tables.{AreTables};

    ghost Value = { Query };

    ghost view = { λ p. p.query.now };

    ghost invariant = { λ p. AreTables p.query.now p.links.items p.nodes.items p.risks p.domain };
}

// Whether an interface of a link lies in one of the spans.
fn begins_or_ends(spans: &[Span], link: &Link) -> bool
    requires { AreRising spans.now }
    ensures { IsTrue result ↔ (Covers spans.now link.now.near ⊎ Covers spans.now link.now.far) }
{
    covers(spans, link.near) || covers(spans, link.far)
}

impl<'a> Prepared<'a> {
    /// The query, prepared.
    pub fn of(alloc: Global, query: &'a Query) -> Result<Prepared<'a>, NoMemory>
        ensures { IfOk result (λ prepared. prepared ≡ query.now) }
    {
        let list = query.exclusions.as_slice();
        let links = spans_of(alloc, list, INTERFACE)?;
        let nodes = spans_of(alloc, list, NODE)?;
        let risks = risks_of(alloc, list)?;
        let domain = excludes_domain(list, query.own);
        Ok(Prepared {
            query,
            links,
            nodes,
            risks,
            domain,
        })
    }

    /// The query itself.
    pub fn query(&self) -> &'a Query
        ensures { result.now ≡ self.now }
    {
        self.query
    }

    // Never inlined, so that the test of each link stays short where nothing is excluded.
    #[inline(never)]
    fn names_link(&self, link: &Link) -> bool
        ensures { IsTrue result ↔ BarsLink self.now link.now }
    {
        begins_or_ends(self.links.as_slice(), link) || has_risk(&self.risks, link.srlgs.as_slice())
    }

    /// Whether an exclusion of the query bars a link, as `bars_link` tells it.
    #[inline(always)]
    pub fn bars_link(&self, link: &Link) -> bool
        ensures { IsTrue result ↔ BarsLink self.now link.now }
    {
        !self.query.exclusions.is_empty() && self.names_link(link)
    }

    /// Whether an exclusion of the query bars a node, as `bars_node` tells it.
    pub fn bars_node(&self, node: Addr) -> bool
        ensures { IsTrue result ↔ BarsNode self.now node }
    {
        self.domain || covers(self.nodes.as_slice(), node)
    }

    /// Whether the query allows a link, as `allows` tells it.
    #[inline(always)]
    pub fn allows(&self, link: &Link) -> bool
        ensures { IsTrue result ↔ Allows self.now link.now }
    {
        fits(self.query, link) && !self.bars_link(link)
    }
}
