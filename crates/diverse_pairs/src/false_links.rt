//! The first link at which potentials are false.
ghost use Rattle.std.specs.Prelude.{◌<◌, ◌++◌, ◌↔◌, ℕ, length, IsTrue, MatchOption};
ghost use Rattle.te_links.specs.Rows.{IsTopology};
ghost use Rattle.diverse_pairs.specs.Conditions.{LinkHoldsAt, RisesRight};
ghost use Rattle.diverse_pairs.specs.Potentials.{potential_in, AreRising};
ghost use Rattle.diverse_pairs.specs.Steps.{IsFirstNot};

use crate::look_up::{is_in_use, potential_of};
use dom_base::{Addr, Link, Query};
use path_certificate::admitted_link;
use path_constraints::weight;
use te_links::Topology;

// Whether the potential rises as it may over a link.
fn rises_right(query: &Query, link: &Link, potentials: &[(Addr, u64)], used: bool) -> bool
    requires { AreRising potentials.now }
    ensures { IsTrue result ↔ RisesRight query.now (potential_in potentials.now) (IsTrue used) link.now }
{
    let from = potential_of(potentials, link.from);
    let to = potential_of(potentials, link.to);
    let weight = u64::from(weight(link, query.metric));
    if used {
        from <= to && weight <= to - from
    } else {
        to <= from || to - from <= weight
    }
}

// Whether the condition at a link holds.
fn holds_at(
    topology: &Topology,
    query: &Query,
    potentials: &[(Addr, u64)],
    first: &[Addr],
    second: &[Addr],
    index: u32,
) -> bool
    requires rules { IsTopology topology.now }
    requires index { index < length topology.now.links }
    requires rising { AreRising potentials.now }
    ensures { IsTrue result ↔ LinkHoldsAt topology.now query.now (potential_in potentials.now) (first.now ++ second.now) index }
{
    let Some(link) = admitted_link(topology, query, index) else {
        return true;
    };
    rises_right(query, link, potentials, is_in_use(first, second, link.far))
}

/// The first link whose condition is false; `first` and `second` are the far addresses in use.
pub(crate) fn false_link(
    topology: &Topology,
    query: &Query,
    potentials: &[(Addr, u64)],
    first: &[Addr],
    second: &[Addr],
) -> Option<u32>
    requires rising { AreRising potentials.now }
    ensures { MatchOption result
        ((i : ℕ) → LinkHoldsAt topology.now query.now (potential_in potentials.now) (first.now ++ second.now) i)
        (IsFirstNot (LinkHoldsAt topology.now query.now (potential_in potentials.now) (first.now ++ second.now))) }
{
    for index in 0..topology.link_count() {
        if !holds_at(topology, query, potentials, first, second, index) {
            return Some(index);
        }
    }
    None
}
