//! The costs of paths that certificates show.
ghost use Rattle.std.specs.Prelude.{◌≡◌, ◌≤◌, ◌*◌, All, Contains, List, length, map};
ghost use Rattle.dom_base.specs.declared.addr.Addr.{Addr as Address};
ghost use Rattle.dom_base.specs.declared.link.Link.{Link};
ghost use Rattle.dom_base.specs.Admission.{weight as weight_of};
ghost use Rattle.te_links.specs.declared.limits.TheConstants.{NODES_MAX, METRIC_MAX};
ghost use Rattle.te_links.specs.Rows.{IsTopology, IsInOrder};
ghost use Rattle.walk_laws.specs.Walks.{cost};
ghost use Rattle.diverse_pairs.specs.Conditions.{IsShownBy};

use dom_base::{Addr, Query};
use path_constraints::weight;
use te_links::Topology;

// The weight of the link with a far address.
fn weight_at(topology: &Topology, query: &Query, far: Addr) -> u32
    requires rules { IsTopology topology.now }
    requires order { IsInOrder topology.now }
    ensures bound { result ≤ METRIC_MAX }
    ensures weight { (l : Link) → Contains topology.now.links l → l.far ≡ far → result ≡ weight_of query.now.metric l }
{
    let Some(index) = topology.find_link(far) else {
        return 0;
    };
    let link = topology.link_at(index);
    weight(link, query.metric)
}

fn sum_of(topology: &Topology, query: &Query, fars: &[Addr]) -> u64
    requires rules { IsTopology topology.now }
    requires order { IsInOrder topology.now }
    requires few { length fars.now ≤ NODES_MAX }
    ensures bound { result ≤ NODES_MAX * METRIC_MAX }
    ensures cost { (ls : List Link) → fars.now ≡ map (λ l. l.far) ls → All (Contains topology.now.links) ls → result ≡ cost query.now ls }
{
    let mut sum: u64 = 0;
    for far in fars {
        sum += u64::from(weight_at(topology, query, *far));
    }
    sum
}

/// The cost of a path that is shown by its source and then the far addresses of its links.
pub fn path_cost(topology: &Topology, query: &Query, shown: &[Addr]) -> u64
    requires few { length shown.now ≤ 1024 }
    ensures bound { result ≤ 1024 * 16777215 }
    ensures cost { (s : Address) (ls : List Link) → IsShownBy s ls shown.now → All (Contains topology.now.links) ls → result ≡ cost query.now ls }
{
    // A topology obeys the rules.
    let _own = topology.own();
    match shown {
        [] => 0,
        [_source, fars @ ..] => sum_of(topology, query, fars),
    }
}
