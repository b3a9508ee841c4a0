//! The first address of two paths that is false.
ghost use Rattle.std.specs.Prelude.{◌≢◌, ◌≤◌, ◌<◌, ◌+◌, ℕ, [], length, AllPairs, MatchOption};
ghost use Rattle.te_links.specs.Rows.{IsTopology, IsInOrder};
ghost use Rattle.walk_laws.specs.Walks.{AdmitsNode};
ghost use Rattle.diverse_pairs.specs.Conditions.{ListHolds, PathHolds, TracesOver};
ghost use Rattle.diverse_pairs.specs.Steps.{IsStep, IsFirstNot};

use crate::look_up::is_in_use;
use dom_base::{Addr, Query};
use path_certificate::{admits_node, admitted_link};
use te_links::{LINKS_MAX, Topology};

// Where the admitted link with a far address leads from a node.
fn step_over(topology: &Topology, query: &Query, node: Addr, far: Addr) -> Option<Addr>
    requires rules { IsTopology topology.now }
    requires order { IsInOrder topology.now }
    ensures { MatchOption result ((m : Addr) → ¬ IsStep topology.now query.now node far m) (IsStep topology.now query.now node far) }
{
    let index = topology.find_link(far)?;
    let link = admitted_link(topology, query, index)?;
    if link.from == node {
        Some(link.to)
    } else {
        None
    }
}

// How many far addresses trace from the source where the next one doesn't, or all where they end
// elsewhere than at the target.
fn false_step(
    topology: &Topology,
    query: &Query,
    used: &[Addr],
    source: Addr,
    target: Addr,
    fars: &[Addr],
) -> Option<u32>
    requires rules { IsTopology topology.now }
    requires order { IsInOrder topology.now }
    requires differ { AllPairs (λ a b. a ≢ b) used.now }
    requires admitted { AdmitsNode topology.now query.now source }
    ensures first { MatchOption result
        ((k : ℕ) → TracesOver topology.now query.now used.now source target fars.now k)
        (IsFirstNot (TracesOver topology.now query.now used.now source target fars.now)) }
    ensures few { MatchOption result (length fars.now ≤ LINKS_MAX) (λ k. k ≤ LINKS_MAX + 1) }
{
    let mut here = source;
    let mut place: u32 = 0;
    for far in fars {
        if is_in_use(used, &fars[..place as usize], *far) {
            return Some(place + 1);
        }
        let Some(next) = step_over(topology, query, here, *far) else {
            return Some(place + 1);
        };
        here = next;
        place += 1;
    }
    if here == target { None } else { Some(place) }
}

// The first address of a list that is false.
fn false_place(
    topology: &Topology,
    query: &Query,
    used: &[Addr],
    source: Addr,
    target: Addr,
    shown: &[Addr],
) -> Option<u32>
    requires rules { IsTopology topology.now }
    requires order { IsInOrder topology.now }
    requires differ { AllPairs (λ a b. a ≢ b) used.now }
    ensures first { MatchOption result
        ((k : ℕ) → ListHolds topology.now query.now used.now source target shown.now k)
        (IsFirstNot (ListHolds topology.now query.now used.now source target shown.now)) }
    ensures few { MatchOption result (length shown.now ≤ LINKS_MAX + 1) (λ k. k ≤ LINKS_MAX + 1) }
{
    match shown {
        [start, fars @ ..] if *start == source && admits_node(topology, query, source) => {
            false_step(topology, query, used, source, target, fars)
        }
        _ => Some(0),
    }
}

/// The first address of two paths that is false, counted through the first and then the second.
pub(crate) fn false_address(
    topology: &Topology,
    query: &Query,
    source: Addr,
    target: Addr,
    first: &[Addr],
    second: &[Addr],
) -> Option<u32>
    requires rules { IsTopology topology.now }
    requires order { IsInOrder topology.now }
    ensures { MatchOption result
        ((k : ℕ) → PathHolds topology.now query.now source target first.now second.now k)
        (IsFirstNot (PathHolds topology.now query.now source target first.now second.now)) }
{
    if let Some(place) = false_place(topology, query, &[], source, target, first) {
        return Some(place);
    }
    let place = false_place(topology, query, &first[1..], source, target, second)?;
    Some(first.len() as u32 + place)
}
