//! The chosen pair (Suurballe): a least path, then a second one over what it leaves, turned round or
//! beside it, and two paths over the links in use then.
ghost use Rattle.std.specs.Prelude.{◌≡◌, ◌<◌, length, IfOk, MatchOption};
ghost use Rattle.te_links.specs.Rows.{IsTopology};
ghost use Rattle.walk_laws.specs.Walks.{AdmitsNode};
ghost use Rattle.diverse_pairs.specs.declared.arcs.TheConstants.{UNREACHED as unreached};
ghost use Rattle.diverse_pairs.specs.Along.{AreAlong};
ghost use Rattle.diverse_pairs.specs.Arcs.{at};
ghost use Rattle.diverse_pairs.specs.declared.verdict.PairVerdict.TheVariants.{Holds};
ghost use Rattle.diverse_pairs.specs.Conditions.{asked_of, IsVerdict};
ghost use Rattle.diverse_pairs.specs.Potentials.{HasRising, StartsAtZero};
ghost use Rattle.diverse_pairs.specs.PairText.{CanBeTold};
ghost use Rattle.diverse_pairs.specs.Solution.{IsAnswer, IsShort, IsSolved};
ghost use Rattle.diverse_pairs.specs.Residual.{left_arcs};
ghost use Rattle.path_search.specs.Search.{IsOpenAt};
ghost use Rattle.diverse_pairs.specs.Solving.{IsPlaced, IsSearched, IsWalked, MakePaths, ArePathsIn, IsCutForm};

use crate::arcs::{Arc, UNREACHED};
use crate::certificate::{PairCertificate, PairForm};
use crate::lower::distances;
use crate::network::arcs_of;
use crate::residual::{Arcs, heights};
use crate::shown::{cut_off, far_addresses, potentials};
use crate::turning::{take_path, tight_path, turn};
use dom_base::{Addr, List, NoMemory, Query};
use path_constraints::bars_node;
use std::alloc::Global;
use te_links::Topology;

// The place of an admitted node.
fn open_place(topology: &Topology, query: &Query, node: Addr) -> Option<usize>
    ensures { MatchOption result (¬ AdmitsNode topology.now query.now node) (IsOpenAt topology.now query.now node) }
{
    let Some(place) = topology.find_node(node) else {
        return None;
    };
    if bars_node(query, node) {
        None
    } else {
        Some(place as usize)
    }
}

// The cut at the nodes without a distance.
fn cut_form(alloc: Global, topology: &Topology, distances: &[u64]) -> Result<PairForm, NoMemory>
    requires { length distances.now ≡ length topology.now.nodes }
    ensures { IfOk result (IsCutForm topology.now distances.now) }
{
    let nodes = cut_off(alloc, topology, distances)?;
    Ok(PairForm::Cut(List::from_vec(nodes)))
}

// Two paths over the arcs in use, with potentials by the heights.
fn paths_form(
    alloc: Global,
    topology: &Topology,
    source: Addr,
    arcs: &[Option<Arc>],
    in_use: Vec<bool>,
    heights: &[u64],
    from: usize,
    to: usize,
) -> Result<PairForm, NoMemory>
    requires along { AreAlong topology.now arcs.now }
    requires in_use { length in_use.items ≡ length arcs.now }
    requires heights { length heights.now ≡ length topology.now.nodes }
    requires paths { MakePaths arcs.now from to in_use.items heights.now }
    ensures { IfOk result (ArePathsIn topology.now source arcs.now from to in_use.items heights.now) }
{
    let potentials = potentials(alloc, topology, heights)?;
    let one = take_path(alloc, topology, arcs, in_use, heights, from, to)?;
    let other = take_path(alloc, topology, arcs, one.in_use, heights, from, to)?;
    let first = far_addresses(alloc, topology, source, one.path.as_slice())?;
    let second = far_addresses(alloc, topology, source, other.path.as_slice())?;
    Ok(PairForm::Paths {
        potentials: List::from_vec(potentials),
        first: List::from_vec(first),
        second: List::from_vec(second),
    })
}

// The arcs of the links, and the distance of each node to the target.
#[derive(Drop)]
struct Searched {
    arcs: Vec<Option<Arc>>,
    distances: Vec<u64>,
}

// A least path in use, and the distances over the arcs that it leaves.
#[derive(Drop)]
struct Walked {
    in_use: Vec<bool>,
    distances: Vec<u64>,
}

fn search(
    alloc: Global,
    topology: &Topology,
    query: &Query,
    to: usize,
) -> Result<Searched, NoMemory>
    requires { to < length topology.now.nodes }
    ensures { IfOk result (λ s. IsSearched topology.now query.now to s.arcs.items s.distances.items) }
{
    // A topology obeys the rules.
    let _own = topology.own();
    let arcs = arcs_of(alloc, topology, query)?;
    let whole = Arcs::Whole(arcs.as_slice());
    let distances = distances(alloc, topology, &whole, to)?;
    Ok(Searched { arcs, distances })
}

fn walk(
    alloc: Global,
    topology: &Topology,
    _query: &Query,
    arcs: &[Option<Arc>],
    first: &[u64],
    from: usize,
    to: usize,
) -> Result<Walked, NoMemory>
    requires rules { IsTopology topology.now }
    requires searched { IsSearched topology.now _query.now to arcs.now first.now }
    requires from { from < length first.now }
    requires to { to < length first.now }
    requires reached { at first.now from < unreached }
    ensures { IfOk result (λ w. IsWalked from to arcs.now first.now w.in_use.items (left_arcs first.now w.in_use.items arcs.now) w.distances.items) }
{
    let path = tight_path(alloc, topology, &Arcs::Whole(arcs), first, from, to)?;
    let none = vec![in alloc; false; arcs.len()]?;
    let in_use = turn(none, path.as_slice());
    let left = Arcs::Left {
        arcs,
        distances: first,
        in_use: in_use.as_slice(),
    };
    let distances = distances(alloc, topology, &left, to)?;
    Ok(Walked { in_use, distances })
}

// The chosen pair, where a second path leads from the source.
fn second(
    alloc: Global,
    topology: &Topology,
    _query: &Query,
    source: Addr,
    _target: Addr,
    arcs: &[Option<Arc>],
    first: &[u64],
    from: usize,
    to: usize,
    walked: Walked,
) -> Result<PairForm, NoMemory>
    requires placed { IsPlaced topology.now _query.now source _target from to }
    requires searched { IsSearched topology.now _query.now to arcs.now first.now }
    requires walked { IsWalked from to arcs.now first.now walked.in_use.items (left_arcs first.now walked.in_use.items arcs.now) walked.distances.items }
    requires reached { at walked.distances.items from < unreached }
    ensures { IfOk result (IsSolved (asked_of topology.now _query.now source _target)) }
{
    let Walked { in_use, distances } = walked;
    let left = Arcs::Left {
        arcs,
        distances: first,
        in_use: in_use.as_slice(),
    };
    let path = tight_path(alloc, topology, &left, &distances, from, to)?;
    let both = turn(in_use, path.as_slice());
    let heights = heights(alloc, first, &distances)?;
    paths_form(alloc, topology, source, arcs, both, &heights, from, to)
}

// The chosen pair between nodes at places, or a cut.
fn solve_between(
    alloc: Global,
    topology: &Topology,
    query: &Query,
    source: Addr,
    target: Addr,
    from: usize,
    to: usize,
) -> Result<PairForm, NoMemory>
    requires { IsPlaced topology.now query.now source target from to }
    ensures { IfOk result (IsSolved (asked_of topology.now query.now source target)) }
{
    let Searched { arcs, distances } = search(alloc, topology, query, to)?;
    let arcs = arcs.as_slice();
    let first = distances.as_slice();
    if first[from] == UNREACHED {
        return cut_form(alloc, topology, first);
    }
    let walked = walk(alloc, topology, query, arcs, first, from, to)?;
    let over = walked.distances.as_slice();
    if over[from] == UNREACHED {
        return cut_form(alloc, topology, over);
    }
    second(
        alloc, topology, query, source, target, arcs, first, from, to, walked,
    )
}

/// A certificate of the chosen pair from the source to the target, whatever its sum; a cut where
/// there is no pair. It holds, and it can be written and read again.
pub fn solve_pair(
    alloc: Global,
    topology: &Topology,
    query: &Query,
    source: Addr,
    target: Addr,
) -> Result<PairCertificate, NoMemory>
    ensures own { IfOk result (λ c. c.own ≡ topology.now.own) }
    ensures holds { IfOk result (λ c. IsVerdict (asked_of topology.now query.now source target) c.form Holds) }
    ensures answer { IfOk result (λ c. IsAnswer (asked_of topology.now query.now source target) c.form) }
    ensures rising { IfOk result (λ c. HasRising c.form) }
    ensures least { IfOk result (λ c. StartsAtZero c.form) }
    ensures told { IfOk result (λ c. CanBeTold c.form) }

    // So two paths fit one message.
    ensures short { IfOk result (λ c. IsShort (length topology.now.nodes) c.form) }
{
    let own = topology.own();
    let Some(from) = open_place(topology, query, source) else {
        return Ok(PairCertificate {
            own,
            form: PairForm::Cut(List::new(alloc)),
        });
    };
    let Some(to) = open_place(topology, query, target) else {
        return Ok(PairCertificate {
            own,
            form: PairForm::Cut(List::new(alloc)),
        });
    };
    let form = solve_between(alloc, topology, query, source, target, from, to)?;
    Ok(PairCertificate { own, form })
}
