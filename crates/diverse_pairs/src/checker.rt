//! The checker, which trusts nobody.
ghost use Rattle.std.specs.Prelude.{◌≡◌};
ghost use Rattle.te_links.specs.Rows.{IsTopology, IsInOrder};
ghost use Rattle.diverse_pairs.specs.Conditions.{asked_of, IsVerdict, AnswersPair};
ghost use Rattle.diverse_pairs.specs.Potentials.{HasRising, AreRising};

use crate::certificate::{PairCertificate, PairForm};
use crate::false_crossing::second_to_leave;
use crate::false_links::false_link;
use crate::false_path::false_address;
use crate::verdict::PairVerdict;
use dom_base::{Addr, Query, stands};
use path_certificate::{Place, admits_node};
use te_links::Topology;

// The verdict on paths with potentials.
fn check_paths(
    topology: &Topology,
    query: &Query,
    source: Addr,
    target: Addr,
    potentials: &[(Addr, u64)],
    first: &[Addr],
    second: &[Addr],
) -> PairVerdict
    requires rules { IsTopology topology.now }
    requires order { IsInOrder topology.now }
    requires rising { AreRising potentials.now }
    ensures { IsVerdict (asked_of topology.now query.now source target) (PairForm.Paths potentials.now first.now second.now) result }
{
    if let Some(place) = false_address(topology, query, source, target, first, second) {
        return PairVerdict::Fails(Place::Path(place));
    }
    match false_link(topology, query, potentials, &first[1..], &second[1..]) {
        Some(index) => PairVerdict::Fails(Place::Link(index)),
        None => PairVerdict::Holds,
    }
}

// The verdict on a cut.
fn check_cut(
    topology: &Topology,
    query: &Query,
    source: Addr,
    target: Addr,
    nodes: &[Addr],
) -> PairVerdict
    ensures { IsVerdict (asked_of topology.now query.now source target) (PairForm.Cut nodes.now) result }
{
    if !admits_node(topology, query, source) {
        return PairVerdict::Holds;
    }
    if !admits_node(topology, query, target) {
        return PairVerdict::Holds;
    }
    let has_source = stands(nodes, source);
    let has_target = stands(nodes, target);
    if !has_source || has_target {
        return PairVerdict::Fails(Place::Seed(0));
    }
    match second_to_leave(topology, query, nodes) {
        Some(index) => PairVerdict::Fails(Place::Link(index)),
        None => PairVerdict::Holds,
    }
}

/// Whether the conditions of a certificate hold, or the first that is false: of paths, first those
/// of the addresses and then those of the links in the topology's order; of a cut, first that of
/// the ends and then those of the links. Takes no memory.
pub fn check_pair(
    topology: &Topology,
    query: &Query,
    source: Addr,
    target: Addr,
    certificate: &PairCertificate,
) -> PairVerdict
    requires rising { HasRising certificate.now.form }
    ensures verdict { IsVerdict (asked_of topology.now query.now source target) certificate.now.form result }

    // Where the conditions hold, paths are a pair, and no pair has a smaller sum; with a cut there
    // is no pair.
    ensures shows { result ≡ PairVerdict.Holds → AnswersPair (asked_of topology.now query.now source target) certificate.now.form }
{
    // A topology obeys the rules.
    let _own = topology.own();
    match &certificate.form {
        PairForm::Paths {
            potentials,
            first,
            second,
        } => check_paths(
            topology,
            query,
            source,
            target,
            potentials.as_slice(),
            first.as_slice(),
            second.as_slice(),
        ),
        PairForm::Cut(nodes) => check_cut(topology, query, source, target, nodes.as_slice()),
    }
}
