//! The check of a certificate: all conditions, in their order.
ghost use Rattle.std.specs.Prelude.{◌≡◌, ◌≤◌, ◌↔◌, length};
ghost use Rattle.walk_laws.specs.Labels.{IsLabel};
ghost use Rattle.walk_laws.specs.Certificate.{Certifies, PathHolds};
ghost use Rattle.path_certificate.specs.Rows.{label_in, AreLabelRows};
ghost use Rattle.path_certificate.specs.Claims.{claim_of, IsVerdict, ShowsWalk};

use crate::SEEDS_MAX;
use crate::broken::Broken;
use crate::certificate::Certificate;
use crate::false_links::false_link;
use crate::false_nodes::false_node;
use crate::false_path::false_place;
use crate::false_seeds::false_seed;
use crate::verdict::{Place, Verdict};
use dom_base::{Addr, Query, Seed};
use te_links::Topology;

/// Whether the conditions of a certificate hold, or the first that is false: of the seeds in their
/// order, of the links and the nodes in the topology's, of the addresses of the path. Takes no
/// memory.
pub fn check(
    topology: &Topology,
    query: &Query,
    seeds: &[Seed],
    source: Addr,
    certificate: &Certificate,
) -> Verdict
    requires few_seeds { length seeds.now ≤ SEEDS_MAX }
    requires rows { AreLabelRows topology.now.nodes certificate.now.labels }
    ensures verdict { IsVerdict (claim_of topology.now query.now seeds.now source certificate.now) result }

    // It holds exactly where the labels and the path meet the conditions.
    ensures exact { (result ≡ Verdict.Holds) ↔ (Certifies topology.now query.now seeds.now (label_in certificate.now.labels) × PathHolds topology.now query.now seeds.now (label_in certificate.now.labels) source certificate.now.path) }

    // Then each label is the least over all admitted walks, and the path is such a walk.
    ensures least { result ≡ Verdict.Holds → (n : Addr) → IsLabel topology.now query.now seeds.now n (label_in certificate.now.labels n) }
    ensures walk { result ≡ Verdict.Holds → ShowsWalk topology.now query.now seeds.now (label_in certificate.now.labels) source certificate.now.path }
{
    let rows = certificate.labels.as_slice();
    if let Some(Broken { index, told, bound }) = false_seed(topology, query, rows, seeds) {
        let place = Place::Seed(index);
        return Verdict::Fails { place, told, bound };
    }
    if let Some(Broken { index, told, bound }) = false_link(topology, query, rows) {
        let place = Place::Link(index);
        return Verdict::Fails { place, told, bound };
    }
    if let Some(Broken { index, told, bound }) = false_node(topology, query, seeds, rows) {
        let place = Place::Node(index);
        return Verdict::Fails { place, told, bound };
    }
    match false_place(topology, query, seeds, rows, source, &certificate.path) {
        None => Verdict::Holds,
        Some(index) => Verdict::Fails {
            place: Place::Path(index),
            told: None,
            bound: None,
        },
    }
}
