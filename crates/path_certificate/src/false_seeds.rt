//! The first false condition at a seed.
ghost use Rattle.std.specs.Prelude.{◌≡◌, ◌<◌, ◌≤◌, ◌^◌, ◌↔◌, ℕ, Some, slice_get, length, IsTrue, MatchOption};
ghost use Rattle.walk_laws.specs.Certificate.{SeedHolds};
ghost use Rattle.path_certificate.specs.Rows.{label_in, AreLabelRows};
ghost use Rattle.path_certificate.specs.Claims.{SeedHoldsAt, seed_told, seed_bound};
ghost use Rattle.path_certificate.specs.Offers.{IsBroken, IsFirstBroken};

use crate::SEEDS_MAX;
use crate::broken::Broken;
use crate::look_up::label_of;
use crate::offers::admits_node;
use crate::ordered::is_at_most;
use dom_base::{Addr, Label, Query, Seed};
use te_links::Topology;

// The fault at a seed. An admitted seed within the cap is a bound on the label of its node.
fn broken_seed(
    topology: &Topology,
    query: &Query,
    rows: &[(Addr, Option<Label>)],
    seeds: &[Seed],
    index: usize,
) -> Option<Broken>
    requires rows { AreLabelRows topology.now.nodes rows.now }
    requires index { index < length seeds.now }
    requires few { length seeds.now ≤ SEEDS_MAX }
    ensures { MatchOption result
        (SeedHoldsAt topology.now query.now (label_in rows.now) seeds.now index)
        (IsBroken (SeedHoldsAt topology.now query.now (label_in rows.now) seeds.now) (seed_told (label_in rows.now) seeds.now) (seed_bound seeds.now) index) }
{
    let seed = &seeds[index];
    if !admits_node(topology, query, seed.node) || seed.cost.get() > query.cap.get() {
        return None;
    }
    let told = label_of(rows, seed.node);
    let bound = Label {
        cost: seed.cost,
        exit: seed.exit,
    };
    if is_at_most(&told, &bound) {
        return None;
    }
    Some(Broken {
        index: index as u32,
        told,
        bound: Some(bound),
    })
}

/// The first seed whose condition is false.
pub(crate) fn false_seed(
    topology: &Topology,
    query: &Query,
    rows: &[(Addr, Option<Label>)],
    seeds: &[Seed],
) -> Option<Broken>
    requires rows { AreLabelRows topology.now.nodes rows.now }
    requires few { length seeds.now ≤ SEEDS_MAX }
    ensures { MatchOption result
        ((i : ℕ) → SeedHoldsAt topology.now query.now (label_in rows.now) seeds.now i)
        (IsFirstBroken (SeedHoldsAt topology.now query.now (label_in rows.now) seeds.now) (seed_told (label_in rows.now) seeds.now) (seed_bound seeds.now)) }
{
    for index in 0..seeds.len() {
        if let Some(broken) = broken_seed(topology, query, rows, seeds, index) {
            return Some(broken);
        }
    }
    None
}
