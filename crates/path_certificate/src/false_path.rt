//! The first false step of the path.
ghost use Rattle.std.specs.Prelude.{◌≡◌, ◌<◌, ◌∷◌, ℕ, [], MatchOption};
ghost use Rattle.te_links.specs.Rows.{IsTopology, IsInOrder};
ghost use Rattle.path_certificate.specs.Rows.{label_in, AreLabelRows};
ghost use Rattle.path_certificate.specs.Claims.{LeadsByLabels, LeadsOver, PathHoldsAt};

use crate::look_up::label_of;
use crate::offers::offer_of;
use dom_base::{Addr, Label, List, Query, Seed, ends_at};
use te_links::Topology;

// Where a link leads, and the label there.
#[derive(Drop)]
struct Step {
    node: Addr,
    rest: Label,
}

// The step from a node with a label over the link with a far address, if that makes the label.
fn step_over(
    topology: &Topology,
    query: &Query,
    rows: &[(Addr, Option<Label>)],
    node: Addr,
    label: &Label,
    far: Addr,
) -> Option<Step>
    requires rules { IsTopology topology.now }
    requires order { IsInOrder topology.now }
    requires rows { AreLabelRows topology.now.nodes rows.now }
    ensures { MatchOption result
        ((m : Addr) (b : Label) → ¬ LeadsByLabels topology.now query.now (label_in rows.now) node label.now (far ∷ []) m b)
        (λ step. LeadsByLabels topology.now query.now (label_in rows.now) node label.now (far ∷ []) step.node step.rest) }
{
    let index = topology.find_link(far)?;
    let offer = offer_of(topology, query, rows, index)?;
    if offer.from == node && offer.is(label) {
        Some(Step {
            node: offer.to,
            rest: offer.rest,
        })
    } else {
        None
    }
}

// How many far addresses lead on where the next one doesn't, or all where they end without a seed.
fn false_step(
    topology: &Topology,
    query: &Query,
    seeds: &[Seed],
    rows: &[(Addr, Option<Label>)],
    node: Addr,
    label: Label,
    fars: &[Addr],
) -> Option<u32>
    requires rules { IsTopology topology.now }
    requires order { IsInOrder topology.now }
    requires rows { AreLabelRows topology.now.nodes rows.now }
    ensures { MatchOption result
        ((k : ℕ) → LeadsOver topology.now query.now seeds.now (label_in rows.now) node label fars.now k)
        (λ k. (¬ LeadsOver topology.now query.now seeds.now (label_in rows.now) node label fars.now k) × ((j : ℕ) → j < k → LeadsOver topology.now query.now seeds.now (label_in rows.now) node label fars.now j)) }
{
    let mut here = node;
    let mut rest = label;
    let mut place: u32 = 0;
    for far in fars {
        let Some(step) = step_over(topology, query, rows, here, &rest, *far) else {
            return Some(place + 1);
        };
        here = step.node;
        rest = step.rest;
        place += 1;
    }
    if ends_at(seeds, here, &rest) {
        None
    } else {
        Some(place)
    }
}

/// The first place of the path that is false.
pub(crate) fn false_place(
    topology: &Topology,
    query: &Query,
    seeds: &[Seed],
    rows: &[(Addr, Option<Label>)],
    source: Addr,
    path: &Option<List<Addr>>,
) -> Option<u32>
    requires rules { IsTopology topology.now }
    requires order { IsInOrder topology.now }
    requires rows { AreLabelRows topology.now.nodes rows.now }
    ensures { MatchOption result
        ((k : ℕ) → PathHoldsAt topology.now query.now seeds.now (label_in rows.now) source path.now k)
        (λ k. (¬ PathHoldsAt topology.now query.now seeds.now (label_in rows.now) source path.now k) × ((j : ℕ) → j < k → PathHoldsAt topology.now query.now seeds.now (label_in rows.now) source path.now j)) }
{
    let told = label_of(rows, source);
    let Some(addrs) = path else {
        return if told.is_none() { None } else { Some(0) };
    };
    let Some(label) = told else {
        return Some(0);
    };
    match addrs.as_slice() {
        [first, fars @ ..] if *first == source => {
            false_step(topology, query, seeds, rows, source, label, fars)
        }
        _ => Some(0),
    }
}
