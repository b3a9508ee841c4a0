//! The seeds of an ask: its target, or its out links with what lies beyond.
ghost use Rattle.std.specs.Prelude.{◌≡◌, ◌<◌, length, IfOk, MatchOption};
ghost use Rattle.walk_laws.specs.Borders.{IsDown};
ghost use Rattle.border_costs.specs.Asks.{beyond, AreSeeds, target_seed, HasNoDown, IsSeedAt, IsNoSeedAt};

use crate::job::{Ask, Down, Target};
use dom_base::{Addr, As, Cost, NoMemory, Query, Seed};
use path_constraints::{allows, weight};
use std::alloc::Global;
use te_links::Links;

// The least cost among the rows of a node.
fn down_cost(down: &[Down], node: Addr) -> Option<Cost>
    ensures { MatchOption result (HasNoDown (beyond down.now) node) (IsDown (beyond down.now) node) }
{
    let mut least: Option<Cost> = None;
    for row in down {
        if row.node == node && row.cost.is_less(&least) {
            least = Some(row.cost);
        }
    }
    least
}

/// A target in this domain as a seed: at no cost, with itself as the exit.
pub fn seed_of_target(target: Addr) -> Seed
    ensures { result ≡ target_seed target }
{
    Seed {
        node: target,
        cost: Cost::zero(),
        exit: target,
    }
}

// The seed of the out link at a place, if it leads to the next domain, is admitted and has a row
// beyond, and the sum is within the cap.
fn seed_at<'a, G: Links<'a>>(
    links: &G,
    query: &Query,
    next: As,
    down: &[Down],
    index: u32,
) -> Option<Seed>
    requires { index < length (G.rows links.now).outs }
    ensures { MatchOption result (IsNoSeedAt (G.rows links.now) query.now next down.now index) (IsSeedAt (G.rows links.now) query.now next down.now index) }
{
    let out = links.out_at(index);
    if out.to_as != next || !allows(query, &out.link) {
        return None;
    }
    let Some(beyond) = down_cost(down, out.link.to) else {
        return None;
    };
    let Some(cost) = Cost::sum_within(query.cap, weight(&out.link, query.metric), beyond) else {
        return None;
    };
    Some(Seed {
        node: out.link.from,
        cost,
        exit: out.link.far,
    })
}

/// The seeds of an ask: the target in this domain, or one for each admitted out link to the next
/// domain whose head has a row beyond, where the sum is within the cap.
pub fn seeds_of<'a, G: Links<'a>>(
    alloc: Global,
    ask: &Ask,
    links: &G,
) -> Result<Vec<Seed>, NoMemory>
    ensures seeds { IfOk result (λ seeds. AreSeeds (G.rows links.now) ask.now seeds.items) }
{
    let mut seeds = Vec::new(alloc);
    match ask.target {
        Target::Node(target) => seeds.push(seed_of_target(target))?,
        Target::Next(next) => {
            for index in 0..links.out_count() {
                if let Some(seed) = seed_at(links, &ask.query, next, ask.down.as_slice(), index) {
                    seeds.push(seed)?;
                }
            }
        }
    }
    Ok(seeds)
}
