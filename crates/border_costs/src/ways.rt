//! The ways out of a domain, each as the seed of a search.
ghost use Rattle.std.specs.Prelude.{◌≡◌, ◌<◌, length, IfOk, MatchOption};
ghost use Rattle.border_costs.specs.Ways.{IsWayAt, IsNoWayAt, AreWays};

use crate::job::{Ask, Target};
use crate::seeds::seed_of_target;
use dom_base::{Addr, As, Cost, NoMemory, Query, Seed};
use path_constraints::{allows, weight};
use std::alloc::Global;
use te_links::Links;

/// A way out of the domain, as the one seed of a search, whose exit is the link's far address; and
/// the node beyond. For a target in this domain all three addresses are the target.
#[derive(Clone, Copy)]
pub struct Way {
    pub seed: Seed,
    pub head: Addr,
}

// The way over the out link at a place, if it leads to the next domain and is admitted, and its
// weight is within the cap.
fn way_at<'a, G: Links<'a>>(links: &G, query: &Query, next: As, index: u32) -> Option<Way>
    requires { index < length (G.rows links.now).outs }
    ensures { MatchOption result (IsNoWayAt (G.rows links.now) query.now next index) (IsWayAt (G.rows links.now) query.now next index) }
{
    let out = links.out_at(index);
    if out.to_as != next || !allows(query, &out.link) {
        return None;
    }
    let Some(cost) = Cost::within(query.cap, weight(&out.link, query.metric)) else {
        return None;
    };
    Some(Way {
        seed: Seed {
            node: out.link.from,
            cost,
            exit: out.link.far,
        },
        head: out.link.to,
    })
}

/// The ways out of an ask, in the order of their far addresses: the target in this domain, or one
/// for each admitted out link to the next domain whose weight is within the cap.
pub(crate) fn ways_of<'a, G: Links<'a>>(
    alloc: Global,
    ask: &Ask,
    links: &G,
) -> Result<Vec<Way>, NoMemory>
    ensures ways { IfOk result (λ ways. AreWays (G.rows links.now) ask.now.query ask.now.target ways.items) }
{
    let mut ways = Vec::new(alloc);
    match ask.target {
        Target::Node(target) => ways.push(Way {
            seed: seed_of_target(target),
            head: target,
        })?,
        Target::Next(next) => {
            for index in 0..links.out_count() {
                if let Some(way) = way_at(links, &ask.query, next, index) {
                    ways.push(way)?;
                }
            }
        }
    }
    Ok(ways)
}
