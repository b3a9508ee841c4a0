//! The way of least cost through one domain.
ghost use Rattle.std.specs.Prelude.{◌≡◌, ◌∷◌, ◌++◌, [], Contains, List, IfOk, MatchOption};
ghost use Rattle.border_costs.specs.Solutions.{AreRows};
ghost use Rattle.vspt_tree.specs.declared.branch.Best.{Best};
ghost use Rattle.one_domain.specs.Domain.{ask_of, target_seeds, IsBitWhere, IsChosen, IsUnknownVector};

use border_costs::{Answer, Ask, Target, seed_of_target, solve_rows};
use dom_base::{Addr, As, Cost, List, NoMemory, Seed};
use pcep_codes::no_paths;
use pcep_messages::Wanted;
use std::alloc::Global;
use te_links::{Counted, Topology};
use vspt_tree::Best;

/// The chosen path of least cost: the source, and the far address of each link.
#[derive(Drop)]
pub struct Chosen {
    pub hops: List<Addr>,
    pub cost: Cost,
}

/// What one search for a request's target gives: the chosen path from its source, if there is
/// one; and the bits of a NO-PATH-VECTOR for ends that the domain does not know (RFC 5440, section
/// 7.5).
#[derive(Drop)]
pub struct DomainPath {
    pub chosen: Option<Chosen>,
    pub vector: u32,
}

/// The seeds of a search for one target: the target, at no cost, with itself as the exit.
pub fn seeds_of(target: Addr) -> [Seed; 1]
    ensures { result ≡ target_seeds target }
{
    [seed_of_target(target)]
}

/// The ask of the domain.
pub(crate) fn ask_for(alloc: Global, own: As, wanted: &Wanted) -> Result<Ask, NoMemory>
    ensures { IfOk result (λ ask. ask ≡ ask_of own wanted.now) }
{
    let mut entries = List::new(alloc);
    entries.push(wanted.source)?;
    Ok(Ask {
        at: own,
        number: 0,
        generation: 0,
        query: wanted.query.copy(alloc)?,
        source: wanted.source,
        entries,
        target: Target::Node(wanted.target),
        down: List::new(alloc),
    })
}

fn rows_for(alloc: Global, topology: &Topology, wanted: &Wanted) -> Result<Answer, NoMemory>
    ensures { IfOk result (AreRows topology.now (ask_of topology.now.own wanted.now)) }
{
    let ask = ask_for(alloc, topology.own(), wanted)?;
    let mut links = Counted::new(topology);
    solve_rows(alloc, &ask, &mut links)
}

// The path of the one best way, if there is one.
fn path_of(best: List<Best>) -> Option<Chosen>
    ensures { MatchOption result (best ≡ []) (λ c. (rest : List Best) × (b : Best) × (best ≡ rest ++ b ∷ []) × (c.hops ≡ b.segment) × (c.cost ≡ b.cost)) }
{
    let Best { segment, cost, .. } = best.into_vec().pop()?;
    Some(Chosen {
        hops: segment,
        cost,
    })
}

/// The chosen path that the rows of a request show, if there is one.
pub(crate) fn chosen_of(_topology: &Topology, _wanted: &Wanted, rows: Answer) -> Option<Chosen>
    requires { AreRows _topology.now (ask_of _topology.now.own _wanted.now) rows }
    ensures { IsChosen _topology.now _wanted.now result }
{
    path_of(rows.best)
}

// The bit where the address is no node of the domain, and else 0.
fn bit_of_unknown(topology: &Topology, addr: Addr, bit: u32) -> u32
    ensures { IsBitWhere (¬ Contains topology.now.nodes addr) bit result }
{
    match topology.find_node(addr) {
        Some(_place) => 0,
        None => bit,
    }
}

/// The bits of a NO-PATH-VECTOR for ends of a request that the domain does not know (RFC 5440,
/// section 7.5), which takes no search.
pub fn unknown_ends(topology: &Topology, wanted: &Wanted) -> u32
    ensures { IsUnknownVector topology.now wanted.now.source wanted.now.target result }
{
    let source = bit_of_unknown(topology, wanted.source, no_paths::UNKNOWN_SOURCE);
    let target = bit_of_unknown(topology, wanted.target, no_paths::UNKNOWN_TARGET);
    source + target
}

/// Searches one domain for the target of a request.
pub fn search_domain(
    alloc: Global,
    topology: &Topology,
    wanted: &Wanted,
) -> Result<DomainPath, NoMemory>
    ensures chosen { IfOk result (λ d. IsChosen topology.now wanted.now d.chosen) }
    ensures vector { IfOk result (λ d. IsUnknownVector topology.now wanted.now.source wanted.now.target d.vector) }
{
    let rows = rows_for(alloc, topology, wanted)?;
    Ok(DomainPath {
        chosen: chosen_of(topology, wanted, rows),
        vector: unknown_ends(topology, wanted),
    })
}
