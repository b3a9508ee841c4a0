//! The key of an entry.
ghost use Rattle.std.specs.Prelude.{◌≡◌, IfOk, fold};
ghost use Rattle.std.specs.List.{flat_map};
ghost use Rattle.std.proofs.Common.{ap};
ghost use Rattle.std.specs.Cmp.{decided, partial_equiv_from_equiv};
ghost use Rattle.std.specs.Hash as fed;
ghost use Rattle.cost_cache.specs.Keys.{key_of, same_key, addr_writes, target_writes, key_writes};
ghost use Rattle.cost_cache.specs.SameKeys.{same_key-Decides};

use crate::compare::{equal_downs, equal_queries, equal_targets};
use border_costs::{Ask, Down, Target};
use dom_base::{Addr, As, List, NoMemory, Query};
use std::alloc::Global;
use std::hash::{Hash, Hasher};

/// What the labels of an ask depend on: the element, the generation of its topology, the query, the
/// target, and what the next domain told. They do not depend on the entries of an ask, its source and
/// its number.
#[derive(Drop)]
pub struct Key {
    pub at: As,
    pub generation: u64,
    pub query: Query,
    pub target: Target,
    pub down: List<Down>,
}

impl Key {
    /// The key of an ask, in memory of its own.
    pub fn of(alloc: Global, ask: &Ask) -> Result<Key, NoMemory>
        ensures { IfOk result (λ key. key ≡ key_of ask.now) }
    {
        Ok(Key {
            at: ask.at,
            generation: ask.generation,
            query: ask.query.copy(alloc)?,
            target: ask.target,
            down: ask.down.copy(alloc)?,
        })
    }
}

// The comparison and the hash are written out, so that what they compute is what contracts speak of.

impl PartialEq for Key {
    ghost eq = { same_key };

    ghost laws = { partial_equiv_from_equiv (decided same_key same_key-Decides) };

    fn eq(&self, other: &Key) -> bool {
        self.at == other.at
            && self.generation == other.generation
            && equal_queries(&self.query, &other.query)
            && equal_targets(self.target, other.target)
            && equal_downs(self.down.as_slice(), other.down.as_slice())
    }
}

impl Eq for Key {
    ghost laws = { decided same_key same_key-Decides };
}

fn hash_addr<H: Hasher>(addr: Addr, state: &mut H)
    ensures { state.new ≡ fold H.write state.old (addr_writes addr) }
{
    match addr {
        Addr::V4(number) => state.write_u32(number),
        Addr::V6(number) => state.write_u128(number),
    }
}

fn hash_target<H: Hasher>(target: Target, state: &mut H)
    ensures { state.new ≡ fold H.write state.old (target_writes target) }
{
    match target {
        Target::Node(node) => hash_addr(node, state),
        Target::Next(next) => state.write_u16(next.0),
    }
}

fn hash_costs<H: Hasher>(down: &[Down], state: &mut H)
    ensures { state.new ≡ fold H.write state.old (flat_map (λ d. fed.u32 d.cost) down.now) }
{
    for row in down {
        state.write_u32(row.cost.get());
    }
}

impl Hash for Key {
    ghost hash_input = { key_writes };

    ghost respects_eq = { λ x y one. ap key_writes ((same_key-Decides x y).0 one) };

    // The exclusions and the nodes beyond are compared and not hashed.
    fn hash<H: Hasher>(&self, state: &mut H) {
        state.write_u16(self.at.0);
        state.write_u64(self.generation);
        hash_target(self.target, state);
        hash_costs(self.down.as_slice(), state);
    }
}
