//! The exits of seeds, in their order and each once.
ghost use Rattle.std.specs.Prelude.{◌≡◌, ◌≤◌, All, Contains, length, map, slice_get, Some, IfOk};
ghost use Rattle.dom_base.specs.declared.query.Seed.{Seed};
ghost use Rattle.path_search.specs.Short.{DoRise};

use dom_base::{Addr, NoMemory, Seed};
use std::alloc::Global;

// The exit of each seed.
fn each_exit(alloc: Global, seeds: &[Seed]) -> Result<Vec<Addr>, NoMemory>
    ensures { IfOk result (λ exits. exits.items ≡ map (λ (s : Seed). s.exit) seeds.now) }
{
    let mut exits = Vec::with_capacity(alloc, seeds.len())?;
    for seed in seeds {
        exits.push(seed.exit)?;
    }
    Ok(exits)
}

/// The exits of seeds, in their order and each once. More than a label can tell apart are too many
/// for any memory.
pub(crate) fn exits_of(alloc: Global, seeds: &[Seed]) -> Result<Vec<Addr>, NoMemory>
    ensures rise { IfOk result (λ exits. DoRise exits.items) }
    ensures whole { IfOk result (λ exits. All (λ (s : Seed). Contains exits.items s.exit) seeds.now) }
    ensures few { IfOk result (λ exits. length exits.items ≤ 4294967295) }
{
    let mut exits = each_exit(alloc, seeds)?;
    exits.sort_unstable();
    exits.dedup();
    if exits.len() > u32::MAX as usize {
        return Err(NoMemory);
    }
    Ok(exits)
}

/// The place of an exit.
pub(crate) fn place_of_exit(exits: &[Addr], exit: Addr) -> u32
    requires rise { DoRise exits.now }
    requires few { length exits.now ≤ 4294967295 }
    requires known { Contains exits.now exit }
    ensures { slice_get exits.now result ≡ Some exit }
{
    match exits.binary_search(&exit) {
        Ok(place) => place as u32,
        Err(_) => unreachable!(),
    }
}
