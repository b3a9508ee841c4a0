//! Which exclusions are supported.
ghost use Rattle.std.specs.Prelude.{◌≡◌, ◌&&◌, IfOk, not, position};
ghost use Rattle.path_constraints.specs.Support.{bits_of, is_supported, is_demand, demands, first_unsupported, Supports};
ghost use Rattle.path_constraints.specs.declared.support.ExclusionError.TheVariants as faults;

use dom_base::{Addr, Excluded, Exclusion, List, NoMemory};
use std::alloc::Global;

/// Why exclusions are not supported.
#[derive(Clone, Copy, Debug)]
pub enum ExclusionError {
    /// The place, from 0, of the first one that is demanded and not supported.
    Unsupported(usize),
    NoMemory,
}

impl From<NoMemory> for ExclusionError {
    ghost from_gives = { λ _ e. e ≡ faults.NoMemory };

    fn from(_: NoMemory) -> Self {
        ExclusionError::NoMemory
    }
}

// How many bits an address of the kind has.
fn bits(addr: Addr) -> u8
    ensures { result ≡ bits_of addr }
{
    match addr {
        Addr::V4(_) => 32,
        Addr::V6(_) => 128,
    }
}

fn has_support(what: &Excluded) -> bool
    ensures { result ≡ is_supported what.now }
{
    match what {
        Excluded::Prefix {
            addr,
            length,
            attribute,
        } => *attribute < 2 && *length <= bits(*addr),
        Excluded::AsNumber(_) | Excluded::Srlg(_) => true,
        Excluded::Other { kind, body: _body } => *kind == 4,
    }
}

/// The place, from 0, of the first demand whose kind is not supported. Takes no memory.
pub fn find_unsupported(list: &[Exclusion]) -> Option<usize>
    ensures { result ≡ first_unsupported list.now }
{
    list.iter().position(|exclusion| !exclusion.avoid && !has_support(&exclusion.what))
}

/// The exclusions that are demands, copied in their order, supported or not.
pub fn copies_of_demands(alloc: Global, list: &[Exclusion]) -> Result<List<Exclusion>, NoMemory>
    ensures { IfOk result (λ kept. kept ≡ demands list.now) }
{
    let mut kept = List::new(alloc);
    for exclusion in list {
        if !exclusion.avoid {
            kept.push(exclusion.copy(alloc)?)?;
        }
    }
    Ok(kept)
}

/// The exclusions that are demands, copied in their order; those that are only to be avoided have
/// no effect and are left out (RFC 5521, section 2.1).
pub fn supported(alloc: Global, list: &[Exclusion]) -> Result<List<Exclusion>, ExclusionError>
    ensures { Supports list.now result }
{
    if let Some(place) = find_unsupported(list) {
        return Err(ExclusionError::Unsupported(place));
    }
    Ok(copies_of_demands(alloc, list)?)
}
