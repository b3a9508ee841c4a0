//! The row that is kept of a path.
ghost use Rattle.std.specs.Prelude.{◌≡◌, IfOk};
ghost use Rattle.dom_base.specs.Words.{units};
ghost use Rattle.outside_part.specs.Sifting.{cost_of, entry_of, measured, row_by, row_of};

use crate::hops::{are_plain, entry_of};
use dom_base::{Addr, COST_MAX, Cost, List, NoMemory, units_of_word};
use pcep_codes::metrics;
use pcep_messages::Path;
use pcep_subobjects::{Hop, copy_hops};
use std::alloc::Global;

/// What an outside element told of its domain: a path from an entry to the destination.
#[derive(Drop)]
pub struct Reported {
    /// The address to which the first hop leads.
    pub entry: Addr,
    /// The type of its METRIC (RFC 5440, section 7.8).
    pub kind: u8,
    /// What the word of its METRIC means, rounded up to a whole number.
    pub cost: Cost,
    /// The hops of the path, in order.
    pub hops: List<Hop>,
}

// The cost that a word means, rounded up; None where it means none, or one above the greatest.
fn cost_of_word(word: u32) -> Option<Cost>
    ensures { result ≡ cost_of (units word) }
{
    match units_of_word(word) {
        Some(units) if units <= u64::from(COST_MAX) => Cost::of(units as u32),
        _ => None,
    }
}

// The cost that a METRIC measures, where it is of a type by which a path can be measured.
fn measured(kind: u8, word: u32) -> Option<Cost>
    ensures { result ≡ measured units kind word }
{
    if kind >= metrics::IGP && kind <= metrics::HOPS {
        cost_of_word(word)
    } else {
        None
    }
}

fn row_by(
    alloc: Global,
    hops: &[Hop],
    kind: u8,
    cost: Option<Cost>,
) -> Result<Option<Reported>, NoMemory>
    ensures { IfOk result (λ row. row ≡ row_by hops.now kind (entry_of hops.now) cost) }
{
    match (entry_of(hops), cost) {
        (Some(entry), Some(cost)) => {
            let hops = copy_hops(alloc, hops)?;
            Ok(Some(Reported {
                entry,
                kind,
                cost,
                hops,
            }))
        }
        _ => Ok(None),
    }
}

/// What is kept of a path: a row, or nothing.
pub(crate) fn row_of(alloc: Global, path: &Path, most: usize) -> Result<Option<Reported>, NoMemory>
    ensures { IfOk result (λ row. row ≡ row_of units most path.now) }
{
    match path.metric {
        Some((kind, word)) if are_plain(path.hops.as_slice(), most) => row_by(
            alloc,
            path.hops.as_slice(),
            kind,
            measured(kind, word),
        ),
        _ => Ok(None),
    }
}
