//! The branch that a path of a reply gives (RFC 5441, section 5).
ghost use Rattle.std.specs.Prelude.{◌≡◌};
ghost use Rattle.std.specs.Option.{option_to_list, option_copied};
ghost use Rattle.plant_model.specs.Branches.{branch_of};
ghost use Rattle.plant_model.specs.RealWire.{wire};
ghost use Rattle.pce_common.specs.Branches.{entry_in, cost_told};

use dom_base::{Addr, COST_MAX, Cost, Metric, units_of_word};
use pcep_messages::{Path, type_of_metric};
use pcep_subobjects::Hop;
use vspt_tree::Branch;

// The address of the first hop.
fn entry_of(hops: &[Hop]) -> Option<Addr>
    ensures { result ≡ entry_in hops.now }
{
    match hops {
        [Hop::Prefix { addr, .. }, ..] => Some(*addr),
        _ => None,
    }
}

// The cost that a metric tells, where it is of the asked type.
fn cost_of(metric: Metric, told: Option<(u8, u32)>) -> Option<Cost>
    ensures { result ≡ cost_told metric told }
{
    let Some((kind, word)) = told else {
        return None;
    };
    if kind != type_of_metric(metric) {
        return None;
    }
    let Some(units) = units_of_word(word) else {
        return None;
    };
    if units > u64::from(COST_MAX) {
        return None;
    }
    Cost::of(units as u32)
}

/// The branch that a path gives: none where it does not begin with an address, or tells no cost of the asked
/// type.
pub fn branch_of(metric: Metric, path: Path) -> Option<Branch>
    ensures { option_to_list result ≡ branch_of wire metric path.hops path.metric }
{
    let Some(cost) = cost_of(metric, path.metric) else {
        return None;
    };
    let Some(entry) = entry_of(path.hops.as_slice()) else {
        return None;
    };
    Some(Branch {
        entry,
        cost,
        hops: path.hops,
    })
}
