//! Labels as pairs of numbers.
ghost use Rattle.std.specs.Prelude.{◌≡◌, ◌≤◌, ◌+◌, ◌↔◌, IsTrue, SomeIff, map};
ghost use Rattle.dom_base.specs.declared.limits.TheConstants.{COST_MAX};
ghost use Rattle.path_search.specs.Short.{IsLess, put_before, cut_short};

use crate::blocks::NOTHING;
use dom_base::Cost;

/// A label: its cost, and the place of its exit among the exits. Where the cost is `NOTHING` there
/// is no label.
#[derive(Clone, Copy)]
pub(crate) struct Short {
    pub(crate) cost: u32,
    pub(crate) exit: u32,
}

/// Whether one is less than another, by the cost and then by the exit. No label is the greatest.
pub(crate) fn is_less(found: Short, old: Short) -> bool
    ensures { IsTrue result ↔ IsLess found old }
{
    found.cost < old.cost || found.cost == old.cost && found.exit < old.exit
}

// A label with an arc put before it, where that is within the cap.
fn join(cap: Cost, weight: u32, rest: Short) -> Option<Short>
    ensures sum { SomeIff result (weight + rest.cost ≤ cap) (put_before weight rest) }
    ensures bound { cap ≤ COST_MAX }
{
    let most = cap.get();
    let cost = weight.checked_add(rest.cost)?;
    if cost <= most {
        Some(Short {
            cost,
            exit: rest.exit,
        })
    } else {
        None
    }
}

/// A label with an arc put before it, where that is within the cap and less than what stands at the
/// arc's tail.
pub(crate) fn lowered(cap: Cost, weight: u32, rest: Short, old: Short) -> Option<Short>
    ensures sum { SomeIff result ((weight + rest.cost ≤ cap) × IsLess (put_before weight rest) old) (put_before weight rest) }
    ensures bound { cap ≤ COST_MAX }
{
    let Some(found) = join(cap, weight, rest) else {
        return None;
    };
    if is_less(found, old) {
        Some(found)
    } else {
        None
    }
}

// A label, or none where it costs more than this.
fn cut_row(row: Short, most: u32) -> Short
    ensures { result ≡ cut_short most row }
{
    if most < row.cost {
        Short {
            cost: NOTHING,
            exit: row.exit,
        }
    } else {
        row
    }
}

/// Puts none in the place of each label that costs more than this.
pub(crate) fn cut_rows(rows: &mut [Short], most: Cost)
    ensures rows { rows.new ≡ map (cut_short most) rows.old }
    ensures bound { most ≤ COST_MAX }
{
    let number = most.get();
    for row in rows.iter_mut() {
        *row = cut_row(*row, number);
    }
}
