//! Rows of a border table joined with what the next domain told (RFC 5441, section 4.2).
ghost use Rattle.std.specs.Prelude.{◌≡◌, ◌+◌, ◌≤◌, ◌<◌, ◌↔◌, cond, nat_lt, IsTrue, IfOk, OnOk, SomeIff, MatchOption};
ghost use Rattle.walk_laws.specs.Borders.{IsDown};
ghost use Rattle.border_costs.specs.Asks.{HasNoDown, beyond};
ghost use Rattle.pce_common.specs.plant_model.Blind.{AreGivenRows};
ghost use Rattle.pce_common.specs.plant_model.Branches.{downs};
ghost use Rattle.pce_common.specs.plant_model.Jobs.{IsJoinOf};
ghost use Rattle.pce_element.specs.Joining.{IsJoinOfRow, JoinsNothing, JoinsOver, JoinsRow, TakesIn, head_over};

use border_costs::Target;
use dom_base::{Addr, BorderRow, Cost, List, NoMemory};
use std::alloc::Global;
use vspt_tree::{Best, Branch};

// The least cost among the branches of a node.
fn cost_from(down: &[Branch], node: Addr) -> Option<Cost>
    ensures { MatchOption result (HasNoDown (beyond (downs down.now)) node) (IsDown (beyond (downs down.now)) node) }
{
    let mut least: Option<Cost> = None;
    for branch in down {
        if branch.entry == node && branch.cost.is_less(&least) {
            least = Some(branch.cost);
        }
    }
    least
}

// The cost of the way that a row makes by itself: in the last domain its own, whatever its head, and else
// with what lies beyond.
fn joined_cost(cap: Cost, target: Target, row: &BorderRow, down: &[Branch]) -> Option<Cost>
    ensures { MatchOption result (JoinsNothing cap target (downs down.now) row.now) (JoinsOver cap target (downs down.now) row.now) }
{
    match target {
        Target::Node(_end) => Cost::within(cap, row.cost.get()),
        Target::Next(_next) => {
            let Some(rest) = cost_from(down, row.head) else {
                return None;
            };
            Cost::sum_within(cap, row.cost.get(), rest)
        }
    }
}

// The node beyond the exit of a row.
fn head_over(target: Target, row: &BorderRow) -> Option<Addr>
    ensures { result ≡ head_over target row.now }
{
    match target {
        Target::Node(_end) => None,
        Target::Next(_next) => Some(row.head),
    }
}

// The way that a row makes by itself.
fn way_over(
    alloc: Global,
    cap: Cost,
    target: Target,
    row: &BorderRow,
    down: &[Branch],
) -> Option<Best>
    ensures { MatchOption result (JoinsNothing cap target (downs down.now) row.now) (IsJoinOfRow cap target (downs down.now) row.now) }
{
    let Some(cost) = joined_cost(cap, target, row, down) else {
        return None;
    };
    Some(Best {
        entry: row.entry,
        cost,
        exit: row.far,
        head: head_over(target, row),
        segment: List::new(alloc),
    })
}

// Of two ways from one entry the cheaper, and the first of equals.
fn cheaper(first: Best, second: Best) -> Best
    ensures { result ≡ cond (nat_lt second.cost first.cost) second first }
{
    if second.cost < first.cost {
        second
    } else {
        first
    }
}

// A further way, from the entry of the last one or a later one.
fn take_in(best: &mut Vec<Best>, way: Best) -> Result<(), NoMemory>
    ensures { OnOk result (TakesIn way best.old.items best.new.items) }
{
    let Some(last) = best.pop() else {
        best.push(way)?;
        return Ok(());
    };
    if last.entry == way.entry {
        best.push(cheaper(last, way))?;
        return Ok(());
    }
    best.push(last)?;
    best.push(way)?;
    Ok(())
}

// A further row.
fn join_row(
    alloc: Global,
    cap: Cost,
    target: Target,
    row: &BorderRow,
    down: &[Branch],
    best: &mut Vec<Best>,
) -> Result<(), NoMemory>
    ensures { OnOk result (JoinsRow cap target (downs down.now) row.now best.old.items best.new.items) }
{
    match way_over(alloc, cap, target, row, down) {
        Some(way) => take_in(best, way),
        None => Ok(()),
    }
}

/// The join of rows with what the next domain told: the least sum of each entry, and of equal sums that
/// over the least far address.
pub(crate) fn join_rows(
    alloc: Global,
    cap: Cost,
    target: Target,
    rows: &[BorderRow],
    down: &[Branch],
) -> Result<List<Best>, NoMemory>
    requires { AreGivenRows rows.now }
    ensures { IfOk result (IsJoinOf cap target rows.now (downs down.now)) }
{
    let mut best = Vec::new(alloc);
    for row in rows {
        join_row(alloc, cap, target, row, down, &mut best)?;
    }
    Ok(List::from_vec(best))
}
