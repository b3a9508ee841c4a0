//! The tight edges that walks go on by.
ghost use Rattle.std.specs.Prelude.{◌≡◌, ◌<◌, ◌↔◌, length, All, IfOk, IsTrue, Some};
ghost use Rattle.pce_parent.specs.Costs.{cost_at};
ghost use Rattle.pce_parent.specs.Tight.{AreChosen, GoesFirst, HasEnds, IsTight, IsBetter, IsChosen};

use crate::arcs::Arc;
use crate::costs::cost_of;
use dom_base::{Cost, NoMemory};
use std::alloc::Global;

// Whether the edge leads from the place and, with what follows, makes up the cost there.
fn is_tight(arc: &Arc, costs: &[Option<Cost>], from: usize, whole: Cost) -> bool
    requires { arc.now.to < length costs.now }
    ensures { IsTrue result ↔ IsTight costs.now from whole arc.now }
{
    if arc.from != from {
        return false;
    }
    match cost_of(costs, arc.to) {
        None => false,
        Some(rest) => rest.get() <= whole.get() && whole.get() - rest.get() == arc.cost,
    }
}

fn is_better(arc: &Arc, best: &Option<Arc>) -> bool
    ensures { IsTrue result ↔ IsBetter arc.now best.now }
{
    match best {
        None => true,
        Some(best) => {
            arc.choice < best.choice || arc.choice == best.choice && arc.index < best.index
        }
    }
}

// Whether an edge is tight, and better than the one that was found at its tail.
fn goes_first(arc: &Arc, costs: &[Option<Cost>], next: &[Option<Arc>]) -> bool
    requires ends { HasEnds costs.now arc.now }
    requires places { length next.now ≡ length costs.now }
    ensures { IsTrue result ↔ GoesFirst costs.now next.now arc.now }
{
    let Some(whole) = cost_of(costs, arc.from) else {
        return false;
    };
    is_tight(arc, costs, arc.from, whole) && is_better(arc, &next[arc.from])
}

/// The tight edge with the least address from each place, and of several the first; None where there is
/// none.
pub fn next_arcs(
    alloc: Global,
    arcs: &[Arc],
    costs: &[Option<Cost>],
) -> Result<Vec<Option<Arc>>, NoMemory>
    requires { All (HasEnds costs.now) arcs.now }
    ensures { IfOk result (λ next. AreChosen arcs.now costs.now next.items) }
{
    let mut next = vec![in alloc; None; costs.len()]?;
    for arc in arcs {
        if goes_first(arc, costs, &next) {
            next[arc.from] = Some(*arc);
        }
    }
    Ok(next)
}

/// The one from a place with this cost.
pub fn next_arc(
    _arcs: &[Arc],
    _costs: &[Option<Cost>],
    next: &[Option<Arc>],
    from: usize,
    _whole: Cost,
) -> Option<Arc>
    requires chosen { AreChosen _arcs.now _costs.now next.now }
    requires here { cost_at _costs.now from ≡ Some _whole }
    ensures { IsChosen _arcs.now _costs.now from _whole result }
{
    next[from]
}
