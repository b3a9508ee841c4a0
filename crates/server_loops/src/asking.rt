//! Calls of a chart, by their end for an operator.
ghost use Rattle.std.specs.Prelude.{◌≡◌};
ghost use Rattle.std.specs.Arc.{arc_value};
ghost use Rattle.server_loops.specs.Desks.{IsOwnLoad};
ghost use Rattle.server_loops.specs.OperatorSteps.{Acted, Asked, answered};
ghost use Rattle.server_loops.specs.Sites.{Stays};

use crate::charts::Chart;
use crate::desks::DeskRefused;
use crate::operating::Operated;
use dom_base::As;
use plant_model::{Event, Outcome, Refused};
use std::sync::Arc;
use te_links::Topology;

/// The current topology of an element, with its number.
pub(crate) fn ask<D: Chart>(desk: &mut D, at: As) -> Result<Option<(u64, Arc<Topology>)>, Operated>
    ensures asked { Asked at (answered arc_value result) (D.charted desk.old) (D.charted desk.new) }
    ensures stays { Stays D.is_at desk.old desk.new }
{
    let found = desk.map(at)?;
    match desk.spent() {
        Some(number) => Err(Operated::Spent(number)),
        None => Ok(found),
    }
}

/// Makes an event.
pub(crate) fn act<D: Chart>(
    desk: &mut D,
    event: Event,
) -> Result<Result<Outcome, Refused>, Operated>
    requires own { IsOwnLoad event }
    ensures acted { Acted event result (D.charted desk.old) (D.charted desk.new) }
    ensures stays { Stays D.is_at desk.old desk.new }
{
    match desk.act(event) {
        Ok(outcome) => Ok(Ok(outcome)),
        Err(DeskRefused::Plant(why)) => Ok(Err(why)),
        Err(DeskRefused::Spent(number)) => Err(Operated::Spent(number)),
    }
}
