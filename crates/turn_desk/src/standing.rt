//! Where a desk stands, for clauses alone.
ghost use Rattle.std.specs.Prelude.{◌≡◌};
ghost use Rattle.turn_desk.specs.Desks.{stand_of};
ghost use Rattle.turn_desk.specs.Standings.{stood};
ghost use Rattle.turn_desk.specs.WorkBenches.{desk_of};

use crate::desk::TurnDesk;
use crate::workbench::WorkBench;
use kept_plant::KeptPlant;
use plant_lock::TurnSeat;
use server_loops::Sited;
use std::snapshot::Snapshot;
use std::sync::Wait;
use std::time::Clock;

/// Where a desk stood at a moment: clauses alone read it.
#[derive(Drop)]
pub struct Standing {
    seat: Snapshot<TurnSeat<KeptPlant>>,
    spent_at: Option<u64>,
}

impl<R: Wait + Clock> Sited for TurnDesk<R> {
    ghost use Rattle.turn_desk.specs.Desks.{IsAtLock, Stand, stand_of};

    ghost Site = { Stand };

    ghost is_at = { λ d first. IsAtLock first (stand_of d) };
}

impl<R: Wait + Clock> Sited for WorkBench<R> {
    ghost use Rattle.turn_desk.specs.Desks.{IsAtLock, Stand};
    ghost use Rattle.turn_desk.specs.WorkBenches.{desk_of};

    ghost Site = { Stand };

    ghost is_at = { λ b first. IsAtLock first (desk_of b) };
}

impl<R: Wait + Clock> TurnDesk<R> {
    /// Where it stands.
    pub fn standing(&self) -> Standing
        ensures { stood result ≡ stand_of self.now }
    {
        Standing {
            seat: Snapshot::of(&self.seat),
            spent_at: self.spent_at,
        }
    }
}

impl<R: Wait + Clock> WorkBench<R> {
    /// Where the desk behind it stands.
    pub fn standing(&self) -> Standing
        ensures { stood result ≡ desk_of self.now }
    {
        self.desk.standing()
    }
}
