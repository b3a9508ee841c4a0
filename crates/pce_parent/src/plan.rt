//! A planned change of the parent.
ghost use Rattle.std.specs.Prelude.{◌≡◌};
ghost use Rattle.pce_parent.specs.Changes.{Fits, HasRoom, changed, solved_in};

use crate::change::{Change, Draft};
use crate::parent::Parent;
use crate::solved::BorderSolved;
use pce_common::model::Outputs;
use std::marker::Model;
use std::snapshot::Snapshot;

/// A planned change of the parent, for which it has the memory, and the messages that are sent with it.
pub struct BorderPlan {
    from: Snapshot<Parent>,
    change: Change,
    outputs: Outputs,
}

// Written, so that it is proved in this crate alone.
impl Drop for BorderPlan {
    fn drop(self) {
        let BorderPlan {
            from: _,
            change: _,
            outputs: _,
        } = self;
    }
}

impl Model for BorderPlan {
    ghost use Rattle.pce_parent.specs.Plans.{Planned};

    ghost Value = { Planned };

    ghost use Rattle.pce_parent.specs.PlanFields.{planned_of, MayBeMade};

    ghost view = { planned_of };

    ghost invariant = { MayBeMade };
}

impl BorderPlan {
    pub(crate) fn of(parent: &Parent, draft: Draft) -> BorderPlan
        requires fits { Fits parent.now draft.change }
        requires room { HasRoom parent.now draft.change }
        ensures from { result.from ≡ parent.now }
        ensures parent { result.given.parent ≡ changed draft.change parent.now.losing.parent }
        ensures outputs { result.given.outputs ≡ draft.outputs }
        ensures solved { result.solved ≡ solved_in draft.change }
    {
        BorderPlan {
            from: Snapshot::of(parent),
            change: draft.change,
            outputs: draft.outputs,
        }
    }

    /// The messages that are sent when the change is made; takes no memory.
    pub fn outputs(&self) -> &Outputs
        ensures { result.now ≡ self.now.given.outputs }
    {
        &self.outputs
    }

    /// Gives the change up, and returns the solved job that it was planned for, if there is one; takes no
    /// memory.
    pub fn back(self) -> Option<BorderSolved>
        ensures { result ≡ self.solved }
    {
        match self.into_change() {
            Change::Solves(solved) => Some(solved),
            _other => None,
        }
    }

    /// The change.
    pub(crate) fn into_change(self) -> Change
        ensures parent { changed result self.from.losing.parent ≡ self.given.parent }
        ensures fits { Fits self.from result }
        ensures room { HasRoom self.from result }
        ensures solved { solved_in result ≡ self.solved }
    {
        let BorderPlan {
            from: _from,
            change,
            outputs: _outputs,
        } = self;
        change
    }
}
