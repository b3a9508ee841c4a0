//! A planned change of an element.
ghost use Rattle.std.specs.Prelude.{◌≡◌};
ghost use Rattle.pce_element.specs.Changes.{Fits, HasRoom, changed, solved_in};

use crate::change::{Change, DraftIn};
use crate::element::Element;
use crate::world::World;
use pce_common::model::Outputs;
use std::marker::Model;
use std::snapshot::Snapshot;

/// A planned change of an element, for which it has the memory, and the messages that are sent with it.
pub struct Plan<W: World> {
    from: Snapshot<Element<W>>,
    change: Change<W::Solved, W::Segment>,
    outputs: Outputs,
}

// Written, so that it is proved in this crate alone.
impl<W: World> Drop for Plan<W> {
    fn drop(self) {
        let Plan {
            from: _,
            change: _,
            outputs: _,
        } = self;
    }
}

impl<W: World> Model for Plan<W> {
    ghost use Rattle.pce_element.specs.Plans.{Planned, planned_of, MayBeMade};

    ghost Value = { Planned W.Pin W.Segment W.Solved };

    ghost view = { λ a. planned_of a.from.value a.change a.outputs };

    ghost invariant = { λ a. MayBeMade a.from.value a.change };
}

impl<W: World> Plan<W> {
    pub(crate) fn of(element: &Element<W>, draft: DraftIn<W>) -> Plan<W>
        requires fits { Fits element.now draft.change }
        requires room { HasRoom element.now draft.change }
        ensures from { result.from ≡ element.now }
        ensures element { result.taken.element ≡ changed element.now.current draft.change element.now.losing.element }
        ensures outputs { result.taken.outputs ≡ draft.outputs }
        ensures solved { result.solved ≡ solved_in draft.change }
    {
        Plan {
            from: Snapshot::of(element),
            change: draft.change,
            outputs: draft.outputs,
        }
    }

    /// The messages that are sent when the change is made; takes no memory.
    pub fn outputs(&self) -> &Outputs
        ensures { result.now ≡ self.now.taken.outputs }
    {
        &self.outputs
    }

    /// Gives the change up, and returns what was solved, where it was planned for that; takes no
    /// memory.
    pub fn back(self) -> Option<W::Solved>
        ensures { result ≡ self.solved }
    {
        match self.into_change() {
            Change::Solves {
                number: _number,
                solved,
                now: _now,
                segments: _segments,
            } => Some(solved),
            _other => None,
        }
    }

    /// The change.
    pub(crate) fn into_change(self) -> Change<W::Solved, W::Segment>
        ensures element { changed self.from.current result self.from.losing.element ≡ self.taken.element }
        ensures fits { Fits self.from result }
        ensures room { HasRoom self.from result }
        ensures solved { solved_in result ≡ self.solved }
    {
        let Plan {
            from: _from,
            change,
            outputs: _outputs,
        } = self;
        change
    }
}
