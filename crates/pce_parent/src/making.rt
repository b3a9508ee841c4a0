//! A planned change is made.
ghost use Rattle.std.specs.Prelude.{◌≡◌, ◌≤◌, None, IfOk, OnOk};
ghost use Rattle.request_table.specs.Pending.{opened_of};
ghost use Rattle.pce_parent.specs.Changes.{Fits, MayOpen, changed, solved_in};
ghost use Rattle.pce_parent.specs.Seen.{SameButRoom, with_parent};

use crate::asking::Asking;
use crate::change::{Change, Draft};
use crate::parent::Parent;
use crate::pending::{close_all, close_one, gather_at};
use crate::plan::BorderPlan;
use dom_base::{NoMemory, Peer};
use pce_common::Ways;

impl Parent {
    fn open(&mut self, peer: Peer, id: u32, asking: Asking, ways: Ways)
        requires may { MayOpen self.old peer id }
        requires room { 1 ≤ self.old.room }
        ensures { SameButRoom (with_parent (record { pending = opened_of self.old.losing.parent.pending peer id asking; ways = ways }) self.old) self.new }
    {
        match self.requests.open(peer, id, asking) {
            Ok(number) => self.last = number,
            Err(_) => unreachable!(),
        }
        self.ways = ways;
    }

    /// Makes a planned change; takes no memory.
    pub fn make(&mut self, plan: BorderPlan)
        requires { plan.from ≡ self.old }
        ensures { SameButRoom (with_parent plan.given.parent self.old) self.new }
    {
        match plan.into_change() {
            Change::Nothing => {}
            Change::Opens {
                peer,
                id,
                asking,
                ways,
            } => self.open(peer, id, asking, ways),
            Change::Gathers {
                number,
                peer,
                id,
                rows,
            } => gather_at(&mut self.requests, number, peer, id, rows),
            Change::Ends(numbers) => close_all(&mut self.requests, numbers.as_slice()),
            Change::Solves(solved) => close_one(&mut self.requests, solved.number()),
        }
    }

    /// Makes room for one more request.
    fn reserve(&mut self) -> Result<(), NoMemory>
        ensures same { SameButRoom self.old self.new }
        ensures ok { OnOk result (1 ≤ self.new.room) }
    {
        self.requests.reserve()?;
        self.lost.reserve(self.requests.len() + 1)?;
        Ok(())
    }

    /// Makes the room that a draft needs.
    pub(crate) fn plan(&mut self, draft: Draft) -> Result<BorderPlan, NoMemory>
        requires fits { Fits self.old draft.change }
        requires unsolved { solved_in draft.change ≡ None }
        ensures same { SameButRoom self.old self.new }
        ensures from { IfOk result (λ plan. plan.from ≡ self.new) }
        ensures parent { IfOk result (λ plan. plan.given.parent ≡ changed draft.change self.old.losing.parent) }
        ensures outputs { IfOk result (λ plan. plan.given.outputs ≡ draft.outputs) }
        ensures solved { IfOk result (λ plan. plan.solved ≡ None) }
    {
        if let Change::Opens { .. } = draft.change {
            self.reserve()?;
        }
        Ok(BorderPlan::of(self, draft))
    }
}
