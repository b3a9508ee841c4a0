//! A planned change is made.
ghost use Rattle.std.specs.Prelude.{◌≡◌, ◌≤◌, ◌+◌, ◌-◌, length, map, OnOk, MatchOption};
ghost use Rattle.std.specs.Prelude.{false, None, IfOk};
ghost use Rattle.path_keys.specs.Keys.{live_at, live_most};
ghost use Rattle.request_table.specs.Pending.{is_full, number_of};
ghost use Rattle.pce_common.specs.plant_model.Element.{ended};
ghost use Rattle.pce_element.specs.Changes.{HasRoom, Fits, MayIssue, MayOpen, all_ended, all_issued, changed, readied, solved_in, ways_after};
ghost use Rattle.pce_element.specs.Items.{new_item};
ghost use Rattle.pce_element.specs.Lasting.{ReadyLast};
ghost use Rattle.pce_element.specs.Seen.{SameButRoom, with_element};
ghost use Rattle.request_table.specs.Pending.{opened_of};

use crate::accepted::{Opening, Stage};
use crate::change::{Change, DraftIn};
use crate::element::Element;
use crate::plan::Plan;
use crate::world::World;
use dom_base::{List, NoMemory, Peer, Tick};
use path_keys::PathKeys;
use pce_common::Ways;
use std::collections::VecDeque;

/// Keys for segments; takes no memory.
fn issue_all<S: Drop>(keys: &mut PathKeys<S>, now: Tick, segments: List<S>)
    requires may { MayIssue keys.old.kept now.0 segments }
    requires room { length segments ≤ keys.old.spare }
    ensures { keys.new.kept ≡ all_issued now.0 segments keys.old.kept }
{
    let mut left = VecDeque::from_vec(segments.into_vec());
    while let Some(segment) = left.pop_front() {
        let _next = keys.next();
        match keys.issue(now, segment) {
            Ok(_) => {}
            Err(_) => unreachable!(),
        }
    }
}

/// The way on which a request was sent on keeps its id.
fn note_id(ways: &mut Ways, stage: &Stage)
    ensures { ways.new ≡ ways_after stage.now ways.old }
{
    if let Stage::Waits { on, id } = stage {
        ways.set_last(*on, *id);
    }
}

impl<W: World> Element<W> {
    fn open(&mut self, peer: Peer, id: u32, opening: Opening)
        requires may { MayOpen self.old peer id }
        requires room { 1 ≤ self.old.room.requests }
        ensures { SameButRoom (with_element (record self.old.losing.element { pending = opened_of self.old.losing.element.pending peer id (new_item opening self.old.current); ways = ways_after opening.stage self.old.losing.element.ways }) self.old) self.new }
    {
        note_id(&mut self.ways, &opening.stage);
        self.requests.open(peer, id, opening);
    }

    // Makes a change for which there is room.
    fn change(&mut self, change: Change<W::Solved, W::Segment>)
        requires fits { Fits self.old change }
        requires room { HasRoom self.old change }
        ensures { SameButRoom (with_element (changed self.old.current change self.old.losing.element) self.old) self.new }
    {
        match change {
            Change::Nothing => {}
            Change::Opens { peer, id, opening } => self.open(peer, id, opening),
            Change::Readies { number, branches } => self.requests.make_ready(number, branches),
            Change::Ends(numbers) => self.requests.close_all(numbers.as_slice()),
            Change::Solves {
                number,
                solved: _solved,
                now,
                segments,
            } => {
                issue_all(&mut self.keys, now, segments);
                self.requests.close(number);
            }
        }
    }

    /// Makes a planned change; takes no memory.
    pub fn make(&mut self, plan: Plan<W>)
        requires { plan.from ≡ self.old }
        ensures made { SameButRoom (with_element plan.taken.element self.old) self.new }
        ensures ready { ReadyLast self.old self.new }
    {
        let _count = self.requests().len();
        self.change(plan.into_change());
    }

    /// Makes room for one more request.
    fn reserve_request(&mut self) -> Result<(), NoMemory>
        ensures same { SameButRoom self.old self.new }
        ensures ok { OnOk result (1 ≤ self.new.room.requests) }
    {
        self.requests.reserve()?;
        self.lost.reserve(self.requests.len() + 1)?;
        Ok(())
    }

    /// Makes room for so many keys.
    pub(crate) fn reserve_keys(&mut self, count: u32) -> Result<(), NoMemory>
        ensures same { SameButRoom self.old self.new }
        ensures ok { OnOk result (count ≤ self.new.room.keys) }
    {
        self.keys.reserve(count)
    }

    /// Makes the room that a draft needs.
    pub(crate) fn plan(&mut self, draft: DraftIn<W>) -> Result<Plan<W>, NoMemory>
        requires fits { Fits self.old draft.change }
        requires keys { solved_in draft.change ≡ None }
        ensures same { SameButRoom self.old self.new }
        ensures from { IfOk result (λ plan. plan.from ≡ self.new) }
        ensures element { IfOk result (λ plan. plan.taken.element ≡ changed self.old.current draft.change self.old.losing.element) }
        ensures outputs { IfOk result (λ plan. plan.taken.outputs ≡ draft.outputs) }
        ensures solved { IfOk result (λ plan. plan.solved ≡ None) }
    {
        if let Change::Opens { .. } = draft.change {
            self.reserve_request()?;
        }
        Ok(Plan::of(self, draft))
    }
}
