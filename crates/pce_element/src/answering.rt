//! The answer to a request that can be solved (RFC 5441, section 5; RFC 5520).
ghost use Rattle.std.specs.Prelude.{◌≡◌, ◌≤◌, ◌+◌, ◌∷◌, [], All, length, map, Some, IfErr, IfOk, IfSome};
ghost use Rattle.path_keys.specs.Keys.{live_at, live_most, number_after};
ghost use Rattle.vspt_tree.specs.Branches.{HasBranchAt};
ghost use Rattle.pce_common.specs.plant_model.Branches.{end_of, path_of};
ghost use Rattle.pce_common.specs.plant_model.Element.{ended};
ghost use Rattle.pce_common.specs.plant_model.RealWire.{wire};
ghost use Rattle.pce_common.specs.plant_model.Solving.{closed_paths};
ghost use Rattle.pce_element.specs.Answering.{Answers, AnswersClosed, client_answer, closed_parts, paths_by};
ghost use Rattle.pce_element.specs.Changes.{all_issued};
ghost use Rattle.pce_element.specs.Rows.{row_of};
ghost use Rattle.pce_element.specs.Seen.{SameButRoom};

use crate::change::{Change, Draft};
use crate::element::Element;
use crate::pinned::Row;
use crate::plan::Plan;
use crate::world::World;
use disclosure::{Class, closed_hops, open_hops};
use dom_base::{Addr, List, Metric, NoMemory, Tick, word_of_cost};
use path_keys::KEY_LAST;
use pce_common::model::{Output, Outputs};
use pce_common::{busy, no_path, one, reply_message};
use pcep_messages::{Answer, Message, Path, Wanted, type_of_metric};
use pcep_subobjects::Hop;
use std::alloc::Global;
use std::collections::VecDeque;
use vspt_tree::{Best, Branch, join};

/// The message that answers a request, and the segments that get keys.
#[derive(Drop)]
pub(crate) struct Answered<S> {
    pub outputs: Outputs,
    pub segments: List<S>,
}

/// What was found for a request: whether its source and its end are nodes here, and the best ways.
#[derive(Clone, Copy)]
pub(crate) struct Found<'a> {
    pub source_known: bool,
    pub target_known: bool,
    pub best: &'a [Best],
}

fn path_of(metric: Metric, branch: Branch) -> Path
    ensures { result ≡ path_of wire metric branch.cost branch.hops }
{
    Path {
        hops: branch.hops,
        metric: Some((type_of_metric(metric), word_of_cost(branch.cost))),
    }
}

fn each_path(alloc: Global, metric: Metric, branches: List<Branch>) -> Result<List<Path>, NoMemory>
    ensures { IfOk result (λ paths. paths ≡ map (λ b. path_of wire metric b.cost b.hops) branches) }
{
    let mut left = VecDeque::from_vec(branches.into_vec());
    let mut paths = List::new(alloc);
    while let Some(branch) = left.pop_front() {
        paths.push(path_of(metric, branch))?;
    }
    Ok(paths)
}

// A path for each row: its own part, and what follows it.
fn paths_by(
    alloc: Global,
    metric: Metric,
    best: &[Best],
    own: &[List<Hop>],
    down: &[Branch],
) -> Result<List<Path>, NoMemory>
    requires one_part_each { length best.now ≡ length own.now }
    requires goes_on { All (λ row. IfSome row.head (HasBranchAt down.now)) best.now }
    ensures { IfOk result (λ paths. paths ≡ paths_by metric down.now best.now own.now) }
{
    let branches = join(alloc, best, own, down)?;
    each_path(alloc, metric, branches)
}

// 1 follows the last.
fn number_after(number: u16) -> u16
    ensures { result ≡ number_after number }
{
    if number == KEY_LAST { 1 } else { number + 1 }
}

// What the own part shows behind the key: the destination, in its own domain.
fn end_of(head: Option<Addr>, target: Addr) -> Option<Addr>
    ensures { result ≡ end_of head target }
{
    match head {
        Some(_) => None,
        None => Some(target),
    }
}

// The own parts that closed peers see, with keys in order.
fn closed_parts(
    alloc: Global,
    pce: Addr,
    target: Addr,
    key: u16,
    best: &[Best],
) -> Result<List<List<Hop>>, NoMemory>
    ensures { IfOk result (λ parts. parts ≡ closed_parts pce target key best.now) }
{
    let mut number = key;
    let mut parts = List::new(alloc);
    for row in best {
        let part = closed_hops(alloc, row.entry, number, pce, end_of(row.head, target))?;
        parts.push(part)?;
        number = number_after(number);
    }
    Ok(parts)
}

// The segments that the keys of these ways stand for.
fn segments_in<W: World>(alloc: Global, best: &[Best]) -> Result<List<W::Segment>, NoMemory>
    ensures { IfOk result (λ segments. segments ≡ map W.stands best.now) }
{
    let mut segments = List::new(alloc);
    for row in best {
        segments.push(W::segment(alloc, row)?)?;
    }
    Ok(segments)
}

// To a client: the path of its source, or that there is none.
fn client_answer(
    alloc: Global,
    metric: Metric,
    down: &[Branch],
    found: &Found<'_>,
) -> Result<Answer, NoMemory>
    requires { All (λ row. IfSome row.head (HasBranchAt down.now)) found.now.best.now }
    ensures { IfOk result (λ answer. answer ≡ client_answer metric down.now found.now.source_known found.now.target_known found.now.best.now) }
{
    match found.best {
        [] => Ok(no_path(found.source_known, found.target_known)),
        [first, ..] => {
            let own = one(alloc, open_hops(alloc, first.segment.as_slice())?)?;
            let paths = paths_by(alloc, metric, &found.best[..1], own.as_slice(), down)?;
            Ok(Answer::Paths(paths))
        }
    }
}

impl<W: World> Element<W> {
    fn answered_to(
        &self,
        row: &Row<'_, W::Pin>,
        message: Message,
        segments: List<W::Segment>,
    ) -> Result<Answered<W::Segment>, NoMemory>
        ensures outputs { IfOk result (λ a. a.outputs ≡ (record { to = row.now.key.peer; message = message }) ∷ []) }
        ensures segments { IfOk result (λ a. a.segments ≡ segments) }
    {
        let to = row.key.peer;
        Ok(Answered {
            outputs: one(self.alloc, Output { to, message })?,
            segments,
        })
    }

    // A branch for each entry, with keys in their order.
    fn closed_paths(
        &self,
        wanted: &Wanted,
        down: &[Branch],
        best: &[Best],
    ) -> Result<List<Path>, NoMemory>
        requires { All (λ row. IfSome row.head (HasBranchAt down.now)) best.now }
        ensures { IfOk result (λ paths. paths ≡ closed_paths wire self.now.place.id wanted.now.query.metric wanted.now.target down.now self.now.losing.element.keys.next best.now) }
    {
        let key = self.next_key();
        let own = closed_parts(self.alloc, self.id(), wanted.target, key, best)?;
        paths_by(self.alloc, wanted.query.metric, best, own.as_slice(), down)
    }

    // To a closed peer: those branches, or that there is no path.
    fn answer_closed(
        &self,
        row: &Row<'_, W::Pin>,
        down: &[Branch],
        best: &[Best],
        now: Tick,
    ) -> Result<Answered<W::Segment>, NoMemory>
        requires goes_on { All (λ row. IfSome row.head (HasBranchAt down.now)) best.now }
        ensures answers { IfOk result (AnswersClosed W.stands self.now best.now now.0 (row_of row.now) down.now) }
        ensures few { IfOk result (λ a. length (live_at self.now.losing.element.keys now.0) + length a.segments ≤ live_most) }
    {
        let wanted = row.item.wanted();
        let (flags, id) = (row.item.flags(), row.key.id);
        let free = self.free_keys(now) as usize;
        if best.is_empty() {
            let answer = Answer::NoPath {
                nature: 0,
                vector: 0,
            };
            let message = reply_message(self.alloc, flags, id, answer)?;
            return self.answered_to(row, message, List::new(self.alloc));
        }
        if free < best.len() {
            let message = busy(self.alloc, flags, id)?;
            return self.answered_to(row, message, List::new(self.alloc));
        }
        let paths = self.closed_paths(wanted, down, best)?;
        let message = reply_message(self.alloc, flags, id, Answer::Paths(paths))?;
        self.answered_to(row, message, segments_in::<W>(self.alloc, best)?)
    }

    /// The answer to the asker of a request that is ready with these branches, by what was found.
    pub(crate) fn answer_to(
        &self,
        row: &Row<'_, W::Pin>,
        down: &[Branch],
        found: &Found<'_>,
        now: Tick,
    ) -> Result<Answered<W::Segment>, NoMemory>
        requires goes_on { All (λ row. IfSome row.head (HasBranchAt down.now)) found.now.best.now }
        ensures answers { IfOk result (Answers W.stands self.now found.now.source_known found.now.target_known found.now.best.now now.0 (row_of row.now) down.now) }
        ensures few { IfOk result (λ a. length (live_at self.now.losing.element.keys now.0) + length a.segments ≤ live_most) }
    {
        let Class::Client { .. } = row.item.class() else {
            return self.answer_closed(row, down, found.best, now);
        };
        let _free = self.free_keys(now);
        let metric = row.item.wanted().query.metric;
        let answer = client_answer(self.alloc, metric, down, found)?;
        let message = reply_message(self.alloc, row.item.flags(), row.key.id, answer)?;
        self.answered_to(row, message, List::new(self.alloc))
    }

    /// Plans an answer to the request of a number, and makes the room for it. What was solved comes back
    /// with the plan, or where memory runs out.
    pub(crate) fn plan_answer(
        &mut self,
        number: u64,
        solved: W::Solved,
        now: Tick,
        answered: Answered<W::Segment>,
    ) -> Result<Plan<W>, W::Solved>
        requires clock { self.old.losing.element.keys.clock ≤ now.0 }
        requires few { length (live_at self.old.losing.element.keys now.0) + length answered.segments ≤ live_most }
        ensures same { SameButRoom self.old self.new }
        ensures from { IfOk result (λ plan. plan.from ≡ self.new) }
        ensures element { IfOk result (λ plan. plan.taken.element ≡ ended number (record self.old.losing.element { keys = all_issued now.0 answered.segments self.old.losing.element.keys })) }
        ensures outputs { IfOk result (λ plan. plan.taken.outputs ≡ answered.outputs) }
        ensures clock { IfOk result (λ plan. plan.taken.element.keys.clock ≤ now.0) }
        ensures solved { IfOk result (λ plan. plan.solved ≡ Some solved) }
        ensures err { IfErr result (λ back. back ≡ solved) }
    {
        let Answered { outputs, segments } = answered;
        if self.reserve_keys(segments.len() as u32).is_err() {
            return Err(solved);
        }
        let change = Change::Solves {
            number,
            solved,
            now,
            segments,
        };
        Ok(Plan::of(self, Draft { change, outputs }))
    }
}
