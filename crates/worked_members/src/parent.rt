//! A parent that takes the messages and events in the rows of a table.
ghost use Rattle.std.specs.Prelude.{◌≡◌, ◌<◌, All, AllPairs, IfOk};
ghost use Rattle.dom_base.specs.declared.names.As.{As as Domain};
ghost use Rattle.pce_parent.specs.Solution.{IsWeighed};

mod messages;
mod sequences;

use crate::parts::{are_weighed, is_at, link, solved};
use crate::telling::{Said, are_these, lost_in, message_of, said_by};
use crate::words::{Verb, addr, domain, lines_of, next_verb, number, octets, peer, spot};
use dom_base::{Addr, As, List, NoMemory, ParentLink, Tick};
use line_text::{Words, line_count};
use messages::MESSAGES;
use pce_parent::{BorderPlan, BorderSolved, Parent};
use plant_model::{BorderJob, ChildRow, Refused};
use sequences::SEQUENCES;
use std::alloc::Global;
use std::test::Fail;

// ---- a new parent

fn children(alloc: Global, count: u32) -> Result<List<As>, NoMemory>
    ensures { IfOk result (AllPairs (λ (a b : Domain). a.0 < b.0)) }
{
    let numbers = match count {
        1 => Vec::from_slice(alloc, &[As(1)])?,
        2 => Vec::from_slice(alloc, &[As(1), As(2)])?,
        _ => Vec::from_slice(alloc, &[As(1), As(2), As(3)])?,
    };
    Ok(List::from_vec(numbers))
}

fn add_links(
    alloc: Global,
    links: &mut List<ParentLink>,
    words: &mut Words<'_>,
) -> Result<(), Fail> {
    for _k in 0..16 {
        match words.next_word() {
            Some(_link) => links.push(link(alloc, words)?)?,
            None => break,
        }
    }
    Ok(())
}

fn weighed_links(alloc: Global, words: &mut Words<'_>) -> Result<List<ParentLink>, Fail>
    ensures { IfOk result (λ links. All IsWeighed links) }
{
    let mut links = List::new(alloc);
    add_links(alloc, &mut links, words)?;
    if !are_weighed(links.as_slice()) {
        return Err(Fail::from("a metric out of its limits"));
    }
    Ok(links)
}

fn new_parent(alloc: Global, words: &mut Words<'_>) -> Result<Parent, Fail> {
    let children = children(alloc, number(words)?)?;
    let links = weighed_links(alloc, words)?;
    let id = Addr::V4(0xC000_0264);
    Ok(Parent::new(alloc, id, children, links)?)
}

// ---- what is told

fn take(alloc: Global, parent: &mut Parent, words: &mut Words<'_>) -> Result<bool, Fail> {
    let from = peer(words)?;
    let frame = octets(alloc, MESSAGES, words)?;
    let message = message_of(alloc, frame.as_slice())?;
    let plan = parent.take(from, message, Tick(0))?;
    let said = said_by(alloc, plan.outputs());
    parent.make(plan);
    are_these(alloc, MESSAGES, said?.as_slice(), words)
}

// Whether this is the next lost request, or there is none.
fn is_lost(parent: &mut Parent, words: &mut Words<'_>) -> Result<bool, Fail> {
    let lost = lost_in(words)?;
    Ok(parent.next_lost() == lost)
}

// ---- jobs

fn job_of(parent: &Parent) -> Result<BorderJob, Fail> {
    let Some(number) = parent.ready(0) else {
        return Err(Fail::from("none is ready"));
    };
    match parent.job(number)? {
        Some(job) => Ok(job),
        None => Err(Fail::from("no job")),
    }
}

fn is_row(row: &ChildRow, words: &mut Words<'_>) -> Result<bool, Fail> {
    let hop = match row.hops.as_slice().first() {
        Some(hop) => hop,
        None => return Ok(false),
    };
    Ok(
        row.at == domain(words)?
            && row.entry == addr(words)?
            && row.target == addr(words)?
            && row.cost.get() == number(words)?
            && is_at(hop, spot(words)?),
    )
}

// Whether a request can be solved over the rows of the words.
fn has_rows(parent: &Parent, words: &mut Words<'_>) -> Result<bool, Fail> {
    let job = job_of(parent)?;
    for row in job.rows.as_slice() {
        if !is_row(row, words)? {
            return Ok(false);
        }
    }
    Ok(words.next_word().is_none())
}

fn plan_of(parent: &mut Parent, solved: BorderSolved) -> Result<BorderPlan, Fail>
    ensures same { parent.new ≡ parent.old }
    ensures from { IfOk result (λ plan. plan.from ≡ parent.old) }
{
    match parent.commit(solved, Tick(0)) {
        Ok(plan) => Ok(plan),
        Err(_why) => Err(Fail::from("no plan")),
    }
}

fn is_strange(parent: &mut Parent, solved: BorderSolved) -> bool {
    match parent.commit(solved, Tick(0)) {
        Ok(_plan) => false,
        Err(refusal) => matches!(refusal.why, Refused::NoSuchJob),
    }
}

// The solution of the job that is ready.
fn ready_solved(alloc: Global, parent: &Parent) -> Result<BorderSolved, Fail> {
    let job = job_of(parent)?;
    solved(alloc, &job)
}

// The same, handed back by a plan that is given up.
fn given_up(alloc: Global, parent: &mut Parent) -> Result<BorderSolved, Fail> {
    let plan = plan_of(parent, ready_solved(alloc, parent)?)?;
    match plan.back() {
        Some(solved) => Ok(solved),
        None => Err(Fail::from("nothing back")),
    }
}

// The messages that are sent once a job is answered.
fn answered(alloc: Global, parent: &mut Parent, solved: BorderSolved) -> Result<Vec<Said>, Fail> {
    let plan = plan_of(parent, solved)?;
    let said = said_by(alloc, plan.outputs());
    parent.make(plan);
    said
}

// A plan that is given up leaves the request as it was; one that is made ends it.
fn solve(alloc: Global, parent: &mut Parent, words: &mut Words<'_>) -> Result<bool, Fail> {
    let back = given_up(alloc, parent)?;
    let late = ready_solved(alloc, parent)?;
    let said = answered(alloc, parent, back)?;
    Ok(is_strange(parent, late) && are_these(alloc, MESSAGES, said.as_slice(), words)?)
}

// ---- rows

// Whether a row holds.
fn holds(
    alloc: Global,
    parent: &mut Parent,
    verb: Verb,
    words: &mut Words<'_>,
) -> Result<bool, Fail> {
    match verb {
        Verb::Take => take(alloc, parent, words),
        Verb::Idle => Ok(parent.ready(0) == None),
        Verb::Job => has_rows(parent, words),
        Verb::Solve => solve(alloc, parent, words),
        Verb::Lost => is_lost(parent, words),
        Verb::Up => {
            parent.up(peer(words)?);
            Ok(true)
        }
        Verb::Down => {
            parent.down(peer(words)?);
            Ok(true)
        }
        _ => Err(Fail::from("no row")),
    }
}

// Whether a row holds; the first of a sequence makes another parent.
fn row_holds(alloc: Global, parent: &mut Parent, words: &mut Words<'_>) -> Result<bool, Fail> {
    match next_verb(words) {
        Verb::New => {
            *parent = new_parent(alloc, words)?;
            Ok(true)
        }
        verb => holds(alloc, parent, verb, words),
    }
}

// The number of the first row that does not hold.
fn first_wrong(alloc: Global, parent: &mut Parent) -> Result<Option<u32>, Fail> {
    let mut lines = lines_of(SEQUENCES)?;
    for _k in 0..line_count(SEQUENCES) {
        let Some(line) = lines.next_line() else {
            break;
        };
        if !row_holds(alloc, parent, &mut Words::new(line.text))? {
            return Ok(Some(line.number));
        }
    }
    Ok(None)
}

#[test]
fn messages_have_these_answers(rt: HostRuntime) -> Result<(), Fail> {
    let mut parent = new_parent(rt.alloc(), &mut Words::new(b"1"))?;
    let wrong = first_wrong(rt.alloc(), &mut parent)?;
    assert_eq!(rt; wrong, None, "the row that does not hold");
    Ok(())
}
