//! An element that takes the messages and events in the rows of a table.
ghost use Rattle.std.specs.Prelude.{◌≡◌, ◌≤◌, IfOk, IfSome, OnOk};

mod endings;
mod messages;
mod sequences;
mod topologies;

use crate::telling::{Said, are_these, lost_in, message_of, said_by};
use crate::words::{Verb, lines_of, next_verb, number, octets, peer};
use border_costs::solve;
use disclosure::{Class, Deny};
use dom_base::{Addr, As, List, Peer, Tick};
use endings::ENDINGS;
use line_text::{Words, line_count};
use messages::MESSAGES;
use pce_element::{Element, Plan, Topologies};
use plant_model::{Lost, Route};
use sequences::SEQUENCES;
use std::alloc::Global;
use std::test::Fail;
use te_generations::LoadError;
use te_links::Topology;
use te_text::read_topology;
use topologies::topology_text;

// The element of domain 2, whose sessions with domains 1 and 3 are up. For domain 7 it asks an outside peer.
fn new_element(alloc: Global) -> Result<Element<Topologies>, Fail>
    ensures { IfOk result (λ element. element.losing.element.keys.clock ≡ 0) }
{
    let links = [As(1), As(3), As(5), As(0)];
    let id = Addr::V4(0xc000_0202);
    let mut deny = List::new(alloc);
    deny.push(Deny {
        from: As(7),
        next: As(3),
    })?;
    let mut routes = List::new(alloc);
    routes.push(Route {
        next: As(7),
        peer: 7,
    })?;
    let mut element = Element::new(alloc, As(2), id, 600, true, &links, deny, routes)?;
    element.up(Peer::Inner(As(1)));
    element.up(Peer::Inner(As(3)));
    Ok(element)
}

// ---- what is told

fn class_of(peer: Peer) -> Class {
    match peer {
        Peer::Inner(As(0)) => Class::Parent,
        Peer::Inner(number) => Class::Neighbour(number),
        Peer::Outside(1) => Class::Client { expand: true },
        Peer::Outside(2) => Class::Client { expand: false },
        Peer::Outside(_) => Class::Neighbour(As(7)),
    }
}

fn take(
    alloc: Global,
    element: &mut Element<Topologies>,
    from: Peer,
    frame: &[u8],
    now: Tick,
) -> Result<Vec<Said>, Fail>
    ensures { OnOk result (element.new.losing.element.keys ≡ element.old.losing.element.keys) }
{
    let message = message_of(alloc, frame)?;
    let plan = element.take(from, class_of(from), message, now)?;
    let said = said_by(alloc, plan.outputs());
    element.make(plan);
    Ok(said?)
}

fn topology_of(alloc: Global, text: &[u8]) -> Result<Topology, Fail> {
    if line_count(text) > 1_000 {
        return Err(Fail::from("a long text"));
    }
    Ok(read_topology(alloc, text)?)
}

// Whether it is loaded; not where as many as may be are current or asked of.
fn load(alloc: Global, element: &mut Element<Topologies>, text: &[u8]) -> Result<bool, Fail>
    ensures { OnOk result (element.new.losing ≡ element.old.losing) }
{
    let topology = topology_of(alloc, text)?;
    if topology.own() != element.own() {
        return Err(Fail::from("another domain"));
    }
    match element.load(topology) {
        Ok(_number) => Ok(true),
        Err(LoadError::Full) => Ok(false),
        Err(LoadError::NoMemory) => Err(Fail::from("no memory")),
    }
}

// A row: a message to the element, and the messages that it sends then, with their receivers.
fn take_row(
    alloc: Global,
    element: &mut Element<Topologies>,
    now: Tick,
    words: &mut Words<'_>,
) -> Result<bool, Fail>
    ensures { OnOk result (element.new.losing.element.keys ≡ element.old.losing.element.keys) }
{
    let from = peer(words)?;
    let frame = octets(alloc, MESSAGES, words)?;
    let said = take(alloc, element, from, frame.as_slice(), now)?;
    Ok(are_these(alloc, MESSAGES, said.as_slice(), words)?)
}

// The octets with another low octet of the id of their request.
fn with_id(alloc: Global, octets: &[u8], id: u8) -> Result<Vec<u8>, Fail> {
    let mut other = Vec::new(alloc);
    for (k, octet) in octets.iter().enumerate() {
        other.push(if k == 15 { id } else { *octet })?;
    }
    Ok(other)
}

// The request of domain 1 under another id, and the same sent on.
fn asked(alloc: Global, id: u8) -> Result<(Vec<u8>, Vec<u8>), Fail> {
    let mut words = Words::new(b"ask sent-on");
    let ask = octets(alloc, MESSAGES, &mut words)?;
    let sent_on = octets(alloc, MESSAGES, &mut words)?;
    Ok((
        with_id(alloc, ask.as_slice(), id)?,
        with_id(alloc, sent_on.as_slice(), id)?,
    ))
}

fn is_one(said: &[Said], to: Peer, octets: &[u8]) -> bool {
    match said {
        [one] => one.to == to && one.octets.as_slice() == octets,
        _ => false,
    }
}

// Whether a request of domain 1 is sent on under its own id.
fn sends_on(
    alloc: Global,
    element: &mut Element<Topologies>,
    id: u8,
    now: Tick,
) -> Result<bool, Fail>
    ensures { OnOk result (element.new.losing.element.keys ≡ element.old.losing.element.keys) }
{
    let (ask, sent_on) = asked(alloc, id)?;
    let said = take(alloc, element, Peer::Inner(As(1)), ask.as_slice(), now)?;
    Ok(is_one(said.as_slice(), Peer::Inner(As(3)), sent_on.as_slice()))
}

// Whether this is the next lost request.
#[tactic(auto, using(pce_element::proofs::LeaveLemmas::lost_keeps))]
fn is_lost(element: &mut Element<Topologies>, lost: Option<Lost>) -> bool
    ensures { element.new.losing.element ≡ element.old.losing.element }
{
    element.next_lost() == lost
}

// Whether requests of domain 1 with the ids 2 to 15 are sent on, each before this topology is loaded.
fn pins(
    alloc: Global,
    element: &mut Element<Topologies>,
    text: &[u8],
    now: Tick,
) -> Result<bool, Fail>
    ensures { OnOk result (element.new.losing.element.keys ≡ element.old.losing.element.keys) }
{
    for id in 2..16 {
        if !sends_on(alloc, element, id, now)? {
            return Ok(false);
        }
        if !load(alloc, element, text)? {
            return Ok(false);
        }
    }
    Ok(true)
}

// ---- jobs

fn plan_of(
    alloc: Global,
    element: &mut Element<Topologies>,
    number: u64,
    now: Tick,
) -> Result<Plan<Topologies>, Fail>
    requires { element.old.losing.element.keys.clock ≤ now.0 }
    ensures clock { OnOk result (element.new.losing.element.keys.clock ≤ now.0) }
    ensures from { IfOk result (λ plan. plan.from ≡ element.new) }
    ensures taken { IfOk result (λ plan. plan.taken.element.keys.clock ≤ now.0) }
{
    let found = element.job(number)?;
    let Some(job) = found else {
        return Err(Fail::from("no job"));
    };
    let solved = solve(alloc, &job)?;
    match element.commit(solved, now) {
        Ok(plan) => Ok(plan),
        Err(_why) => Err(Fail::from("no plan")),
    }
}

// Whether a job is answered by the message of the other words.
fn solve_job(
    alloc: Global,
    element: &mut Element<Topologies>,
    now: Tick,
    words: &mut Words<'_>,
) -> Result<bool, Fail>
    requires { element.old.losing.element.keys.clock ≤ now.0 }
    ensures { OnOk result (element.new.losing.element.keys.clock ≤ now.0) }
{
    let number = number(words)?;
    let plan = plan_of(alloc, element, u64::from(number), now)?;
    let said = said_by(alloc, plan.outputs());
    element.make(plan);
    Ok(are_these(alloc, MESSAGES, said?.as_slice(), words)?)
}

// Whether a plan that is given up hands its job back, and leaves it ready.
fn give_up(
    alloc: Global,
    element: &mut Element<Topologies>,
    now: Tick,
    words: &mut Words<'_>,
) -> Result<bool, Fail>
    requires { element.old.losing.element.keys.clock ≤ now.0 }
    ensures { OnOk result (element.new.losing.element.keys.clock ≤ now.0) }
{
    let number = u64::from(number(words)?);
    let plan = plan_of(alloc, element, number, now)?;
    let Some(solved) = plan.back() else {
        return Ok(false);
    };
    Ok(solved.number() == number && element.ready(0) == Some(number))
}

fn is_idle(element: &Element<Topologies>) -> Result<bool, Fail> {
    Ok(element.ready(0) == None && element.job(1)?.is_none())
}

// ---- rows

// Whether a row holds.
fn holds(
    alloc: Global,
    element: &mut Element<Topologies>,
    verb: Verb,
    words: &mut Words<'_>,
    now: Tick,
) -> Result<bool, Fail>
    requires { element.old.losing.element.keys.clock ≤ now.0 }
    ensures { OnOk result (element.new.losing.element.keys.clock ≤ now.0) }
{
    let held = match verb {
        Verb::Take => take_row(alloc, element, now, words)?,
        Verb::Load => load(alloc, element, topology_text(words)?)?,
        Verb::Full => !load(alloc, element, topology_text(words)?)?,
        Verb::Pins => pins(alloc, element, topology_text(words)?, now)?,
        Verb::Solve => solve_job(alloc, element, now, words)?,
        Verb::Back => give_up(alloc, element, now, words)?,
        Verb::Lost => is_lost(element, lost_in(words)?),
        Verb::Idle => is_idle(element)?,
        Verb::Up => {
            element.up(peer(words)?);
            true
        }
        Verb::Down => {
            element.down(peer(words)?);
            true
        }
        _ => return Err(Fail::from("no row")),
    };
    Ok(held)
}

fn ticked(element: &mut Element<Topologies>, words: &mut Words<'_>, now: Tick) -> Result<Tick, Fail>
    requires { element.old.losing.element.keys.clock ≤ now.0 }
    ensures { IfOk result (λ next. element.new.losing.element.keys.clock ≤ next.0) }
{
    let next = u64::from(number(words)?);
    if next < now.0 {
        return Err(Fail::from("back in time"));
    }
    element.tick(Tick(next));
    Ok(Tick(next))
}

// The moment after a row; none where it does not hold.
fn after(
    alloc: Global,
    element: &mut Element<Topologies>,
    words: &mut Words<'_>,
    now: Tick,
) -> Result<Option<Tick>, Fail>
    requires { element.old.losing.element.keys.clock ≤ now.0 }
    ensures { IfOk result (λ next. IfSome next (λ next. element.new.losing.element.keys.clock ≤ next.0)) }
{
    match next_verb(words) {
        Verb::New => {
            *element = new_element(alloc)?;
            Ok(Some(Tick(0)))
        }
        Verb::Tick => Ok(Some(ticked(element, words, now)?)),
        verb => {
            let held = holds(alloc, element, verb, words, now)?;
            Ok(if held { Some(now) } else { None })
        }
    }
}

// The number of the first row that does not hold.
fn first_wrong(
    alloc: Global,
    element: &mut Element<Topologies>,
    table: &[u8],
) -> Result<Option<u32>, Fail>
    requires { element.old.losing.element.keys.clock ≤ 0 }
{
    let mut now = Tick(0);
    let mut lines = lines_of(table)?;
    for _row in 0..line_count(table) {
        let Some(line) = lines.next_line() else {
            break;
        };
        match after(alloc, element, &mut Words::new(line.text), now)? {
            Some(next) => now = next,
            None => return Ok(Some(line.number)),
        }
    }
    Ok(None)
}

// The same of a new element.
fn wrong_of(alloc: Global, table: &[u8]) -> Result<Option<u32>, Fail> {
    let mut element = new_element(alloc)?;
    first_wrong(alloc, &mut element, table)
}

#[test]
fn each_sequence_holds(rt: HostRuntime) -> Result<(), Fail> {
    assert_eq!(rt;
        wrong_of(rt.alloc(), SEQUENCES)?,
        None,
        "the row that does not hold"
    );
    Ok(())
}

#[test]
fn a_topology_is_free_once_its_request_has_ended(rt: HostRuntime) -> Result<(), Fail> {
    assert_eq!(rt;
        wrong_of(rt.alloc(), ENDINGS)?,
        None,
        "the row that does not hold"
    );
    Ok(())
}
