//! Topologies and asks from the lines of a table.
use border_costs::{Ask, Down, Target};
use dom_base::{Addr, As, Cost, List, Metric, NoMemory, Query, read_number};
use line_text::Words;
use std::alloc::Global;
use std::test::Fail;
use te_text::{next_addr, next_as};

/// The text before the sign that ends a topology, and the text behind it.
pub(crate) fn cut(table: &[u8]) -> Result<(&[u8], &[u8]), Fail> {
    let place = table.iter().position(|c| *c == b'%').ok_or("no sign")?;
    Ok((&table[..place], &table[place + 1..]))
}

fn next_number(words: &mut Words<'_>) -> Option<u32> {
    let number = read_number(words.next_word()?, u64::from(u32::MAX))?;
    Some(number as u32)
}

fn next_cost(words: &mut Words<'_>) -> Option<Cost> {
    Cost::of(next_number(words)?)
}

// `te` or `hops`.
fn next_metric(words: &mut Words<'_>) -> Option<Metric> {
    match words.next_word()? {
        b"te" => Some(Metric::Te),
        b"hops" => Some(Metric::Hops),
        _ => None,
    }
}

// `to` and a node, or `into` and a domain.
fn next_target(words: &mut Words<'_>) -> Option<Target> {
    match words.next_word()? {
        b"to" => Some(Target::Node(next_addr(words)?)),
        b"into" => Some(Target::Next(next_as(words)?)),
        _ => None,
    }
}

// The first words of an ask.
#[derive(Clone, Copy)]
struct Head {
    generation: u32,
    metric: Metric,
    cap: Cost,
    source: Addr,
    target: Target,
}

fn next_head(words: &mut Words<'_>) -> Option<Head> {
    let _name = words.next_word()?;
    Some(Head {
        generation: next_number(words)?,
        metric: next_metric(words)?,
        cap: next_cost(words)?,
        source: next_addr(words)?,
        target: next_target(words)?,
    })
}

fn query(alloc: Global, own: As, head: &Head) -> Query {
    Query {
        own,
        metric: head.metric,
        cap: head.cap,
        bandwidth: 0,
        exclude_any: 0,
        include_any: 0,
        include_all: 0,
        exclusions: List::new(alloc),
    }
}

// Adds addresses, up to another word; a hundred at most.
fn add_entries(entries: &mut List<Addr>, words: &mut Words<'_>) -> Result<(), NoMemory> {
    for _ in 0..100 {
        match next_addr(words) {
            Some(entry) => entries.push(entry)?,
            None => break,
        }
    }
    Ok(())
}

// An address with its cost.
fn next_down(words: &mut Words<'_>) -> Option<Down> {
    Some(Down {
        node: next_addr(words)?,
        cost: next_cost(words)?,
    })
}

// Adds addresses with their costs, up to another word; a hundred at most.
fn add_downs(downs: &mut List<Down>, words: &mut Words<'_>) -> Result<(), NoMemory> {
    for _ in 0..100 {
        match next_down(words) {
            Some(down) => downs.push(down)?,
            None => break,
        }
    }
    Ok(())
}

/// The ask of a line: `ask GENERATION METRIC CAP SOURCE TARGET ENTRIES .. over HEAD COST ..`, and behind
/// these, after a sign, what it is there for.
pub(crate) fn ask_in(alloc: Global, own: As, line: &[u8]) -> Result<Ask, Fail> {
    let mut words = Words::new(line);
    let head = next_head(&mut words).ok_or("no ask")?;
    let mut ask = Ask {
        at: own,
        number: 1,
        generation: u64::from(head.generation),
        query: query(alloc, own, &head),
        source: head.source,
        target: head.target,
        entries: List::new(alloc),
        down: List::new(alloc),
    };
    add_entries(&mut ask.entries, &mut words)?;
    add_downs(&mut ask.down, &mut words)?;
    Ok(ask)
}
