//! The faults that a topology has, one after another.
ghost use Rattle.std.specs.Prelude.{◌≡◌, ◌≤◌, ◌-◌, ◌++◌, ◌∷◌, [], IfOk, OnOk, length};
ghost use Rattle.network_files.specs.Reading.{IsTopologyFault};
ghost use Rattle.network_files.specs.Topologies.{topology_max};
ghost use Rattle.network_check.specs.Breaches.{IsNext, IsRefused, commented, is_last as ends_all, passed_over as left_behind, place_behind as place_of};

use dom_base::{As, Bytes, List, NoMemory};
use network_files::{FileError, topology_of};
use plant_text::NetFault;
use std::alloc::Global;

/// A fault of a topology, and the number of its line.
#[derive(Drop)]
pub struct Breach {
    pub line: u32,
    pub fault: NetFault,
}

// How many are told of a topology.
const BREACHES_MAX: usize = 100;

// The place behind so many line ends.
fn place_behind(text: &[u8], ends: u32) -> usize
    ensures { result ≡ place_of ends text.now }
{
    let mut left = ends;
    for (place, c) in text.iter().enumerate() {
        if left == 0 {
            return place;
        }
        if *c == b'\n' {
            left -= 1;
        }
    }
    text.len()
}

// The place at which a line begins.
fn begin_of(text: &[u8], line: u32) -> usize
    ensures { result ≡ place_of (line - 1) text.now }
{
    if line == 0 {
        0
    } else {
        place_behind(text, line - 1)
    }
}

// Makes a line a comment.
fn comment_out(text: &mut Vec<u8>, line: u32)
    ensures { text.new.items ≡ commented line text.old.items }
{
    let place = begin_of(text, line);
    if place < text.len() {
        text[place] = b'#';
    }
}

// Leaves a fault out of a text.
fn pass_over(text: &mut Vec<u8>, breach: &Breach)
    ensures { text.new.items ≡ left_behind breach.now text.old.items }
{
    match &breach.fault {
        NetFault::OtherAs => {}
        _other => comment_out(text, breach.line),
    }
}

fn is_last(fault: &NetFault) -> bool
    ensures { result ≡ ends_all fault.now }
{
    match fault {
        NetFault::OtherAs => true,
        _other => false,
    }
}

// Notes a fault, leaves it out of the text, and tells whether no other is behind it.
fn note(text: &mut Vec<u8>, breaches: &mut List<Breach>, breach: Breach) -> Result<bool, NoMemory>
    ensures text { OnOk result (text.new.items ≡ left_behind breach text.old.items) }
    ensures noted { OnOk result (breaches.new ≡ breaches.old ++ breach ∷ []) }
    ensures last { IfOk result (λ is. is ≡ ends_all breach.fault) }
{
    let ends = is_last(&breach.fault);
    pass_over(text, &breach);
    breaches.push(breach)?;
    Ok(ends)
}

// The first fault of a text, where it has one.
fn next_breach(alloc: Global, at: As, text: &[u8]) -> Result<Option<Breach>, NoMemory>
    requires short { length text.now ≤ topology_max }
    ensures { IfOk result (IsNext at text.now) }
{
    match topology_of(alloc, at, text) {
        Ok(_) => Ok(None),
        Err(FileError::BadFile(line, fault)) => Ok(Some(Breach { line, fault })),
        Err(FileError::NoMemory) => Err(NoMemory),
    }
}

/// The faults of a text whose first one is this.
pub(crate) fn breaches_of(
    alloc: Global,
    at: As,
    file: Bytes,
    first: Breach,
) -> Result<List<Breach>, NoMemory>
    requires short { length file ≤ topology_max }
    requires first { IsTopologyFault at file first.line first.fault }
    ensures { IfOk result (IsRefused at file) }
{
    let mut text = file.into_vec();
    let mut breaches = List::new(alloc);
    if note(&mut text, &mut breaches, first)? {
        return Ok(breaches);
    }
    while breaches.len() < BREACHES_MAX {
        let Some(breach) = next_breach(alloc, at, text.as_slice())? else {
            return Ok(breaches);
        };
        if note(&mut text, &mut breaches, breach)? {
            return Ok(breaches);
        }
    }
    Ok(breaches)
}
