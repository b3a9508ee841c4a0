//! Mistakes among changes, seen without memory.
ghost use Rattle.std.specs.Prelude.{◌≡◌, ◌<◌, Some, cond, length, slice_get};
ghost use Rattle.std.specs.Option.{is_some, option_map};
ghost use Rattle.te_text.specs.TopologyText.{rows_in_order};
ghost use Rattle.te_deltas.specs.Answers.{IsWhy};
ghost use Rattle.te_deltas.specs.Changes.{added, has_name, is_mistake_by, name_of, named, rows_after, same_name};

use crate::changes::Change;
use crate::making::{ChangeError, mistake_of};
use crate::name::RowName;
use te_links::Topology;

fn row_count(topology: &Topology) -> u64
    ensures { result ≡ length (rows_in_order topology.now) }
{
    let nodes = topology.node_count() as u64;
    let links = topology.link_count() as u64;
    let outs = topology.out_count() as u64;
    let entries = topology.entry_count() as u64;
    nodes + links + outs + entries
}

// The name of the row at a place among all rows.
fn name_in_order(topology: &Topology, place: u64) -> RowName
    requires { place < length (rows_in_order topology.now) }
    ensures { option_map name_of (slice_get (rows_in_order topology.now) place) ≡ Some result }
{
    let nodes = topology.node_count() as u64;
    let links = topology.link_count() as u64;
    let outs = topology.out_count() as u64;
    if place < nodes {
        return RowName::Node(topology.node_at(place as u32));
    }
    if place < nodes + links {
        return RowName::Link(topology.link_at((place - nodes) as u32).far);
    }
    if place < nodes + links + outs {
        return RowName::Out(topology.out_at((place - nodes - links) as u32).link.far);
    }
    let _entries = topology.entry_count();
    RowName::Entry(topology.entry_at((place - nodes - links - outs) as u32))
}

// Whether a topology has a row of a name.
fn stands_in(topology: &Topology, name: RowName) -> bool
    ensures { result ≡ has_name name (rows_in_order topology.now) }
{
    for place in 0..row_count(topology) {
        if name == name_in_order(topology, place) {
            return true;
        }
    }
    false
}

fn adds(change: &Change) -> bool
    ensures { result ≡ is_some (added change.now) }
{
    match change {
        Change::AddNode(_) | Change::AddLink(_) | Change::AddOut(_) | Change::AddEntry(_) => true,
        Change::DropNode(_) | Change::DropLink(_) | Change::DropOut(_) | Change::DropEntry(_) =>
            false,
    }
}

// Whether a row of a name is there after one more change.
fn after(change: &Change, name: RowName, there: bool) -> bool
    ensures { result ≡ cond (same_name name (named change.now)) (is_some (added change.now)) there }
{
    if name == change.name() {
        adds(change)
    } else {
        there
    }
}

// Whether a row of a name is there after changes: the last one of that name says so.
fn is_there(topology: &Topology, before: &[Change], name: RowName) -> bool
    ensures { result ≡ has_name name (rows_after (rows_in_order topology.now) before.now) }
{
    let mut there = stands_in(topology, name);
    for place in 0..before.len() {
        there = after(&before[place], name, there);
    }
    there
}

fn is_mistake(change: &Change, there: bool) -> bool
    ensures { result ≡ is_mistake_by (added change.now) there }
{
    match change {
        Change::AddNode(_) | Change::AddLink(_) | Change::AddOut(_) | Change::AddEntry(_) => there,
        Change::DropNode(_) | Change::DropLink(_) | Change::DropOut(_) | Change::DropEntry(_) =>
            !there,
    }
}

/// The first mistake among changes, or `NoMemory` where there is none. It keeps no table of earlier
/// changes, so its time grows with the square of their number.
pub(crate) fn mistake_seen(topology: &Topology, changes: &[Change]) -> ChangeError
    ensures { IsWhy topology.now changes.now result }
{
    for place in 0..changes.len() {
        let change = &changes[place];
        if is_mistake(change, is_there(topology, &changes[..place], change.name())) {
            return mistake_of(change, place);
        }
    }
    ChangeError::NoMemory
}
