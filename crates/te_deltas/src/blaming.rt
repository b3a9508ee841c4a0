//! The line of a change file that is at fault when its changes fail.
ghost use Rattle.std.specs.Prelude.{◌≡◌, ◌≤◌, ◌<◌, length, Ok, Some, IsSome, IfOk, OnErr, MatchOption};
ghost use Rattle.std.specs.Option.{option_map};
ghost use Rattle.line_text.specs.Lines.{told_lines};
ghost use Rattle.te_links.specs.Faults.{rows_of_parts};
ghost use Rattle.te_text.specs.TopologyText.{rows_in_order};
ghost use Rattle.te_deltas.specs.ChangeText.{change_file_most, text_in};
ghost use Rattle.te_deltas.specs.Changes.{CanBeMade, name_of};
ghost use Rattle.te_deltas.specs.Answers.{IsWhy, changed_rows};
ghost use Rattle.te_deltas.specs.Blame.{IsBlamedAt, IsLastOf, IsLineOfPlace, IsOfRule, NoneFrom, StandsIn, row_at};

use crate::changes::Change;
use crate::making::{ChangeError, changed_parts};
use crate::name::RowName;
use dom_base::NoMemory;
use line_text::Lines;
use std::alloc::Global;
use te_links::{Parts, Row, RowKind, Topology};

// The number of the line that says the change at a place.
fn line_of_change(file: &[u8], place: usize) -> u32
    requires short { length file.now ≤ change_file_most }
    requires there { place < length (told_lines file.now) }
    ensures { StandsIn file.now place result }
{
    let mut lines = Lines::new(file);
    let mut before = place;
    while let Some(line) = lines.next_line() {
        if before == 0 {
            return line.number;
        }
        before -= 1;
    }
    unreachable!()
}

// The place of the last change of a name.
fn last_of(changes: &[Change], name: RowName) -> Option<usize>
    ensures { MatchOption result
        (NoneFrom 0 changes.now name)
        (λ i. (change : Change) × IsLastOf changes.now name i change) }
{
    for place in (0..changes.len()).rev() {
        if changes[place].name() == name {
            return Some(place);
        }
    }
    None
}

// The name of a row that is there.
fn name_at(parts: &Parts, row: Row) -> RowName
    requires { IsSome (row_at (rows_of_parts parts.now) row.kind row.index) }
    ensures { option_map name_of (row_at (rows_of_parts parts.now) row.kind row.index) ≡ Some result }
{
    let place = row.index as usize;
    match row.kind {
        RowKind::Node => RowName::Node(parts.nodes.as_slice()[place]),
        RowKind::Link => RowName::Link(parts.links.as_slice()[place].far),
        RowKind::Out => RowName::Out(parts.outs.as_slice()[place].link.far),
        RowKind::Entry => RowName::Entry(parts.entries.as_slice()[place]),
    }
}

// The line of the change that added a row of the changed rows, or 0.
fn line_of_row(
    alloc: Global,
    topology: &Topology,
    changes: &[Change],
    file: &[u8],
    row: Row,
) -> Result<u32, NoMemory>
    requires short { length file.now ≤ change_file_most }
    requires says { text_in file.now ≡ Ok changes.now }
    requires made { CanBeMade (rows_in_order topology.now) changes.now }
    requires there { IsSome (row_at (changed_rows topology.now changes.now) row.kind row.index) }
    ensures { IfOk result (IsLineOfPlace topology.now changes.now file.now row) }
{
    // No change is a mistake, so memory is all that may run out.
    let Ok(parts) = changed_parts(alloc, topology, changes) else {
        return Err(NoMemory);
    };
    match last_of(changes, name_at(&parts, row)) {
        Some(place) => Ok(line_of_change(file, place)),
        None => Ok(0),
    }
}

/// The line of a change file that is at fault for the error of `apply` on its changes: for a row
/// that is absent or present, the line of that change; for a rule, the line of the change that added
/// the row which breaks it, or 0 where the row was there before; 0 for `NoMemory`. Lines count
/// from 1, blank lines and comments too. For a rule the changes are made again.
pub fn line_of_fault(
    alloc: Global,
    topology: &Topology,
    changes: &[Change],
    file: &[u8],
    why: ChangeError,
) -> Result<u32, NoMemory>
    requires short { length file.now ≤ change_file_most }
    requires says { text_in file.now ≡ Ok changes.now }
    requires met { IsWhy topology.now changes.now why }
    ensures line { IfOk result (IsBlamedAt topology.now changes.now file.now why) }
    ensures memory { OnErr result (IsOfRule why) }
{
    match why {
        ChangeError::Absent(place) | ChangeError::Present(place) => Ok(line_of_change(file, place)),
        ChangeError::Rule(_, row) => line_of_row(alloc, topology, changes, file, row),
        ChangeError::NoMemory => Ok(0),
    }
}
