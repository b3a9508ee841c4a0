//! Changes, made to a topology.
ghost use Rattle.std.specs.Prelude.{◌≡◌, not, true, IfOk, IfErr, OnOk};
ghost use Rattle.te_links.specs.Faults.{rows_of_parts};
ghost use Rattle.te_text.specs.TopologyText.{rows_in_order};
ghost use Rattle.te_deltas.specs.Changes.{CanBeMade, changed, is_mistake, rows_after};
ghost use Rattle.te_deltas.specs.Answers.{IsBuiltOf, IsMistake, IsWhy, changed_rows, mistake, why_not};

use crate::changes::Change;
use crate::rows::rows_of_topology;
use crate::seen::mistake_seen;
use crate::table::Table;
use dom_base::NoMemory;
use std::alloc::Global;
use te_links::{BuildError, Parts, Row, TopoFault, Topology};

/// Why no topology was made. The numbers are places among the changes, from 0.
#[derive(Clone, Copy, Debug)]
pub enum ChangeError {
    /// A row is to be dropped that is not there.
    Absent(usize),
    /// A row is to be added, and one of its name is there.
    Present(usize),
    /// The changed rows break a rule; the row is one of them.
    Rule(TopoFault, Row),
    NoMemory,
}

impl From<NoMemory> for ChangeError {
    ghost use Rattle.te_deltas.specs.declared.making.ChangeError.TheVariants.{NoMemory};

    ghost from_gives = { λ _ e. e ≡ NoMemory };

    fn from(_: NoMemory) -> Self {
        ChangeError::NoMemory
    }
}

// The rows of a topology, by their names.
fn table_of(alloc: Global, topology: &Topology) -> Result<Table, NoMemory>
    ensures { IfOk result (λ table. table ≡ rows_in_order topology.now) }
{
    let mut table = Table::new(alloc);
    let _own = topology.own();
    for row in rows_of_topology(alloc, topology)? {
        if !table.add(row)? {
            unreachable!();
        }
    }
    Ok(table)
}

// Makes one change, if it is no mistake.
fn make(alloc: Global, table: &mut Table, change: &Change) -> Result<bool, NoMemory>
    ensures made { IfOk result (λ made. made ≡ not (is_mistake table.old change.now)) }
    ensures rows { IfOk result (λ made. made ≡ true → table.new ≡ changed table.old change.now) }
{
    match change.row(alloc)? {
        Some(row) => table.add(row),
        None => Ok(table.take_out(change.name())),
    }
}

/// What is wrong with a change that is a mistake, by its place.
pub(crate) fn mistake_of(change: &Change, place: usize) -> ChangeError
    ensures { result ≡ mistake change.now place }
{
    match change {
        Change::AddNode(_) | Change::AddLink(_) | Change::AddOut(_) | Change::AddEntry(_) => {
            ChangeError::Present(place)
        }
        Change::DropNode(_) | Change::DropLink(_) | Change::DropOut(_) | Change::DropEntry(_) =>
            ChangeError::Absent(place),
    }
}

// Makes all changes, or tells the first mistake.
fn make_all(alloc: Global, table: &mut Table, changes: &[Change]) -> Result<(), ChangeError>
    ensures made { OnOk result (CanBeMade table.old changes.now) }
    ensures rows { OnOk result (table.new ≡ rows_after table.old changes.now) }
    ensures mistake { IfErr result (IsMistake table.old changes.now) }
{
    for (place, change) in changes.iter().enumerate() {
        if !make(alloc, table, change)? {
            return Err(mistake_of(change, place));
        }
    }
    Ok(())
}

// The rows after all changes, by their kinds, or the first mistake.
pub(crate) fn changed_parts(
    alloc: Global,
    topology: &Topology,
    changes: &[Change],
) -> Result<Parts, ChangeError>
    ensures made { OnOk result (CanBeMade (rows_in_order topology.now) changes.now) }
    ensures rows { IfOk result (λ parts. rows_of_parts parts ≡ changed_rows topology.now changes.now) }
    ensures mistake { IfErr result (IsMistake (rows_in_order topology.now) changes.now) }
{
    let mut table = table_of(alloc, topology)?;
    make_all(alloc, &mut table, changes)?;
    let parts = table.into_parts(alloc, topology.own())?;
    Ok(parts)
}

// Why the changed rows are no topology.
fn why_not(why: BuildError) -> ChangeError
    ensures { result ≡ why_not why }
{
    match why {
        BuildError::Rule(fault, row) => ChangeError::Rule(fault, row),
        BuildError::NoMemory => ChangeError::NoMemory,
    }
}

// Why there are no changed rows. After `NoMemory` the first mistake is looked for without memory.
fn told(topology: &Topology, changes: &[Change], met: ChangeError) -> ChangeError
    requires { IsMistake (rows_in_order topology.now) changes.now met }
    ensures { IsWhy topology.now changes.now result }
{
    match met {
        ChangeError::NoMemory => mistake_seen(topology, changes),
        ChangeError::Absent(_) | ChangeError::Present(_) | ChangeError::Rule(_, _) => met,
    }
}

/// The topology that `build` gives of the changed rows: the changes are made one at a time, in
/// their order, where a drop takes its row out and an add appends its row to those of its kind.
/// `Absent` and `Present` name the first change that is a mistake; only where there is none the
/// rules are tested, or memory runs out. Takes time in proportion to the rows and the changes and
/// the logarithm of their number; when out of memory, also to the square of the changes' number.
pub fn apply(
    alloc: Global,
    topology: &Topology,
    changes: &[Change],
) -> Result<Topology, ChangeError>
    ensures ok { IfOk result (IsBuiltOf topology.now changes.now) }
    ensures refused { IfErr result (IsWhy topology.now changes.now) }
{
    let parts = match changed_parts(alloc, topology, changes) {
        Ok(parts) => parts,
        Err(met) => return Err(told(topology, changes, met)),
    };
    match Topology::build(alloc, parts) {
        Ok(changed) => Ok(changed),
        Err(why) => Err(why_not(why)),
    }
}
