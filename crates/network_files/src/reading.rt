//! The topology or the changes in the file of a line, and a topology with these changes.
ghost use Rattle.std.specs.Prelude.{◌≡◌, ◌≤◌, Ok, IfErr, IfOk, length};
ghost use Rattle.te_links.specs.Rows.{IsInOrder, IsTopology};
ghost use Rattle.te_deltas.specs.Answers.{IsBuiltOf, IsWhy};
ghost use Rattle.te_deltas.specs.ChangeText.{change_file_most, text_in};
ghost use Rattle.te_text.specs.Reads.{Reads};
ghost use Rattle.network_files.specs.Reading.{IsRefusal, IsWhyNoChange, IsWhyNoChanges, IsWhyNoTopology, fault_of};

use crate::error::FileError;
use dom_base::{As, List, NoMemory};
use plant_text::NetFault;
use std::alloc::Global;
use te_deltas::{Change, ChangeError, apply, line_of_fault, read_changes};
use te_links::Topology;
use te_text::{TextError, read_topology};

/// The topology of a file, which is of this domain.
pub fn topology_of(alloc: Global, at: As, file: &[u8]) -> Result<Topology, FileError>
    requires short { length file.now ≤ change_file_most }
    ensures reads { IfOk result (Reads file.now) }
    ensures own { IfOk result (λ topology. topology.own ≡ at) }
    ensures rules { IfOk result IsTopology }
    ensures order { IfOk result IsInOrder }
    ensures refused { IfErr result (IsWhyNoTopology at file.now) }
{
    let topology = match read_topology(alloc, file) {
        Ok(topology) => topology,
        Err(TextError::At(line, fault)) => return Err(FileError::BadFile(
            line,
            NetFault::Topo(fault),
        )),
        Err(TextError::NoMemory) => return Err(FileError::NoMemory),
    };
    if topology.own() == at {
        Ok(topology)
    } else {
        Err(FileError::BadFile(1, NetFault::OtherAs))
    }
}

/// The changes of a file.
pub fn changes_of(alloc: Global, file: &[u8]) -> Result<List<Change>, FileError>
    requires short { length file.now ≤ change_file_most }
    ensures reads { IfOk result (λ changes. text_in file.now ≡ Ok changes) }
    ensures refused { IfErr result (IsWhyNoChanges file.now) }
{
    match read_changes(alloc, file) {
        Ok(changes) => Ok(changes),
        Err(TextError::At(line, fault)) => Err(FileError::BadFile(line, NetFault::Topo(fault))),
        Err(TextError::NoMemory) => Err(FileError::NoMemory),
    }
}

// The rules and the order of the rows that each topology keeps.
fn ruled(topology: Topology) -> Topology
    ensures same { result ≡ topology }
    ensures rules { IsTopology result }
    ensures order { IsInOrder result }
{
    let _own = topology.own();
    topology
}

fn fault_of(why: ChangeError) -> Option<NetFault>
    ensures { result ≡ fault_of why }
{
    match why {
        ChangeError::Absent(_) => Some(NetFault::Absent),
        ChangeError::Present(_) => Some(NetFault::Present),
        ChangeError::Rule(fault, _) => Some(NetFault::Topo(fault)),
        ChangeError::NoMemory => None,
    }
}

// Why the changes of a file can't be made.
fn refusal(
    alloc: Global,
    topology: &Topology,
    changes: &[Change],
    file: &[u8],
    why: ChangeError,
) -> FileError
    requires short { length file.now ≤ change_file_most }
    requires says { text_in file.now ≡ Ok changes.now }
    requires met { IsWhy topology.now changes.now why }
    ensures { IsRefusal topology.now changes.now file.now result }
{
    let Some(fault) = fault_of(why) else {
        return FileError::NoMemory;
    };
    match line_of_fault(alloc, topology, changes, file, why) {
        Ok(line) => FileError::BadFile(line, fault),
        Err(NoMemory) => FileError::NoMemory,
    }
}

/// The topology, which is of this domain, with these changes, which are those of the file.
pub fn changed_of(
    alloc: Global,
    at: As,
    topology: &Topology,
    changes: &[Change],
    file: &[u8],
) -> Result<Topology, FileError>
    requires short { length file.now ≤ change_file_most }
    requires says { text_in file.now ≡ Ok changes.now }
    ensures built { IfOk result (IsBuiltOf topology.now changes.now) }
    ensures own { IfOk result (λ changed. changed.own ≡ at) }
    ensures rules { IfOk result IsTopology }
    ensures order { IfOk result IsInOrder }
    ensures refused { IfErr result (IsWhyNoChange at topology.now changes.now file.now) }
{
    if topology.own() != at {
        return Err(FileError::BadFile(1, NetFault::OtherAs));
    }
    match apply(alloc, topology, changes) {
        Ok(changed) => Ok(ruled(changed)),
        Err(why) => Err(refusal(alloc, topology, changes, file, why)),
    }
}
