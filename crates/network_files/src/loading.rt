//! Settings and topologies from files of a store.
ghost use Rattle.std.specs.Prelude.{◌≡◌, ◌≤◌, IfOk, IfErr};
ghost use Rattle.plant_text.specs.Reads.{IsFaulty};
ghost use Rattle.network_files.specs.Loading.{IsWhyNot, unread};
ghost use Rattle.network_files.specs.Settings.{HasNetwork, settings_max};
ghost use Rattle.network_files.specs.Topologies.{HasTopology, IsFaultyAt, topology_max};

use dom_edge::{Store, StoreError};
use plant_text::{NetError, NetFault, Network, read_network};
use std::alloc::Global;
use te_links::{TopoFault, Topology};
use te_text::{TextError, read_topology};

/// How many bytes a file of settings may have.
pub const SETTINGS_MAX: usize = 1_048_576;

/// How many bytes a topology file may have.
pub const TOPOLOGY_MAX: usize = 4_194_304;

/// Why a file gives nothing. `F` is what can be wrong with its text.
#[derive(Drop)]
pub enum LoadError<F> {
    /// The read failed, or no file has the name.
    Failed,
    /// The file has more bytes than one of its kind may have.
    TooLong,
    /// The fault of the text.
    Fault(F),
    NoMemory,
}

impl<F> From<StoreError> for LoadError<F> {
    ghost from_gives = { λ why e. e ≡ unread why };

    fn from(why: StoreError) -> Self {
        match why {
            StoreError::TooLong => LoadError::TooLong,
            StoreError::Failed => LoadError::Failed,
            StoreError::NoMemory => LoadError::NoMemory,
        }
    }
}

/// The first line at fault, from 1, and its fault.
#[derive(Clone, Copy)]
pub struct LineFault {
    pub line: u32,
    pub fault: TopoFault,
}

/// The topology in the file of that name.
pub fn load_topology<S: Store>(
    alloc: Global,
    store: &mut S,
    name: &str,
) -> Result<Topology, LoadError<LineFault>>
    ensures ok { IfOk result (HasTopology (S.files store.old) name.now) }
    ensures err { IfErr result (IsWhyNot IsFaultyAt topology_max (S.files store.old) name.now (S.faults store.old, S.faults store.new) (S.failed_at store.new)) }
    ensures files { S.files store.new ≡ S.files store.old }
    ensures later { S.faults store.old ≤ S.faults store.new }
{
    let bytes = store.read(alloc, name, TOPOLOGY_MAX)?;
    match read_topology(alloc, bytes.as_slice()) {
        Ok(topology) => Ok(topology),
        Err(TextError::At(line, fault)) => Err(LoadError::Fault(LineFault { line, fault })),
        Err(TextError::NoMemory) => Err(LoadError::NoMemory),
    }
}

/// The settings in the file of that name. A fault of settings has no line.
pub fn load_network<S: Store>(
    alloc: Global,
    store: &mut S,
    name: &str,
) -> Result<Network, LoadError<NetFault>>
    ensures ok { IfOk result (HasNetwork (S.files store.old) name.now) }
    ensures err { IfErr result (IsWhyNot IsFaulty settings_max (S.files store.old) name.now (S.faults store.old, S.faults store.new) (S.failed_at store.new)) }
    ensures files { S.files store.new ≡ S.files store.old }
    ensures later { S.faults store.old ≤ S.faults store.new }
{
    let bytes = store.read(alloc, name, SETTINGS_MAX)?;
    match read_network(alloc, bytes.as_slice()) {
        Ok(network) => Ok(network),
        Err(NetError::Fault(fault)) => Err(LoadError::Fault(fault)),
        Err(NetError::NoMemory) => Err(LoadError::NoMemory),
    }
}
