//! The files of a command.
ghost use Rattle.std.specs.Prelude.{◌≡◌, ◌≤◌, ◌<◌, ◌^◌, ℕ, List, length, IfOk, IfErr, Err, Some};
ghost use Rattle.te_text.specs.declared.error.TextError.TheVariants.{At};
ghost use Rattle.te_text.specs.Reads.{IsFaulty};
ghost use Rattle.te_links.specs.declared.fault.TopoFault.{TopoFault};
ghost use Rattle.path_certificate.specs.Rows.{AreLabelRows};
ghost use Rattle.path_certificate.specs.Text.{certificate_in};
ghost use Rattle.network_files.specs.Settings.{HasNetwork, settings_max};
ghost use Rattle.pce_tool.specs.Limits.{certificate_max};
ghost use Rattle.pce_tool.specs.Around.{IsSettingsFault};
ghost use Rattle.dom_edge.specs.Stores.{HasFile};
ghost use Rattle.network_files.specs.Topologies.{HasTopology, topology_max};
ghost use Rattle.diverse_pairs.specs.Potentials.{HasRising};
ghost use Rattle.diverse_pairs.specs.Text.{pair_in};
ghost use Rattle.pce_tool.specs.Files.{HasCertificate, HasPairCertificate, IsTopo};
ghost use Rattle.pce_tool.specs.Parts.{IsFileStatus, IsBadAt, IsBadSettings, IsNoFault, IsTooLarge};

use crate::limits::CERTIFICATE_MAX;
use crate::status::Status;
use diverse_pairs::{PairCertificate, read_pair};
use dom_base::{Bytes, Text};
use dom_edge::{Store, StoreError};
use network_files::LoadError;
use path_certificate::{Certificate, read_certificate};
use plant_text::{NetFault, Network};
use std::alloc::Global;
use te_links::{TopoFault, Topology};
use te_text::TextError;

// The status of a run that ends at a line of a file.
fn bad_network(alloc: Global, name: &str, line: u32, fault: TopoFault) -> Status
    ensures { IsBadAt name.now line fault result }
{
    match Text::copy_of(alloc, name) {
        Ok(file) => Status::BadNetwork {
            file,
            line,
            fault: NetFault::Topo(fault),
        },
        Err(_) => Status::NoMemory,
    }
}

// The status of a run that ends at settings.
pub(crate) fn bad_settings(alloc: Global, name: &str, fault: NetFault) -> Status
    ensures { IsBadSettings name.now fault result }
{
    match Text::copy_of(alloc, name) {
        Ok(file) => Status::BadNetwork {
            file,
            line: 0,
            fault,
        },
        Err(_) => Status::NoMemory,
    }
}

// The status of a run that ends at a file above its limit.
fn too_large(alloc: Global, name: &str) -> Status
    ensures { IsTooLarge name.now result }
{
    match Text::copy_of(alloc, name) {
        Ok(file) => Status::TooLarge(file),
        Err(_) => Status::NoMemory,
    }
}

// The bytes of a file.
fn read_file<S: Store>(
    alloc: Global,
    store: &mut S,
    name: &str,
    limit: usize,
) -> Result<Bytes, Status>
    ensures ok { IfOk result (HasFile (S.files store.old) name.now) }
    ensures within { IfOk result (λ bytes. length bytes ≤ limit) }
    ensures err { IfErr result (IsFileStatus (S.files store.old) name.now limit IsNoFault (S.faults store.old, S.faults store.new) (S.failed_at store.new)) }
    ensures files { S.files store.new ≡ S.files store.old }
    ensures later { S.faults store.old ≤ S.faults store.new }
{
    match store.read(alloc, name, limit) {
        Ok(bytes) => Ok(bytes),
        Err(StoreError::TooLong) => Err(too_large(alloc, name)),
        Err(StoreError::Failed) => Err(Status::ReadFault),
        Err(StoreError::NoMemory) => Err(Status::NoMemory),
    }
}

/// The topology in a file.
pub fn load_topology<S: Store>(alloc: Global, store: &mut S, name: &str) -> Result<Topology, Status>
    ensures ok { IfOk result (HasTopology (S.files store.old) name.now) }
    ensures err { IfErr result (IsFileStatus (S.files store.old) name.now topology_max (λ bytes line. IsTopo (λ told. IsFaulty bytes line told)) (S.faults store.old, S.faults store.new) (S.failed_at store.new)) }
    ensures files { S.files store.new ≡ S.files store.old }
    ensures later { S.faults store.old ≤ S.faults store.new }
{
    match network_files::load_topology(alloc, store, name) {
        Ok(topology) => Ok(topology),
        Err(LoadError::Failed) => Err(Status::ReadFault),
        Err(LoadError::TooLong) => Err(too_large(alloc, name)),
        Err(LoadError::Fault(at)) => Err(bad_network(alloc, name, at.line, at.fault)),
        Err(LoadError::NoMemory) => Err(Status::NoMemory),
    }
}

/// The certificate in a file, for a topology.
pub fn load_certificate<S: Store>(
    alloc: Global,
    store: &mut S,
    name: &str,
    topology: &Topology,
) -> Result<Certificate, Status>
    ensures ok { IfOk result (HasCertificate (S.files store.old) name.now topology.now) }
    ensures rows { IfOk result (λ c. AreLabelRows topology.now.nodes c.labels) }
    ensures err { IfErr result (IsFileStatus (S.files store.old) name.now certificate_max (λ bytes line. IsTopo (λ told. certificate_in topology.now bytes ≡ Err (At line told))) (S.faults store.old, S.faults store.new) (S.failed_at store.new)) }
    ensures files { S.files store.new ≡ S.files store.old }
    ensures later { S.faults store.old ≤ S.faults store.new }
{
    let bytes = read_file(alloc, store, name, CERTIFICATE_MAX)?;
    match read_certificate(alloc, bytes.as_slice(), topology) {
        Ok(certificate) => Ok(certificate),
        Err(TextError::At(line, fault)) => Err(bad_network(alloc, name, line, fault)),
        Err(TextError::NoMemory) => Err(Status::NoMemory),
    }
}

/// The certificate of a pair in a file, for a topology.
pub fn load_pair_certificate<S: Store>(
    alloc: Global,
    store: &mut S,
    name: &str,
    topology: &Topology,
) -> Result<PairCertificate, Status>
    ensures ok { IfOk result (HasPairCertificate (S.files store.old) name.now topology.now) }
    ensures rising { IfOk result (λ c. HasRising c.form) }
    ensures err { IfErr result (IsFileStatus (S.files store.old) name.now certificate_max (λ bytes line. IsTopo (λ told. pair_in topology.now bytes ≡ Err (At line told))) (S.faults store.old, S.faults store.new) (S.failed_at store.new)) }
    ensures files { S.files store.new ≡ S.files store.old }
    ensures later { S.faults store.old ≤ S.faults store.new }
{
    let bytes = read_file(alloc, store, name, CERTIFICATE_MAX)?;
    match read_pair(alloc, bytes.as_slice(), topology) {
        Ok(certificate) => Ok(certificate),
        Err(TextError::At(line, fault)) => Err(bad_network(alloc, name, line, fault)),
        Err(TextError::NoMemory) => Err(Status::NoMemory),
    }
}

/// The settings in a file.
pub(crate) fn load_network<S: Store>(
    alloc: Global,
    store: &mut S,
    name: &str,
) -> Result<Network, Status>
    ensures ok { IfOk result (HasNetwork (S.files store.old) name.now) }
    ensures err { IfErr result (IsFileStatus (S.files store.old) name.now settings_max IsSettingsFault (S.faults store.old, S.faults store.new) (S.failed_at store.new)) }
    ensures files { S.files store.new ≡ S.files store.old }
    ensures later { S.faults store.old ≤ S.faults store.new }
{
    match network_files::load_network(alloc, store, name) {
        Ok(network) => Ok(network),
        Err(LoadError::Failed) => Err(Status::ReadFault),
        Err(LoadError::TooLong) => Err(too_large(alloc, name)),
        Err(LoadError::Fault(fault)) => Err(bad_settings(alloc, name, fault)),
        Err(LoadError::NoMemory) => Err(Status::NoMemory),
    }
}
