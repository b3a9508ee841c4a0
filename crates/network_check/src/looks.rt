//! What the files of a network were found to be.
ghost use Rattle.std.specs.Prelude.{◌≡◌, ◌≤◌, IfOk, OnOk, Some, length};
ghost use Rattle.toml.specs.View.{table_view};
ghost use Rattle.plant_text.specs.Reads.{document};
ghost use Rattle.network_files.specs.Settings.{settings_max};
ghost use Rattle.network_files.specs.Reading.{IsTopologyFault};
ghost use Rattle.network_files.specs.Topologies.{topology_max};
ghost use Rattle.network_check.specs.Forms.{is_form_fault};
ghost use Rattle.network_check.specs.Looks.{AreSeen, IsChartLook, IsChartText, IsSettings, IsSettingsText, SeesRow};

use crate::breaches::{Breach, breaches_of};
use crate::documents::{Parsed, read_document};
use dom_base::{As, Bytes, List, NoMemory, Text};
use dom_edge::{Store, StoreError};
use network_files::{FileError, SETTINGS_MAX, TOPOLOGY_MAX, topology_of};
use plant_text::{ElementRow, NetError, NetFault, Network, read_network};
use std::alloc::Global;
use te_links::{TopoFault, Topology};
use toml::Table;

/// The text of a topology, and what it says.
#[derive(Drop)]
pub struct Chart {
    pub text: Bytes,
    pub topology: Topology,
}

/// What the file of an element's topology was found to be.
#[derive(Drop)]
pub enum Look {
    Read(Chart),
    /// The text, which is outside the form of a topology.
    Malformed(Bytes),
    /// The faults, one after another.
    Refused(List<Breach>),
    /// The read failed, or no file has the name.
    Unread,
    TooLong,
}

/// The file of an element's topology, and what it was found to be.
#[derive(Drop)]
pub struct Seen {
    pub at: As,
    pub file: Text,
    pub look: Look,
}

/// What the file of the settings was found to be.
#[derive(Drop)]
pub enum Settings {
    /// The text, and the network that it gives.
    Sound(Bytes, Network),
    /// The text, its document, and the first rule that it breaks.
    Faulty(Bytes, Table, NetFault),
    /// The text is no document, from this line on.
    NoDocument(u32),
    /// The read failed, or no file has the name.
    Unread,
    TooLong,
}

// ---- settings

// The settings of a text that has this document.
fn settings_of(alloc: Global, text: Bytes, root: Table) -> Result<Settings, NoMemory>
    requires document { document text ≡ Some (table_view root) }
    ensures { IfOk result (IsSettingsText text) }
{
    match read_network(alloc, text.as_slice()) {
        Ok(network) => Ok(Settings::Sound(text, network)),
        Err(NetError::Fault(fault)) => Ok(Settings::Faulty(text, root, fault)),
        Err(NetError::NoMemory) => Err(NoMemory),
    }
}

fn settings_in(alloc: Global, text: Bytes) -> Result<Settings, NoMemory>
    requires short { length text ≤ settings_max }
    ensures { IfOk result (IsSettingsText text) }
{
    match read_document(alloc, text.as_slice())? {
        Parsed::Document(root) => settings_of(alloc, text, root),
        Parsed::NoneAt(line) => Ok(Settings::NoDocument(line)),
    }
}

/// Reads the file of the settings.
#[tactic(auto, using(crate::proofs::Reading::settings_look))]
pub(crate) fn look_at_settings<S: Store>(
    alloc: Global,
    store: &mut S,
    name: &str,
) -> Result<Settings, NoMemory>
    ensures look { IfOk result (IsSettings (S.files store.old) name.now (S.faults store.old, S.faults store.new)) }
    ensures files { S.files store.new ≡ S.files store.old }
    ensures later { S.faults store.old ≤ S.faults store.new }
{
    match store.read(alloc, name, SETTINGS_MAX) {
        Ok(text) => settings_in(alloc, text),
        Err(StoreError::TooLong) => Ok(Settings::TooLong),
        Err(StoreError::Failed) => Ok(Settings::Unread),
        Err(StoreError::NoMemory) => Err(NoMemory),
    }
}

// ---- topologies

// Whether the text is outside the form, since it breaks no rule of rows.
fn is_of_form(fault: &NetFault) -> bool
    ensures { result ≡ is_form_fault fault.now }
{
    match fault {
        NetFault::Topo(TopoFault::Syntax) | NetFault::Topo(TopoFault::NoHeader) => true,
        _other => false,
    }
}

// A topology that is refused.
#[tactic(auto, using(crate::proofs::Forming::is_malformed))]
fn refused_chart(alloc: Global, at: As, text: Bytes, first: Breach) -> Result<Look, NoMemory>
    requires short { length text ≤ topology_max }
    requires first { IsTopologyFault at text first.line first.fault }
    ensures { IfOk result (IsChartText at text) }
{
    if is_of_form(&first.fault) {
        return Ok(Look::Malformed(text));
    }
    Ok(Look::Refused(breaches_of(alloc, at, text, first)?))
}

fn chart_in(alloc: Global, at: As, text: Bytes) -> Result<Look, NoMemory>
    requires short { length text ≤ topology_max }
    ensures { IfOk result (IsChartText at text) }
{
    match topology_of(alloc, at, text.as_slice()) {
        Ok(topology) => Ok(Look::Read(Chart { text, topology })),
        Err(FileError::BadFile(line, fault)) => {
            refused_chart(alloc, at, text, Breach { line, fault })
        }
        Err(FileError::NoMemory) => Err(NoMemory),
    }
}

#[tactic(auto, using(crate::proofs::Reading::chart_look))]
fn look_at_chart<S: Store>(
    alloc: Global,
    store: &mut S,
    at: As,
    name: &str,
) -> Result<Look, NoMemory>
    ensures look { IfOk result (IsChartLook (S.files store.old) at name.now (S.faults store.old, S.faults store.new)) }
    ensures files { S.files store.new ≡ S.files store.old }
    ensures later { S.faults store.old ≤ S.faults store.new }
{
    match store.read(alloc, name, TOPOLOGY_MAX) {
        Ok(text) => chart_in(alloc, at, text),
        Err(StoreError::TooLong) => Ok(Look::TooLong),
        Err(StoreError::Failed) => Ok(Look::Unread),
        Err(StoreError::NoMemory) => Err(NoMemory),
    }
}

fn look_at_row<S: Store>(
    alloc: Global,
    store: &mut S,
    row: &ElementRow,
    seen: &mut List<Seen>,
) -> Result<(), NoMemory>
    ensures sees { OnOk result (SeesRow (S.files store.old) row.now.own row.now.topology (S.faults store.old, S.faults store.new) seen.old seen.new) }
    ensures files { S.files store.new ≡ S.files store.old }
    ensures later { S.faults store.old ≤ S.faults store.new }
{
    let Some(name) = &row.topology else {
        return Ok(());
    };
    let look = look_at_chart(alloc, store, row.own, name.as_str())?;
    let file = Text::copy_of(alloc, name.as_str())?;
    seen.push(Seen {
        at: row.own,
        file,
        look,
    })
}

/// Reads the files of the topologies that these rows name, in their order.
pub(crate) fn look_at_rows<S: Store>(
    alloc: Global,
    store: &mut S,
    rows: &[ElementRow],
) -> Result<List<Seen>, NoMemory>
    ensures seen { IfOk result (AreSeen (S.files store.old) rows.now (S.faults store.old, S.faults store.new)) }
    ensures files { S.files store.new ≡ S.files store.old }
    ensures later { S.faults store.old ≤ S.faults store.new }
{
    let mut seen = List::new(alloc);
    for i in 0..rows.len() {
        look_at_row(alloc, store, &rows[i], &mut seen)?;
    }
    Ok(seen)
}
