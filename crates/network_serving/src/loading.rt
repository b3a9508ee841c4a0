//! The topologies that the settings name are loaded and shown.
ghost use Rattle.std.specs.Prelude.{◌≡◌, ◌≤◌, ◌++◌, ◌∷◌, [], IfErr, IfOk, OnOk, None, true};
ghost use Rattle.te_text.specs.Reads.{Reads};
ghost use Rattle.network_files.specs.Loading.{FileSays};
ghost use Rattle.network_files.specs.Reading.{IsTopologyFault};
ghost use Rattle.plant_network.specs.Topologies.{whole};
ghost use Rattle.plant_network.specs.Whole.{IsBegun};
ghost use Rattle.plant_text.specs.Settings.{is_element};
ghost use Rattle.ted_watch.specs.Published.{last_of};
ghost use Rattle.ted_watch.specs.Watch.{list_of, published};
ghost use Rattle.turn_desk.specs.Histories.{NoneIsPending};
ghost use Rattle.server_loops.specs.Operating.{AreOfElements};
ghost use Rattle.network_serving.specs.Files.{IsFileEnd, IsNamedEnd, IsTopologyEnd, topology_max};
ghost use Rattle.network_serving.specs.Loaded.{IsLoaded};
ghost use Rattle.network_serving.specs.Loading.{LoadsAt, LoadsNamed};
ghost use Rattle.network_serving.specs.declared.served.Served.TheVariants.{NoMemory as OutOfMemory};

use crate::served::Served;
use crate::settings::{bad_network, read_file};
use dom_base::As;
use dom_edge::Store;
use network_files::{FileError, topology_of};
use plant_network::Plant;
use plant_network::model::{Event, Outcome};
use plant_text::{ElementRow, Network};
use std::alloc::Global;
use std::sync::Wait;
use te_links::Topology;
use ted_watch::{Publisher, Shown};

// How many bytes a topology may have.
const TOPOLOGY_MAX: usize = 4_194_304;

// The topology of an element, in the file of that name.
#[tactic(auto, using(crate::proofs::Causes::bad_line, crate::proofs::Causes::not_read, crate::proofs::Loads::says))]
fn topology_in<T: Store>(
    alloc: Global,
    store: &mut T,
    at: As,
    name: &str,
) -> Result<Topology, Served>
    ensures own { IfOk result (λ topology. topology.own ≡ at) }
    ensures says { IfOk result (FileSays Reads topology_max (T.files store.old) name.now) }
    ensures err { IfErr result (IsFileEnd (T.files store.old) name.now topology_max (IsTopologyFault at) (T.faults store.old, T.faults store.new) (T.failed_at store.new)) }
    ensures files { T.files store.new ≡ T.files store.old }
    ensures later { T.faults store.old ≤ T.faults store.new }
{
    let bytes = read_file(alloc, store, name, TOPOLOGY_MAX)?;
    match topology_of(alloc, at, bytes.as_slice()) {
        Ok(topology) => Ok(topology),
        Err(FileError::BadFile(line, fault)) => Err(bad_network(alloc, name, line, fault)),
        Err(FileError::NoMemory) => Err(Served::NoMemory),
    }
}

// Shows an entry of an element of which none was shown.
#[tactic(auto, using(crate::proofs::Loads::shown_too))]
fn show<R: Wait + Drop>(
    network: &Network,
    publisher: &mut Publisher<R>,
    shown: Shown,
) -> Result<(), Served>
    requires elements { AreOfElements network.now (published publisher.old) }
    requires element { is_element network.now shown.at ≡ true }
    requires first { last_of shown.at.0 (published publisher.old) ≡ None }
    ensures shown { OnOk result (published publisher.new ≡ published publisher.old ++ shown ∷ []) }
    ensures elements { AreOfElements network.now (published publisher.new) }
    ensures list { list_of publisher.new ≡ list_of publisher.old }
    ensures err { IfErr result (λ s. s ≡ OutOfMemory) }
{
    let _settings = network.parts();
    match publisher.show(shown) {
        Ok(()) => Ok(()),
        Err(_) => Err(Served::NoMemory),
    }
}

// Loads a topology and shows it. A first load of an element is refused only when memory runs out.
#[tactic(auto, using(crate::proofs::Loads::loads_at))]
fn load<R: Wait + Drop>(
    plant: &mut Plant,
    network: &Network,
    publisher: &mut Publisher<R>,
    at: As,
    topology: Topology,
) -> Result<(), Served>
    requires own { topology.own ≡ at }
    requires elements { AreOfElements network.now (published publisher.old) }
    requires element { is_element network.now at ≡ true }
    requires first { last_of at.0 (published publisher.old) ≡ None }
    ensures loads { OnOk result (LoadsAt at topology (whole plant.old) (published publisher.old) (whole plant.new) (published publisher.new)) }
    ensures elements { AreOfElements network.now (published publisher.new) }
    ensures list { list_of publisher.new ≡ list_of publisher.old }
    ensures err { IfErr result (λ s. s ≡ OutOfMemory) }
{
    let nodes = topology.node_count();
    let links = topology.link_count();
    match plant.step(Event::Load(at, topology)) {
        Ok(Outcome::Loaded(generation)) => show(
            network,
            publisher,
            Shown {
                at,
                generation,
                nodes,
                links,
            },
        ),
        Ok(_) => Err(Served::NoMemory),
        Err(_) => Err(Served::NoMemory),
    }
}

// Loads the topology that an element's row names, if it names one.
#[tactic(auto, using(crate::proofs::Causes::named_end, crate::proofs::Causes::named_want, crate::proofs::Loads::none_named, crate::proofs::Loads::one_named))]
fn load_row<T: Store, R: Wait + Drop>(
    alloc: Global,
    store: &mut T,
    plant: &mut Plant,
    network: &Network,
    publisher: &mut Publisher<R>,
    row: &ElementRow,
) -> Result<(), Served>
    requires elements { AreOfElements network.now (published publisher.old) }
    requires element { is_element network.now row.now.own ≡ true }
    requires first { last_of row.now.own.0 (published publisher.old) ≡ None }
    ensures loads { OnOk result (LoadsNamed (T.files store.old) row.now.own row.now.topology (whole plant.old) (published publisher.old) (whole plant.new) (published publisher.new)) }
    ensures err { IfErr result (IsNamedEnd (T.files store.old) row.now.own row.now.topology (T.faults store.old, T.faults store.new) (T.failed_at store.new)) }
    ensures elements { AreOfElements network.now (published publisher.new) }
    ensures list { list_of publisher.new ≡ list_of publisher.old }
    ensures files { T.files store.new ≡ T.files store.old }
    ensures later { T.faults store.old ≤ T.faults store.new }
{
    let Some(name) = &row.topology else {
        return Ok(());
    };
    let topology = topology_in(alloc, store, row.own, name.as_str())?;
    load(plant, network, publisher, row.own, topology)
}

/// Loads the topologies that the elements' rows name, in their order, into a network that has just been made, and shows each.
#[tactic(auto, using(crate::proofs::Causes::row_end, crate::proofs::Loads::loaded_none, crate::proofs::Loads::row_is_element, crate::proofs::Opening::begins))]
pub(crate) fn load_all<T: Store, R: Wait + Drop>(
    alloc: Global,
    store: &mut T,
    plant: &mut Plant,
    network: &Network,
    publisher: &mut Publisher<R>,
) -> Result<(), Served>
    requires begun { IsBegun network.now (whole plant.old) }
    requires unshown { published publisher.old ≡ [] }
    ensures loaded { OnOk result (IsLoaded (T.files store.old) network.now network.now.elements (published publisher.new) (whole plant.new)) }
    ensures none { OnOk result (NoneIsPending (whole plant.new).state) }
    ensures err { IfErr result (IsTopologyEnd (T.files store.old) network.now (T.faults store.old, T.faults store.new) (T.failed_at store.new)) }
    ensures elements { OnOk result (AreOfElements network.now (published publisher.new)) }
    ensures list { list_of publisher.new ≡ list_of publisher.old }
    ensures files { T.files store.new ≡ T.files store.old }
    ensures later { T.faults store.old ≤ T.faults store.new }
{
    let parts = network.parts();
    let rows = parts.elements.as_slice();
    for i in 0..rows.len() {
        load_row(alloc, store, plant, network, publisher, &rows[i])?;
    }
    Ok(())
}
