//! A world with topologies: the current one, and those that pending requests pin.
ghost use Rattle.std.specs.Prelude.{◌≡◌, ◌≤◌, ◌<◌, ◌↔◌, length, suc, Err, IsTrue, IfOk, OnOk, OnErr};
ghost use Rattle.std.specs.Option.{option_map};
ghost use Rattle.std.specs.Arc.{arc_value};
ghost use Rattle.disclosure.specs.Shown.{open_of};
ghost use Rattle.request_table.specs.Pending.{item_of};
ghost use Rattle.pce_common.specs.plant_model.Plant.{first_pin, is_full, live_numbers};
ghost use Rattle.pce_element.specs.Committing.{own_part};
ghost use Rattle.pce_element.specs.Rows.{pin_in, pin_with};
ghost use Rattle.pce_element.specs.Seen.{SameButRoom, with_current};
ghost use Rattle.pce_element.specs.Topologies.{KeepsPins, current_of};
ghost use Rattle.pce_element.specs.Worlds.{IsKept};

use crate::element::Element;
use crate::pinned::PinnedRequests;
use crate::world::World;
use border_costs::Solved;
use disclosure::open_hops;
use dom_base::{Addr, As, List, NoMemory};
use pcep_subobjects::Hop;
use std::alloc::Global;
use std::marker::Model;
use std::snapshot::Snapshot;
use std::sync::Arc;
use te_generations::{Generations, LoadError, Pin};
use te_links::Topology;
use vspt_tree::Best;

/// The topologies of a domain.
pub struct Topologies {
    generations: Generations,
}

// Written, so that it is proved in this crate alone.
impl Drop for Topologies {
    fn drop(self) {
        let Topologies { generations: _ } = self;
    }
}

/// The topology that a request pins.
#[derive(Drop)]
pub struct PinnedTopology {
    pin: Pin,
    topology: Snapshot<Topology>,
}

impl Model for PinnedTopology {
    ghost use Rattle.pce_common.specs.plant_model.Plant.{Pin};

    ghost Value = { Pin };

    ghost view = { λ a. record { number = a.pin; topology = a.topology.value } };
}

impl World for Topologies {
    type Pin = PinnedTopology;

    type Segment = List<Addr>;

    type Solved = Solved;

    ghost first = { first_pin };

    ghost current = { λ world. current_of world.generations };

    ghost Keeps = { λ world. KeepsPins world.generations };

    ghost stands = { own_part };

    ghost show = { open_of };

    fn begin(alloc: Global, own: As) -> Result<Topologies, NoMemory> {
        Ok(Topologies {
            generations: Generations::new(alloc, own)?,
        })
    }

    fn pin(&mut self) -> PinnedTopology {
        let pin = self.generations.pin();
        let topology = Snapshot::of(self.generations.topology(&pin));
        PinnedTopology { pin, topology }
    }

    fn release(&mut self, pin: PinnedTopology) {
        let _last = self.generations.current();
        self.generations.release(pin.pin);
    }

    fn segment(alloc: Global, best: &Best) -> Result<List<Addr>, NoMemory> {
        best.segment.copy(alloc)
    }

    fn hops(alloc: Global, segment: &List<Addr>) -> Result<List<Hop>, NoMemory> {
        open_hops(alloc, segment.as_slice())
    }
}

impl Topologies {
    // The topology of a pin that is kept, with its number, as a further owner of it.
    fn of(&self, pinned: &PinnedTopology) -> Result<(u64, Arc<Topology>), NoMemory>
        requires { IsKept (KeepsPins self.now.generations) pinned.now }
        ensures { IfOk result (λ pin. pin_with pin.0 (arc_value pin.1) ≡ pinned.now) }
    {
        let generation = self.generations.generation(&pinned.pin);
        let topology = self.generations.of(&pinned.pin)?;
        Ok((generation, topology))
    }
}

impl PinnedRequests<Topologies> {
    fn load(&mut self, topology: Topology) -> Result<u64, LoadError>
        ensures number { IfOk result (λ number. number ≡ suc self.old.current.number) }
        ensures ok { OnOk result (self.new ≡ record self.old { current = record { number = suc self.old.current.number; topology = topology } }) }
        ensures full { (result ≡ Err LoadError.Full) ↔ IsTrue (is_full self.old.current.number self.old.pending.rows) }
        ensures err { OnErr result (self.new ≡ self.old) }
    {
        let _last = self.world.generations.current();
        self.world.generations.load(topology)
    }

    fn latest(&self) -> Result<(u64, Arc<Topology>), NoMemory>
        ensures { IfOk result (λ latest. pin_with latest.0 (arc_value latest.1) ≡ self.now.current) }
    {
        let topology = self.world.generations.latest()?;
        Ok((self.world.generations.current(), topology))
    }

    fn live(&self) -> usize
        ensures { result ≡ length (live_numbers self.now.current.number self.now.pending.rows) }
    {
        self.world.generations.live()
    }

    /// The topology that a request pins, with its number, as a further owner of it.
    pub fn pinned(&self, number: u64) -> Result<Option<(u64, Arc<Topology>)>, NoMemory>
        ensures { IfOk result (λ pin. option_map (λ p. pin_with p.0 (arc_value p.1)) pin ≡ option_map pin_in (item_of self.now.pending number)) }
    {
        let Some(item) = self.requests.get(number) else {
            return Ok(None);
        };
        let topology = self.world.of(item.pin())?;
        Ok(Some(topology))
    }
}

impl Element<Topologies> {
    /// Makes a topology of its domain the current one, under the next number. Requests that were
    /// accepted keep theirs.
    pub fn load(&mut self, topology: Topology) -> Result<u64, LoadError>
        requires { topology.own ≡ self.old.place.own }
        ensures number { IfOk result (λ number. number ≡ suc self.old.current.number) }
        ensures ok { OnOk result (SameButRoom (with_current (record { number = suc self.old.current.number; topology = topology }) self.old) self.new) }
        ensures full { (result ≡ Err LoadError.Full) ↔ IsTrue (is_full self.old.current.number self.old.losing.element.pending.rows) }
        ensures err { OnErr result (self.new ≡ self.old) }
    {
        self.requests.load(topology)
    }

    /// The number of the current topology, and the topology as a further owner of it.
    pub fn topology(&self) -> Result<(u64, Arc<Topology>), NoMemory>
        ensures { IfOk result (λ latest. pin_with latest.0 (arc_value latest.1) ≡ self.now.current) }
    {
        self.requests.latest()
    }

    /// How many topologies are current or asked of; takes no memory.
    pub fn live(&self) -> usize
        ensures { result ≡ length (live_numbers self.now.current.number self.now.losing.element.pending.rows) }
    {
        self.requests.live()
    }
}
