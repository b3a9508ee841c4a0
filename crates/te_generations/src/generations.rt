//! The generations of one element.
ghost use Rattle.std.specs.Prelude.{◌≡◌, ◌≤◌, ◌<◌, ◌+◌, ◌↔◌, ℕ, [], length, Some, Err, IfOk, OnOk, OnErr};
ghost use Rattle.std.specs.Arc.{arc_value};
ghost use Rattle.te_links.specs.Rows.{IsTopology, IsInOrder};
ghost use Rattle.te_generations.specs.Live.{empty_rows};
ghost use Rattle.te_generations.specs.Shelf.{IsShelf, IsFull, pins_of, topology_of, all_pins, new_shelf, loaded_of, pinned_of, pins_most, released_of};

use crate::LIVE_MAX;
use crate::among::{release_among, shared_among, topology_in};
use crate::live::Live;
use dom_base::{As, NoMemory};
use std::alloc::{AllocError, AllocFailed, Global};
use std::marker::Model;
use std::mem;
use std::sync::Arc;
use te_links::Topology;

/// Why a topology was not loaded.
#[derive(Clone, Copy)]
pub enum LoadError {
    Full,
    NoMemory,
}

/// Keeps a generation live until it is released. Contracts see it as the number of its generation.
#[derive(Drop)]
pub struct Pin {
    generation: u64,
}

impl Model for Pin {
    ghost use Rattle.std.specs.Prelude.{ℕ};

    ghost Value = { ℕ };

    ghost view = { λ p. p.generation };
}

/// The generations of the topology of one element: the current one, and those that are pinned.
#[derive(Drop)]
pub struct Generations {
    alloc: Global,
    older: Vec<Live>,
    current: Live,
}

impl Model for Generations {
    ghost use Rattle.te_links.specs.Rows.{Rows};
    ghost use Rattle.te_generations.specs.Shelf.{Shelf};

    ghost Value = { Shelf Rows };

    ghost use Rattle.te_generations.specs.Fields.{shelf_of, HoldsShelf};

    ghost view = { shelf_of };

    ghost invariant = { HoldsShelf };
}

impl Generations {
    /// Generation 0 alone, without a pin and without nodes.
    pub fn new(alloc: Global, own: As) -> Result<Generations, NoMemory>
        ensures { IfOk result (λ g. g ≡ new_shelf (empty_rows own)) }
    {
        let topology = Arc::new(alloc, Topology::empty(alloc, own))?;
        Ok(Generations {
            alloc,
            older: Vec::new(alloc),
            current: Live {
                number: 0,
                pins: 0,
                topology,
            },
        })
    }

    /// Makes a topology the current one, under the next number. The one before stays live while it is
    /// pinned.
    pub fn load(&mut self, topology: Topology) -> Result<u64, LoadError>
        ensures number { IfOk result (λ number. number ≡ self.old.current.number + 1) }
        ensures ok { OnOk result (self.new ≡ loaded_of self.old topology) }
        ensures full { (result ≡ Err LoadError.Full) ↔ IsFull self.old }
        ensures err { OnErr result (self.new ≡ self.old) }
    {
        if self.older.len() + 1 >= LIVE_MAX || self.current.number == u64::MAX {
            return Err(LoadError::Full);
        }
        if self.older.reserve(1).is_err() {
            return Err(LoadError::NoMemory);
        }
        let Ok(topology) = Arc::new(self.alloc, topology) else {
            return Err(LoadError::NoMemory);
        };
        let number = self.current.number + 1;
        let next = Live {
            number,
            pins: 0,
            topology,
        };
        let last = mem::replace(&mut self.current, next);
        if last.pins > 0 {
            match self.older.push(last) {
                Ok(()) => {}
                Err(_) => unreachable!(),
            }
        }
        Ok(number)
    }

    /// Pins the current generation; takes no memory.
    pub fn pin(&mut self) -> Pin
        requires { all_pins self.old < pins_most }
        ensures pin { result ≡ self.old.current.number }
        ensures pinned { self.new ≡ pinned_of self.old }
    {
        self.current.pins += 1;
        Pin {
            generation: self.current.number,
        }
    }

    /// Gives back a pin of this value; takes no memory. A generation that is not current ends with its
    /// last pin.
    pub fn release(&mut self, pin: Pin)
        requires { 1 ≤ pins_of self.old pin }
        ensures { self.new ≡ released_of self.old pin }
    {
        let number = pin.generation;
        if self.current.number == number {
            self.current.pins -= 1;
            return;
        }
        release_among(&mut self.older, number);
    }

    /// The number of the current generation; takes no memory.
    pub fn current(&self) -> u64
        ensures number { result ≡ self.now.current.number }
        ensures rules { IsShelf self.now }
    {
        self.current.number
    }

    /// How many generations are live; takes no memory.
    pub fn live(&self) -> usize
        ensures many { result ≡ length self.now.older + 1 }
        ensures rules { IsShelf self.now }
    {
        self.older.len() + 1
    }

    /// The number of a pinned generation; takes no memory.
    pub fn generation(&self, pin: &Pin) -> u64
        ensures { result ≡ pin.now }
    {
        pin.generation
    }

    /// The topology of a pin of this value; takes no memory.
    pub fn topology(&self, pin: &Pin) -> &Topology
        requires { 1 ≤ pins_of self.now pin.now }
        ensures topology { topology_of self.now pin.now ≡ Some result.now }
        ensures rules { IsTopology result.now }
        ensures order { IsInOrder result.now }
    {
        let topology = if self.current.number == pin.generation {
            &*self.current.topology
        } else {
            topology_in(&self.older, pin.generation)
        };
        let _own = topology.own();
        topology
    }

    /// The current topology, as a further owner of it.
    pub fn latest(&self) -> Result<Arc<Topology>, NoMemory>
        ensures { IfOk result (λ topology. arc_value topology ≡ self.now.current.topology) }
    {
        Ok(self.current.topology.clone()?)
    }

    /// The topology of a pin of this value, as a further owner of it.
    pub fn of(&self, pin: &Pin) -> Result<Arc<Topology>, NoMemory>
        requires { 1 ≤ pins_of self.now pin.now }
        ensures { IfOk result (λ topology. topology_of self.now pin.now ≡ Some (arc_value topology)) }
    {
        if self.current.number == pin.generation {
            return Ok(self.current.topology.clone()?);
        }
        shared_among(&self.older, pin.generation)
    }
}
