//! A network as one value, whatever its members know of their domains.
ghost use Rattle.std.specs.Prelude.{◌≡◌, IfOk};
ghost use Rattle.plant_text.specs.Settings.{adjacencies};
ghost use Rattle.network_events.specs.network_links.Carried.{flow_of};
ghost use Rattle.network_events.specs.network_links.Waiting.{WaitsNext};
ghost use Rattle.plant_network.specs.Beginning.{IsBegun};
ghost use Rattle.plant_network.specs.Held.{whole};

use crate::beginning::{begin, traffic_of};
use dom_base::{As, NoMemory};
use network_events::Traffic;
use network_members::Hierarchy;
use pce_element::World;
use plant_queues::Said;
use plant_text::{Network as Settings, NetworkParts};
use std::alloc::Global;
use std::marker::Model;

/// All elements of a network, their parent, their sessions with one another and with outside peers, the queues
/// between them, and the clock.
pub struct Network<W: World> {
    pub(crate) alloc: Global,
    pub(crate) members: Hierarchy<W>,
    pub(crate) traffic: Traffic,
}

// Written, so that it is proved in this crate alone.
impl<W: World> Drop for Network<W> {
    fn drop(self) {
        let Network {
            alloc: _,
            members: _,
            traffic: _,
        } = self;
    }
}

impl<W: World> Model for Network<W> {
    ghost use Rattle.plant_network.specs.Held.{Held, IsSound, held};

    ghost Value = { Held W.Pin W.Segment };

    ghost view = { λ a. held a.members a.traffic };

    ghost invariant = { λ a. IsSound W.first (held a.members a.traffic) };
}

impl<W: World> Network<W> {
    /// A network of these settings. Each inner link is begun: an Open is in each of its queues (RFC 5440,
    /// section 4.2.1).
    pub fn new(alloc: Global, settings: Settings) -> Result<Network<W>, NoMemory>
        ensures { IfOk result (λ network. IsBegun W.first W.show settings (whole W.first network)) }
    {
        let mut traffic = traffic_of(alloc, settings.parts())?;
        let members = Hierarchy::new(alloc, settings)?;
        begin(&members, &mut traffic)?;
        Ok(Network {
            alloc,
            members,
            traffic,
        })
    }

    /// The settings.
    pub fn parts(&self) -> &NetworkParts
        ensures { result.now ≡ (whole W.first self.now).network }
    {
        self.members.parts()
    }

    /// The settings as the value that they came in.
    pub fn network(&self) -> &Settings
        ensures { result.now ≡ (whole W.first self.now).network }
    {
        self.members.network()
    }

    /// Its elements and their parent, to be read.
    pub fn members(&self) -> &Hierarchy<W>
        ensures { result.now ≡ self.now.members }
    {
        &self.members
    }

    /// Its clock, connections, links and queues, to be read.
    pub fn traffic(&self) -> &Traffic
        ensures traffic { result.now ≡ self.now.carried }
        ensures along { (flow_of result.now).adjacencies ≡ adjacencies (whole W.first self.now).network }
    {
        &self.traffic
    }

    /// The messages that the last accepted event put into queues, in order; takes no memory.
    pub fn said(&self) -> &Said
        ensures { result.now.kept ≡ (whole W.first self.now).said }
    {
        self.traffic.said()
    }

    /// The least pair of sender and receiver between which a message is on its way, along the links of the settings;
    /// takes no memory.
    pub fn waiting(&self) -> Option<(As, As)>
        ensures next { WaitsNext (flow_of self.now.carried) result }
        ensures along { (flow_of self.now.carried).adjacencies ≡ adjacencies (whole W.first self.now).network }
    {
        self.traffic.waiting()
    }
}
