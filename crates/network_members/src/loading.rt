//! Members with topologies: one is loaded or looked at, and jobs are looked at.
ghost use Rattle.std.specs.Prelude.{◌≡◌, IfOk, IfSome, false, true};
ghost use Rattle.std.specs.Option.{option_map};
ghost use Rattle.std.specs.Arc.{arc_value};
ghost use Rattle.plant_text.specs.Names.{same_as, parent_as};
ghost use Rattle.pce_common.specs.plant_model.Plant.{first_pin};
ghost use Rattle.pce_element.specs.Jobs.{work_of};
ghost use Rattle.pce_element.specs.Rows.{pin_with};
ghost use Rattle.network_members.specs.Answering.{IsElementWork, IsParentWork, IsWeighedWork, border_job};
ghost use Rattle.network_members.specs.Current.{IsCurrent};
ghost use Rattle.network_members.specs.Elements.{at_domain, LoadsAt, told};
ghost use Rattle.network_members.specs.Loading.{Loads};
ghost use Rattle.network_members.specs.Ready.{work_in};
ghost use Rattle.network_members.specs.Tiers.{members_of};

use crate::elements::{Elements, place_of};
use crate::hierarchy::{Hierarchy, is_parent};
use border_costs::Job;
use dom_base::{As, NoMemory};
use pce_common::model::Refused;
use pce_element::Topologies;
use pce_parent::Work;
use std::sync::Arc;
use te_generations::LoadError;
use te_links::Topology;

// Why a load is refused.
fn told(loaded: Result<u64, LoadError>) -> Result<u64, Refused>
    ensures { result ≡ told loaded }
{
    match loaded {
        Ok(number) => Ok(number),
        Err(LoadError::Full) => Err(Refused::GenerationsFull),
        Err(LoadError::NoMemory) => Err(Refused::NoMemory),
    }
}

impl Elements<Topologies> {
    /// The element of a domain loads a topology.
    pub fn load(&mut self, at: As, topology: Topology) -> Result<u64, Refused>
        requires own { topology.own ≡ at }
        ensures { LoadsAt (at_domain at self.old) topology self.old result self.new }
    {
        let Some(i) = place_of(&self.domains, at) else {
            return Err(Refused::NoSuchPeer);
        };
        told(self.items[i].load(topology))
    }

    /// The current topology of the element of a domain, and its number.
    pub fn topology(&self, at: As) -> Result<Option<(u64, Arc<Topology>)>, NoMemory>
        ensures { IfOk result (λ found. option_map (λ p. pin_with p.0 (arc_value p.1)) found ≡ option_map (λ e. e.current) (at_domain at self.now)) }
    {
        match self.at(at) {
            Some(element) => Ok(Some(element.topology()?)),
            None => Ok(None),
        }
    }

    /// The job of a request of a domain, where it can be solved.
    pub fn job(&self, at: As, number: u64) -> Result<Option<Job>, NoMemory>
        ensures { IfOk result (λ job. option_map work_of job ≡ work_in number (at_domain at self.now)) }
    {
        match self.at(at) {
            Some(element) => element.job(number),
            None => Ok(None),
        }
    }
}

impl Hierarchy<Topologies> {
    /// The element of a domain loads a topology.
    pub fn load(&mut self, at: As, topology: Topology) -> Result<u64, Refused>
        requires own { topology.own ≡ at }
        ensures { Loads at topology self.old result self.new }
    {
        self.elements.load(at, topology)
    }

    /// The current topology of an element, and its number; None where there is no such element.
    pub fn topology(&self, at: As) -> Result<Option<(u64, Arc<Topology>)>, NoMemory>
        ensures { IfOk result (λ found. IsCurrent self.now.network (members_of first_pin self.now).current at (option_map (λ p. pin_with p.0 (arc_value p.1)) found)) }
    {
        self.elements.topology(at)
    }

    /// The job of a request of a member, where it can be solved.
    pub fn job(&self, at: As, number: u64) -> Result<Option<Work>, NoMemory>
        ensures below { same_as at parent_as ≡ false → IfOk result (IsElementWork (work_in number (at_domain at self.now.elements))) }
        ensures above { same_as at parent_as ≡ true → IfOk result (IsParentWork (border_job self.now number)) }
        ensures weighed { IfOk result (λ work. IfSome work IsWeighedWork) }
    {
        if is_parent(at) {
            Ok(self.parent.job(number)?.map(Work::Border))
        } else {
            Ok(self.elements.job(at, number)?.map(Work::Domain))
        }
    }
}
