//! A network with topologies.
ghost use Rattle.std.specs.Prelude.{◌≡◌, slice_get, IfErr, IfOk, IfSome};
ghost use Rattle.std.specs.Arc.{arc_value};
ghost use Rattle.std.specs.Option.{option_map};
ghost use Rattle.network_members.specs.pce_element.Rows.{pin_with};
ghost use Rattle.network_events.specs.plant_model.Events.{ready_jobs};
ghost use Rattle.network_events.specs.plant_model.declared.event.Event.TheVariants.{Solve};
ghost use Rattle.plant_laws.specs.Lasting.{HaveGiven, JobsLast};
ghost use Rattle.network_members.specs.Answering.{IsWeighedWork};
ghost use Rattle.network_events.specs.network_links.Carried.{flow_of};
ghost use Rattle.network_events.specs.network_links.Rests.{rest_of};
ghost use Rattle.network_events.specs.pce_common.Rounds.{IsNext, asked_jobs};
ghost use Rattle.network_events.specs.network_links.Waiting.{WaitsNext};
ghost use Rattle.plant_text.specs.Settings.{adjacencies};
ghost use Rattle.plant_network.specs.Topologies.{whole};
ghost use Rattle.plant_network.specs.Current.{IsCurrent};
ghost use Rattle.plant_network.specs.Jobs.{CanSolve, IsOwn, IsWork, solved_at, solved_number, told};
ghost use Rattle.plant_network.specs.Whole.{GoesOn, IsBegun, IsOwnLoad, Stepped};

use crate::answering::commit;
use crate::events::act;
use crate::network::Network;
use dom_base::{As, NoMemory};
use network_events::model::{Event, Outcome, Refused};
use network_events::{AskedJob, Behind, Rest};
use network_members::{Done, Refusal, Topologies, Work};
use std::sync::Arc;
use te_links::Topology;

/// A network with topologies.
pub type Plant = Network<Topologies>;

impl Network<Topologies> {
    /// Does one event. What is refused changes nothing. A tick is never refused; a break and a shut only where
    /// there is no such link or open peer.
    pub fn step(&mut self, event: Event) -> Result<Outcome, Refused>
        requires own { IsOwnLoad event }
        ensures steps { Stepped (whole self.old) event result (whole self.new) }
        ensures goes { GoesOn (whole self.old) event result (whole self.new) }
        ensures lasts { JobsLast (whole self.old).state (whole self.new).state }
    {
        act(self.alloc, &mut self.members, &mut self.traffic, event)
    }

    /// The k-th job that can be solved: those of the parent are first, then the others by the domain, each by
    /// its number; takes no memory.
    pub fn ready(&self, k: usize) -> Option<(As, u64)>
        ensures found { result ≡ slice_get (ready_jobs (whole self.now).network (whole self.now).state) k }
        ensures can { IfSome result (λ job. CanSolve (whole self.now) job.0 job.1) }
    {
        self.members.ready(k)
    }

    /// The next job of a member, in the order of those who asked and then of the numbers; takes no memory.
    pub fn next_job(&self, at: As, behind: Behind) -> Option<AskedJob>
        ensures { IsNext behind (asked_jobs at (whole self.now).state) result }
    {
        self.members.next_job(at, behind)
    }

    /// What a take leaves to do for an outside peer; nothing where its connection is closed. It takes no memory.
    pub fn rest(&self, peer: u32) -> Rest
        ensures { result ≡ rest_of ((whole self.now).state.accesses peer).connection }
    {
        self.traffic.rest(peer)
    }

    /// The current topology of an element, and its number; None where there is no such element.
    pub fn topology(&self, at: As) -> Result<Option<(u64, Arc<Topology>)>, NoMemory>
        ensures { IfOk result (λ found. IsCurrent (whole self.now) at (option_map (λ p. pin_with p.0 (arc_value p.1)) found)) }
    {
        self.members.topology(at)
    }

    /// The job of a request, where it can be solved.
    pub fn job(&self, at: As, number: u64) -> Result<Option<Work>, NoMemory>
        ensures work { IfOk result (IsWork (whole self.now) at number) }
        ensures weighed { IfOk result (λ work. IfSome work IsWeighedWork) }
    {
        self.members.job(at, number)
    }

    /// Answers a job that was solved, in or out of this network. It is the event of that solve. A refusal hands the
    /// job back.
    pub fn commit(&mut self, done: Done) -> Result<Outcome, Refusal<Done>>
        requires own { IsOwn (whole self.old) done }
        ensures steps { Stepped (whole self.old) (Solve (solved_at done) (solved_number done)) (told result) (whole self.new) }
        ensures goes { GoesOn (whole self.old) (Solve (solved_at done) (solved_number done)) (told result) (whole self.new) }
        ensures lasts { JobsLast (whole self.old).state (whole self.new).state }
        ensures back { IfErr result (λ refusal. refusal.back ≡ done) }
    {
        commit(self.alloc, &mut self.members, &mut self.traffic, done)
    }
}

impl Network<Topologies> {
    // What the network keeps between two events, for a job that is looked at and answered later.
    pub(crate) fn requests_have_given_numbers(&self)
        ensures { HaveGiven (whole self.now).state }
    {
        let _members = &self.members;
    }
}
