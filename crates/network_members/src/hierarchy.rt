//! The elements of a network and the parent above them (RFC 6805).
ghost use Rattle.std.specs.Prelude.{◌≡◌, ◌≤◌, [], All, length, slice_get, IfOk};
ghost use Rattle.dom_base.specs.declared.names.As.{As as Domain};
ghost use Rattle.plant_text.specs.Names.{same_as, parent_as};
ghost use Rattle.plant_text.specs.Settings.{elements_of};
ghost use Rattle.pce_common.specs.plant_model.Events.{has_jobs, ready_jobs};
ghost use Rattle.pce_common.specs.plant_model.Parent.{ready_numbers};
ghost use Rattle.pce_common.specs.plant_model.State.{State};
ghost use Rattle.pce_common.specs.plant_model.Settings.{family};
ghost use Rattle.pce_common.specs.Rounds.{IsNext, asked_jobs};
ghost use Rattle.pce_parent.specs.Seen.{IsNew};
ghost use Rattle.pce_parent.specs.Solution.{IsWeighed};
ghost use Rattle.network_members.specs.Fresh.{AreNew, begun, parent_id};
ghost use Rattle.std.specs.Option.{option_copied};
ghost use Rattle.network_members.specs.Elements.{at_domain};
ghost use Rattle.network_members.specs.Tiers.{lost_in, members_of};

use crate::elements::Elements;
use dom_base::{Addr, As, NoMemory, Tick};
use network_links::{adjacencies_of, children_of};
use pce_common::{AskedJob, Behind};
use pce_element::{Element, World};
use pce_parent::{Parent, copy_links};
use plant_text::{Network, NetworkParts};
use std::alloc::Global;
use std::marker::Model;

/// The elements of a network, each by its domain, and the parent above them.
pub struct Hierarchy<W: World> {
    pub(crate) network: Network,
    /// The last moment.
    pub(crate) clock: Tick,
    pub(crate) elements: Elements<W>,
    /// Without children where the settings have no parent.
    pub(crate) parent: Parent,
}

// Written, so that it is proved in this crate alone.
impl<W: World> Drop for Hierarchy<W> {
    fn drop(self) {
        let Hierarchy {
            network: _,
            clock: _,
            elements: _,
            parent: _,
        } = self;
    }
}

impl<W: World> Model for Hierarchy<W> {
    ghost use Rattle.network_members.specs.Tiers.{Tiers};

    ghost Value = { Tiers W.Pin W.Segment };

    ghost use Rattle.network_members.specs.TierFields.{tiers_of, HoldsTiers};

    ghost view = { λ a. tiers_of a.network a.clock.0 a.elements a.parent };

    ghost invariant = { λ a. HoldsTiers (tiers_of a.network a.clock.0 a.elements a.parent) };
}

/// Whether this is the number of the parent.
pub fn is_parent(at: As) -> bool
    ensures { result ≡ same_as at parent_as }
{
    at.0 == 0
}

fn parent_id(parts: &NetworkParts) -> Addr
    ensures { result ≡ parent_id parts.now.parent }
{
    match parts.parent {
        Some(id) => id,
        None => Addr::V4(0),
    }
}

fn parent_of(alloc: Global, parts: &NetworkParts) -> Result<Parent, NoMemory>
    requires weighed { All IsWeighed parts.now.parent_links }
    ensures { IfOk result (IsNew (parent_id parts.now.parent) (family parts.now)) }
{
    let children = children_of(alloc, parts.elements.as_slice())?;
    let links = copy_links(alloc, parts.parent_links.as_slice())?;
    Parent::new(alloc, parent_id(parts), children, links)
}

// How many requests of the parent can be solved.
fn count_above(parent: &Parent, most: usize) -> usize
    requires { length (ready_numbers parent.now.losing.parent.pending.rows) ≤ most }
    ensures { result ≡ length (ready_numbers parent.now.losing.parent.pending.rows) }
{
    for count in 0..most {
        if parent.ready(count).is_none() {
            return count;
        }
    }
    most
}

impl<W: World> Hierarchy<W> {
    /// The elements and the parent of a network, without requests and keys, in a world
    /// that has just begun.
    pub fn new(alloc: Global, network: Network) -> Result<Hierarchy<W>, NoMemory>
        ensures network { IfOk result (λ h. h.network ≡ network) }
        ensures clock { IfOk result (λ h. h.clock ≡ 0) }
        ensures elements { IfOk result (λ h. AreNew W.first network (elements_of network.elements) h.elements) }
        ensures parent { IfOk result (λ h. IsNew (parent_id network.parent) (family network) h.parent) }
        ensures begun { IfOk result (λ h. members_of W.first h ≡ begun W.first W.show network) }
        ensures none { IfOk result (λ h. (d : Domain) → lost_in h d ≡ []) }
    {
        let parts = network.parts();
        let adjacencies = adjacencies_of(alloc, parts)?;
        let elements = Elements::of(alloc, parts, adjacencies.as_slice())?;
        let parent = parent_of(alloc, parts)?;
        Ok(Hierarchy {
            network,
            clock: Tick(0),
            elements,
            parent,
        })
    }

    /// The settings.
    pub fn parts(&self) -> &NetworkParts
        ensures { result.now ≡ self.now.network }
    {
        self.network.parts()
    }

    /// The settings, as the value that was passed in.
    pub fn network(&self) -> &Network
        ensures { result.now ≡ self.now.network }
    {
        &self.network
    }

    /// The element of a domain; takes no memory.
    pub fn element(&self, at: As) -> Option<&Element<W>>
        ensures { option_copied result ≡ at_domain at self.now.elements }
    {
        self.elements.at(at)
    }

    /// The parent, without children where the settings have none; takes no memory.
    pub fn parent(&self) -> &Parent
        ensures { result.now ≡ self.now.parent }
    {
        &self.parent
    }

    /// Whether there is such an element, or the parent.
    pub fn has_jobs(&self, at: As) -> bool
        ensures { result ≡ has_jobs self.now.network at }
    {
        if is_parent(at) {
            self.network.parts().parent.is_some()
        } else {
            self.elements.has(at)
        }
    }

    /// The k-th job that can be solved: those of the parent are first, then the others by the domain, each by
    /// its number; takes no memory.
    pub fn ready(&self, k: usize) -> Option<(As, u64)>
        ensures { (s : State W.Pin W.Segment) → s.elements ≡ (members_of W.first self.now).elements → s.parent ≡ (members_of W.first self.now).parent → result ≡ slice_get (ready_jobs self.now.network s) k }
    {
        if let Some(number) = self.parent.ready(k) {
            return Some((As(0), number));
        }
        self.elements.ready(k - count_above(&self.parent, k))
    }

    /// The next job of a member, in the order of those who asked and then of the numbers; takes no memory.
    pub fn next_job(&self, at: As, behind: Behind) -> Option<AskedJob>
        ensures { (s : State W.Pin W.Segment) → s.elements ≡ (members_of W.first self.now).elements → s.parent ≡ (members_of W.first self.now).parent → IsNext behind (asked_jobs at s) result }
    {
        if is_parent(at) {
            self.parent.next_job(behind)
        } else {
            self.elements.next_job(at, behind)
        }
    }
}
