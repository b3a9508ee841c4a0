//! Ports that are listened at: the trait, and its forms in memory.
ghost use Rattle.std.specs.Prelude.{◌≡◌, ◌≢◌, ◌↔◌, ℕ, List, [], None, MatchOption};
ghost use Rattle.std.specs.declared.option.Option.{Option};
ghost use Rattle.dom_base.specs.declared.addr.Addr.{Addr};
ghost use Rattle.dom_edge.specs.Causes.{HasCause, IsCounted};
ghost use Rattle.dom_edge.specs.Memory.{IsPlanned, IsCalled, no_calls};
ghost use Rattle.dom_edge.specs.Heeding.{HandsOut, IsFor, Sides};
ghost use Rattle.dom_edge.specs.Links.{HandsOutLink, new_listener, opened_for, sides_of, stream_reading, sink_writing};

use crate::bell::Bell;
use crate::calls::PlannedCalls;
use crate::heeding::is_heeded;
use crate::noted::Noted;
use crate::supply::Supply;
use crate::wire::{MemoryLink, Wire};
use dom_base::{Addr, List as Rows};
use std::marker::Model;

/// What one `accept` gave: a connection, that nobody came by now, or that it failed.
#[derive(Drop)]
pub enum Accepted<L> {
    Link(L),
    Quiet,
    Failed,
}

/// Connections that come in at a port, or that are dialled.
pub trait Listener {
    /// The connections.
    type Link: Wire + Drop;

    /// Where a connection comes from, where that is known.
    ghost comes_from: { Self.Link → Option Addr };

    /// The port that it was opened at, or 0 where no `Ports` handed it out.
    ghost opened_at: { Self → ℕ };

    /// How often an `accept` failed. The count never falls, and stands still at the end of its type.
    ghost faults: { Self → ℕ };

    /// How often nobody came. The count never falls, and stands still at the end of its type.
    ghost quiets: { Self → ℕ };

    /// Whom alone it hands out: connections from that address, or with None whichever come.
    ghost heeds: { Self → Option Addr };

    /// Whom it dials. None where it listens.
    ghost dialled_to: { Self → Option Addr };

    /// Both sides of each connection that it handed out, as they were then, in order.
    ghost handed: { Self → List Sides };

    /// The next connection. It leaves the port, whom it heeds and whom it dials.
    fn accept(&mut self) -> Accepted<Self::Link>
        ensures failed { HasCause (faults self.old) (faults self.new) (result ≡ Accepted.Failed) }
        ensures quiet { HasCause (quiets self.old) (quiets self.new) (result ≡ Accepted.Quiet) }
        ensures port { opened_at self.new ≡ opened_at self.old }
        ensures heeded { IsFor comes_from (heeds self.old) result }
        ensures heeds { heeds self.new ≡ heeds self.old }
        ensures dials { dialled_to self.new ≡ dialled_to self.old }
        ensures handed { HandsOut Self.Link.reading Self.Link.writing (handed self.old) (handed self.new) result };

    fn port(&self) -> u16
        ensures { result ≡ opened_at self.now };

    /// What wakes the thread that waits here, or at a connection that came from here. None where nobody waits, as in memory.
    fn bell(&self) -> Option<Bell>;
}

/// A listener in memory. Each `accept` takes the first of its links, and is quiet behind the last. A link that does not come from
/// whom it heeds is dropped, and that `accept` is quiet. The calls whose numbers, from 0, are in `fails` fail.
#[derive(Drop)]
pub struct MemoryListener {
    links: Supply<MemoryLink>,
    handed: Noted<MemoryLink>,
    port: u16,
    heeds: Option<Addr>,
    dialled_to: Option<Addr>,
    quiets: u64,
    calls: PlannedCalls,
}

impl Model for MemoryListener {
    ghost use Rattle.dom_edge.specs.Links.{ListenerState};

    ghost Value = { ListenerState };

    ghost view = { λ l. record { links = l.links; handed = l.handed.items; port = l.port; heeds = l.heeds; dialled_to = l.dialled_to; quiets = l.quiets; calls = l.calls } };
}

impl MemoryListener {
    /// A listener in memory that hands out these links in order, whoever they come from, and is quiet behind the last. Calls whose
    /// numbers, from 0, stand in `fails` fail.
    pub fn new(links: Rows<MemoryLink>, fails: Rows<u64>) -> Self
        ensures { result ≡ new_listener links (no_calls fails) }
    {
        MemoryListener {
            links: Supply::new(links),
            handed: Noted::new(),
            port: 0,
            heeds: None,
            dialled_to: None,
            quiets: 0,
            calls: PlannedCalls::new(fails),
        }
    }

    // The same listener, opened at that port, for whom it heeds and dials from now on.
    pub(crate) fn at(self, port: u16, heeds: Option<Addr>, dialled_to: Option<Addr>) -> Self
        ensures { result ≡ opened_for self port heeds dialled_to }
    {
        MemoryListener {
            links: self.links,
            handed: self.handed,
            port,
            heeds,
            dialled_to,
            quiets: self.quiets,
            calls: self.calls,
        }
    }

    // The first of the links that are left is dropped where it is not of whom is heeded.
    fn next(&mut self) -> Option<MemoryLink>
        ensures links { MatchOption result (HandsOutLink self.old.heeds self.old.links self.new.links Accepted.Quiet) (λ link. HandsOutLink self.old.heeds self.old.links self.new.links (Accepted.Link link)) }
        ensures same { self.new ≡ record self.old { links = self.new.links } }
    {
        let Some(link) = self.links.next() else {
            return None;
        };
        if is_heeded(self.heeds, link.came_from()) {
            Some(link)
        } else {
            None
        }
    }
}

impl Listener for MemoryListener {
    type Link = MemoryLink;

    ghost comes_from = { λ link. link.from };

    ghost opened_at = { λ l. l.port };

    ghost faults = { λ l. l.calls.faults };

    ghost quiets = { λ l. l.quiets };

    ghost heeds = { λ l. l.heeds };

    ghost dialled_to = { λ l. l.dialled_to };

    ghost handed = { λ l. sides_of l.handed };

    /// Fails exactly where the call is one that is to fail.
    fn accept(&mut self) -> Accepted<MemoryLink>
        ensures failed { HasCause self.old.calls.faults self.new.calls.faults (result ≡ Accepted.Failed) }
        ensures quiet { HasCause self.old.quiets self.new.quiets (result ≡ Accepted.Quiet) }
        ensures port { self.new.port ≡ self.old.port }
        ensures heeded { IsFor (λ link. link.from) self.old.heeds result }
        ensures heeds { self.new.heeds ≡ self.old.heeds }
        ensures dials { self.new.dialled_to ≡ self.old.dialled_to }
        ensures handed { HandsOut (λ link. stream_reading link.stream) (λ link. sink_writing link.sink) (sides_of self.old.handed) (sides_of self.new.handed) result }
        ensures planned { result ≡ Accepted.Failed ↔ IsPlanned self.old.calls }
        ensures called { IsCalled self.old.calls self.new.calls (result ≡ Accepted.Failed) }
        ensures counted { IsCounted self.old.quiets self.new.quiets (result ≡ Accepted.Quiet) }
        ensures links { HandsOutLink self.old.heeds self.old.links self.new.links result }
    {
        if self.calls.is_planned() {
            self.calls.fail();
            return Accepted::Failed;
        }
        self.calls.pass();
        match self.next() {
            Some(link) => {
                self.handed = self.handed.and(&link);
                Accepted::Link(link)
            }
            None => {
                self.quiets = self.quiets.saturating_add(1);
                Accepted::Quiet
            }
        }
    }

    fn port(&self) -> u16 {
        self.port
    }

    fn bell(&self) -> Option<Bell> {
        None
    }
}

/// A listener in memory that never fails. No `Ports` hands it out, so its port is 0, and it heeds anyone.
#[derive(Drop)]
pub struct SteadyListener {
    links: Supply<MemoryLink>,
    handed: Noted<MemoryLink>,
    quiets: u64,
}

impl Model for SteadyListener {
    ghost use Rattle.dom_edge.specs.Links.{SteadyState};

    ghost Value = { SteadyState };

    ghost view = { λ l. record { links = l.links; handed = l.handed.items; quiets = l.quiets } };
}

impl SteadyListener {
    /// A listener that hands out these links in order and never fails: it is quiet behind the last.
    pub fn new(links: Rows<MemoryLink>) -> Self
        ensures { result ≡ record { links = links; handed = []; quiets = 0 } }
    {
        SteadyListener {
            links: Supply::new(links),
            handed: Noted::new(),
            quiets: 0,
        }
    }
}

impl Listener for SteadyListener {
    type Link = MemoryLink;

    ghost comes_from = { λ link. link.from };

    ghost opened_at = { λ _. 0 };

    ghost faults = { λ _. 0 };

    ghost quiets = { λ l. l.quiets };

    ghost heeds = { λ _. None };

    ghost dialled_to = { λ _. None };

    ghost handed = { λ l. sides_of l.handed };

    fn accept(&mut self) -> Accepted<MemoryLink>
        ensures failed { HasCause 0 0 (result ≡ Accepted.Failed) }
        ensures quiet { HasCause self.old.quiets self.new.quiets (result ≡ Accepted.Quiet) }
        ensures port { ◌≡◌ {A = ℕ} 0 0 }
        ensures heeded { IsFor (λ link. link.from) None result }
        ensures heeds { ◌≡◌ {A = Option Addr} None None }
        ensures dials { ◌≡◌ {A = Option Addr} None None }
        ensures handed { HandsOut (λ link. stream_reading link.stream) (λ link. sink_writing link.sink) (sides_of self.old.handed) (sides_of self.new.handed) result }
        ensures never_fails { result ≢ Accepted.Failed }
        ensures counted { IsCounted self.old.quiets self.new.quiets (result ≡ Accepted.Quiet) }
        ensures links { HandsOutLink None self.old.links self.new.links result }
    {
        match self.links.next() {
            Some(link) => {
                self.handed = self.handed.and(&link);
                Accepted::Link(link)
            }
            None => {
                self.quiets = self.quiets.saturating_add(1);
                Accepted::Quiet
            }
        }
    }

    fn port(&self) -> u16 {
        0
    }

    fn bell(&self) -> Option<Bell> {
        None
    }
}
