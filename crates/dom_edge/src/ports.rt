//! The ports of a machine: the trait, and its form in memory.
ghost use Rattle.std.specs.Prelude.{◌≡◌, ◌≢◌, ◌↔◌, ℕ, [], ◌∷◌, ◌⊎◌, None, Some, MatchOption};
ghost use Rattle.dom_edge.specs.Causes.{HasCause, next_count};
ghost use Rattle.dom_edge.specs.Memory.{IsPlanned, IsCalled, no_calls};
ghost use Rattle.dom_edge.specs.Links.{HandsOutListener};
ghost use Rattle.dom_edge.specs.Opening.{IsOpenedAt, IsOpenedFor};

use crate::calls::PlannedCalls;
use crate::listener::{Listener, MemoryListener};
use crate::supply::Supply;
use dom_base::{Addr, List as Rows};
use std::marker::Model;

/// What one call gave: a listener, or that it failed.
#[derive(Drop)]
pub enum Opened<P> {
    Port(P),
    Failed,
}

/// Ports that can be listened at, here, and dialled, elsewhere.
pub trait Ports {
    /// The listeners.
    type Port: Listener + Drop;

    /// How often one of the calls was made. The count stands still at the end of its type.
    ghost calls: { Self → ℕ };

    /// How often one failed. The count never falls, and stands still at the end of its type.
    ghost faults: { Self → ℕ };

    /// The port at which one last failed.
    ghost failed_at: { Self → ℕ };

    /// Listens at a port for whoever comes. What is handed out was opened at the asked port.
    fn listen(&mut self, port: u16) -> Opened<Self::Port>
        ensures called { calls self.new ≡ next_count (calls self.old) }
        ensures cause { HasCause (faults self.old) (faults self.new) (result ≡ Opened.Failed) }
        ensures asked { IsOpenedAt Self.Port.opened_at port result }
        ensures blame { result ≡ Opened.Failed → failed_at self.new ≡ port }
        ensures keeps { result ≢ Opened.Failed → failed_at self.new ≡ failed_at self.old }
        ensures heeds { IsOpenedFor Self.Port.heeds Self.Port.dialled_to None None result }
    {
        self.listen_for(port, None)
    }

    /// Listens at a port for who comes from that address, or with None for whoever comes. What is handed out was opened at the asked
    /// port, and heeds that address alone.
    fn listen_for(&mut self, port: u16, from: Option<Addr>) -> Opened<Self::Port>
        ensures called { calls self.new ≡ next_count (calls self.old) }
        ensures cause { HasCause (faults self.old) (faults self.new) (result ≡ Opened.Failed) }
        ensures asked { IsOpenedAt Self.Port.opened_at port result }
        ensures blame { result ≡ Opened.Failed → failed_at self.new ≡ port }
        ensures keeps { result ≢ Opened.Failed → failed_at self.new ≡ failed_at self.old }
        ensures heeds { IsOpenedFor Self.Port.heeds Self.Port.dialled_to from None result };

    /// Dials a port of another machine. What is handed out tells that port as its own, dials that address, and hands out connections
    /// to it alone.
    fn dial(&mut self, to: Addr, port: u16) -> Opened<Self::Port>
        ensures called { calls self.new ≡ next_count (calls self.old) }
        ensures cause { HasCause (faults self.old) (faults self.new) (result ≡ Opened.Failed) }
        ensures asked { IsOpenedAt Self.Port.opened_at port result }
        ensures blame { result ≡ Opened.Failed → failed_at self.new ≡ port }
        ensures keeps { result ≢ Opened.Failed → failed_at self.new ≡ failed_at self.old }
        ensures heeds { IsOpenedFor Self.Port.heeds Self.Port.dialled_to (Some to) (Some to) result };
}

/// Ports in memory. They hand the listeners out in order, each opened as it was asked for. A call with none
/// left fails, and so do the calls whose numbers, from 0, are in `fails`.
#[derive(Drop)]
pub struct MemoryPorts {
    listeners: Supply<MemoryListener>,
    failed_at: u16,
    calls: PlannedCalls,
}

impl Model for MemoryPorts {
    ghost use Rattle.dom_edge.specs.Links.{PortsState};

    ghost Value = { PortsState };

    ghost view = { λ p. record { listeners = p.listeners; failed_at = p.failed_at; calls = p.calls } };
}

impl MemoryPorts {
    /// Ports in memory, whichever is asked for: each call opens the first of these listeners that is left. It fails where none is,
    /// and at the calls whose numbers, from 0, stand in `fails`.
    pub fn new(listeners: Rows<MemoryListener>, fails: Rows<u64>) -> Self
        ensures { result ≡ record { listeners = listeners; failed_at = 0; calls = no_calls fails } }
    {
        MemoryPorts {
            listeners: Supply::new(listeners),
            failed_at: 0,
            calls: PlannedCalls::new(fails),
        }
    }

    /// The port at which a call last failed; 0 before.
    pub fn failed_at(&self) -> u16
        ensures { result ≡ self.now.failed_at }
    {
        self.failed_at
    }

    // The next listener, where the call is not one that is to fail and one is left.
    fn take(&mut self) -> Option<MemoryListener>
        ensures taken { MatchOption result (IsPlanned self.old.calls ⊎ (self.old.listeners ≡ [])) (λ first. ¬ IsPlanned self.old.calls × (self.old.listeners ≡ first ∷ self.new.listeners)) }
        ensures kept { result ≡ None → self.new.listeners ≡ self.old.listeners }
        ensures calls { self.new.calls ≡ self.old.calls }
        ensures failed_at { self.new.failed_at ≡ self.old.failed_at }
    {
        if self.calls.is_planned() {
            return None;
        }
        self.listeners.next()
    }

    // The next listener, opened as it was asked for.
    fn open(
        &mut self,
        port: u16,
        heeds: Option<Addr>,
        dialled_to: Option<Addr>,
    ) -> Opened<MemoryListener>
        ensures cause { HasCause self.old.calls.faults self.new.calls.faults (result ≡ Opened.Failed) }
        ensures asked { IsOpenedAt (λ l. l.port) port result }
        ensures blame { result ≡ Opened.Failed → self.new.failed_at ≡ port }
        ensures keeps { result ≢ Opened.Failed → self.new.failed_at ≡ self.old.failed_at }
        ensures heeds { IsOpenedFor (λ l. l.heeds) (λ l. l.dialled_to) heeds dialled_to result }
        ensures planned { IsPlanned self.old.calls → result ≡ Opened.Failed }
        ensures counted { IsCalled self.old.calls self.new.calls (result ≡ Opened.Failed) }
        ensures listeners { HandsOutListener self.old self.new.listeners port heeds dialled_to result }
    {
        match self.take() {
            Some(listener) => {
                self.calls.pass();
                Opened::Port(listener.at(port, heeds, dialled_to))
            }
            None => {
                self.calls.fail();
                self.failed_at = port;
                Opened::Failed
            }
        }
    }
}

impl Ports for MemoryPorts {
    type Port = MemoryListener;

    ghost calls = { λ p. p.calls.made };

    ghost faults = { λ p. p.calls.faults };

    ghost failed_at = { λ p. p.failed_at };

    fn listen_for(&mut self, port: u16, from: Option<Addr>) -> Opened<MemoryListener>
        ensures called { self.new.calls.made ≡ next_count self.old.calls.made }
        ensures cause { HasCause self.old.calls.faults self.new.calls.faults (result ≡ Opened.Failed) }
        ensures asked { IsOpenedAt (λ l. l.port) port result }
        ensures blame { result ≡ Opened.Failed → self.new.failed_at ≡ port }
        ensures keeps { result ≢ Opened.Failed → self.new.failed_at ≡ self.old.failed_at }
        ensures heeds { IsOpenedFor (λ l. l.heeds) (λ l. l.dialled_to) from None result }
        ensures planned { IsPlanned self.old.calls → result ≡ Opened.Failed }
        ensures counted { IsCalled self.old.calls self.new.calls (result ≡ Opened.Failed) }
        ensures listeners { HandsOutListener self.old self.new.listeners port from None result }
    {
        self.open(port, from, None)
    }

    fn dial(&mut self, to: Addr, port: u16) -> Opened<MemoryListener>
        ensures called { self.new.calls.made ≡ next_count self.old.calls.made }
        ensures cause { HasCause self.old.calls.faults self.new.calls.faults (result ≡ Opened.Failed) }
        ensures asked { IsOpenedAt (λ l. l.port) port result }
        ensures blame { result ≡ Opened.Failed → self.new.failed_at ≡ port }
        ensures keeps { result ≢ Opened.Failed → self.new.failed_at ≡ self.old.failed_at }
        ensures heeds { IsOpenedFor (λ l. l.heeds) (λ l. l.dialled_to) (Some to) (Some to) result }
        ensures planned { IsPlanned self.old.calls → result ≡ Opened.Failed }
        ensures counted { IsCalled self.old.calls self.new.calls (result ≡ Opened.Failed) }
        ensures listeners { HandsOutListener self.old self.new.listeners port (Some to) (Some to) result }
    {
        self.open(port, Some(to), Some(to))
    }
}
