//! Ports that name what lacks where a connection can't be taken.
ghost use Rattle.std.specs.Prelude.{◌≡◌};

use crate::errors::Word;
use dom_base::Addr;
use dom_edge::{Accepted, Bell, Listener, Opened, Place, Ports};

// The system's numbers of the errors that a program has too many descriptors open, and that the machine has.
const TOO_MANY: [i32; 2] = [24, 23];

/// A listener that says on the standard error, once a minute at most, that a connection could not be taken, and what lacks.
#[derive(Drop)]
pub struct NamedPort<K: Listener + Drop> {
    rt: HostRuntime,
    listener: K,
    word: Word,
}

impl<K: Listener + Drop> NamedPort<K> {
    fn new(rt: HostRuntime, listener: K) -> Self
        ensures { result.listener ≡ listener }
    {
        NamedPort {
            rt,
            listener,
            word: Word::new(rt),
        }
    }
}

// What lacks for a connection: a place takes descriptors, and memory.
fn lack(rt: HostRuntime) -> &'static str {
    match Place::new(&rt, rt.alloc()) {
        Ok(_) => "no means",
        Err(error) => match error.raw_os_error() {
            Some(number) if TOO_MANY.contains(&number) => "no descriptor",
            _ => "no memory",
        },
    }
}

impl<K: Listener + Drop> Listener for NamedPort<K> {
    type Link = K::Link;

    ghost comes_from = { K.comes_from };

    ghost opened_at = { λ l. K.opened_at l.listener };

    ghost faults = { λ l. K.faults l.listener };

    ghost quiets = { λ l. K.quiets l.listener };

    ghost heeds = { λ l. K.heeds l.listener };

    ghost dialled_to = { λ l. K.dialled_to l.listener };

    ghost handed = { λ l. K.handed l.listener };

    fn accept(&mut self) -> Accepted<K::Link> {
        let accepted = self.listener.accept();
        if matches!(accepted, Accepted::Failed) && self.word.is_due() {
            let _ = eprintln!(self.rt;
                "pce: {} for a connection at port {}",
                lack(self.rt),
                self.listener.port()
            );
        }
        accepted
    }

    fn port(&self) -> u16 {
        self.listener.port()
    }

    fn bell(&self) -> Option<Bell> {
        self.listener.bell()
    }
}

/// Ports whose listeners name what lacks.
#[derive(Drop)]
pub struct NamedPorts<Q: Ports + Drop> {
    rt: HostRuntime,
    ports: Q,
}

impl<Q: Ports + Drop> NamedPorts<Q> {
    pub(crate) fn new(rt: HostRuntime, ports: Q) -> Self {
        NamedPorts { rt, ports }
    }
}

impl<Q: Ports + Drop> Ports for NamedPorts<Q> {
    type Port = NamedPort<Q::Port>;

    ghost calls = { λ p. Q.calls p.ports };

    ghost faults = { λ p. Q.faults p.ports };

    ghost failed_at = { λ p. Q.failed_at p.ports };

    fn listen_for(&mut self, port: u16, from: Option<Addr>) -> Opened<NamedPort<Q::Port>> {
        match self.ports.listen_for(port, from) {
            Opened::Port(listener) => Opened::Port(NamedPort::new(self.rt, listener)),
            Opened::Failed => Opened::Failed,
        }
    }

    fn dial(&mut self, to: Addr, port: u16) -> Opened<NamedPort<Q::Port>> {
        match self.ports.dial(to, port) {
            Opened::Port(listener) => Opened::Port(NamedPort::new(self.rt, listener)),
            Opened::Failed => Opened::Failed,
        }
    }
}
