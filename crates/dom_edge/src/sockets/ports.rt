//! The ports of the system.
ghost use Rattle.std.specs.Prelude.{◌≡◌, ◌≢◌, IfOk, IfSome, None, Some};
ghost use Rattle.std.specs.Bool.{OnTrue};
ghost use Rattle.std.specs.declared.option.Option.{Option};
ghost use Rattle.std.specs.Arc.{arc_value};
ghost use Rattle.std.specs.Net.Socket.{socket_port};
ghost use Rattle.dom_edge.specs.Causes.{HasCause, IsCounted, next_count};
ghost use Rattle.dom_edge.specs.Opening.{IsOpenedAt, IsOpenedFor};
ghost use Rattle.dom_edge.specs.Sockets.{IfOpened, IsBoundAt, IsBoundBy, IsDialledAt, new_port};

use super::addresses::{addr_of_ip, ip_of_addr};
use super::asked::{Asked, bind_at};
use super::errors::no_memory;
use super::listener::PortListener;
use super::shared::{Heeded, SharedPort};
use crate::bell::Place;
use crate::heeding::is_same;
use crate::ports::{Opened, Ports};
use dom_base::Addr;
use std::alloc::Global;
use std::io::{self, ErrorKind};
use std::marker::Model;
use std::net::{IpAddr, Net, OpenListener, SocketAddr};
use std::os::fd::AsRawFd;
use std::sync::Arc;
use std::time::Clock;

// As many ports of the system are held at most.
const SHARED: usize = 1_024;

// The system's number of the error that it knows no addresses of that family.
const NO_SUCH_FAMILY: i32 = 97;

/// The ports of the system, at one address of the machine. The unspecified address of IPv4 (`0.0.0.0`)
/// stands for each of its addresses of IPv4; that of IPv6 (`::`) for each address of either kind, where
/// the system is not told to keep them apart, and on a machine without IPv6 for each of IPv4. A port
/// that others use, or that may not be listened at, is a failure.
///
/// Several may listen at one port, all of them for whoever comes or each for another address: the system is asked for that port
/// once. At a port of the other kind a call fails. A port that is dialled asks the system for nothing yet.
#[derive(Drop)]
pub struct SocketPorts<R: Net + Clock + Copy + Drop> {
    rt: R,
    alloc: Global,
    address: IpAddr,
    shared: Vec<Arc<SharedPort<R::Listener>, Global>>,
    calls: u64,
    faults: u64,
    failed_at: u16,
}

impl<R: Net + Clock + Copy + Drop> Model for SocketPorts<R> {
    ghost use Rattle.dom_edge.specs.Sockets.{PortsCounts};

    ghost Value = { PortsCounts };

    ghost view = { λ p. record { address = p.address; calls = p.calls; faults = p.faults; failed_at = p.failed_at } };
}

// Whether the system that was asked for this address may have been asked for that one.
fn is_bound_by(asked: IpAddr, bound: IpAddr) -> bool
    ensures { OnTrue result (IsBoundBy asked bound) }
{
    if is_same(addr_of_ip(bound), addr_of_ip(asked)) {
        return true;
    }
    match (asked, bound) {
        (IpAddr::V6(all), IpAddr::V4(every)) => all.is_unspecified() && every.is_unspecified(),
        _ => false,
    }
}

impl<R: Net + Clock + Copy + Drop> SocketPorts<R> {
    /// Ports at this address of the machine, none of which is open yet.
    pub fn new(rt: R, alloc: Global, address: IpAddr) -> Self
        ensures { result ≡ record { address = address; calls = 0; faults = 0; failed_at = 0 } }
    {
        SocketPorts {
            rt,
            alloc,
            address,
            shared: Vec::new(alloc),
            calls: 0,
            faults: 0,
            failed_at: 0,
        }
    }

    /// The port at which a call last failed; 0 before.
    pub fn failed_at(&self) -> u16
        ensures { result ≡ self.now.failed_at }
    {
        self.failed_at
    }

    // The system's listener at that port. On a machine without IPv6 all its addresses are those of IPv4.
    fn bind(&self, port: u16) -> io::Result<Asked<R::Listener>>
        ensures { IfOk result (λ a. IsBoundAt self.now.address port a.at) }
    {
        match bind_at(&self.rt, SocketAddr::new(self.address, port)) {
            Err(error) if error.raw_os_error() == Some(NO_SUCH_FAMILY) => self.bind_v4(port, error),
            bound => bound,
        }
    }

    // The same at all addresses of IPv4, where all of the machine are asked for.
    fn bind_v4(&self, port: u16, error: io::Error) -> io::Result<Asked<R::Listener>>
        ensures { IfOk result (λ a. IsBoundAt self.now.address port a.at) }
    {
        let all = IpAddr::from([0u8; 4]);
        if !is_bound_by(self.address, all) {
            return Err(error);
        }
        bind_at(&self.rt, SocketAddr::new(all, port))
    }

    // The port that is shared already.
    fn find(
        &self,
        port: u16,
        heeded: Heeded,
    ) -> io::Result<Option<Arc<SharedPort<R::Listener>, Global>>>
        ensures { IfOk result (λ found. IfSome found (λ p. IsBoundAt self.now.address port (arc_value p).at)) }
    {
        for shared in &self.shared {
            let at = shared.at;
            if at.port() == port && is_bound_by(self.address, at.ip()) {
                if shared.heeded != heeded {
                    return Err(io::Error::from(ErrorKind::AddrInUse));
                }
                let Ok(found) = Arc::try_clone(shared) else {
                    return Err(no_memory());
                };
                return Ok(Some(found));
            }
        }
        Ok(None)
    }

    // A port of the system that nobody listens at yet.
    fn bind_new(
        &self,
        port: u16,
        heeded: Heeded,
    ) -> io::Result<Arc<SharedPort<R::Listener>, Global>>
        ensures { IfOk result (λ p. IsBoundAt self.now.address port (arc_value p).at) }
    {
        let Asked { socket, at } = self.bind(port)?;
        socket.set_nonblocking(true)?;
        match Arc::new(self.alloc, SharedPort::new(self.alloc, socket, at, heeded)) {
            Ok(shared) => Ok(shared),
            Err(_) => Err(no_memory()),
        }
    }

    // The same, which others may share from now on.
    fn bind_shared(
        &mut self,
        port: u16,
        heeded: Heeded,
    ) -> io::Result<Arc<SharedPort<R::Listener>, Global>>
        ensures bound { IfOk result (λ p. IsBoundAt self.old.address port (arc_value p).at) }
        ensures same { self.new ≡ self.old }
    {
        let shared = self.bind_new(port, heeded)?;
        let Ok(kept) = Arc::try_clone(&shared) else {
            return Err(no_memory());
        };
        if self.shared.len() >= SHARED || self.shared.push(kept).is_err() {
            return Err(no_memory());
        }
        Ok(shared)
    }

    // The port, which others may share from now on.
    fn share(
        &mut self,
        port: u16,
        heeded: Heeded,
    ) -> io::Result<Arc<SharedPort<R::Listener>, Global>>
        ensures bound { IfOk result (λ p. IsBoundAt self.old.address port (arc_value p).at) }
        ensures same { self.new ≡ self.old }
    {
        match self.find(port, heeded)? {
            Some(shared) => Ok(shared),
            None => self.bind_shared(port, heeded),
        }
    }

    // A listener for whoever comes. Of several at one port each connection goes to the one that is the first to take it.
    fn open(&mut self, port: u16) -> io::Result<PortListener<R>>
        ensures opened { IfOk result (λ l. (at : SocketAddr) × (l ≡ new_port at None None) × IsBoundAt self.old.address port at) }
        ensures same { self.new ≡ self.old }
    {
        let place = Place::new(&self.rt, self.alloc)?;
        let shared = self.share(port, Heeded::Anyone)?;
        place.add_port(shared.listener.as_raw_fd())?;
        Ok(PortListener::hearing(self.rt, shared, place, None))
    }

    // A listener for who comes from that address.
    fn open_for(&mut self, port: u16, from: Addr) -> io::Result<PortListener<R>>
        ensures opened { IfOk result (λ l. (at : SocketAddr) × (l ≡ new_port at (Some from) None) × IsBoundAt self.old.address port at) }
        ensures same { self.new ≡ self.old }
    {
        let place = Place::new(&self.rt, self.alloc)?;
        let shared = self.share(port, Heeded::OneAddress)?;
        place.add_port(shared.listener.as_raw_fd())?;
        let Ok(bell) = place.box_bell() else {
            return Err(no_memory());
        };
        match shared.add(self.rt, from, bell) {
            Ok(true) => Ok(PortListener::hearing(self.rt, shared, place, Some(from))),
            Ok(false) => Err(io::Error::from(ErrorKind::AddrInUse)),
            Err(_) => Err(no_memory()),
        }
    }

    // A listener that dials.
    fn dialler(&self, to: Addr, port: u16) -> io::Result<PortListener<R>>
        ensures { IfOk result (λ l. (at : SocketAddr) × (l ≡ new_port at (Some to) (Some to)) × IsDialledAt to port at) }
    {
        let place = Place::new(&self.rt, self.alloc)?;
        let at = SocketAddr::new(ip_of_addr(to), port);
        Ok(PortListener::dialling(self.rt, place, at, to))
    }
}

impl<R: Net + Clock + Copy + Drop> Ports for SocketPorts<R> {
    type Port = PortListener<R>;

    ghost calls = { λ p. p.calls };

    ghost faults = { λ p. p.faults };

    ghost failed_at = { λ p. p.failed_at };

    fn listen_for(&mut self, port: u16, from: Option<Addr>) -> Opened<PortListener<R>>
        ensures called { self.new.calls ≡ next_count self.old.calls }
        ensures cause { HasCause self.old.faults self.new.faults (result ≡ Opened.Failed) }
        ensures asked { IsOpenedAt (λ l. socket_port l.at) port result }
        ensures blame { result ≡ Opened.Failed → self.new.failed_at ≡ port }
        ensures keeps { result ≢ Opened.Failed → self.new.failed_at ≡ self.old.failed_at }
        ensures heeds { IsOpenedFor (λ l. l.heeds) (λ l. l.dialled_to) from None result }
        ensures counted { IsCounted self.old.faults self.new.faults (result ≡ Opened.Failed) }
        ensures bound { IfOpened (λ l. IsBoundAt self.old.address port l.at) result }
        ensures address { self.new.address ≡ self.old.address }
    {
        self.calls = self.calls.saturating_add(1);
        let opened = match from {
            None => self.open(port),
            Some(from) => self.open_for(port, from),
        };
        match opened {
            Ok(listener) => Opened::Port(listener),
            Err(_) => {
                self.faults = self.faults.saturating_add(1);
                self.failed_at = port;
                Opened::Failed
            }
        }
    }

    fn dial(&mut self, to: Addr, port: u16) -> Opened<PortListener<R>>
        ensures called { self.new.calls ≡ next_count self.old.calls }
        ensures cause { HasCause self.old.faults self.new.faults (result ≡ Opened.Failed) }
        ensures asked { IsOpenedAt (λ l. socket_port l.at) port result }
        ensures blame { result ≡ Opened.Failed → self.new.failed_at ≡ port }
        ensures keeps { result ≢ Opened.Failed → self.new.failed_at ≡ self.old.failed_at }
        ensures heeds { IsOpenedFor (λ l. l.heeds) (λ l. l.dialled_to) (Some to) (Some to) result }
        ensures counted { IsCounted self.old.faults self.new.faults (result ≡ Opened.Failed) }
        ensures dialled { IfOpened (λ l. IsDialledAt to port l.at) result }
        ensures address { self.new.address ≡ self.old.address }
    {
        self.calls = self.calls.saturating_add(1);
        match self.dialler(to, port) {
            Ok(listener) => Opened::Port(listener),
            Err(_) => {
                self.faults = self.faults.saturating_add(1);
                self.failed_at = port;
                Opened::Failed
            }
        }
    }
}
