//! A port of the system that is listened at, or of another machine that is dialled.
ghost use Rattle.std.specs.Prelude.{◌≡◌, IfOk, None, Some};
ghost use Rattle.std.specs.declared.option.Option.{Option};
ghost use Rattle.std.specs.Arc.{arc_value};
ghost use Rattle.std.specs.Net.Socket.{socket_port};
ghost use Rattle.dom_edge.specs.Causes.{HasCause, IsCounted};
ghost use Rattle.dom_edge.specs.Heeding.{HandsOut, IsFor};
ghost use Rattle.dom_edge.specs.Sockets.{IsDialledAt, new_port, socket_reading, socket_writing};

use super::addresses::{addr_of_ip, ip_of_addr};
use super::asked::{Asked, connect_at};
use super::dialling::Pause;
use super::errors::{is_our_own, is_quiet, no_memory, quiet, would_wait};
use super::link::SocketLink;
use super::shared::{Doorway, SharedPort};
use crate::bell::{Bell, Place};
use crate::heeding::is_heeded;
use crate::listener::{Accepted, Listener};
use crate::noted::Noted;
use dom_base::Addr;
use std::alloc::Global;
use std::marker::Model;
use std::net::{Net, OpenListener, OpenStream, SocketAddr};
use std::os::fd::AsRawFd;
use std::sync::Arc;
use std::time::{Clock, Duration, Instant};
use std::{io, thread};

// How long an `accept` waits at most before it is quiet, in seconds.
const ACCEPT_SECONDS: u64 = 10;

// How long it tries at most to reach whom it dials, in seconds.
const DIAL_SECONDS: u64 = 10;

// How long it sleeps where it fails, in milliseconds.
const FAILED_MILLIS: u64 = 20;

/// A port of the system that is listened at, or one of another machine that is dialled.
///
/// An `accept` waits for a connection or for its bell, ten seconds at most, and 20 milliseconds where nobody was given the bell; then it is
/// quiet. Where it fails it sleeps for 20 milliseconds, so that no loop over it keeps a processor busy.
///
/// Where it heeds one address it may share its port with others, each with an address of its own. Whose thread the system wakes
/// takes in all that came, and lays each connection into the box of its address; one that no peer has is closed at once.
///
/// Where it dials, an `accept` tries to reach the other end, for ten seconds at most, and is quiet where that fails for a reason of
/// the other end or of the way there. Before it tries again it waits a second, twice as long behind each try that failed, and a minute
/// at most; a second again behind a connection that stood. The bell ends that wait, and then it is quiet.
#[derive(Drop)]
pub struct PortListener<R: Net + Clock + Copy + Drop> {
    rt: R,
    // the port that is listened at; none where it dials
    port: Option<Arc<SharedPort<R::Listener>, Global>>,
    pause: Pause,
    place: Place,
    at: SocketAddr,
    heeds: Option<Addr>,
    dialled_to: Option<Addr>,
    handed: Noted<SocketLink<R::Stream, R, Doorway<R::Listener, R>>>,
    faults: u64,
    quiets: u64,
}

impl<R: Net + Clock + Copy + Drop> Model for PortListener<R> {
    ghost use Rattle.dom_edge.specs.Sockets.{PortState, socket_sides};

    ghost Value = { PortState };

    ghost view = { λ l. record { handed = socket_sides l.handed.items; at = l.at; heeds = l.heeds; dialled_to = l.dialled_to; faults = l.faults; quiets = l.quiets } };
}

// What a failure to reach another machine is told as: as one of its own where this machine lacked something.
fn told(error: io::Error) -> io::Error {
    if is_our_own(&error) { error } else { quiet() }
}

impl<R: Net + Clock + Copy + Drop> PortListener<R> {
    // At a port of the system, for whom it heeds.
    pub(super) fn hearing(
        rt: R,
        port: Arc<SharedPort<R::Listener>, Global>,
        place: Place,
        heeds: Option<Addr>,
    ) -> Self
        ensures { result ≡ new_port (arc_value port).at heeds None }
    {
        let at = port.at;
        PortListener {
            rt,
            port: Some(port),
            pause: Pause::none(),
            place,
            at,
            heeds,
            dialled_to: None,
            handed: Noted::new(),
            faults: 0,
            quiets: 0,
        }
    }

    // For a port of another machine.
    pub(super) fn dialling(rt: R, place: Place, at: SocketAddr, to: Addr) -> Self
        ensures { result ≡ new_port at (Some to) (Some to) }
    {
        PortListener {
            rt,
            port: None,
            pause: Pause::none(),
            place,
            at,
            heeds: Some(to),
            dialled_to: Some(to),
            handed: Noted::new(),
            faults: 0,
            quiets: 0,
        }
    }

    // A connection whose calls wait at this place.
    fn link(
        &self,
        stream: R::Stream,
        door: Doorway<R::Listener, R>,
        from: Addr,
    ) -> io::Result<SocketLink<R::Stream, R, Doorway<R::Listener, R>>> {
        stream.set_nodelay(true)?;
        stream.set_nonblocking(true)?;
        let Ok(place) = self.place.again() else {
            return Err(no_memory());
        };
        place.add_stream(stream.as_raw_fd())?;
        Ok(SocketLink::at(self.rt, stream, place, door, from))
    }

    // Whoever comes next, and from where.
    fn first(&self, listener: &R::Listener) -> io::Result<(R::Stream, Addr)> {
        let (stream, from) = match listener.accept() {
            Err(error) if would_wait(&error) => {
                self.place.wait(Duration::from_secs(ACCEPT_SECONDS));
                listener.accept()?
            }
            other => other?,
        };
        Ok((stream, addr_of_ip(from.ip())))
    }

    // Who comes next from that address.
    fn own(&self, port: &SharedPort<R::Listener>, me: Addr) -> io::Result<(R::Stream, Addr)> {
        if let Some(held) = port.look(self.rt, me)? {
            return Ok(held);
        }
        self.place.wait(Duration::from_secs(ACCEPT_SECONDS));
        match port.look(self.rt, me)? {
            Some(held) => Ok(held),
            None => Err(quiet()),
        }
    }

    // Who comes next of whom is heeded.
    fn hear(&self) -> io::Result<SocketLink<R::Stream, R, Doorway<R::Listener, R>>> {
        let Some(port) = &self.port else {
            return Err(quiet());
        };
        let Some(me) = self.heeds else {
            let (stream, from) = self.first(&port.listener)?;
            return self.link(stream, Doorway::none(self.rt), from);
        };
        let (stream, from) = self.own(&**port, me)?;
        match Arc::try_clone(port) {
            Ok(port) => self.link(stream, Doorway::of(self.rt, port, me), from),
            Err(_) => Err(no_memory()),
        }
    }

    // A stream to the other end.
    fn reach(&self, to: Addr) -> io::Result<Asked<R::Stream>>
        ensures { IfOk result (λ a. IsDialledAt to (socket_port self.now.at) a.at) }
    {
        let at = SocketAddr::new(ip_of_addr(to), self.at.port());
        connect_at(&self.rt, at, Duration::from_secs(DIAL_SECONDS))
    }

    // Whether the pause before the next try is over, behind a wait for it.
    fn is_time(&mut self) -> io::Result<bool>
        ensures { self.new ≡ self.old }
    {
        let now = Instant::now(&self.rt)?;
        self.pause = self.pause.begun(now);
        let left = self.pause.left(now);
        if left.is_zero() {
            return Ok(true);
        }
        self.place
            .wait(left.min(Duration::from_secs(ACCEPT_SECONDS)));
        let now = Instant::now(&self.rt)?;
        Ok(self.pause.left(now).is_zero())
    }

    // Dials, behind a pause.
    fn dial(&mut self, to: Addr) -> io::Result<SocketLink<R::Stream, R, Doorway<R::Listener, R>>>
        ensures { self.new ≡ self.old }
    {
        if !self.is_time()? {
            return Err(quiet());
        }
        match self.reach(to) {
            Ok(asked) => {
                self.pause = Pause::behind_connection();
                self.link(asked.socket, Doorway::none(self.rt), to)
            }
            Err(error) => {
                let now = Instant::now(&self.rt)?;
                self.pause = self.pause.behind_failure(now);
                Err(told(error))
            }
        }
    }

    // The next connection.
    fn next(&mut self) -> io::Result<SocketLink<R::Stream, R, Doorway<R::Listener, R>>>
        ensures { self.new ≡ self.old }
    {
        match self.dialled_to {
            Some(to) => self.dial(to),
            None => self.hear(),
        }
    }
}

impl<R: Net + Clock + Copy + Drop> Listener for PortListener<R> {
    type Link = SocketLink<R::Stream, R, Doorway<R::Listener, R>>;

    ghost comes_from = { λ link. link.from };

    ghost opened_at = { λ l. socket_port l.at };

    ghost faults = { λ l. l.faults };

    ghost quiets = { λ l. l.quiets };

    ghost heeds = { λ l. l.heeds };

    ghost dialled_to = { λ l. l.dialled_to };

    ghost handed = { λ l. l.handed };

    fn accept(&mut self) -> Accepted<SocketLink<R::Stream, R, Doorway<R::Listener, R>>>
        ensures failed { HasCause self.old.faults self.new.faults (result ≡ Accepted.Failed) }
        ensures quiet { HasCause self.old.quiets self.new.quiets (result ≡ Accepted.Quiet) }
        ensures port { socket_port self.new.at ≡ socket_port self.old.at }
        ensures heeded { IsFor (λ link. link.from) self.old.heeds result }
        ensures heeds { self.new.heeds ≡ self.old.heeds }
        ensures dials { self.new.dialled_to ≡ self.old.dialled_to }
        ensures handed { HandsOut socket_reading socket_writing self.old.handed self.new.handed result }
        ensures counted { IsCounted self.old.faults self.new.faults (result ≡ Accepted.Failed) }
        ensures quiets { IsCounted self.old.quiets self.new.quiets (result ≡ Accepted.Quiet) }
    {
        match self.next() {
            Ok(link) if is_heeded(self.heeds, link.came_from()) => {
                self.handed = self.handed.and(&link);
                Accepted::Link(link)
            }
            Err(error) if !is_quiet(&error) => {
                thread::sleep(&self.rt, Duration::from_millis(FAILED_MILLIS));
                self.faults = self.faults.saturating_add(1);
                Accepted::Failed
            }
            _ => {
                self.quiets = self.quiets.saturating_add(1);
                Accepted::Quiet
            }
        }
    }

    fn port(&self) -> u16 {
        self.at.port()
    }

    fn bell(&self) -> Option<Bell> {
        self.place.bell().ok()
    }
}
