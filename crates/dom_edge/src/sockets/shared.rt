//! A port of the system that several peers share: who came is sorted by the address that the system tells.
ghost use Rattle.std.specs.Prelude.{◌≡◌};

use super::addresses::addr_of_ip;
use super::errors::{is_quiet, quiet};
use super::link::Door;
use crate::bell::Bell;
use crate::heeding::is_heeded;
use dom_base::{Addr, NoMemory};
use std::alloc::Global;
use std::net::{OpenListener, SocketAddr};
use std::sync::{Arc, Mutex, MutexGuard};
use std::time::{Clock, Duration};
use std::{io, thread};

// As many peers share a port at most.
const PEERS: usize = 256;

// As many connections are sorted at once at most.
const AT_ONCE: u32 = 1_024;

// How often it is tried to come at the boxes at most, and how long between, in microseconds.
const TRIES: u32 = 200;

const PAUSE_MICROS: u64 = 50;

// A connection that nobody took yet, and where it comes from.
type Held<S> = (S, Addr);

// The box of one peer: a newer connection takes the place of one that still lies there.
#[derive(Drop)]
struct Room<S: Drop> {
    from: Addr,
    bell: Bell,
    held: Option<Held<S>>,
}

// For whom the listeners of a port are: each for whoever comes, or each for the connections of one address.
#[derive(Clone, Copy, PartialEq, Eq, Drop)]
pub(super) enum Heeded {
    Anyone,
    OneAddress,
}

// A listener of the system, the address that it was asked for, for whom it is, and the boxes of the peers that share it.
#[derive(Drop)]
pub(super) struct SharedPort<L: OpenListener + Drop> {
    pub(super) listener: L,
    pub(super) at: SocketAddr,
    pub(super) heeded: Heeded,
    rooms: Mutex<Vec<Room<L::Stream>>>,
}

impl<L: OpenListener + Drop> SharedPort<L> {
    // Nobody shares it yet.
    pub(super) fn new(alloc: Global, listener: L, at: SocketAddr, heeded: Heeded) -> Self
        ensures { result.at ≡ at }
    {
        SharedPort {
            listener,
            at,
            heeded,
            rooms: Mutex::new(Vec::new(alloc)),
        }
    }

    // The boxes, which others hold for a moment alone.
    fn enter<R: Clock + Copy + Drop>(&self, rt: R) -> Option<MutexGuard<'_, Vec<Room<L::Stream>>>> {
        for _try in 0..TRIES {
            if let Some(rooms) = self.rooms.try_lock() {
                return Some(rooms);
            }
            thread::sleep(&rt, Duration::from_micros(PAUSE_MICROS));
        }
        None
    }

    // A box for who comes from that address, where there is none yet. Whether there is one now.
    pub(super) fn add<R: Clock + Copy + Drop>(
        &self,
        rt: R,
        from: Addr,
        bell: Bell,
    ) -> Result<bool, NoMemory> {
        let Some(mut rooms) = self.enter(rt) else {
            return Ok(false);
        };
        let is_there = rooms
            .iter()
            .any(|room| is_heeded(Some(room.from), Some(from)));
        if is_there || rooms.len() >= PEERS {
            return Ok(false);
        }
        rooms.push(Room {
            from,
            bell,
            held: None,
        })?;
        Ok(true)
    }

    // What lies in the box of that address.
    fn take<R: Clock + Copy + Drop>(&self, rt: R, me: Addr) -> io::Result<Option<Held<L::Stream>>> {
        let Some(mut rooms) = self.enter(rt) else {
            return Err(quiet());
        };
        for room in rooms.iter_mut() {
            if is_heeded(Some(room.from), Some(me)) {
                return Ok(room.held.take());
            }
        }
        Ok(None)
    }

    // Lays a connection into the box of its address, and rings for it where that is another's. One that no peer has is closed.
    fn put<R: Clock + Copy + Drop>(&self, rt: R, me: Addr, held: Held<L::Stream>) {
        let Some(mut rooms) = self.enter(rt) else {
            return;
        };
        let from = held.1;
        let place = rooms
            .iter()
            .position(|room| is_heeded(Some(room.from), Some(from)));
        let Some(place) = place else {
            return;
        };
        if let Some(room) = rooms.get_mut(place) {
            room.held = Some(held);
            if !is_heeded(Some(me), Some(from)) {
                room.bell.ring();
            }
        }
    }

    // Sorts all that came.
    pub(super) fn sort<R: Clock + Copy + Drop>(&self, rt: R, me: Addr) -> io::Result<()> {
        for _came in 0..AT_ONCE {
            match self.listener.accept() {
                Ok((stream, from)) => self.put(rt, me, (stream, addr_of_ip(from.ip()))),
                Err(error) if is_quiet(&error) => return Ok(()),
                Err(error) => return Err(error),
            }
        }
        Ok(())
    }

    // What came from that address: what lies in its box, or else what comes to lie there when all that came is sorted.
    pub(super) fn look<R: Clock + Copy + Drop>(
        &self,
        rt: R,
        me: Addr,
    ) -> io::Result<Option<Held<L::Stream>>> {
        if let Some(held) = self.take(rt, me)? {
            return Ok(Some(held));
        }
        self.sort(rt, me)?;
        self.take(rt, me)
    }
}

/// The port that a connection came through, where others share it: its thread sorts who comes meanwhile.
#[derive(Drop)]
pub struct Doorway<L: OpenListener + Drop, R: Clock + Copy + Drop> {
    rt: R,
    through: Option<(Arc<SharedPort<L>, Global>, Addr)>,
}

impl<L: OpenListener + Drop, R: Clock + Copy + Drop> Doorway<L, R> {
    // Of a connection that came through no shared port.
    pub(super) fn none(rt: R) -> Self {
        Doorway { rt, through: None }
    }

    // Of the connection of the peer with that address.
    pub(super) fn of(rt: R, port: Arc<SharedPort<L>, Global>, me: Addr) -> Self {
        Doorway {
            rt,
            through: Some((port, me)),
        }
    }
}

impl<L: OpenListener + Drop, R: Clock + Copy + Drop> Door for Doorway<L, R> {
    fn sort(&self) {
        if let Some((port, me)) = &self.through {
            let _sorted = port.sort(self.rt, *me);
        }
    }
}
