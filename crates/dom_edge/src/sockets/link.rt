//! A connection of the system.
ghost use Rattle.std.specs.Prelude.{◌≡◌, ◌≢◌, ◌<◌, ◌≤◌, length, IfOk, None, Some};
ghost use Rattle.std.specs.Io.KnownBytes.{ReadConsumes, WriteAppends};
ghost use Rattle.dom_edge.specs.Causes.{IsCounted};
ghost use Rattle.dom_edge.specs.Streams.{Gets, IsRead, IsWrite, Puts};
ghost use Rattle.dom_edge.specs.Sockets.{SameCounts, new_socket, socket_reading, socket_writing};

use super::errors::{is_quiet, would_wait};
use crate::bell::Place;
use crate::sink::Put;
use crate::stream::Got;
use crate::wire::Wire;
use dom_base::Addr;
use std::io::{self, ErrorKind, Read, Write};
use std::marker::Model;
use std::net::OpenStream;
use std::time::{Clock, Duration, Instant};

// How long a read waits at most before it is quiet, in seconds.
const READ_SECONDS: u64 = 10;

// How often a read that was woken by something else waits on at most.
const WAKES: u32 = 8;

// How long a write waits until the other end makes room, before it fails, in seconds.
const WRITE_SECONDS: u64 = 60;

// How often a write looks for room at most.
const LOOKS: u32 = 1_000_000;

/// What a thread does for others where a port that it shares with them wakes it.
pub trait Door {
    fn sort(&self);
}

/// A connection that came through no shared port.
#[derive(Drop)]
pub struct NoDoor;

impl Door for NoDoor {
    fn sort(&self) {}
}

/// A connection of the system. Its sides tell nothing of content; what its stream tells of itself it hands on beside them.
///
/// A read that finds nothing waits for a byte or for the bell of its place, ten seconds at most, and 20 milliseconds where nobody was
/// given the bell. It is quiet where none came by then, where the bell was rung, and where a signal cut it short. A write waits until the other end makes room, for a minute in all,
/// also where a signal cuts it short; then it fails, as where it takes nothing. It leaves the bell alone.
#[derive(Drop)]
pub struct SocketLink<
    S: Read + Write + OpenStream + Drop,
    R: Clock + Drop,
    D: Door + Drop = NoDoor,
> {
    stream: S,
    rt: R,
    // where its calls wait; without one the stream's own calls wait, for a bounded time
    place: Option<Place>,
    door: D,
    from: Option<Addr>,
    faults: u64,
    quiets: u64,
    ends: u64,
    write_faults: u64,
}

impl<S: Read + Write + OpenStream + Drop, R: Clock + Drop, D: Door + Drop> Model
    for SocketLink<S, R, D> {
    ghost use Rattle.dom_edge.specs.Sockets.{SocketState};

    ghost Value = { SocketState S };

    ghost view = { λ l. record { stream = l.stream; from = l.from; faults = l.faults; quiets = l.quiets; ends = l.ends; write_faults = l.write_faults } };
}

impl<S: Read + Write + OpenStream + Drop, R: Clock + Drop> SocketLink<S, R, NoDoor> {
    /// Over a stream whose reads wait a bounded time by themselves.
    pub fn new(rt: R, stream: S) -> Self
        ensures { result ≡ new_socket stream None }
    {
        SocketLink {
            stream,
            rt,
            place: None,
            door: NoDoor,
            from: None,
            faults: 0,
            quiets: 0,
            ends: 0,
            write_faults: 0,
        }
    }
}

impl<S: Read + Write + OpenStream + Drop, R: Clock + Drop, D: Door + Drop> SocketLink<S, R, D> {
    // Over a stream whose calls return where they would wait, and for which its place waits.
    pub(super) fn at(rt: R, stream: S, place: Place, door: D, from: Addr) -> Self
        ensures { result ≡ new_socket stream (Some from) }
    {
        SocketLink {
            stream,
            rt,
            place: Some(place),
            door,
            from: Some(from),
            faults: 0,
            quiets: 0,
            ends: 0,
            write_faults: 0,
        }
    }

    /// The address that it comes from, where that is known.
    pub fn came_from(&self) -> Option<Addr>
        ensures { result ≡ self.now.from }
    {
        self.from
    }

    // Waits for a byte or the bell. Whether there is something to be read. Where its port woke it, it sorts who came there; where that
    // is all, or the stream has room, it waits on.
    fn wait(&self) -> bool {
        let Some(place) = &self.place else {
            return false;
        };
        for _wake in 0..WAKES {
            let woken = place.wait(Duration::from_secs(READ_SECONDS));
            if woken.port {
                self.door.sort();
            }
            if woken.readable {
                return true;
            }
            if woken.rung || !(woken.port || woken.writable) {
                return false;
            }
        }
        false
    }

    // Reads what is there. Where nothing is, it waits, and looks once more where something happened at the stream.
    fn receive(&mut self, into: &mut [u8]) -> io::Result<usize>
        ensures read { IfOk result (λ n. n ≤ length into.old) }
        ensures length { length into.new ≡ length into.old }
        ensures bytes { ReadConsumes (S.remaining self.old.stream) (S.remaining self.new.stream) result into.new }
        ensures counts { SameCounts self.old self.new }
    {
        match self.stream.read(into) {
            Err(error) if would_wait(&error) => {
                if self.wait() {
                    self.stream.read(into)
                } else {
                    Err(error)
                }
            }
            other => other,
        }
    }

    // Writes what there is room for.
    fn send_once(&mut self, piece: &[u8]) -> io::Result<usize>
        ensures wrote { IfOk result (λ n. n ≤ length piece.now) }
        ensures bytes { WriteAppends (S.contents self.old.stream) (S.contents self.new.stream) result piece.now }
        ensures counts { SameCounts self.old self.new }
    {
        self.stream.write(piece)
    }

    // Waits for room. Whether a write that began then may look once more.
    fn wait_for_room(&self, began: Instant) -> io::Result<bool> {
        let Some(place) = &self.place else {
            return Ok(false);
        };
        let limit = Duration::from_secs(WRITE_SECONDS);
        let gone = Instant::now(&self.rt)?.duration_since(began);
        if gone >= limit {
            return Ok(false);
        }
        let woken = place.wait_for_sockets(limit.saturating_sub(gone));
        if woken.port {
            self.door.sort();
        }
        Ok(true)
    }

    // Writes what there is room for, and waits for room where there is none.
    #[tactic(auto, using(crate::proofs::Kept::kept_write))]
    fn send(&mut self, piece: &[u8]) -> io::Result<usize>
        ensures wrote { IfOk result (λ n. n ≤ length piece.now) }
        ensures bytes { WriteAppends (S.contents self.old.stream) (S.contents self.new.stream) result piece.now }
        ensures counts { SameCounts self.old self.new }
    {
        let began = Instant::now(&self.rt)?;
        for _look in 0..LOOKS {
            match self.send_once(piece) {
                Err(error) if is_quiet(&error) => {
                    if would_wait(&error) && !self.wait_for_room(began)? {
                        return Err(error);
                    }
                }
                other => return other,
            }
        }
        Err(io::Error::from(ErrorKind::TimedOut))
    }
}

impl<S: Read + Write + OpenStream + Drop, R: Clock + Drop, D: Door + Drop> Wire
    for SocketLink<S, R, D> {
    ghost reading = { socket_reading };

    ghost writing = { socket_writing };

    fn read(&mut self, into: &mut [u8]) -> Got
        requires { 0 < length into.old }
        ensures reads { IsRead (socket_reading self.old) (socket_reading self.new) result into.new }
        ensures writing { socket_writing self.new ≡ socket_writing self.old }
        ensures faults { IsCounted self.old.faults self.new.faults (result ≡ Got.Failed) }
        ensures quiets { IsCounted self.old.quiets self.new.quiets (result ≡ Got.Quiet) }
        ensures ends { IsCounted self.old.ends self.new.ends (result ≡ Got.End) }
        ensures gets { Gets (S.remaining self.old.stream) (S.remaining self.new.stream) result into.new }
    {
        match self.receive(into) {
            Ok(0) => {
                self.ends = self.ends.saturating_add(1);
                Got::End
            }
            Ok(count) => Got::Bytes(count),
            Err(error) if is_quiet(&error) => {
                self.quiets = self.quiets.saturating_add(1);
                Got::Quiet
            }
            Err(_) => {
                self.faults = self.faults.saturating_add(1);
                Got::Failed
            }
        }
    }

    fn write(&mut self, piece: &[u8]) -> Put
        requires { 0 < length piece.now }
        ensures writes { IsWrite (socket_writing self.old) (socket_writing self.new) result piece.now }
        ensures reading { socket_reading self.new ≡ socket_reading self.old }
        ensures faults { IsCounted self.old.write_faults self.new.write_faults (result ≡ Put.Failed) }
        ensures puts { Puts (S.contents self.old.stream) (S.contents self.new.stream) result piece.now }
    {
        match self.send(piece) {
            Ok(count) if count > 0 => Put::Bytes(count),
            _ => {
                self.write_faults = self.write_faults.saturating_add(1);
                Put::Failed
            }
        }
    }
}
