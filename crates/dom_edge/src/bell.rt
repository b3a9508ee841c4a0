//! Where one thread waits for sockets and for a bell that others ring. No clause speaks of waiting.
use dom_base::NoMemory;
use mio::unix::SourceFd;
use mio::{Events, Interest, Poll, Token, Waker};
use std::alloc::Global;
use std::io::{self, ErrorKind};
use std::net::Net;
use std::os::fd::RawFd;
use std::sync::atomic::AtomicU64;
use std::sync::atomic::Ordering::SeqCst;
use std::sync::{Arc, Mutex};
use std::time::Duration;

// Nobody waits, and the bell was not rung.
pub(crate) const AWAKE: u64 = 0;

// A thread waits.
pub(crate) const WAITS: u64 = 1;

// The bell was rung since a thread waited last.
pub(crate) const RUNG: u64 = 2;

const BELL: Token = Token(0);

const STREAM: Token = Token(1);

const PORT: Token = Token(2);

// As many sources as a place has.
const EVENTS: usize = 3;

// How long a wait is at most where nobody can ring, in milliseconds.
const ALONE_MILLIS: u64 = 20;

// What the system is asked, and where it answers.
#[derive(Drop)]
struct Waits {
    poll: Poll,
    events: Events<Global>,
}

#[derive(Drop)]
struct Inside {
    word: AtomicU64,
    // 1 from when its bell was handed out
    has_bell: AtomicU64,
    waker: Waker,
    waits: Mutex<Waits>,
}

/// What ended a wait: something can be read of the stream, it may have room, somebody may have come in at the port, or the bell was
/// rung. Where it is none of these the time is up.
#[derive(Clone, Copy)]
pub struct Woken {
    pub readable: bool,
    pub writable: bool,
    pub port: bool,
    pub rung: bool,
}

/// Where one thread waits: for a stream, for a port that is listened at, and for its bell, all in one call of the system.
///
/// The bell has a word, which says that nobody waits, that a thread waits, or that the bell was rung. A ring writes "rung" and wakes
/// the thread where the word said that it waits. A wait that finds "rung" takes it away and returns at once; else it writes
/// "waits", waits in the system, and takes away whatever stands there then. Every step on the word is sequentially consistent. So no
/// ring is lost, if the thread asks again for all that the bell stands for behind each return, before it waits again:
///
/// - Only the thread itself takes a "rung" away, and only in a wait.
/// - What is rung for was put where the thread will find it before the bell is rung. If it was put before the thread asked, the
///   question found it. If it was put behind the question, the ring comes behind it too: either the word then says "rung" when the
///   next wait begins, which returns at once, or that wait has begun, and the ring finds "waits" and wakes it.
/// - A ring that falls between the end of a wait and the word's clearing is wiped out, and may be: what it rang for was put before,
///   and all questions come behind.
///
/// A "rung" that was left over from something already found costs one question in vain. The system's events are those of an edge: who
/// waits for a socket has read or accepted until the system said that it would wait, so that the next byte is a new event. What is
/// left is a ring that fails in the system, and so each wait has a bound all the same. Where nobody was given the bell the thread has to
/// look by itself for what others leave it, and a wait is 20 milliseconds at most.
#[derive(Drop)]
pub struct Place {
    inside: Arc<Inside, Global>,
}

/// What wakes the thread that waits at a place, and keeps it from its next wait where it does not wait.
#[derive(Drop)]
pub struct Bell {
    inside: Arc<Inside, Global>,
}

impl Place {
    /// A place at which nobody waits. It takes two descriptors of the system.
    pub fn new<R: Net>(rt: &R, alloc: Global) -> io::Result<Place> {
        let poll = Poll::new(rt)?;
        let waker = Waker::new(poll.registry(), BELL)?;
        let events = Events::with_capacity(alloc, EVENTS)?;
        let inside = Inside {
            word: AtomicU64::new(AWAKE),
            has_bell: AtomicU64::new(0),
            waker,
            waits: Mutex::new(Waits { poll, events }),
        };
        Ok(Place {
            inside: Arc::new(alloc, inside)?,
        })
    }

    /// The same place.
    pub fn again(&self) -> Result<Place, NoMemory> {
        match Arc::try_clone(&self.inside) {
            Ok(inside) => Ok(Place { inside }),
            Err(_) => Err(NoMemory),
        }
    }

    /// Its bell. From now on a wait rests on being rung for.
    pub fn bell(&self) -> Result<Bell, NoMemory> {
        self.inside.has_bell.store(1, SeqCst);
        self.box_bell()
    }

    // Its bell, for a ring that tells of a connection alone.
    pub(crate) fn box_bell(&self) -> Result<Bell, NoMemory> {
        match Arc::try_clone(&self.inside) {
            Ok(inside) => Ok(Bell { inside }),
            Err(_) => Err(NoMemory),
        }
    }

    /// From now on it waits for what happens at this stream, whose calls return where they would wait.
    pub fn add_stream(&self, stream: RawFd) -> io::Result<()> {
        self.add(stream, STREAM, Interest::READABLE | Interest::WRITABLE)
    }

    /// From now on it waits for who comes in at this port, whose calls return where they would wait.
    pub fn add_port(&self, port: RawFd) -> io::Result<()> {
        self.add(port, PORT, Interest::READABLE)
    }

    fn add(&self, source: RawFd, token: Token, interests: Interest) -> io::Result<()> {
        let Some(waits) = self.inside.waits.try_lock() else {
            return Err(io::Error::from(ErrorKind::WouldBlock));
        };
        waits
            .poll
            .registry()
            .register(&mut SourceFd(&source), token, interests)
    }

    /// Waits until something happens at a socket or the bell is rung, for so long at most.
    pub fn wait(&self, limit: Duration) -> Woken {
        let word = &self.inside.word;
        if word.compare_exchange(AWAKE, WAITS, SeqCst, SeqCst).is_err() {
            word.store(AWAKE, SeqCst);
            return Woken {
                readable: false,
                writable: false,
                port: false,
                rung: true,
            };
        }
        let mut woken = self.sleep(self.bounded(limit));
        woken.rung = word.swap(AWAKE, SeqCst) == RUNG;
        woken
    }

    // How long it waits at most.
    fn bounded(&self, limit: Duration) -> Duration {
        if self.inside.has_bell.load(SeqCst) == 0 {
            limit.min(Duration::from_millis(ALONE_MILLIS))
        } else {
            limit
        }
    }

    /// Waits for sockets alone: a bell that is rung meanwhile stays so.
    pub fn wait_for_sockets(&self, limit: Duration) -> Woken {
        self.sleep(limit)
    }

    // A place is used by one thread, so nobody else has the lock; where the system can't wait, all is to be looked at.
    fn sleep(&self, limit: Duration) -> Woken {
        let mut woken = Woken {
            readable: false,
            writable: false,
            port: false,
            rung: false,
        };
        let Some(mut waits) = self.inside.waits.try_lock() else {
            woken.readable = true;
            return woken;
        };
        let Waits { poll, events } = &mut *waits;
        if poll.poll(events, Some(limit)).is_err() {
            woken.readable = true;
            return woken;
        }
        for event in events.iter() {
            if event.token() == STREAM {
                woken.readable |= event.is_readable() || event.is_read_closed() || event.is_error();
                woken.writable |= event.is_writable();
            }
            woken.port |= event.token() == PORT;
        }
        woken
    }
}

impl Bell {
    /// Wakes the thread that waits at its place, or else keeps it from its next wait.
    pub fn ring(&self) {
        if self.inside.word.swap(RUNG, SeqCst) == WAITS {
            let _ = self.inside.waker.wake();
        }
    }
}
