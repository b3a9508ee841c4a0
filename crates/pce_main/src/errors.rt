//! The standard error of a server, which holds up none of its threads.
ghost use Rattle.std.specs.Prelude.{◌≡◌, ◌<◌, None, length};
ghost use Rattle.dom_edge.specs.Causes.{HasCause};
ghost use Rattle.dom_edge.specs.Streams.{Puts};

use dom_edge::{Place, Put, Sink};
use std::io::Write;
use std::time::{Duration, Instant};

// The system's number of the standard error.
const STANDARD_ERROR: i32 = 2;

// As many octets as a pipe has room for that has any.
const PIECE: usize = 4096;

// How long nothing is told again behind a word, in seconds.
const QUIET_SECONDS: u64 = 60;

// What is said, and how many lines were dropped since.
#[derive(Drop)]
struct Voice {
    rt: HostRuntime,
    dropped: u64,
}

impl Voice {
    fn new(rt: HostRuntime) -> Self {
        Voice { rt, dropped: 0 }
    }

    // Whether a write would wait. It is taken for none where that can't be told: a file never waits.
    fn is_full(&self) -> bool {
        let Ok(place) = Place::new(&self.rt, self.rt.alloc()) else {
            return false;
        };
        if place.add_stream(STANDARD_ERROR).is_err() {
            return false;
        }
        !place.wait_for_sockets(Duration::from_secs(0)).writable
    }

    // Writes a first part, at most so much as there is room for.
    fn put(&self, text: &[u8]) -> usize {
        let part = text.get(..PIECE).unwrap_or(text);
        match self.rt.stderr().write(part) {
            Ok(count) => count.min(text.len()),
            Err(_) => 0,
        }
    }

    // Whether a line can be written without a wait. Before it stands how many were dropped; where it can't it is one of these.
    fn is_open(&mut self) -> bool {
        if self.is_full() {
            self.dropped = self.dropped.saturating_add(1);
            return false;
        }
        if self.dropped > 0 {
            let _ = eprintln!(self.rt; "pce: {} lines were dropped here", self.dropped);
            self.dropped = 0;
        }
        true
    }

    // Writes a line, or a first part of it, unless that would wait.
    fn say(&mut self, text: &[u8]) -> usize {
        if self.is_open() { self.put(text) } else { 0 }
    }
}

/// The standard error. What would have to wait for its reader is dropped, and so many lines are told once there is room.
#[derive(Drop)]
pub struct StandardError {
    voice: Voice,
    faults: u64,
}

impl StandardError {
    pub(crate) fn new(rt: HostRuntime) -> Self {
        StandardError {
            voice: Voice::new(rt),
            faults: 0,
        }
    }
}

impl Sink for StandardError {
    ghost written = { λ _. None };

    ghost faults = { λ e. e.faults };

    fn write(&mut self, piece: &[u8]) -> Put
        requires { 0 < length piece.now }
        ensures puts { Puts None None result piece.now }
        ensures cause { HasCause self.old.faults self.new.faults (result ≡ Put.Failed) }
    {
        let count = self.voice.say(piece);
        if count > 0 && count <= piece.len() {
            return Put::Bytes(count);
        }
        self.faults = self.faults.saturating_add(1);
        Put::Failed
    }
}

/// A word that is said on the standard error once a minute at most.
#[derive(Drop)]
pub(crate) struct Word {
    voice: Voice,
    told: Option<Instant>,
}

impl Word {
    pub(crate) fn new(rt: HostRuntime) -> Self {
        Word {
            voice: Voice::new(rt),
            told: None,
        }
    }

    /// Whether it is to be said now.
    pub(crate) fn is_due(&mut self) -> bool {
        let Ok(now) = Instant::now(&self.voice.rt) else {
            return false;
        };
        if let Some(told) = self.told
            && now.duration_since(told) < Duration::from_secs(QUIET_SECONDS)
        {
            return false;
        }
        self.told = Some(now);
        self.voice.is_open()
    }
}

/// A sink of answers to an operator. It says on the standard error, once a minute at most, that one was not written.
#[derive(Drop)]
pub struct Answers<K: Sink + Drop> {
    rt: HostRuntime,
    sink: K,
    word: Word,
}

impl<K: Sink + Drop> Answers<K> {
    pub(crate) fn new(rt: HostRuntime, sink: K) -> Self {
        Answers {
            rt,
            sink,
            word: Word::new(rt),
        }
    }
}

impl<K: Sink + Drop> Sink for Answers<K> {
    ghost written = { λ a. K.written a.sink };

    ghost faults = { λ a. K.faults a.sink };

    fn write(&mut self, piece: &[u8]) -> Put
        requires { 0 < length piece.now }
        ensures puts { Puts (K.written self.old.sink) (K.written self.new.sink) result piece.now }
        ensures cause { HasCause (K.faults self.old.sink) (K.faults self.new.sink) (result ≡ Put.Failed) }
    {
        let put = self.sink.write(piece);
        if let Put::Failed = put
            && self.word.is_due()
        {
            let _ = eprintln!(self.rt; "pce: an answer to an operator was not written");
        }
        put
    }
}
