//! A sink that tells on the standard error, once a second, how many lines have gone through it.
ghost use Rattle.std.specs.Prelude.{◌≡◌, ◌<◌, length};
ghost use Rattle.dom_edge.specs.Causes.{HasCause};
ghost use Rattle.dom_edge.specs.Streams.{Puts};

use dom_edge::{Put, Sink};
use std::io::IsTerminal;
use std::time::{Duration, Instant};

// How many lines there were, and when it was told last, or began; none where nothing is told.
#[derive(Drop)]
struct Pace {
    rt: HostRuntime,
    last: Option<Instant>,
    lines: u64,
}

impl Pace {
    // It is told on a terminal alone, and only where what is written goes somewhere else.
    fn new(rt: HostRuntime) -> Self {
        let is_told = rt.stderr().is_terminal() && !rt.stdout().is_terminal();
        let last = if is_told {
            Instant::now(&rt).ok()
        } else {
            None
        };
        Pace { rt, last, lines: 0 }
    }

    // Counts the lines that end among these octets, and tells how many there are where a second has gone by.
    fn count(&mut self, bytes: &[u8]) {
        self.lines = self.lines.saturating_add(line_ends(bytes));
        let Some(last) = self.last else {
            return;
        };
        let Ok(now) = Instant::now(&self.rt) else {
            return;
        };
        if now.duration_since(last) >= Duration::from_secs(1) {
            self.last = Some(now);
            let _ = eprintln!(self.rt; "pce: {} lines so far", self.lines);
        }
    }
}

// How many lines end among these octets.
fn line_ends(bytes: &[u8]) -> u64 {
    let mut lines: u64 = 0;
    for byte in bytes {
        if *byte == b'\n' {
            lines = lines.saturating_add(1);
        }
    }
    lines
}

/// A sink with a word about how far it is.
#[derive(Drop)]
pub struct Progress<K: Sink + Drop> {
    sink: K,
    pace: Pace,
}

impl<K: Sink + Drop> Progress<K> {
    pub(crate) fn new(rt: HostRuntime, sink: K) -> Self {
        Progress {
            sink,
            pace: Pace::new(rt),
        }
    }

    /// What it tells of.
    pub(crate) fn sink(&self) -> &K {
        &self.sink
    }
}

impl<K: Sink + Drop> Sink for Progress<K> {
    ghost written = { λ p. K.written p.sink };

    ghost faults = { λ p. K.faults p.sink };

    fn write(&mut self, piece: &[u8]) -> Put
        requires { 0 < length piece.now }
        ensures puts { Puts (K.written self.old.sink) (K.written self.new.sink) result piece.now }
        ensures cause { HasCause (K.faults self.old.sink) (K.faults self.new.sink) (result ≡ Put.Failed) }
    {
        let put = self.sink.write(piece);
        if let Put::Bytes(count) = put {
            self.pace.count(&piece[..count]);
        }
        put
    }
}
