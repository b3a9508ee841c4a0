//! Clocks: the trait, in memory, and that of the system.
ghost use Rattle.std.specs.Prelude.{◌≡◌, ◌+◌, ◌≤◌, ℕ, [], drop};
ghost use Rattle.dom_edge.specs.Causes.{next_count};
ghost use Rattle.dom_edge.specs.Memory.{next_reading};
ghost use Rattle.dom_edge.specs.Time.{next_tick, whole_seconds};

use crate::supply::Supply;
use dom_base::{List as Rows, Tick};
use std::marker::Model;
use std::time::{Duration, Instant};
use std::{thread, time};

/// Moments that never fall.
pub trait Clock {
    /// The last reading, in seconds; 0 before the first.
    ghost last: { Self → ℕ };

    /// How many readings were taken. The count stands still at the end of its type.
    ghost readings: { Self → ℕ };

    /// The moment by now.
    fn now(&mut self) -> Tick
        ensures reading { last self.new ≡ result.0 }
        ensures never_falls { last self.old ≤ result.0 }
        ensures counted { readings self.new ≡ next_count (readings self.old) };
}

/// A clock in memory. It gives the readings one after the other, and where a reading is below the
/// one before it, and after the last, the greatest so far again; without any it gives 0.
#[derive(Drop)]
pub struct MemoryClock {
    later: Supply<Tick>,
    last: u64,
    readings: u64,
}

impl Model for MemoryClock {
    ghost use Rattle.dom_edge.specs.Memory.{ClockState};

    ghost Value = { ClockState };

    ghost view = { λ c. record { later = c.later; last = c.last; readings = c.readings } };
}

impl MemoryClock {
    /// A clock that tells these readings in order, none below the one before, and then the last one again.
    pub fn new(readings: Rows<Tick>) -> Self
        ensures { result ≡ record { later = readings; last = 0; readings = 0 } }
    {
        MemoryClock {
            later: Supply::new(readings),
            last: 0,
            readings: 0,
        }
    }
}

impl Clock for MemoryClock {
    ghost last = { λ c. c.last };

    ghost readings = { λ c. c.readings };

    fn now(&mut self) -> Tick
        ensures reading { self.new.last ≡ result.0 }
        ensures never_falls { self.old.last ≤ result.0 }
        ensures counted { self.new.readings ≡ next_count self.old.readings }
        ensures value { result.0 ≡ next_reading self.old.later self.old.last }
        ensures later { self.new.later ≡ drop 1 self.old.later }
    {
        self.readings = self.readings.saturating_add(1);
        if let Some(tick) = self.later.next() {
            self.last = self.last.max(tick.0);
        }
        Tick(self.last)
    }
}

// How long the clock of the system sleeps before it reads, in milliseconds.
const READING_MILLIS: u64 = 10;

// The system's clock when it was first read, and its greatest reading.
#[derive(Clone, Copy)]
struct Stretch {
    start: Instant,
    latest: Instant,
}

// The stretch that begins now, where the system's clock can be read.
fn begin(rt: &impl time::Clock) -> Option<Stretch>
    ensures { whole_seconds result ≡ 0 }
{
    let start = Instant::now(rt).ok()?;
    Some(Stretch {
        start,
        latest: start,
    })
}

// The stretch up to a reading of the system's clock, which begins there where none was made before.
fn reaching(stretch: Option<Stretch>, now: Instant) -> Option<Stretch>
    ensures { whole_seconds stretch ≤ whole_seconds result }
{
    match stretch {
        None => Some(Stretch {
            start: now,
            latest: now,
        }),
        Some(Stretch { start, latest }) if now.checked_duration_since(latest).is_some() => {
            Some(Stretch { start, latest: now })
        }
        known => known,
    }
}

// The whole seconds of a stretch.
fn seconds_of(stretch: Option<Stretch>) -> u64
    ensures { result ≡ whole_seconds stretch }
{
    match stretch {
        None => 0,
        Some(Stretch { start, latest }) => latest.duration_since(start).as_secs(),
    }
}

/// The clock of the system: a tick is a second since the clock was made. It never falls, whatever the
/// system says; where the system's clock can't be read, it stands. A reading goes on by one tick at the
/// most, so that behind a standstill of minutes the ticks come one after the other, and between them what
/// waits to be read is read. Each call sleeps ten milliseconds before it reads, so that a loop over the
/// clock does not keep a processor busy, and catches up with a minute within a second.
#[derive(Drop)]
pub struct WallClock<R: time::Clock + Drop> {
    rt: R,
    stretch: Option<Stretch>,
    last: u64,
    readings: u64,
}

impl<R: time::Clock + Drop> Model for WallClock<R> {
    ghost use Rattle.dom_edge.specs.Time.{WallState, whole_seconds};

    ghost Value = { WallState };

    ghost view = { λ c. record { passed = whole_seconds c.stretch; last = c.last; readings = c.readings } };
}

impl<R: time::Clock + Drop> WallClock<R> {
    /// A clock that begins now, or where the system's clock can't be read yet, at the first reading
    /// where it can.
    pub fn new(rt: R) -> Self
        ensures { result ≡ record { passed = 0; last = 0; readings = 0 } }
    {
        let stretch = begin(&rt);
        WallClock {
            rt,
            stretch,
            last: 0,
            readings: 0,
        }
    }

    // The seconds since the start by the greatest reading of the system's clock, which is read once more.
    fn passed(&mut self) -> u64
        ensures passed { result ≡ self.new.passed }
        ensures grows { self.old.passed ≤ self.new.passed }
        ensures last { self.new.last ≡ self.old.last }
        ensures readings { self.new.readings ≡ self.old.readings }
    {
        if let Ok(now) = Instant::now(&self.rt) {
            self.stretch = reaching(self.stretch, now);
        }
        seconds_of(self.stretch)
    }
}

impl<R: time::Clock + Drop> Clock for WallClock<R> {
    ghost last = { λ c. c.last };

    ghost readings = { λ c. c.readings };

    fn now(&mut self) -> Tick
        ensures reading { self.new.last ≡ result.0 }
        ensures never_falls { self.old.last ≤ result.0 }
        ensures counted { self.new.readings ≡ next_count self.old.readings }
        ensures ticks { result.0 ≡ next_tick self.new.passed self.old.last }
        ensures one_tick { result.0 ≤ self.old.last + 1 }
        ensures passed { self.old.passed ≤ self.new.passed }
    {
        thread::sleep(&self.rt, Duration::from_millis(READING_MILLIS));
        self.readings = self.readings.saturating_add(1);
        let passed = self.passed();
        if self.last < passed {
            self.last += 1;
        }
        Tick(self.last)
    }
}
