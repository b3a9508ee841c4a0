//! The clock of a server: it counts the time for which its machine was awake.
ghost use Rattle.std.specs.Prelude.{◌≡◌, ◌+◌, ◌≤◌, ℕ, min};
ghost use Rattle.std.specs.Duration.{as_nanos};
ghost use Rattle.dom_edge.specs.Causes.{next_count};
ghost use Rattle.pce_main.specs.Awake.{awake_for, GoesOn, ticks_in, time_between};

use dom_base::Tick;
use dom_edge::Clock;
use std::marker::Model;
use std::time::{Duration, Instant};
use std::{thread, time};

// How long it sleeps before each look at the system's clock, in milliseconds.
const LOOK_MILLIS: u64 = 10;

// The later one of what was seen and of now.
fn later(seen: Option<Instant>, now: Instant) -> Option<Instant>
    ensures { GoesOn seen result }
{
    match seen {
        Some(before) if now.checked_duration_since(before).is_none() => seen,
        _ => Some(now),
    }
}

// The time between two looks.
fn between(before: Option<Instant>, now: Option<Instant>) -> Duration
    ensures { as_nanos result ≡ time_between before now }
{
    match (before, now) {
        (Some(before), Some(now)) => now.duration_since(before),
        _ => Duration::from_secs(0),
    }
}

// As much of the time between two looks as counts.
fn counted(time: Duration) -> Duration
    ensures { as_nanos result ≡ min (as_nanos time) 1_000_000_000 }
{
    if time.as_secs() == 0 {
        time
    } else {
        Duration::from_secs(1)
    }
}

// The time awake behind a look that came so long behind the one before.
fn longer(awake: Duration, time: Duration) -> Duration
    ensures awake { as_nanos result ≡ awake_for (as_nanos awake) (as_nanos time) }
    ensures never_falls { ticks_in (as_nanos awake) ≤ ticks_in (as_nanos result) }
    ensures one_tick { ticks_in (as_nanos result) ≤ ticks_in (as_nanos awake) + 1 }
{
    awake.saturating_add(counted(time))
}

/// The clock of a server. A tick is a second for which the machine was awake. It looks at the system's clock every ten milliseconds, and
/// where more than a second has gone by between two looks, the machine stood still, or this process was stopped, or its thread had no turn:
/// that counts as one tick. So timers don't run out behind a standstill before peers were heard. It stands where the system's clock
/// can't be read or falls. One thread has it and tells the others, so nothing of it is shared.
#[derive(Drop)]
pub struct AwakeClock<R: time::Clock + Drop> {
    rt: R,
    seen: Option<Instant>,
    awake: Duration,
    readings: u64,
}

impl<R: time::Clock + Drop> Model for AwakeClock<R> {
    ghost use Rattle.std.specs.Duration.{as_nanos};
    ghost use Rattle.pce_main.specs.Awake.{AwakeState};

    ghost Value = { AwakeState };

    ghost view = { λ c. record { seen = c.seen; awake = as_nanos c.awake; readings = c.readings } };
}

impl<R: time::Clock + Drop> AwakeClock<R> {
    /// A clock at 0, which begins now, or where the system's clock can't be read yet, at the first look at which it can.
    pub(crate) fn new(rt: R) -> Self
        ensures awake { result.awake ≡ 0 }
        ensures readings { result.readings ≡ 0 }
    {
        let seen = Instant::now(&rt).ok();
        AwakeClock {
            rt,
            seen,
            awake: Duration::from_secs(0),
            readings: 0,
        }
    }

    // Looks at the system's clock, and returns the time since the look before.
    fn look(&mut self) -> Duration
        ensures time { as_nanos result ≡ time_between self.old.seen self.new.seen }
        ensures seen { GoesOn self.old.seen self.new.seen }
        ensures awake { self.new.awake ≡ self.old.awake }
        ensures readings { self.new.readings ≡ self.old.readings }
    {
        let before = self.seen;
        if let Ok(now) = Instant::now(&self.rt) {
            self.seen = later(before, now);
        }
        between(before, self.seen)
    }
}

impl<R: time::Clock + Drop> Clock for AwakeClock<R> {
    ghost last = { λ c. ticks_in c.awake };

    ghost readings = { λ c. c.readings };

    fn now(&mut self) -> Tick
        ensures reading { ticks_in self.new.awake ≡ result.0 }
        ensures never_falls { ticks_in self.old.awake ≤ result.0 }
        ensures counted { self.new.readings ≡ next_count self.old.readings }
        ensures awake { self.new.awake ≡ awake_for self.old.awake (time_between self.old.seen self.new.seen) }
        ensures one_tick { result.0 ≤ ticks_in self.old.awake + 1 }
        ensures seen { GoesOn self.old.seen self.new.seen }
    {
        thread::sleep(&self.rt, Duration::from_millis(LOOK_MILLIS));
        self.readings = self.readings.saturating_add(1);
        let time = self.look();
        self.awake = longer(self.awake, time);
        Tick(self.awake.as_secs())
    }
}
