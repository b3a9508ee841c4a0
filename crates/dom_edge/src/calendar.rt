//! The calendar: moments of UTC and their texts, in memory and of the system.
ghost use Rattle.std.specs.Prelude.{◌≡◌, ◌<◌, ◌/◌, ℕ, drop, SomeIff};
ghost use Rattle.dom_edge.specs.Moments.{IsMomentText, next_moment, two_digits, time_text, date_text};

use crate::supply::Supply;
use dom_base::List as Rows;
use jiff_core::civil::{Date, DateTime, Time};
use std::marker::Model;
use std::time;
use std::time::SystemTime;

// The first second of the year 10000.
const END: u64 = 253_402_300_800;

const SECONDS_OF_DAY: u64 = 86_400;

/// A second of the years 1970 to 9999 (UTC), by its number from the beginning of 1970, without leap seconds.
#[derive(Clone, Copy)]
pub struct Moment {
    seconds: u64,
}

impl Model for Moment {
    ghost use Rattle.std.specs.Prelude.{ℕ, ◌<◌};

    ghost Value = { ℕ };

    ghost view = { λ m. m.seconds };

    ghost invariant = { λ m. m.seconds < 253_402_300_800 };

    ghost inverse = { λ n. record { seconds = n } };
}

impl Moment {
    /// The moment that is so many seconds behind the beginning of 1970, where it is before the year 10000.
    pub fn new(seconds: u64) -> Option<Moment>
        ensures { SomeIff result (seconds < 253_402_300_800) seconds }
    {
        if seconds < END {
            Some(Moment { seconds })
        } else {
            None
        }
    }

    /// How many seconds it is behind the beginning of 1970.
    pub fn seconds(&self) -> u64
        ensures { result ≡ self.now }
    {
        self.seconds
    }

    /// How many days its day is behind the first of 1970.
    pub fn day(&self) -> u64
        ensures { result ≡ self.now / 86_400 }
    {
        self.seconds / SECONDS_OF_DAY
    }

    /// Its text, as `20261130T172800Z`.
    pub fn text(&self) -> [u8; 16]
        ensures { IsMomentText self.now result }
    {
        let at = DateTime::from_nanosecond_in_range(i128::from(self.seconds) * 1_000_000_000);
        let [y0, y1, y2, y3, m0, m1, d0, d1] = date_octets(at.date);
        let [h0, h1, n0, n1, s0, s1] = time_octets(at.time);
        [
            y0, y1, y2, y3, m0, m1, d0, d1, b'T', h0, h1, n0, n1, s0, s1, b'Z',
        ]
    }
}

// A number below 100 in two digits.
fn digits(number: u8) -> [u8; 2]
    requires { number < 100 }
    ensures { result ≡ two_digits number }
{
    [b'0' + number / 10, b'0' + number % 10]
}

#[tactic(auto, using(crate::proofs::MomentLaws::year_within, jiff_core::proofs::CalendarLemmas::days_in_month_bounds))]
fn date_octets(date: Date) -> [u8; 8]
    ensures { result ≡ date_text date }
{
    let year = date.year.unsigned_abs();
    let [y0, y1] = digits((year / 100) as u8);
    let [y2, y3] = digits((year % 100) as u8);
    let [m0, m1] = digits(date.month);
    let [d0, d1] = digits(date.day);
    [y0, y1, y2, y3, m0, m1, d0, d1]
}

fn time_octets(time: Time) -> [u8; 6]
    ensures { result ≡ time_text time }
{
    let [h0, h1] = digits(time.hour);
    let [m0, m1] = digits(time.minute);
    let [s0, s1] = digits(time.second);
    [h0, h1, m0, m1, s0, s1]
}

/// The days and their seconds.
pub trait Calendar {
    /// The moment that was told last; the beginning of 1970 before.
    ghost last: { Self → ℕ };

    /// The moment by now. It may fall: the system's clock may be set anew.
    fn now(&mut self) -> Moment
        ensures { last self.new ≡ result };
}

/// A calendar in memory. It tells these moments one after the other, and behind the last that one again;
/// without any the beginning of 1970.
#[derive(Drop)]
pub struct MemoryCalendar {
    later: Supply<Moment>,
    last: Moment,
}

impl Model for MemoryCalendar {
    ghost use Rattle.dom_edge.specs.Moments.{CalendarState};

    ghost Value = { CalendarState };

    ghost view = { λ c. record { later = c.later; last = c.last } };
}

impl MemoryCalendar {
    /// A calendar that tells these moments in order, and then the last one again.
    pub fn new(moments: Rows<Moment>) -> Self
        ensures { result ≡ record { later = moments; last = 0 } }
    {
        MemoryCalendar {
            later: Supply::new(moments),
            last: Moment { seconds: 0 },
        }
    }
}

impl Calendar for MemoryCalendar {
    ghost last = { λ c. c.last };

    fn now(&mut self) -> Moment
        ensures reading { self.new.last ≡ result }
        ensures value { result ≡ next_moment self.old.later self.old.last }
        ensures later { self.new.later ≡ drop 1 self.old.later }
    {
        if let Some(moment) = self.later.next() {
            self.last = moment;
        }
        self.last
    }
}

/// The calendar of the system. Where it can't be read, as before 1970, it tells what it told last.
#[derive(Drop)]
pub struct WallCalendar<R: time::Clock + Drop> {
    rt: R,
    last: Moment,
}

impl<R: time::Clock + Drop> Model for WallCalendar<R> {
    ghost use Rattle.std.specs.Prelude.{ℕ};

    ghost Value = { ℕ };

    ghost view = { λ c. c.last };
}

impl<R: time::Clock + Drop> WallCalendar<R> {
    /// The calendar of the system, which has told the beginning of 1970 alone.
    pub fn new(rt: R) -> Self
        ensures { result ≡ 0 }
    {
        WallCalendar {
            rt,
            last: Moment { seconds: 0 },
        }
    }
}

impl<R: time::Clock + Drop> Calendar for WallCalendar<R> {
    ghost last = { λ c. c };

    fn now(&mut self) -> Moment {
        if let Some(moment) = read_system(&self.rt) {
            self.last = moment;
        }
        self.last
    }
}

// The moment by the system's clock, where it can be read.
fn read_system(rt: &impl time::Clock) -> Option<Moment> {
    let since = SystemTime::now(rt)
        .ok()?
        .duration_since(time::UNIX_EPOCH)
        .ok()?;
    Moment::new(since.as_secs())
}
