//! How a caller waits while the lock is in use. No clause speaks of time.
use std::hint::spin_loop;
use std::thread::{sleep, yield_now};
use std::time::{Clock, Duration};

/// How often a caller waits without a ticket. It sleeps in most of these waits, so it draws a ticket after a quarter of a
/// second at the latest.
pub(crate) const PATIENCE: u32 = 1_000;

// How often the loop of a spin turns, by the number of the wait.
const SPINS: [u32; 6] = [8, 16, 32, 64, 128, 256];

// How long a caller sleeps, in microseconds, by the number of the sleep; longer waits are as the last.
const NAPS: [u64; 3] = [60, 120, 250];

// The last wait that is a yield.
const YIELDS: usize = 9;

// How often a caller with a ticket spins, and how often it yields then.
const TURNS_SPUN: u32 = 64;

const TURNS_YIELDED: u32 = 2_000;

fn spin(turns: u32) {
    for _turn in 0..turns {
        spin_loop();
    }
}

fn nap<C: Clock>(clock: &C, micros: u64) {
    sleep(clock, Duration::from_micros(micros));
}

/// The wait of this number, from 0, of a caller without a ticket: it spins, then yields, then sleeps, each time for
/// longer.
pub(crate) fn stand_back<C: Clock>(clock: &C, wait: u32) {
    let wait = wait as usize;
    if let Some(turns) = SPINS.get(wait) {
        spin(*turns);
    } else if wait <= YIELDS {
        yield_now();
    } else {
        nap(clock, NAPS[(wait - YIELDS - 1).min(NAPS.len() - 1)]);
    }
}

/// The wait of this number of a caller whose ticket is so far from the one that is served.
pub(crate) fn stand_by<C: Clock>(clock: &C, wait: u32, distance: u64) {
    if wait < TURNS_SPUN {
        spin(distance.min(16) as u32 * 16);
    } else if wait < TURNS_YIELDED {
        yield_now();
    } else {
        nap(clock, NAPS[0]);
    }
}
