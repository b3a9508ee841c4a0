//! Along which ways messages wait, as the turns tell it: where the carrier goes next.
use dom_base::{As, NoMemory};
use dom_edge::Chime;
use plant_network::Ways;
use std::alloc::Global;
use std::sync::atomic::AtomicU64;
use std::sync::atomic::Ordering::SeqCst;
use std::sync::{OnceLock, Wait};
use std::time::Duration;

// How long the carrier waits at most before it makes a whole round, in seconds.
const CARRIER_WAIT: u64 = 10;

// How many ways one turn tells at most.
const TOLD: usize = 64;

// A way, and how many messages were put on it that the carrier has not asked for yet.
#[derive(Drop)]
struct Counted {
    way: (As, As),
    messages: AtomicU64,
    // not 0: more may wait there than are counted, until an ask finds none
    has_uncounted: AtomicU64,
}

/// The ways of the carrier. Every thread adds to their counts; the carrier alone takes from them, and keeps the other words.
#[derive(Drop)]
pub(crate) struct Rounds {
    ways: OnceLock<Vec<Counted>>,
    chime: Chime,
    // not 0: a whole round is to be made
    is_due: AtomicU64,
    // how many ways of a whole round are still to be asked
    left: AtomicU64,
    // the way that was asked last, counted from 1, until a message is found there
    asked: AtomicU64,
    // not 0: a whole round asked last
    is_of_round: AtomicU64,
    // the way on which the last message was told
    last: AtomicU64,
}

// Takes one from a count that others add to.
fn take_one(count: &AtomicU64) -> bool {
    if count.load(SeqCst) == 0 {
        return false;
    }
    count.fetch_sub(1, SeqCst);
    true
}

impl Rounds {
    /// No ways. Links begin with messages on them, so that a whole round is to be made first.
    pub(crate) fn new() -> Rounds {
        Rounds {
            ways: OnceLock::new(),
            chime: Chime::new(),
            is_due: AtomicU64::new(1),
            left: AtomicU64::new(0),
            asked: AtomicU64::new(0),
            is_of_round: AtomicU64::new(0),
            last: AtomicU64::new(0),
        }
    }

    /// From now on messages along these ways are counted.
    pub(crate) fn set_ways(&self, alloc: Global, ways: &[(As, As)]) -> Result<(), NoMemory> {
        let mut counted = Vec::new(alloc);
        for way in ways {
            counted.push(Counted {
                way: *way,
                messages: AtomicU64::new(0),
                has_uncounted: AtomicU64::new(0),
            })?;
        }
        let _again = self.ways.try_set(counted);
        Ok(())
    }

    /// A turn put a message on each of these ways.
    pub(crate) fn add(&self, ways: &Ways) {
        let mut is_told = false;
        for k in 0..TOLD {
            let Some(way) = ways.get(k) else {
                break;
            };
            self.count(way);
            is_told = true;
        }
        if !ways.is_whole() {
            self.is_due.store(1, SeqCst);
        }
        if is_told {
            self.chime.ring();
        }
    }

    fn count(&self, way: (As, As)) {
        let Some(ways) = self.ways.get() else {
            return;
        };
        for counted in ways {
            if counted.way == way {
                counted.messages.fetch_add(1, SeqCst);
                return;
            }
        }
    }

    // A way on which a message was put, looked for behind the last one.
    fn told(&self) -> Option<usize> {
        let Some(ways) = self.ways.get() else {
            return None;
        };
        let last = self.last.load(SeqCst) as usize;
        for step in 0..ways.len() {
            let place = last.wrapping_add(step).wrapping_add(1) % ways.len();
            if take_one(&ways[place].messages) {
                self.last.store(place as u64, SeqCst);
                return Some(place);
            }
        }
        None
    }

    fn at(&self, place: usize) -> Option<&Counted> {
        match self.ways.get() {
            Some(ways) => ways.get(place),
            None => None,
        }
    }

    // The next way of a whole round of so many, where one is due or has begun. More may wait there than are counted.
    fn next_of_round(&self, count: usize) -> Option<usize> {
        if self.is_due.swap(0, SeqCst) != 0 {
            self.left.store(count as u64, SeqCst);
        }
        if !take_one(&self.left) {
            return None;
        }
        let place = self.left.load(SeqCst) as usize;
        if let Some(counted) = self.at(place) {
            counted.has_uncounted.store(1, SeqCst);
        }
        Some(place)
    }

    // Where there are both, ways that were told and those of a whole round take turns.
    fn next(&self, count: usize) -> Option<usize> {
        if self.is_of_round.swap(0, SeqCst) != 0
            && let Some(place) = self.told()
        {
            return Some(place);
        }
        match self.next_of_round(count) {
            Some(place) => {
                self.is_of_round.store(1, SeqCst);
                Some(place)
            }
            None => self.told(),
        }
    }

    // The way that was asked last had no message: whatever comes there now is told.
    fn settle(&self) {
        let asked = self.asked.swap(0, SeqCst);
        if let Some(place) = asked.checked_sub(1)
            && let Some(counted) = self.at(place as usize)
        {
            counted.has_uncounted.store(0, SeqCst);
        }
    }

    /// The way that the carrier asks next, of so many: one on which a message was put, or the next of a whole round. Where there is
    /// neither it waits, and makes a whole round where nobody rings. A ring that was left over ends one wait at once, so it waits
    /// twice.
    pub(crate) fn wait_for_way<R: Wait>(&self, rt: &R, count: usize) -> usize {
        self.settle();
        let place = self.wait_for_next(rt, count);
        self.asked.store((place as u64).saturating_add(1), SeqCst);
        place
    }

    fn wait_for_next<R: Wait>(&self, rt: &R, count: usize) -> usize {
        for _wait in 0..2 {
            if let Some(place) = self.next(count) {
                return place;
            }
            self.chime.wait(rt, Duration::from_secs(CARRIER_WAIT));
        }
        if let Some(place) = self.next(count) {
            return place;
        }
        self.is_due.store(1, SeqCst);
        self.next(count).unwrap_or(0)
    }

    /// A message was there. Where more may wait than are counted, the way is asked again until there is none.
    pub(crate) fn found(&self, place: usize) {
        self.asked.store(0, SeqCst);
        if let Some(counted) = self.at(place)
            && counted.has_uncounted.load(SeqCst) != 0
            && counted.messages.load(SeqCst) == 0
        {
            counted.messages.fetch_add(1, SeqCst);
        }
    }
}
