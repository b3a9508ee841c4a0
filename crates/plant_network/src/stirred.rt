//! Whom an act stirred: for whom it left something to do. No clause speaks of it.
use crate::acts::{Act, Acted};
use crate::topologies::Plant;
use dom_base::{As, Peer};
use network_events::model::Event;
use plant_queues::Said;

// Words of a set of peers.
const WORDS: usize = 4;

// Bits of a word.
const BITS: u32 = 64;

// How many ways are told one by one: more than a request, a reply and a parent's questions take.
const WAYS: usize = 16;

/// Outside peers, by their numbers below 256.
#[derive(Clone, Copy)]
pub struct PeerSet {
    words: [u64; WORDS],
}

impl PeerSet {
    /// Nobody.
    pub fn new() -> PeerSet {
        PeerSet { words: [0; WORDS] }
    }

    /// Adds a peer; one whose number is 256 or more is left out.
    pub fn insert(&mut self, peer: u32) {
        let place = (peer / BITS) as usize;
        if let Some(word) = self.words.get_mut(place) {
            *word |= 1 << (peer % BITS);
        }
    }

    /// Takes the peer of the least number out.
    pub fn take_least(&mut self) -> Option<u32> {
        for place in 0..WORDS {
            let word = self.words[place];
            if word != 0 {
                self.words[place] = word & (word - 1);
                return Some(place as u32 * BITS + word.trailing_zeros());
            }
        }
        None
    }
}

/// Inner ways, each from a member to a member: one for each message, in order.
#[derive(Clone, Copy)]
pub struct Ways {
    known: [(As, As); WAYS],
    count: usize,
    is_whole: bool,
}

impl Ways {
    /// No way.
    pub fn new() -> Ways {
        Ways {
            known: [(As(0), As(0)); WAYS],
            count: 0,
            is_whole: true,
        }
    }

    /// Adds a way behind the others, or notes that there are more than are told.
    pub fn push(&mut self, from: As, to: As) {
        match self.known.get_mut(self.count) {
            Some(place) => {
                *place = (from, to);
                self.count = self.count.saturating_add(1);
            }
            None => self.is_whole = false,
        }
    }

    /// The k-th way.
    pub fn get(&self, k: usize) -> Option<(As, As)> {
        if k >= self.count {
            return None;
        }
        match self.known.get(k) {
            Some(way) => Some(*way),
            None => None,
        }
    }

    /// Whether these are all ways; else any way may be one too.
    pub fn is_whole(&self) -> bool {
        self.is_whole
    }
}

/// For whom an act left something to do, so that whoever waits can be woken. Nothing is promised of it: one who is left out waits
/// longer.
#[derive(Clone, Copy)]
pub struct Stirred {
    /// The outside peers in whose queues a message was put.
    pub peers: PeerSet,
    /// The inner ways along which one was put.
    pub ways: Ways,
    /// Whether a job may have become ready.
    pub jobs: bool,
}

/// Whether an act delivers a message. Where that makes a job ready nothing is said: else it is refused, answered or sent on. No other
/// act makes one ready: an end of a session loses what waits on it, and a solve ends its own.
pub(crate) fn delivers(act: &Act) -> bool {
    match act {
        Act::Do(Event::Take(_)) | Act::Do(Event::Carry(_, _)) => true,
        _ => false,
    }
}

// Whom these messages are for.
fn add_said(stirred: &mut Stirred, said: &Said) {
    for k in 0..said.len() {
        let (from, to) = said.way(k);
        match to {
            Peer::Outside(peer) => stirred.peers.insert(peer),
            Peer::Inner(to) => stirred.ways.push(from, to),
        }
    }
}

/// Whom an act stirred, by what it answered. Behind a question or a refusal the network's messages are those of an earlier act, and
/// nobody is stirred.
pub(crate) fn stirred_by(plant: &Plant, is_delivery: bool, acted: &Acted) -> Stirred {
    let mut stirred = Stirred {
        peers: PeerSet::new(),
        ways: Ways::new(),
        jobs: false,
    };
    if matches!(acted, Acted::Did(Ok(_)) | Acted::Committed(Ok(_))) {
        let said = plant.said();
        add_said(&mut stirred, said);
        stirred.jobs = is_delivery && said.is_empty();
    }
    stirred
}
