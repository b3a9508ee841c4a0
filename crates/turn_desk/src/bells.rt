//! The board of a server: what wakes its threads, the ways along which messages wait, which job each worker is at, and when the server
//! ends. No clause speaks of it.
use crate::claims::Claims;
use crate::ending::Ending;
use crate::line::Line;
use crate::rounds::Rounds;
use dom_base::{As, NoMemory};
use dom_edge::{Bell, Chime};
use plant_network::Stirred;
use std::alloc::Global;
use std::sync::{OnceLock, Wait};
use std::time::Duration;

// As many outside peers as settings have.
const PEERS: usize = 256;

// As many workers as settings have.
const WORKERS: usize = 8;

// How long a worker waits at most, in milliseconds, so that a ring that was lost costs no more than this.
const WORKER_WAIT: u64 = 100;

/// The bells of the peers' threads, the carrier's and the workers' chimes, and what is told them. All desks at one lock share one.
#[derive(Drop)]
pub struct Bells {
    peers: Vec<OnceLock<Bell>>,
    rounds: Rounds,
    workers: Vec<Chime>,
    claims: Claims,
    line: Line,
    ending: Ending,
}

fn places(alloc: Global, count: usize) -> Result<Vec<OnceLock<Bell>>, NoMemory> {
    let mut places = Vec::new(alloc);
    for _place in 0..count {
        places.push(OnceLock::new())?;
    }
    Ok(places)
}

fn chimes(alloc: Global, count: usize) -> Result<Vec<Chime>, NoMemory> {
    let mut chimes = Vec::new(alloc);
    for _chime in 0..count {
        chimes.push(Chime::new())?;
    }
    Ok(chimes)
}

impl Bells {
    /// A board without bells, of a server in which nothing has happened.
    pub fn new(alloc: Global) -> Result<Bells, NoMemory> {
        let peers = places(alloc, PEERS)?;
        let workers = chimes(alloc, WORKERS)?;
        Ok(Bells {
            peers,
            rounds: Rounds::new(),
            workers,
            claims: Claims::new(),
            line: Line::new(alloc)?,
            ending: Ending::new(),
        })
    }

    /// From now on this bell wakes the thread of that peer. A second one for it is left aside.
    pub fn hang(&self, peer: u32, bell: Bell) {
        if let Some(place) = self.peers.get(peer as usize) {
            let _again = place.try_set(bell);
        }
    }

    /// From now on the carrier is told of these ways.
    pub fn set_ways(&self, alloc: Global, ways: &[(As, As)]) -> Result<(), NoMemory> {
        self.rounds.set_ways(alloc, ways)
    }

    /// What the carrier is told.
    pub(crate) fn rounds(&self) -> &Rounds {
        &self.rounds
    }

    /// Which job each worker is at.
    pub(crate) fn claims(&self) -> &Claims {
        &self.claims
    }

    /// When the server ends.
    pub(crate) fn ending(&self) -> &Ending {
        &self.ending
    }

    /// Where sessions stand that have much to do.
    pub(crate) fn line(&self) -> &Line {
        &self.line
    }

    /// Rings those whom a turn stirred, but for the session of the desk that made it: that one asks before it waits.
    pub(crate) fn ring(&self, stirred: &Stirred, own: Option<u32>) {
        self.rounds.add(&stirred.ways);
        if stirred.jobs {
            self.ring_worker();
        }
        let mut peers = stirred.peers;
        for _peer in 0..PEERS {
            let Some(peer) = peers.take_least() else {
                return;
            };
            if own != Some(peer) {
                self.ring_peer(peer);
            }
        }
    }

    // Rings the session of a peer.
    pub(crate) fn ring_peer(&self, peer: u32) {
        if let Some(place) = self.peers.get(peer as usize)
            && let Some(bell) = place.get()
        {
            bell.ring();
        }
    }

    // Wakes a worker that sleeps. Where none does, all are kept from their next wait, so that none lies down over the job.
    fn ring_worker(&self) {
        for chime in &self.workers {
            if chime.ring_if_waits() {
                return;
            }
        }
        for chime in &self.workers {
            chime.ring();
        }
    }

    /// A worker waits until a job may be ready, but not for long.
    pub(crate) fn wait_for_jobs<R: Wait>(&self, rt: &R, worker: usize) {
        if let Some(chime) = self.workers.get(worker) {
            chime.wait(rt, Duration::from_millis(WORKER_WAIT));
        }
    }
}
