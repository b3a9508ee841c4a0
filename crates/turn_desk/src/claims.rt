//! Which job each worker is at, so that no other takes it.
use dom_base::As;
use std::sync::{Mutex, Wait};

// As many workers as settings have.
const WORKERS: usize = 8;

type Job = (As, u64);

/// The job of each worker, where it has one. A further worker has no place here: it claims nothing, and takes what no other has.
#[derive(Drop)]
pub(crate) struct Claims {
    jobs: Mutex<[Option<Job>; WORKERS]>,
}

impl Claims {
    pub(crate) fn new() -> Claims {
        Claims {
            jobs: Mutex::new([None; WORKERS]),
        }
    }

    /// Makes the job this worker's, in place of the one that it had, unless it is another's. Answers whether it did.
    pub(crate) fn claim<R: Wait>(&self, rt: &R, worker: usize, job: Job) -> bool {
        let mut jobs = self.jobs.lock(rt);
        for place in 0..WORKERS {
            if place != worker && jobs[place] == Some(job) {
                return false;
            }
        }
        if let Some(place) = jobs.get_mut(worker) {
            *place = Some(job);
        }
        true
    }

    /// The job that this worker had is anybody's.
    pub(crate) fn let_go<R: Wait>(&self, rt: &R, worker: usize) {
        let mut jobs = self.jobs.lock(rt);
        if let Some(place) = jobs.get_mut(worker) {
            *place = None;
        }
    }
}
