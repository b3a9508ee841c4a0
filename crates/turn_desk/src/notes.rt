//! A call of a worker, as it is noted.
use dom_base::{As, NoMemory};
use plant_network::{Done, Work};
use server_loops::Finished;
use std::snapshot::Snapshot;

/// A call, with its answer.
#[derive(Drop)]
pub enum Note {
    Asked(usize, Option<(As, u64)>),
    Looked(As, u64, Snapshot<Result<Option<Work>, NoMemory>>),
    Finished(Snapshot<Done>, Finished),
}
