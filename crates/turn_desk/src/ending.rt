//! When a server ends: it was asked to, and its record, where it has one, is written.
//!
//! No clause speaks of it.
use crate::bells::Bells;
use crate::desk::TurnDesk;
use server_loops::Ends;
use std::alloc::Global;
use std::sync::{Arc, OnceLock, Wait};
use std::time::Clock;

/// What the threads of a server tell one another of its end.
#[derive(Drop)]
pub(crate) struct Ending {
    asked: OnceLock<()>,
    recording: OnceLock<()>,
    recorded: OnceLock<()>,
}

impl Ending {
    pub(crate) fn new() -> Self {
        Ending {
            asked: OnceLock::new(),
            recording: OnceLock::new(),
            recorded: OnceLock::new(),
        }
    }

    /// Serving is to end.
    pub(crate) fn ask(&self) {
        let _again = self.asked.try_set(());
    }

    // Whether it was asked for, and no record is still being written.
    fn is_due(&self) -> bool {
        self.asked.get().is_some()
            && (self.recording.get().is_none() || self.recorded.get().is_some())
    }
}

// What is told of the end, where there is a board.
fn ending_of(bells: &Option<Arc<Bells, Global>>) -> Option<&Ending> {
    match bells {
        Some(bells) => Some(bells.ending()),
        None => None,
    }
}

impl<R: Wait + Clock> TurnDesk<R> {
    /// From now on a record is written, and the server does not end before it has.
    pub fn begin_record(&self) {
        if let Some(ending) = ending_of(&self.bells) {
            let _again = ending.recording.try_set(());
        }
    }

    /// The record has ended.
    pub fn end_record(&self) {
        if let Some(ending) = ending_of(&self.bells) {
            let _again = ending.recorded.try_set(());
        }
    }

    // The server is to end.
    pub(crate) fn ask_to_end(&self) {
        if let Some(ending) = ending_of(&self.bells) {
            ending.ask();
        }
    }
}

impl<R: Wait + Clock> Ends for TurnDesk<R> {
    fn is_over(&self) -> bool {
        match ending_of(&self.bells) {
            Some(ending) => ending.is_due(),
            None => false,
        }
    }
}
