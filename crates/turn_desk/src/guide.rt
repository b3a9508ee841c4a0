//! What the carrier is told at its desk.
use crate::desk::TurnDesk;
use server_loops::Guide;
use std::sync::Wait;
use std::time::Clock;

impl<R: Wait + Clock> Guide for TurnDesk<R> {
    fn next_way(&self, count: usize, last: usize) -> usize {
        match &self.bells {
            Some(bells) => bells.rounds().wait_for_way(&self.rt, count),
            None => last.wrapping_add(1),
        }
    }

    fn found(&self, place: usize) {
        if let Some(bells) = &self.bells {
            bells.rounds().found(place);
        }
    }
}
