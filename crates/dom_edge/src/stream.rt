//! Bytes that come in over time: the trait, and its forms in memory.
ghost use Rattle.std.specs.Prelude.{◌≡◌, ◌≢◌, ◌<◌, ◌↔◌, length};
ghost use Rattle.dom_edge.specs.Streams.{Reading, IsRead};
ghost use Rattle.dom_edge.specs.Memory.{IsPlanned, IsCalled, no_calls};
ghost use Rattle.dom_edge.specs.Links.{IsPieceRead, stream_reading, pieces_reading, new_pieces};

use crate::calls::PlannedCalls;
use crate::pieces::Pieces;
use dom_base::{Bytes, List as Rows};
use std::marker::Model;

/// What one read of a stream gave: how many bytes now stand at the front of the slice, that no more
/// will come, that none came by now, or that the read failed.
#[derive(Clone, Copy, Debug, PartialEq, Eq)]
pub enum Got {
    Bytes(usize),
    End,
    Quiet,
    Failed,
}

/// Bytes that come in over time.
pub trait Stream {
    /// The bytes that are left, where they are told, and how often a read failed, was quiet, and met
    /// the end. No count falls, and each stands still at the end of its type.
    ghost reading: { Self → Reading };

    /// Takes at least one byte, unless none is left, none came by now, or the read fails.
    fn read(&mut self, into: &mut [u8]) -> Got
        requires { 0 < length into.old }
        ensures reads { IsRead (reading self.old) (reading self.new) result into.new };
}

/// A stream in memory. The calls whose numbers, from 0, are in `fails` fail. An empty piece is one
/// quiet read, and the end comes after the last piece. A read takes from one piece only.
#[derive(Drop)]
pub struct MemoryStream {
    pieces: Pieces,
    calls: PlannedCalls,
}

impl Model for MemoryStream {
    ghost use Rattle.dom_edge.specs.Links.{StreamState};

    ghost Value = { StreamState };

    ghost view = { λ s. record { pieces = s.pieces; calls = s.calls } };
}

impl MemoryStream {
    /// A stream in memory that brings these pieces in order. Calls whose numbers, from 0, stand in `fails` fail.
    pub fn new(pieces: Rows<Bytes>, fails: Rows<u64>) -> Self
        ensures { result ≡ record { pieces = new_pieces pieces; calls = no_calls fails } }
    {
        MemoryStream {
            pieces: Pieces::new(pieces),
            calls: PlannedCalls::new(fails),
        }
    }
}

impl Stream for MemoryStream {
    ghost reading = { stream_reading };

    /// Fails exactly where the call is one that is to fail.
    fn read(&mut self, into: &mut [u8]) -> Got
        requires { 0 < length into.old }
        ensures reads { IsRead (stream_reading self.old) (stream_reading self.new) result into.new }
        ensures planned { result ≡ Got.Failed ↔ IsPlanned self.old.calls }
        ensures kept { result ≡ Got.Failed → self.new.pieces ≡ self.old.pieces }
        ensures pieces { result ≢ Got.Failed → IsPieceRead self.old.pieces self.new.pieces result (length into.old) }
        ensures called { IsCalled self.old.calls self.new.calls (result ≡ Got.Failed) }
    {
        if self.calls.is_planned() {
            self.calls.fail();
            return Got::Failed;
        }
        self.calls.pass();
        self.pieces.read(into)
    }
}

/// A stream in memory that never fails.
#[derive(Drop)]
pub struct SteadyStream {
    pieces: Pieces,
}

impl Model for SteadyStream {
    ghost use Rattle.dom_edge.specs.Links.{PiecesState};

    ghost Value = { PiecesState };

    ghost view = { λ s. s.pieces };
}

impl SteadyStream {
    /// A stream in memory that brings these pieces in order and never fails.
    pub fn new(pieces: Rows<Bytes>) -> Self
        ensures { result ≡ new_pieces pieces }
    {
        SteadyStream {
            pieces: Pieces::new(pieces),
        }
    }
}

impl Stream for SteadyStream {
    ghost reading = { λ s. pieces_reading s 0 };

    fn read(&mut self, into: &mut [u8]) -> Got
        requires { 0 < length into.old }
        ensures reads { IsRead (pieces_reading self.old 0) (pieces_reading self.new 0) result into.new }
        ensures pieces { IsPieceRead self.old self.new result (length into.old) }
        ensures never_fails { result ≢ Got.Failed }
    {
        self.pieces.read(into)
    }
}
