//! Bytes that come in: the trait, in memory, and any reader.
ghost use Rattle.std.specs.Prelude.{◌≡◌, ◌<◌, ◌≤◌, ◌↔◌, List, ℕ, length, drop, None, Some, ◌≢◌};
ghost use Rattle.std.specs.declared.option.Option.{Option};
ghost use Rattle.dom_edge.specs.Causes.{HasCause, IsCounted};
ghost use Rattle.dom_edge.specs.Streams.{Takes};
ghost use Rattle.dom_edge.specs.Memory.{IsPlanned, IsCalled, no_calls};

use crate::calls::PlannedCalls;
use crate::rest::Rest;
use dom_base::{Bytes, List as Rows};
use std::io::Read;
use std::marker::Model;

/// What one read of a source gave: how many bytes now stand at the front of the slice, that no
/// more will come, or that the read failed.
#[derive(Clone, Copy)]
pub enum Piece {
    Bytes(usize),
    End,
    Failed,
}

/// Bytes that come in.
pub trait Source {
    /// The bytes that are left, where they are told.
    ghost left: { Self → Option (List ℕ) };

    /// How often a read has failed. The count never falls, and stands still at the end of its type.
    ghost faults: { Self → ℕ };

    /// Takes at least one byte, unless none is left or the read fails.
    fn read(&mut self, into: &mut [u8]) -> Piece
        requires { 0 < length into.old }
        ensures takes { Takes (left self.old) (left self.new) result into.new }
        ensures cause { HasCause (faults self.old) (faults self.new) (result ≡ Piece.Failed) };
}

// What is left, as an answer of a source.
fn take_rest(rest: &mut Rest, into: &mut [u8]) -> Piece
    requires { 0 < length into.old }
    ensures takes { Takes (Some rest.old) (Some rest.new) result into.new }
    ensures not_failed { result ≢ Piece.Failed }
{
    if rest.is_empty() {
        return Piece::End;
    }
    Piece::Bytes(rest.take(into))
}

/// A source in memory. The calls whose numbers, from 0, are in `fails` fail.
#[derive(Drop)]
pub struct MemorySource {
    rest: Rest,
    calls: PlannedCalls,
}

impl Model for MemorySource {
    ghost use Rattle.dom_edge.specs.Memory.{SourceState};

    ghost Value = { SourceState };

    ghost view = { λ s. record { left = s.rest; calls = s.calls } };
}

impl MemorySource {
    /// A source in memory of these bytes. Calls whose numbers, from 0, stand in `fails` fail.
    pub fn new(bytes: Bytes, fails: Rows<u64>) -> Self
        ensures { result ≡ record { left = bytes; calls = no_calls fails } }
    {
        MemorySource {
            rest: Rest::new(bytes),
            calls: PlannedCalls::new(fails),
        }
    }
}

impl Source for MemorySource {
    ghost left = { λ s. Some s.left };

    ghost faults = { λ s. s.calls.faults };

    /// Fails exactly where the call is one that is to fail.
    fn read(&mut self, into: &mut [u8]) -> Piece
        requires { 0 < length into.old }
        ensures takes { Takes (Some self.old.left) (Some self.new.left) result into.new }
        ensures cause { HasCause self.old.calls.faults self.new.calls.faults (result ≡ Piece.Failed) }
        ensures planned { result ≡ Piece.Failed ↔ IsPlanned self.old.calls }
        ensures called { IsCalled self.old.calls self.new.calls (result ≡ Piece.Failed) }
    {
        if self.calls.is_planned() {
            self.calls.fail();
            return Piece::Failed;
        }
        self.calls.pass();
        take_rest(&mut self.rest, into)
    }
}

/// A source in memory that never fails.
#[derive(Drop)]
pub struct SteadySource {
    rest: Rest,
}

impl Model for SteadySource {
    ghost use Rattle.std.specs.Prelude.{List, ℕ};

    ghost Value = { List ℕ };

    ghost view = { λ s. s.rest };
}

impl SteadySource {
    /// A source in memory of these bytes that never fails.
    pub fn new(bytes: Bytes) -> Self
        ensures { result ≡ bytes }
    {
        SteadySource {
            rest: Rest::new(bytes),
        }
    }
}

impl Source for SteadySource {
    ghost left = { λ s. Some s };

    ghost faults = { λ _. 0 };

    fn read(&mut self, into: &mut [u8]) -> Piece {
        take_rest(&mut self.rest, into)
    }
}

/// The standard input, or any other reader. It tells what its reader tells of what will come.
#[derive(Drop)]
pub struct InputSource<R: Read + Drop> {
    reader: R,
    faults: u64,
}

impl<R: Read + Drop> Model for InputSource<R> {
    ghost use Rattle.dom_edge.specs.Memory.{Counted};

    ghost Value = { Counted R };

    ghost view = { λ s. record { inner = s.reader; faults = s.faults } };
}

impl<R: Read + Drop> InputSource<R> {
    /// A source that reads from this reader.
    pub fn new(reader: R) -> Self
        ensures { result ≡ record { inner = reader; faults = 0 } }
    {
        InputSource { reader, faults: 0 }
    }
}

impl<R: Read + Drop> Source for InputSource<R> {
    ghost left = { λ s. R.remaining s.inner };

    ghost faults = { λ s. s.faults };

    fn read(&mut self, into: &mut [u8]) -> Piece
        requires { 0 < length into.old }
        ensures takes { Takes (R.remaining self.old.inner) (R.remaining self.new.inner) result into.new }
        ensures cause { HasCause self.old.faults self.new.faults (result ≡ Piece.Failed) }
        ensures counted { IsCounted self.old.faults self.new.faults (result ≡ Piece.Failed) }
    {
        match self.reader.read(into) {
            Ok(0) => Piece::End,
            Ok(count) => Piece::Bytes(count),
            Err(_) => {
                self.faults = self.faults.saturating_add(1);
                Piece::Failed
            }
        }
    }
}
