//! Bytes that go out: the trait, in memory, and any writer.
ghost use Rattle.std.specs.Prelude.{◌≡◌, ◌<◌, List, ℕ, [], length, None, Some};
ghost use Rattle.std.specs.declared.option.Option.{Option};
ghost use Rattle.dom_edge.specs.Causes.{HasCause, IsCounted};
ghost use Rattle.dom_edge.specs.Streams.{Puts, IsPutWhole};
ghost use Rattle.dom_edge.specs.Memory.{IsPlanned, IsCalled, no_calls};

use crate::calls::PlannedCalls;
use dom_base::{Bytes, List as Rows};
use std::alloc::Global;
use std::io::Write;
use std::marker::Model;

/// What one write to a sink did: how many bytes it took from the front of the piece, or that it
/// failed.
#[derive(Clone, Copy, Debug, PartialEq, Eq)]
pub enum Put {
    Bytes(usize),
    Failed,
}

/// Bytes that go out.
pub trait Sink {
    /// The bytes that were written, where they are told.
    ghost written: { Self → Option (List ℕ) };

    /// How often a write has failed. The count never falls, and stands still at the end of its type.
    ghost faults: { Self → ℕ };

    /// Takes at least one byte, unless the write fails. To take nothing is a fault.
    fn write(&mut self, piece: &[u8]) -> Put
        requires { 0 < length piece.now }
        ensures puts { Puts (written self.old) (written self.new) result piece.now }
        ensures cause { HasCause (faults self.old) (faults self.new) (result ≡ Put.Failed) };
}

/// A sink in memory. The calls whose numbers, from 0, are in `fails` fail, and so does a call that
/// finds no memory for its piece; every other call takes the whole piece.
#[derive(Drop)]
pub struct MemorySink {
    bytes: Vec<u8>,
    calls: PlannedCalls,
}

impl Model for MemorySink {
    ghost use Rattle.dom_edge.specs.Memory.{SinkState};

    ghost Value = { SinkState };

    ghost view = { λ s. record { written = s.bytes.items; calls = s.calls } };
}

impl MemorySink {
    /// A sink in memory. Calls whose numbers, from 0, stand in `fails` fail.
    pub fn new(alloc: Global, fails: Rows<u64>) -> Self
        ensures { result ≡ record { written = []; calls = no_calls fails } }
    {
        MemorySink {
            bytes: Vec::new(alloc),
            calls: PlannedCalls::new(fails),
        }
    }

    /// All that was written.
    pub fn bytes(&self) -> &[u8]
        ensures { result.now ≡ self.now.written }
    {
        self.bytes.as_slice()
    }

    // All that was written; takes no memory.
    pub(crate) fn into_bytes(self) -> Bytes
        ensures { result ≡ self.written }
    {
        let MemorySink { bytes, calls: _ } = self;
        Bytes::from_vec(bytes)
    }
}

impl Sink for MemorySink {
    ghost written = { λ s. Some s.written };

    ghost faults = { λ s. s.calls.faults };

    fn write(&mut self, piece: &[u8]) -> Put
        requires { 0 < length piece.now }
        ensures puts { Puts (Some self.old.written) (Some self.new.written) result piece.now }
        ensures cause { HasCause self.old.calls.faults self.new.calls.faults (result ≡ Put.Failed) }
        ensures planned { IsPlanned self.old.calls → result ≡ Put.Failed }
        ensures called { IsCalled self.old.calls self.new.calls (result ≡ Put.Failed) }
        ensures whole { IsPutWhole result (length piece.now) }
    {
        if self.calls.is_planned() || self.bytes.extend_from_slice(piece).is_err() {
            self.calls.fail();
            return Put::Failed;
        }
        self.calls.pass();
        Put::Bytes(piece.len())
    }
}

/// The standard output, or any other writer. It tells what its writer tells of what was written.
#[derive(Drop)]
pub struct OutputSink<W: Write + Drop> {
    writer: W,
    faults: u64,
}

impl<W: Write + Drop> Model for OutputSink<W> {
    ghost use Rattle.dom_edge.specs.Memory.{Counted};

    ghost Value = { Counted W };

    ghost view = { λ s. record { inner = s.writer; faults = s.faults } };
}

impl<W: Write + Drop> OutputSink<W> {
    /// A sink that writes to this writer.
    pub fn new(writer: W) -> Self
        ensures { result ≡ record { inner = writer; faults = 0 } }
    {
        OutputSink { writer, faults: 0 }
    }

    // The writer again.
    pub(crate) fn into_writer(self) -> W
        ensures { result ≡ self.inner }
    {
        let OutputSink { writer, faults: _ } = self;
        writer
    }
}

impl<W: Write + Drop> Sink for OutputSink<W> {
    ghost written = { λ s. W.contents s.inner };

    ghost faults = { λ s. s.faults };

    fn write(&mut self, piece: &[u8]) -> Put
        requires { 0 < length piece.now }
        ensures puts { Puts (W.contents self.old.inner) (W.contents self.new.inner) result piece.now }
        ensures cause { HasCause self.old.faults self.new.faults (result ≡ Put.Failed) }
        ensures counted { IsCounted self.old.faults self.new.faults (result ≡ Put.Failed) }
    {
        match self.writer.write(piece) {
            Ok(count) if count > 0 => Put::Bytes(count),
            _ => {
                self.faults = self.faults.saturating_add(1);
                Put::Failed
            }
        }
    }
}
