//! Files that were made: sinks with their names.
ghost use Rattle.std.specs.Prelude.{◌≡◌, ◌<◌, Some, length};
ghost use Rattle.dom_edge.specs.Causes.{HasCause};
ghost use Rattle.dom_edge.specs.Streams.{Puts, IsPutWhole};
ghost use Rattle.dom_edge.specs.Memory.{IsPlanned, IsCalled};

use crate::sink::{MemorySink, Put, Sink};
use dom_base::{Bytes, Text};
use std::marker::Model;

/// A file that was made under a name. What is written to it goes to its sink.
#[derive(Drop)]
pub struct NamedFile<S: Sink + Drop> {
    name: Text,
    sink: S,
}

impl<S: Sink + Drop> Model for NamedFile<S> {
    ghost use Rattle.dom_edge.specs.Folders.{Named};

    ghost Value = { Named S };

    ghost view = { λ f. record { name = f.name; sink = f.sink } };
}

impl<S: Sink + Drop> NamedFile<S> {
    pub(crate) fn new(name: Text, sink: S) -> Self
        ensures { result ≡ record { name = name; sink = sink } }
    {
        NamedFile { name, sink }
    }

    // The name and the sink.
    pub(crate) fn into_parts(self) -> (Text, S)
        ensures { result ≡ (self.name, self.sink) }
    {
        let NamedFile { name, sink } = self;
        (name, sink)
    }
}

impl<S: Sink + Drop> Sink for NamedFile<S> {
    ghost written = { λ f. S.written f.sink };

    ghost faults = { λ f. S.faults f.sink };

    fn write(&mut self, piece: &[u8]) -> Put
        requires { 0 < length piece.now }
        ensures puts { Puts (S.written self.old.sink) (S.written self.new.sink) result piece.now }
        ensures cause { HasCause (S.faults self.old.sink) (S.faults self.new.sink) (result ≡ Put.Failed) }
        ensures name { self.new.name ≡ self.old.name }
    {
        self.sink.write(piece)
    }
}

/// A file in memory that was made under a name.
#[derive(Drop)]
pub struct MemoryFile {
    name: Text,
    sink: MemorySink,
}

impl Model for MemoryFile {
    ghost use Rattle.dom_edge.specs.Folders.{Named};
    ghost use Rattle.dom_edge.specs.Memory.{SinkState};

    ghost Value = { Named SinkState };

    ghost view = { λ f. record { name = f.name; sink = f.sink } };
}

impl MemoryFile {
    pub(crate) fn new(name: Text, sink: MemorySink) -> Self
        ensures { result ≡ record { name = name; sink = sink } }
    {
        MemoryFile { name, sink }
    }

    // The name, and all that was written.
    pub(crate) fn into_parts(self) -> (Text, Bytes)
        ensures { result ≡ (self.name, self.sink.written) }
    {
        let MemoryFile { name, sink } = self;
        (name, sink.into_bytes())
    }
}

impl Sink for MemoryFile {
    ghost written = { λ f. Some f.sink.written };

    ghost faults = { λ f. f.sink.calls.faults };

    fn write(&mut self, piece: &[u8]) -> Put
        requires { 0 < length piece.now }
        ensures puts { Puts (Some self.old.sink.written) (Some self.new.sink.written) result piece.now }
        ensures cause { HasCause self.old.sink.calls.faults self.new.sink.calls.faults (result ≡ Put.Failed) }
        ensures planned { IsPlanned self.old.sink.calls → result ≡ Put.Failed }
        ensures called { IsCalled self.old.sink.calls self.new.sink.calls (result ≡ Put.Failed) }
        ensures whole { IsPutWhole result (length piece.now) }
        ensures name { self.new.name ≡ self.old.name }
    {
        self.sink.write(piece)
    }
}
