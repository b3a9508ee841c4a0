//! A stream and a sink in one value: the trait, and its form in memory.
ghost use Rattle.std.specs.Prelude.{◌≡◌, ◌≢◌, ◌<◌, ◌↔◌, length, None, Some};
ghost use Rattle.dom_edge.specs.Streams.{Reading, Writing, IsRead, IsWrite, IsPutWhole};
ghost use Rattle.dom_edge.specs.Memory.{IsPlanned, IsCalled};
ghost use Rattle.dom_edge.specs.Links.{IsPieceRead, stream_reading, sink_writing};

use crate::sink::{MemorySink, Put, Sink};
use crate::stream::{Got, MemoryStream, Stream};
use dom_base::Addr;
use std::marker::Model;

/// A connection: bytes come in and go out, and neither way touches the other.
pub trait Wire {
    /// The side that is read, as that of a stream.
    ghost reading: { Self → Reading };

    /// The side that is written, as that of a sink: the bytes that were written, where they are told,
    /// and how often a write failed. The count never falls, and stands still at the end of its type.
    ghost writing: { Self → Writing };

    /// Takes at least one byte, unless none is left, none came by now, or the read fails.
    fn read(&mut self, into: &mut [u8]) -> Got
        requires { 0 < length into.old }
        ensures reads { IsRead (reading self.old) (reading self.new) result into.new }
        ensures writing { writing self.new ≡ writing self.old };

    /// Gives away at least one byte, unless the write fails. To give none is a fault.
    fn write(&mut self, piece: &[u8]) -> Put
        requires { 0 < length piece.now }
        ensures writes { IsWrite (writing self.old) (writing self.new) result piece.now }
        ensures reading { reading self.new ≡ reading self.old };
}

/// A connection in memory: a stream and a sink. Each keeps its own count of calls, and its own list
/// of those that are to fail. It comes from an address where it was made with one.
#[derive(Drop)]
pub struct MemoryLink {
    stream: MemoryStream,
    sink: MemorySink,
    from: Option<Addr>,
}

impl Model for MemoryLink {
    ghost use Rattle.dom_edge.specs.Links.{LinkState};

    ghost Value = { LinkState };

    ghost view = { λ l. record { stream = l.stream; sink = l.sink; from = l.from } };
}

impl MemoryLink {
    /// A wire whose reading side is this stream and whose writing side is this sink.
    pub fn new(stream: MemoryStream, sink: MemorySink) -> Self
        ensures { result ≡ record { stream = stream; sink = sink; from = None } }
    {
        MemoryLink {
            stream,
            sink,
            from: None,
        }
    }

    /// The same, which comes from that address.
    pub fn from_addr(stream: MemoryStream, sink: MemorySink, from: Addr) -> Self
        ensures { result ≡ record { stream = stream; sink = sink; from = Some from } }
    {
        MemoryLink {
            stream,
            sink,
            from: Some(from),
        }
    }

    /// The address that it comes from.
    pub fn came_from(&self) -> Option<Addr>
        ensures { result ≡ self.now.from }
    {
        self.from
    }

    /// All that was written.
    pub fn bytes(&self) -> &[u8]
        ensures { result.now ≡ self.now.sink.written }
    {
        self.sink.bytes()
    }
}

impl Wire for MemoryLink {
    ghost reading = { λ l. stream_reading l.stream };

    ghost writing = { λ l. sink_writing l.sink };

    fn read(&mut self, into: &mut [u8]) -> Got
        requires { 0 < length into.old }
        ensures reads { IsRead (stream_reading self.old.stream) (stream_reading self.new.stream) result into.new }
        ensures writing { sink_writing self.new.sink ≡ sink_writing self.old.sink }
        ensures sink { self.new.sink ≡ self.old.sink }
        ensures planned { result ≡ Got.Failed ↔ IsPlanned self.old.stream.calls }
        ensures kept { result ≡ Got.Failed → self.new.stream.pieces ≡ self.old.stream.pieces }
        ensures pieces { result ≢ Got.Failed → IsPieceRead self.old.stream.pieces self.new.stream.pieces result (length into.old) }
        ensures called { IsCalled self.old.stream.calls self.new.stream.calls (result ≡ Got.Failed) }
    {
        self.stream.read(into)
    }

    fn write(&mut self, piece: &[u8]) -> Put
        requires { 0 < length piece.now }
        ensures writes { IsWrite (sink_writing self.old.sink) (sink_writing self.new.sink) result piece.now }
        ensures reading { stream_reading self.new.stream ≡ stream_reading self.old.stream }
        ensures stream { self.new.stream ≡ self.old.stream }
        ensures planned { IsPlanned self.old.sink.calls → result ≡ Put.Failed }
        ensures called { IsCalled self.old.sink.calls self.new.sink.calls (result ≡ Put.Failed) }
        ensures whole { IsPutWhole result (length piece.now) }
    {
        self.sink.write(piece)
    }
}
