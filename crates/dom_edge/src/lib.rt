//! The outside world: sources and sinks of bytes, files by their names, clocks, and ports with their connections.
#![tactic(auto)]

mod bell;
mod calendar;
mod calls;
mod chime;
mod clock;
mod file_folder;
mod folder;
mod heeding;
mod listener;
mod named;
mod noted;
mod pieces;
mod ports;
mod rest;
mod sink;
mod sockets;
mod source;
mod store;
mod stream;
mod supply;
mod whole;
mod wire;

pub use bell::{Bell, Place, Woken};
pub use calendar::{Calendar, MemoryCalendar, Moment, WallCalendar};
pub use calls::PlannedCalls;
pub use chime::Chime;
pub use clock::{Clock, MemoryClock, WallClock};
pub use file_folder::FileFolder;
pub use folder::{Folder, FolderError, MemoryFolder};
pub use heeding::canonical;
pub use listener::{Accepted, Listener, MemoryListener, SteadyListener};
pub use named::{MemoryFile, NamedFile};
pub use noted::Noted;
pub use ports::{MemoryPorts, Opened, Ports};
pub use sink::{MemorySink, OutputSink, Put, Sink};
pub use sockets::{Door, Doorway, NoDoor, PortListener, SocketLink, SocketPorts};
pub use source::{InputSource, MemorySource, Piece, Source, SteadySource};
pub use store::{FileStore, MemoryStore, Store, StoreError};
pub use stream::{Got, MemoryStream, SteadyStream, Stream};
pub use whole::{ReadError, WriteFailed, read_all, write_all, write_whole};
pub use wire::{MemoryLink, Wire};
