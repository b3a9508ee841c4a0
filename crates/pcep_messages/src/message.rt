//! Messages and their parts.
ghost use Rattle.std.specs.Prelude.{◌≡◌};
ghost use Rattle.pcep_messages.specs.declared.message.Bad.TheVariants as bad;
ghost use Rattle.pcep_messages.specs.declared.message.Refusal.TheVariants as refusals;
ghost use Rattle.pcep_messages.specs.declared.message.WriteError.TheVariants as write;

use dom_base::{Addr, As, List, NoMemory, Query};
use pcep_objects::{Object, OpenBody};
use pcep_subobjects::Hop;
use std::alloc::AllocError;

/// A message of a session (RFC 5440, section 6). A frame of another type is `Other`.
#[derive(Drop)]
pub enum Message {
    Open(OpenBody),
    Keepalive,
    PcReq(List<Asked>),
    PcRep(List<Reply>),
    PcNtf(List<Notice>),
    PcErr(List<ErrorReport>),
    /// The reason why the session ends.
    Close(u8),
    /// The type; the content is not read.
    Other(u8),
}

/// The objects of one request (RFC 5440, section 6.4).
pub struct Asked {
    pub objects: List<Object>,
}

// Written by hand, so that it is proved once: a derived one would be proved again in each crate that drops a value.
impl Drop for Asked {
    fn drop(self) {
        let Asked { objects: _ } = self;
    }
}

/// The answer to one request, with the flags and the number of its RP (RFC 5440, section 6.5).
#[derive(Drop)]
pub struct Reply {
    pub flags: u32,
    pub id: u32,
    pub answer: Answer,
}

/// The answer to a request.
#[derive(Drop)]
pub enum Answer {
    Paths(List<Path>),
    /// The nature of the issue and the NO-PATH-VECTOR, 0 without one (RFC 5440, section 7.5).
    NoPath { nature: u8, vector: u32 },
}

/// A path, and the type and word of its METRIC where it has one.
#[derive(Drop)]
pub struct Path {
    pub hops: List<Hop>,
    pub metric: Option<(u8, u32)>,
}

/// What is notified, by type and value, and of which requests, by flags and number (RFC 5440,
/// section 6.6).
pub struct Notice {
    pub ids: List<(u32, u32)>,
    pub kinds: List<(u8, u8)>,
}

// Written by hand, so that it is proved once: a derived one would be proved again in each crate that drops a value.
impl Drop for Notice {
    fn drop(self) {
        let Notice { ids: _, kinds: _ } = self;
    }
}

/// Which errors are reported, by type and value, of which requests, by flags and number, and the
/// OPEN that goes with them (RFC 5440, section 6.7).
pub struct ErrorReport {
    pub ids: List<(u32, u32)>,
    pub errors: List<(u8, u8)>,
    pub opening: Option<OpenBody>,
}

// Written by hand, so that it is proved once: a derived one would be proved again in each crate that drops a value.
impl Drop for ErrorReport {
    fn drop(self) {
        let ErrorReport {
            ids: _,
            errors: _,
            opening: _,
        } = self;
    }
}

/// Why a frame is no message.
#[derive(Clone, Copy, Debug)]
pub enum Bad {
    /// The number, from 0, of the first octet of the object at fault; 0 where the header is, and 4
    /// where an Open or Close message does not begin with its object.
    Malformed(usize),
    NoMemory,
}

impl From<NoMemory> for Bad {
    ghost from_gives = { λ _ e. e ≡ bad.NoMemory };

    fn from(_: NoMemory) -> Self {
        Bad::NoMemory
    }
}

/// A request that is not refused, with the flags and the number of its RP.
#[derive(Drop)]
pub struct Request {
    pub flags: u32,
    pub id: u32,
    pub wish: Wish,
}

/// What a request asks for: a path, or the segment that a path key stands for at an element (RFC
/// 5520, section 3.2).
#[derive(Drop)]
pub enum Wish {
    Path(Wanted),
    Expand { key: u16, pce: Addr },
}

/// A path that is asked for. The words of BANDWIDTH and of the bound, and the masks of LSPA, are
/// as in the request; the query is their meaning. `sequence` is the IRO's.
#[derive(Drop)]
pub struct Wanted {
    pub source: Addr,
    pub target: Addr,
    pub query: Query,
    pub bandwidth_word: Option<u32>,
    pub bound_word: Option<u32>,
    /// Exclude-any, include-any and include-all (RFC 3209, section 4.7.4).
    pub masks: Option<(u32, u32, u32)>,
    pub sequence: List<As>,
}

/// Why a request is refused.
#[derive(Clone, Copy)]
pub enum Refusal {
    /// The flags and the number of its RP, where it has one, and the type and value of the error
    /// (RFC 5440, section 7.15).
    Wire {
        rp: Option<(u32, u32)>,
        kind: u8,
        value: u8,
    },
    NoMemory,
}

impl From<NoMemory> for Refusal {
    ghost from_gives = { λ _ e. e ≡ refusals.NoMemory };

    fn from(_: NoMemory) -> Self {
        Refusal::NoMemory
    }
}

/// Why a message is not written.
#[derive(Clone, Copy, Debug)]
pub enum WriteError {
    /// Its text has more octets than a message may have.
    TooLong,
    NoMemory,
}

impl From<NoMemory> for WriteError {
    ghost from_gives = { λ _ e. e ≡ write.NoMemory };

    fn from(_: NoMemory) -> Self {
        WriteError::NoMemory
    }
}

impl From<AllocError> for WriteError {
    ghost from_gives = { λ _ e. e ≡ write.NoMemory };

    fn from(_: AllocError) -> Self {
        WriteError::NoMemory
    }
}
