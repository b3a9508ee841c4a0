//! Objects of messages, and the faults of octets that are no object.
ghost use Rattle.std.specs.Prelude.{◌≡◌};
ghost use Rattle.pcep_objects.specs.declared.object.ObjectFault.TheVariants as faults;

use crate::offer::Offer;
use dom_base::{Addr, Bytes, Exclusion, List, NoMemory};
use pcep_subobjects::Hop;

/// An object of a message (RFC 5440, section 7.2). `must` is the P bit: a request can't be served
/// without taking the object into account.
pub struct Object {
    pub class: u8,
    /// The type of the object within its class, below 16.
    pub kind: u8,
    pub must: bool,
    pub body: Body,
}

// Written by hand, so that it is proved once: a derived one would be proved again in each crate that drops a value.
impl Drop for Object {
    fn drop(self) {
        let Object {
            class: _,
            kind: _,
            must: _,
            body: _,
        } = self;
    }
}

impl Object {
    /// The body, without the header.
    pub fn into_body(self) -> Body
        ensures { result ≡ self.body }
    {
        let Object {
            class: _,
            kind: _,
            must: _,
            body,
        } = self;
        body
    }
}

/// What an OPEN object says (RFC 5440, section 7.3).
#[derive(Clone, Copy)]
pub struct OpenBody {
    /// The version of the protocol, below 8; version 1 is in use.
    pub version: u8,
    pub offer: Offer,
}

/// The body of an object, behind the header. The sections are those of RFC 5440, where no other
/// standard is named.
#[derive(Drop)]
pub enum Body {
    /// Section 7.3.
    Open(OpenBody),
    /// Section 7.4: the flags of a request, all of them, and its number.
    Rp {
        flags: u32,
        id: u32,
    },
    /// Section 7.5: the nature of the issue, and the flags of the NO-PATH-VECTOR, or 0 without one.
    NoPath {
        nature: u8,
        vector: u32,
    },
    /// Section 7.6.
    EndPoints {
        source: Addr,
        target: Addr,
    },
    /// Section 7.7: bytes per second, as a word of single precision that means something.
    Bandwidth(u32),
    /// Section 7.8: whether the word is a bound (B), whether it is computed (C), the type of the
    /// metric, and its value as a word of single precision that means something.
    Metric {
        bound: bool,
        computed: bool,
        kind: u8,
        word: u32,
    },
    /// Section 7.9.
    Ero(List<Hop>),
    /// Section 7.11: the attributes of links that are wanted or not (RFC 3209, section 4.7.4), the
    /// two priorities and the flags.
    Lspa {
        exclude_any: u32,
        include_any: u32,
        include_all: u32,
        setup: u8,
        holding: u8,
        flags: u8,
    },
    /// Section 7.12.
    Iro(List<Hop>),
    /// Section 7.14: type and value.
    Notification(u8, u8),
    /// Section 7.15: type and value.
    Error(u8, u8),
    /// Section 7.17: the reason.
    Close(u8),
    /// RFC 5520, section 3.2.2.
    PathKey(List<Hop>),
    /// RFC 5521, section 2.1.
    Xro(List<Exclusion>),
    /// The octets of a body of another class or type.
    Unread(Bytes),
}

/// Why octets do not begin with an object.
#[derive(Clone, Copy, Debug)]
pub enum ObjectFault {
    /// The octets end inside the object.
    Short,
    /// Its length is below 4 or no multiple of 4.
    BadLength,
    /// Its body does not have the form of its class and type.
    BadBody,
    NoMemory,
}

impl From<NoMemory> for ObjectFault {
    ghost from_gives = { λ _ e. e ≡ faults.NoMemory };

    fn from(_: NoMemory) -> Self {
        ObjectFault::NoMemory
    }
}

/// A TLV passes the end of its body.
#[derive(Clone, Copy, Debug)]
pub enum TlvFault {
    PastEnd,
}

impl From<TlvFault> for ObjectFault {
    ghost from_gives = { λ _ e. e ≡ faults.BadBody };

    fn from(_: TlvFault) -> Self {
        ObjectFault::BadBody
    }
}
