//! A step of a route, and the faults of octets that are no step.
ghost use Rattle.std.specs.Prelude.{◌≡◌};
ghost use Rattle.pcep_subobjects.specs.declared.hop.HopFault.TheVariants as faults;

use dom_base::{Addr, As, Bytes, NoMemory};

/// A step of a route. `loose` is the L bit: other hops may lie between this one and the one before
/// (RFC 3209, section 4.3.3.1).
pub enum Hop {
    /// Any node or interface in a prefix of IPv4 (RFC 3209, section 4.3.3.2) or IPv6 (section
    /// 4.3.3.3). A length of 32, or of 128, names one address.
    Prefix { loose: bool, addr: Addr, length: u8 },
    /// Any node of a domain (RFC 3209, section 4.3.3.4).
    AsNumber { loose: bool, number: As },
    /// A segment that the element `pce` keeps to itself (RFC 5520, section 3.1).
    Key { loose: bool, key: u16, pce: Addr },
    /// A subobject of another type, with its octets behind the length.
    Other { loose: bool, kind: u8, body: Bytes },
}

// Written by hand, so that it is proved once: a derived one would be proved again in each crate that drops a value.
impl Drop for Hop {
    fn drop(self) {
        match self {
            Hop::Prefix {
                loose: _,
                addr: _,
                length: _,
            } => {}
            Hop::AsNumber {
                loose: _,
                number: _,
            } => {}
            Hop::Key {
                loose: _,
                key: _,
                pce: _,
            } => {}
            Hop::Other {
                loose: _,
                kind: _,
                body: _,
            } => {}
        }
    }
}

/// Why octets are no list of subobjects, with the place of the first that is at fault: the number,
/// from 0, of its first octet.
#[derive(Clone, Copy, Debug)]
pub enum HopFault {
    /// The octets end inside the subobject.
    Short(usize),
    /// Its length is below 4, no multiple of 4 or not that of its type.
    BadLength(usize),
    NoMemory,
}

impl From<NoMemory> for HopFault {
    ghost from_gives = { λ _ e. e ≡ faults.NoMemory };

    fn from(_: NoMemory) -> Self {
        HopFault::NoMemory
    }
}
