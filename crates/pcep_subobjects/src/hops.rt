//! The hops of a route as octets, both ways.
ghost use Rattle.std.specs.Prelude.{◌≡◌, ◌+◌, ◌≤◌, ◌++◌, length, IsTrue, IfOk, OnOk};
ghost use Rattle.pcep_subobjects.specs.Parts.{Checks};
ghost use Rattle.pcep_subobjects.specs.Subobjects.{Gives, IsLeftBehind};
ghost use Rattle.pcep_subobjects.specs.Hops.{hop_has_length, hop_of, hop_at, hops_of, hop_text, hops_text, strict_hop, WrittenIsRead, NoneBeginsAnother};

use crate::hop::{Hop, HopFault};
use crate::octets::{COMMON_OCTETS, addr_len, first, put_addr, wide};
use crate::part::{Spelled, build_parts_within, check_parts, room_behind_parts, write_parts};
use crate::subobject::Subobject;
use dom_base::{Addr, As, List, NoMemory, half, word};
use pcep_codes::subobjects;
use std::alloc::Global;

impl Subobject for Hop {
    ghost has_length = { hop_has_length };

    ghost meaning = { hop_of };

    fn fits(kind: u8, len: usize) -> bool {
        match kind {
            subobjects::IPV4 | subobjects::PATH_KEY_IPV4 => len == 8,
            subobjects::IPV6 | subobjects::PATH_KEY_IPV6 => len == 20,
            subobjects::AS_NUMBER => len == 4,
            _ => len % 4 == 0 && len >= 4,
        }
    }

    fn of(alloc: Global, loose: bool, kind: u8, content: &[u8]) -> Result<Hop, NoMemory> {
        match kind {
            subobjects::IPV4 => Ok(Hop::Prefix {
                loose,
                addr: Addr::V4(word(content, 0)),
                length: content[4],
            }),
            subobjects::IPV6 => Ok(Hop::Prefix {
                loose,
                addr: Addr::V6(wide(content, 0)),
                length: content[16],
            }),
            subobjects::AS_NUMBER => Ok(Hop::AsNumber {
                loose,
                number: As(half(content, 0)),
            }),
            subobjects::PATH_KEY_IPV4 => Ok(Hop::Key {
                loose,
                key: half(content, 0),
                pce: Addr::V4(word(content, 2)),
            }),
            subobjects::PATH_KEY_IPV6 => Ok(Hop::Key {
                loose,
                key: half(content, 0),
                pce: Addr::V6(wide(content, 2)),
            }),
            _ => Ok(Hop::Other {
                loose,
                kind,
                body: List::from_vec(Vec::from_slice(alloc, content)?),
            }),
        }
    }
}

/// The strict hop to one address.
pub fn strict_hop(addr: Addr) -> Hop
    ensures { result ≡ strict_hop addr }
{
    let length = match addr {
        Addr::V4(_) => 32,
        Addr::V6(_) => 128,
    };
    Hop::Prefix {
        loose: false,
        addr,
        length,
    }
}

/// Checks that a route object's body is hops, and answers the first fault; takes no memory.
pub fn check_hops(bytes: &[u8]) -> Result<(), HopFault>
    ensures { Checks result (hops_of bytes.now) }
{
    check_parts::<HopFault, Hop>(0, bytes)
}

/// The hops of a route object's body (RFC 3209, section 4.3.3; RFC 5520, section 3.1), or its first
/// fault. A fault is answered even when out of memory.
pub fn read_hops(alloc: Global, bytes: &[u8]) -> Result<List<Hop>, HopFault>
    ensures { Gives result (hops_of bytes.now) }
{
    check_hops(bytes)?;
    let count = bytes.len() / COMMON_OCTETS;
    Ok(build_parts_within::<HopFault, Hop>(alloc, count, 0, bytes)?)
}

fn put_prefix(text: &mut Vec<u8>, addr: Addr) -> Result<(), NoMemory>
    ensures { OnOk result (text.new.items ≡ text.old.items ++ hop_text (strict_hop addr)) }
{
    match addr {
        Addr::V4(number) => {
            let [a, b, c, d] = number.to_be_bytes();
            text.extend_from_slice(&[subobjects::IPV4, 8, a, b, c, d, 32, 0])?;
        }
        Addr::V6(_) => {
            text.extend_from_slice(&[subobjects::IPV6, 20])?;
            put_addr(text, addr)?;
            text.extend_from_slice(&[128, 0])?;
        }
    }
    Ok(())
}

fn put_key(text: &mut Vec<u8>, loose: bool, key: u16, pce: Addr) -> Result<(), NoMemory>
    ensures { OnOk result (text.new.items ≡ text.old.items ++ hop_text (Hop.Key loose key pce)) }
{
    let (kind, len) = match pce {
        Addr::V4(_) => (subobjects::PATH_KEY_IPV4, 8),
        Addr::V6(_) => (subobjects::PATH_KEY_IPV6, 20),
    };
    let [a, b] = key.to_be_bytes();
    text.extend_from_slice(&[first(loose, kind), len, a, b])?;
    put_addr(text, pce)
}

impl Spelled for Hop {
    ghost spelling = { hop_text };

    fn put(&self, text: &mut Vec<u8>) -> Result<(), NoMemory> {
        match self {
            Hop::Prefix { addr, .. } => put_prefix(text, *addr)?,
            Hop::AsNumber { loose, number } => {
                let [a, b] = number.0.to_be_bytes();
                text.extend_from_slice(&[first(*loose, subobjects::AS_NUMBER), 4, a, b])?;
            }
            Hop::Key { loose, key, pce } => put_key(text, *loose, *key, *pce)?,
            Hop::Other { loose, kind, body } => {
                let len = (body.len() % 256 + 2) % 256;
                text.extend_from_slice(&[first(*loose, *kind % 128), len as u8])?;
                text.extend_from_slice(body.as_slice())?;
            }
        }
        Ok(())
    }

    fn room_behind(&self, room: usize) -> Option<usize> {
        room.checked_sub(match self {
            Hop::Prefix { addr, .. } => 4 + addr_len(*addr),
            Hop::Key { pce, .. } => 4 + addr_len(*pce),
            Hop::AsNumber { .. } => 4,
            Hop::Other { body, .. } => body.as_slice().len() + 2,
        })
    }
}

/// Appends the text of the hops. Each prefix is written as a strict hop to one address. The type of
/// another subobject is written modulo 128 and its length modulo 256. On `NoMemory` a part of the
/// text may stand there.
pub fn write_hops(hops: &[Hop], text: &mut Vec<u8>) -> Result<(), NoMemory>
    ensures { OnOk result (text.new.items ≡ text.old.items ++ hops_text hops.now) }
{
    write_parts(hops, text)
}

/// How many of `room` octets are left behind the text of the hops; None exactly where the text is
/// longer than that. Takes no memory.
pub fn room_behind_hops(hops: &[Hop], room: usize) -> Option<usize>
    ensures { IsLeftBehind (hops_text hops.now) room result }
{
    room_behind_parts(hops, room)
}

/// Hops in written form are read again from their text.
pub fn hops_are_read_again()
    ensures { WrittenIsRead }
{}

/// The text of no hop in written form begins that of another.
pub fn no_hop_begins_another()
    ensures { NoneBeginsAnother }
{}
