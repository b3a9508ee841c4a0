//! The exclusions of an XRO as octets, both ways.
ghost use Rattle.std.specs.Prelude.{◌≡◌, ◌+◌, ◌≤◌, ◌++◌, length, IsTrue, IfOk, OnOk};
ghost use Rattle.pcep_subobjects.specs.Parts.{Checks};
ghost use Rattle.pcep_subobjects.specs.Subobjects.{Gives, IsLeftBehind};
ghost use Rattle.pcep_subobjects.specs.Exclusions.{exclusion_has_length, exclusion_of, exclusion_at, exclusions_of, exclusion_text, exclusions_text, WrittenIsRead, NoneBeginsAnother};

use crate::hop::HopFault;
use crate::octets::{COMMON_OCTETS, addr_len, first, put_addr, wide};
use crate::part::{Spelled, build_parts_within, check_parts, room_behind_parts, write_parts};
use crate::subobject::Subobject;
use dom_base::{Addr, As, Excluded, Exclusion, List, NoMemory, half, word};
use pcep_codes::subobjects;
use std::alloc::Global;

impl Subobject for Exclusion {
    ghost has_length = { exclusion_has_length };

    ghost meaning = { exclusion_of };

    fn fits(kind: u8, len: usize) -> bool {
        match kind {
            subobjects::IPV4 | subobjects::SRLG => len == 8,
            subobjects::IPV6 => len == 20,
            subobjects::AS_NUMBER => len == 4,
            _ => len % 4 == 0 && len >= 4,
        }
    }

    fn of(alloc: Global, avoid: bool, kind: u8, content: &[u8]) -> Result<Exclusion, NoMemory> {
        let what = match kind {
            subobjects::IPV4 => Excluded::Prefix {
                addr: Addr::V4(word(content, 0)),
                length: content[4],
                attribute: content[5],
            },
            subobjects::IPV6 => Excluded::Prefix {
                addr: Addr::V6(wide(content, 0)),
                length: content[16],
                attribute: content[17],
            },
            subobjects::AS_NUMBER => Excluded::AsNumber(As(half(content, 0))),
            subobjects::SRLG => Excluded::Srlg(word(content, 0)),
            _ => Excluded::Other {
                kind,
                body: List::from_vec(Vec::from_slice(alloc, content)?),
            },
        };
        Ok(Exclusion { avoid, what })
    }
}

/// Checks that the octets behind the flags of an XRO are exclusions, and answers the first fault; takes
/// memory.
pub fn check_exclusions(bytes: &[u8]) -> Result<(), HopFault>
    ensures { Checks result (exclusions_of bytes.now) }
{
    check_parts::<HopFault, Exclusion>(0, bytes)
}

/// The exclusions of an XRO behind its flags (RFC 5521, section 2.1; RFC 4874, section 3.1), or the
/// first fault. A fault is answered even when out of memory.
pub fn read_exclusions(alloc: Global, bytes: &[u8]) -> Result<List<Exclusion>, HopFault>
    ensures { Gives result (exclusions_of bytes.now) }
{
    check_exclusions(bytes)?;
    let count = bytes.len() / COMMON_OCTETS;
    Ok(build_parts_within::<HopFault, Exclusion>(alloc, count, 0, bytes)?)
}

impl Spelled for Exclusion {
    ghost spelling = { exclusion_text };

    fn put(&self, text: &mut Vec<u8>) -> Result<(), NoMemory> {
        let avoid = self.avoid;
        match &self.what {
            Excluded::Prefix {
                addr,
                length,
                attribute,
            } => {
                let (kind, len) = match *addr {
                    Addr::V4(_) => (subobjects::IPV4, 8),
                    Addr::V6(_) => (subobjects::IPV6, 20),
                };
                text.extend_from_slice(&[first(avoid, kind), len])?;
                put_addr(text, *addr)?;
                text.extend_from_slice(&[*length, *attribute])?;
            }
            Excluded::AsNumber(number) => {
                let [a, b] = number.0.to_be_bytes();
                text.extend_from_slice(&[first(avoid, subobjects::AS_NUMBER), 4, a, b])?;
            }
            Excluded::Srlg(number) => {
                let [a, b, c, d] = number.to_be_bytes();
                text.extend_from_slice(&[first(avoid, subobjects::SRLG), 8, a, b, c, d, 0, 2])?;
            }
            Excluded::Other { kind, body } => {
                let len = (body.len() % 256 + 2) % 256;
                text.extend_from_slice(&[first(avoid, *kind % 128), len as u8])?;
                text.extend_from_slice(body.as_slice())?;
            }
        }
        Ok(())
    }

    fn room_behind(&self, room: usize) -> Option<usize> {
        room.checked_sub(match &self.what {
            Excluded::Prefix { addr, .. } => 4 + addr_len(*addr),
            Excluded::Srlg(_) => 8,
            Excluded::AsNumber(_) => 4,
            Excluded::Other { body, .. } => body.as_slice().len() + 2,
        })
    }
}

/// Appends the text of the exclusions. The type of another subobject is written modulo 128 and its
/// length modulo 256. On `NoMemory` a part of the text may stand there.
pub fn write_exclusions(list: &[Exclusion], text: &mut Vec<u8>) -> Result<(), NoMemory>
    ensures { OnOk result (text.new.items ≡ text.old.items ++ exclusions_text list.now) }
{
    write_parts(list, text)
}

/// How many of `room` octets are left behind the text of the exclusions; None exactly where the text
/// is longer than that. Takes no memory.
pub fn room_behind_exclusions(list: &[Exclusion], room: usize) -> Option<usize>
    ensures { IsLeftBehind (exclusions_text list.now) room result }
{
    room_behind_parts(list, room)
}

/// Exclusions in written form are read again from their text.
pub fn exclusions_are_read_again()
    ensures { WrittenIsRead }
{}

/// The text of no exclusion in written form begins that of another.
pub fn no_exclusion_begins_another()
    ensures { NoneBeginsAnother }
{}
