//! Parts that follow one another: one way to find, read, write and measure them.
ghost use Rattle.std.specs.Prelude.{◌≡◌, ◌<◌, ◌≤◌, ◌+◌, ◌^◌, ◌++◌, ℕ, List, IfOk, IsOk, OnOk, length};
ghost use Rattle.std.specs.List.{flat_map};
ghost use Rattle.dom_base.specs.Parts.{Reader, parts_from};
ghost use Rattle.pcep_subobjects.specs.Parts.{Checks, Measures};
ghost use Rattle.pcep_subobjects.specs.Subobjects.{IsLeftBehind};

use crate::octets::COMMON_OCTETS;
use dom_base::{List, NoMemory};
use std::alloc::Global;

// Memory for at most this many parts is taken at the start, when their lengths are not yet known.
const FEW_PARTS: usize = 8;

/// A part that is read from octets. `F` is what can be at fault, told by its place.
pub trait Part<F>: Sized + Drop {
    /// The part at the front of octets.
    ghost at: { Reader Self F };

    /// How many octets the part at the front takes, or what is at fault; takes no memory.
    fn measure(place: usize, bytes: &[u8]) -> Result<usize, F>
        ensures found { Measures place result (at bytes.now) }
        ensures some { IfOk result (λ len. 1 ≤ len) }
        ensures within { IfOk result (λ len. len ≤ length bytes.now) };

    /// The part at the front, and how many octets it takes.
    fn build(alloc: Global, bytes: &[u8]) -> Result<(Self, usize), NoMemory>
        requires { IsOk (at bytes.now) }
        ensures found { IfOk result (λ x. at bytes.now ≡ Ok x) }
        ensures some { IfOk result (λ x. 1 ≤ x.1) }
        ensures within { IfOk result (λ x. x.1 ≤ length bytes.now) };
}

/// A part that is written as octets.
pub trait Spelled {
    /// The octets of the part.
    ghost spelling: { Self → List ℕ };

    /// Appends the octets. On `NoMemory` a part of them may stand there.
    fn put(&self, text: &mut Vec<u8>) -> Result<(), NoMemory>
        ensures { OnOk result (text.new.items ≡ text.old.items ++ spelling self.now) };

    /// How many of `room` octets are left behind the part; None exactly where the part is longer.
    fn room_behind(&self, room: usize) -> Option<usize>
        ensures { IsLeftBehind (spelling self.now) room result };
}

/// The first fault of octets that are to be parts, one behind the other; takes no memory. `start` is
/// the place of the first octet.
pub fn check_parts<F, P: Part<F>>(start: usize, bytes: &[u8]) -> Result<(), F>
    requires { start + length bytes.now < 2 ^ 64 }
    ensures { Checks result (parts_from P.at start 0 bytes.now) }
{
    let mut rest = bytes;
    let mut place = start;
    while !rest.is_empty() {
        let len = match P::measure(place, rest) {
            Ok(len) => len,
            Err(fault) => return Err(fault),
        };
        let (_, after) = rest.split_at(len);
        rest = after;
        place += len;
    }
    Ok(())
}

/// The parts of octets that have no fault. Room for so many is taken from the start.
pub(crate) fn build_parts_within<F, P: Part<F>>(
    alloc: Global,
    count: usize,
    start: usize,
    bytes: &[u8],
) -> Result<List<P>, NoMemory>
    requires room { start + length bytes.now < 2 ^ 64 }
    requires good { IsOk (parts_from P.at start 0 bytes.now) }
    ensures { IfOk result (λ xs. parts_from P.at start 0 bytes.now ≡ Ok xs) }
{
    let mut built = List::from_vec(Vec::with_capacity(alloc, count)?);
    let mut rest = bytes;
    let mut place = start;
    while !rest.is_empty() {
        let (part, len) = P::build(alloc, rest)?;
        built.push(part)?;
        let (_, after) = rest.split_at(len);
        rest = after;
        place += len;
    }
    Ok(built)
}

/// The parts of octets that have no fault.
pub fn build_parts<F, P: Part<F>>(
    alloc: Global,
    start: usize,
    bytes: &[u8],
) -> Result<List<P>, NoMemory>
    requires room { start + length bytes.now < 2 ^ 64 }
    requires good { IsOk (parts_from P.at start 0 bytes.now) }
    ensures { IfOk result (λ xs. parts_from P.at start 0 bytes.now ≡ Ok xs) }
{
    let count = (bytes.len() / COMMON_OCTETS).min(FEW_PARTS);
    build_parts_within(alloc, count, start, bytes)
}

/// Appends the octets of parts, one behind the other. On `NoMemory` some of them may stand there.
pub(crate) fn write_parts<P: Spelled>(list: &[P], text: &mut Vec<u8>) -> Result<(), NoMemory>
    ensures { OnOk result (text.new.items ≡ text.old.items ++ flat_map P.spelling list.now) }
{
    for part in list {
        part.put(text)?;
    }
    Ok(())
}

/// How many of `room` octets are left behind parts; None exactly where the parts are longer. Takes no
/// memory.
pub(crate) fn room_behind_parts<P: Spelled>(list: &[P], room: usize) -> Option<usize>
    ensures { IsLeftBehind (flat_map P.spelling list.now) room result }
{
    let mut left = room;
    for part in list {
        left = part.room_behind(left)?;
    }
    Some(left)
}
