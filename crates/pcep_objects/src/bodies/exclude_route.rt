//! The body of an XRO: what a path has to keep away from (RFC 5521, section 2.1).
ghost use Rattle.std.specs.Prelude.{◌≡◌, ◌++◌, OnOk, is_some};
ghost use Rattle.pcep_objects.specs.Bodies.ExcludeRoute.{xro_of, xro_text};
ghost use Rattle.pcep_objects.specs.Layouts.{of_parts};
ghost use Rattle.pcep_objects.specs.Objects.{GivesBody, GivesParts};
ghost use Rattle.pcep_objects.specs.declared.object.Body.TheVariants as bodies;
ghost use Rattle.pcep_subobjects.specs.Exclusions.{exclusions_of};
ghost use Rattle.pcep_subobjects.specs.Subobjects.{IsLeftBehind};

use crate::object::{Body, ObjectFault};
use dom_base::{Exclusion, List, NoMemory};
use pcep_subobjects::{
    HopFault, check_exclusions, read_exclusions, room_behind_exclusions, write_exclusions,
};
use std::alloc::Global;

fn exclusions(alloc: Global, content: &[u8]) -> Result<List<Exclusion>, ObjectFault>
    ensures { GivesParts result (exclusions_of content.now) }
{
    match read_exclusions(alloc, content) {
        Ok(exclusions) => Ok(exclusions),
        Err(HopFault::NoMemory) => Err(ObjectFault::NoMemory),
        Err(_) => Err(ObjectFault::BadBody),
    }
}

fn read_behind_flags(alloc: Global, content: &[u8]) -> Result<Body, ObjectFault>
    ensures { GivesBody result (of_parts bodies.Xro (exclusions_of content.now)) }
{
    Ok(Body::Xro(exclusions(alloc, content)?))
}

pub(crate) fn read(alloc: Global, content: &[u8]) -> Result<Body, ObjectFault>
    ensures { GivesBody result (xro_of content.now) }
{
    if content.len() < 4 {
        return Err(ObjectFault::BadBody);
    }
    let (_, rest) = content.split_at(4);
    read_behind_flags(alloc, rest)
}

/// Whether octets are such a body; takes no memory.
pub(crate) fn is_body(content: &[u8]) -> bool
    ensures { result ≡ is_some (xro_of content.now) }
{
    if content.len() < 4 {
        return false;
    }
    let (_, rest) = content.split_at(4);
    check_exclusions(rest).is_ok()
}

pub(crate) fn room_behind(list: &List<Exclusion>, room: usize) -> Option<usize>
    ensures { IsLeftBehind (xro_text list.now) room result }
{
    match room.checked_sub(4) {
        Some(left) => room_behind_exclusions(list.as_slice(), left),
        None => None,
    }
}

pub(crate) fn put(text: &mut Vec<u8>, list: &List<Exclusion>) -> Result<(), NoMemory>
    ensures { OnOk result (text.new.items ≡ text.old.items ++ xro_text list.now) }
{
    text.extend_from_slice(&[0, 0, 0, 0])?;
    write_exclusions(list.as_slice(), text)
}
