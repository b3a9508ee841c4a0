//! The body of PATH-KEY: a segment that an element keeps to itself (RFC 5520, section 3.2). It is
//! measured and written as hops are.
ghost use Rattle.pcep_objects.specs.Objects.{GivesBody};
ghost use Rattle.pcep_objects.specs.Bodies.PathKey.{path_key_of};

use crate::lists::hops;
use crate::object::{Body, ObjectFault};
use std::alloc::Global;

pub(crate) fn read(alloc: Global, content: &[u8]) -> Result<Body, ObjectFault>
    ensures { GivesBody result (path_key_of content.now) }
{
    Ok(Body::PathKey(hops(alloc, content)?))
}
