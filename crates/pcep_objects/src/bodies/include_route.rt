//! The body of an IRO: the hops that a path has to pass (RFC 5440, section 7.12). It is measured
//! and written as hops are.
ghost use Rattle.pcep_objects.specs.Objects.{GivesBody};
ghost use Rattle.pcep_objects.specs.Bodies.IncludeRoute.{iro_of};

use crate::lists::hops;
use crate::object::{Body, ObjectFault};
use std::alloc::Global;

pub(crate) fn read(alloc: Global, content: &[u8]) -> Result<Body, ObjectFault>
    ensures { GivesBody result (iro_of content.now) }
{
    Ok(Body::Iro(hops(alloc, content)?))
}
