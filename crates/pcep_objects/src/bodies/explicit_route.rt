//! The body of an ERO: the hops of a path (RFC 5440, section 7.9). It is measured and written as
//! hops are.
ghost use Rattle.pcep_objects.specs.Objects.{GivesBody};
ghost use Rattle.pcep_objects.specs.Bodies.ExplicitRoute.{ero_of};

use crate::lists::hops;
use crate::object::{Body, ObjectFault};
use std::alloc::Global;

pub(crate) fn read(alloc: Global, content: &[u8]) -> Result<Body, ObjectFault>
    ensures { GivesBody result (ero_of content.now) }
{
    Ok(Body::Ero(hops(alloc, content)?))
}
