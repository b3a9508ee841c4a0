//! How much room the text of an object takes.
ghost use Rattle.pcep_subobjects.specs.Subobjects.{IsLeftBehind};
ghost use Rattle.pcep_objects.specs.Spelling.{body_text, object_text, route_text};

use crate::bodies::{
    bandwidth, close, end_points, error, exclude_route, lspa, metric, no_path, notification, open,
    rp,
};
use crate::object::{Body, Object};
use dom_base::List;
use pcep_subobjects::{Hop, room_behind_hops};

pub(crate) fn room_behind_body(body: &Body, room: usize) -> Option<usize>
    ensures { IsLeftBehind (body_text body.now) room result }
{
    match body {
        Body::Open(opening) => room.checked_sub(open::len(*opening)),
        Body::Rp { .. } => room.checked_sub(rp::LEN),
        Body::NoPath {
            nature: _nature,
            vector,
        } => room.checked_sub(no_path::len(*vector)),
        Body::EndPoints { source, target } => {
            room.checked_sub(end_points::len(*source, *target))
        }
        Body::Bandwidth(_) => room.checked_sub(bandwidth::LEN),
        Body::Metric { .. } => room.checked_sub(metric::LEN),
        Body::Ero(route) | Body::Iro(route) | Body::PathKey(route) => {
            room_behind_hops(route.as_slice(), room)
        }
        Body::Lspa { .. } => room.checked_sub(lspa::LEN),
        Body::Notification(_, _) => room.checked_sub(notification::LEN),
        Body::Error(_, _) => room.checked_sub(error::LEN),
        Body::Close(_) => room.checked_sub(close::LEN),
        Body::Xro(list) => exclude_route::room_behind(list, room),
        Body::Unread(octets) => room.checked_sub(octets.len()),
    }
}

/// How many of `room` octets are left behind the text of an object; None exactly where the text is
/// longer than that. Takes no memory.
pub fn room_behind_object(object: &Object, room: usize) -> Option<usize>
    ensures { IsLeftBehind (object_text object.now) room result }
{
    match room.checked_sub(4) {
        Some(left) => room_behind_body(&object.body, left),
        None => None,
    }
}

/// The same for an ERO of this route.
pub fn room_behind_route(route: &List<Hop>, room: usize) -> Option<usize>
    ensures { IsLeftBehind (route_text route.now) room result }
{
    match room.checked_sub(4) {
        Some(left) => room_behind_hops(route.as_slice(), left),
        None => None,
    }
}
