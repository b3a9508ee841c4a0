//! The objects of messages, as octets and back; and what the OPEN objects of two ends offer each other.
#![tactic(auto)]

mod bits;
mod bodies;
mod lists;
mod object;
mod octets;
mod offer;
mod reading;
mod room;
mod terms;
mod tlvs;
mod writing;

pub use object::{Body, Object, ObjectFault, OpenBody};
pub use offer::{Agreed, Offer};
pub use reading::{measure_object, read_object};
pub use room::{room_behind_object, room_behind_route};
pub use terms::negotiate;
pub use writing::{
    no_object_begins_another, objects_are_octets, objects_are_read_again, write_object, write_route,
};
