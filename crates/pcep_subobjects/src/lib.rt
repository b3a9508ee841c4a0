//! The subobjects of routes and of exclusions, as octets and back.
#![tactic(auto)]

mod copying;
mod exclusions;
mod hop;
mod hops;
mod octets;
mod part;
mod subobject;

pub use copying::{append_hops, copy_hops};
pub use exclusions::{
    check_exclusions, exclusions_are_read_again, no_exclusion_begins_another, read_exclusions,
    room_behind_exclusions, write_exclusions,
};
pub use hop::{Hop, HopFault};
pub use hops::{
    check_hops, hops_are_read_again, no_hop_begins_another, read_hops, room_behind_hops,
    strict_hop, write_hops,
};
pub use octets::{addr_len, put_addr, wide};
pub use part::{Part, Spelled, build_parts, check_parts};
