//! The events of a network, for any kind of elements: what its sessions, queues and links do at each event.
#![tactic(auto)]

mod acting;
mod answering;
mod deeds;
mod events;
mod feeding;
mod giving;
mod law;
mod links;
mod opened;
mod opening;
mod receiving;
mod ticking;

pub use answering::answer;
pub use events::{break_link, shut};
pub use feeding::{drain, feed};
pub use law::{requests_are_counted, steps_are_turns};
pub use network_links::{Rest, Traffic, adjacencies_of};
pub use opened::open;
pub use opening::begin_links;
pub use pce_common::{AskedJob, Behind, Members, model};
pub use receiving::{carry, take};
pub use ticking::tick;
