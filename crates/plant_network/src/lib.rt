//! A network of path computation elements as one value, which takes one event at a time (RFC 4655), with topologies and without;
//! what is due in it.
#![tactic(auto)]

mod acts;
mod answering;
mod beginning;
mod blind;
mod due;
mod events;
mod histories;
mod network;
mod rounds;
mod stirred;
mod topologies;
mod turned;

pub use acts::{Act, ActAnswer, Acted};
pub use blind::BlindPlant;
pub use due::{least_is_carried, refused_takes_find_nothing, takes_leave_less};
pub use histories::histories_are_runs;
pub use network::Network;
pub use network_events::{AskedJob, Behind, Rest, Traffic, model};
pub use network_members::{Done, Element, Hierarchy, Parent, Refusal, Topologies, Work};
pub use rounds::each_has_a_turn;
pub use stirred::{PeerSet, Stirred, Ways};
pub use topologies::Plant;
