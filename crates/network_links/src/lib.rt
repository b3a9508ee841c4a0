//! Who is connected to whom in a network, from its settings: the elements in rising order, the children of the parent, neighbours, routes,
//! policies and classes of peers. And the state between them, whatever the elements are: the clock, the connections of outside peers, the inner
//! links with their sessions and queues, and the messages of a step.
#![tactic(auto)]

mod access;
mod accesses;
mod adjacencies;
mod connection;
mod domains;
mod inbox;
mod law;
mod link;
mod links;
mod own;
mod peers;
mod rest;
mod routes;
mod rows;
mod session;
mod side;
mod traffic;
mod waiting;

pub use access::Access;
pub use adjacencies::{adjacencies_of, find_adjacency, others_along};
pub use connection::Connection;
pub use domains::{children_of, elements_of};
pub use law::{lengths_are_numbers, room_is_left, steps_keep_number};
pub use link::{End, Link};
pub use own::{ShortText, lost_text, our_offer, own_text};
pub use peers::Drained;
pub use plant_model as model;
pub use rest::Rest;
pub use routes::routes_of;
pub use rows::{class_of, deny_at};
pub use session::any_fall;
pub use traffic::Traffic;

/// The greatest length, in octets, of a message that a session says of itself. Its Open offers no
/// capability.
pub const OWN_LENGTH: usize = 12;

/// The length, in octets, of the answer to a lost request.
pub const ANSWER_LENGTH: usize = 32;
