//! The sockets of the system: connections, ports that are listened at and ports that are dialled.
mod addresses;
mod asked;
mod dialling;
mod errors;
mod link;
mod listener;
mod ports;
mod shared;

pub use link::{Door, NoDoor, SocketLink};
pub use listener::PortListener;
pub use ports::SocketPorts;
pub use shared::Doorway;
