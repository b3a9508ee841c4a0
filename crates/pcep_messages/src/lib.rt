//! The messages of a session, as octets and back; what a request asks for, and why one is refused.
#![tactic(auto)]

mod answers;
mod groups;
mod law;
mod limits;
mod message;
mod metric;
mod objects;
mod reading;
mod refusing;
mod requests;
mod room;
mod said;
mod splitting;
mod writing;

pub use law::{groups_are_whole, splits_are_whole};
pub use limits::{EXCLUSIONS_MAX, SEQUENCE_MAX, limits_are_numbers};
pub use message::{
    Answer, Asked, Bad, ErrorReport, Message, Notice, Path, Refusal, Reply, Request, Wanted, Wish,
    WriteError,
};
pub use metric::type_of_metric;
pub use reading::{
    messages_are_octets, messages_are_read_again, no_message_begins_another, read_message,
};
pub use requests::request_of;
pub use splitting::split_message;
pub use writing::write_message;
