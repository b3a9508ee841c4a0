//! The lines of a transcript, the answers to a client as text, and why a script stops.
#![tactic(auto)]

mod lines;
mod replies;
mod stop;

pub use lines::{
    write_answer, write_carry, write_certified, write_rows, write_said, write_sent, write_solve,
    write_take,
};
pub use network_links::class_of;
pub use replies::write_message_lines;
pub use stop::{LINE_MAX, Stop};
