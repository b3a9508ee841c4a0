//! Queues of messages, and the messages of a step. Only their `reserve` takes memory.
#![tactic(auto)]

mod buffer;
mod queue;
mod said;
mod sent;

pub use queue::Queue;
pub use said::{MessageSpan, Said};
pub use sent::Sent;
