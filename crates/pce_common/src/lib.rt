//! The common parts of a domain's element and of the parent above it: ways to other members, the messages
//! that both write, what errors and notices of a peer say, and the branches of replies.
//!
//! And the trait `Members`: what a network calls of its elements and their parent, as the deeds of a network see them.
#![tactic(auto)]

mod branches;
mod ended;
mod members;
mod messages;
mod named;
mod numbers;
mod objects;
mod peers;
mod refusal;
mod reported;
mod rounds;
mod waiters;
mod ways;

pub use branches::branch_of;
pub use ended::Ended;
pub use members::Members;
pub use messages::{
    busy, error_message, no_key, no_path, one, reply_message, request_message, unavailable,
};
pub use named::{WALKS_MAX, notices_name_many, reports_name_many};
pub use numbers::{after_id, has_number};
pub use objects::{ends, needed, sequence_object};
pub use peers::is_same_peer;
pub use plant_model as model;
pub use refusal::Refusal;
pub use reported::{Told, error_answer, has_pair, told_by};
pub use rounds::{AskedJob, Behind, Solvable, next_job};
pub use waiters::{Waiter, Waiters};
pub use ways::{Way, Ways};
