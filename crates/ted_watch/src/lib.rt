//! Which topologies are published: one publisher shows them, and watchers read them without a lock.
//!
//! [`open_watch`] makes a [`Publisher`] and its [`Watcher`]s. A publisher shows one entry after
//! another, each an AS with the number and the counts of its topology; what it has shown, in order,
//! is the published list. A watcher answers the last entry of an AS in a beginning of that list,
//! which begins with all that this watcher answered from before, and with all that it learnt of the
//! publisher by a [`Told`]. So the generations that it answers never fall.
//!
//! Operators ask over a connection which topologies are published ([`serve_watch`]): each line names an AS, and is answered.
#![tactic(auto)]

mod answers;
mod board;
mod history;
mod opening;
mod publisher;
mod rule;
mod serving;
mod shown;
mod taking;
mod watch;
mod watcher;

pub use opening::open_watch;
pub use serving::{Watched, serve_watch};
pub use shown::Shown;
pub use watch::{Publisher, Told, Watcher};
