//! A client that asks a network for paths, and its answers; and a client that asks a large network many times, and the tally of its answers.
#![tactic(auto)]

mod asking;
mod bulk;
mod hearing;
mod question;
mod requests;
mod tally;
mod tally_text;
mod telling;

pub use asking::{ask, begin, exchange};
pub use bulk::{REQUESTS_MAX, play};
pub use hearing::{Heard, hear};
pub use plant_play::{Player, SCRIPT_MAX, Span, Stop, play_script, replay};
pub use question::Question;
pub use requests::Demand;
pub use tally::Tally;
pub use tally_text::tell_tally;
pub use telling::tell;
