//! The text of told events: the lines of a script that say them again.
#![tactic(auto)]

mod digits;
mod law;
mod lines;
mod names;

pub use law::lines_say_events;
pub use lines::push_line;
pub use names::load_name;
