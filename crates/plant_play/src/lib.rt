//! The lines of a script, played on a network: one at a time, and what its transcript tells; a whole script with its files, and why
//! it stops.
#![tactic(auto)]

mod cue;
mod events;
mod feeding;
mod going;
mod lines;
mod log;
mod player;
mod reel;
mod replaying;
mod script;
mod showing;

pub use cue::{FILE_MAX, play_cue};
pub use events::Answer;
pub use log::Log;
pub use network_files::FileError as PlayError;
pub use plant_network::model::Outcome;
pub use player::Player;
pub use replaying::{Span, replay};
pub use script::{SCRIPT_MAX, play_script};
pub use showing::Modes;
pub use transcript::Stop;
