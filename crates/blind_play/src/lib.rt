//! The lines of a script, played on a network without topologies, one at a time or all; what closed peers hear is written.
#![tactic(auto)]

ghost use Rattle.blind_play.specs.Laws.{LinesSaySo};

mod events;
mod feeding;
mod lines;
mod player;
mod script;
mod settling;
mod telling;

pub use player::BlindPlayer;
pub use script::play_blind_script;

/// The transcript of lines that are played on a new network is what a network without topologies says on their trace, each
/// thing once and in order.
pub fn lines_say_so()
    ensures { LinesSaySo }
{}
