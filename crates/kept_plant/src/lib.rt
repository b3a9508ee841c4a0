//! A network and what is kept of its turns, as one value under a lock: each turn does its act, and puts what is told of it on a tape.
//!
//! So what is told stands in the order of the turns, whichever threads made them.
#![tactic(auto)]

mod acts;
mod folding;
mod kept;
mod laws;
mod telling;
mod turned;

pub use acts::{KeptAct, KeptAnswer};
pub use event_tape::{Handed, Tape, TapeEnd, Told};
pub use kept::KeptPlant;
pub use laws::{ended_tapes_stay, hands_tell, kept_histories_are_legal, tapes_tell};
pub use telling::tell_load;
