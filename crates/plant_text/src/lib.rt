//! The settings of a network and the lines of its events.
#![tactic(auto)]

mod check;
mod document;
mod fault;
mod forms;
mod law;
mod limits;
mod line;
mod lines;
mod network;
mod operator_line;
mod operator_lines;
mod operator_verb;
mod row;
mod row_words;
mod rows;
mod settings;
mod sheet;
mod value;
mod verb;
mod word;
mod write;

pub use document::read_network;
pub use fault::{NetError, NetFault};
pub use law::settings_are_sound;
pub use limits::{
    DENY_MAX, ELEMENTS_MAX, KEY_LIFE_MAX, LINKS_MAX, NAME_MAX, PARENT_LINKS_MAX, PEERS_MAX,
    ROW_ENTRIES_MAX, WORKERS_MAX, limits_are_numbers,
};
pub use line::{LineError, LineEvent};
pub use lines::{read_blind_line, read_line};
pub use network::Network;
pub use operator_line::{OperatorLine, Subject};
pub use operator_lines::read_operator_line;
pub use settings::{Comes, DenyRow, ElementRow, NetworkParts, PeerRow};
pub use write::write_sent;
