//! The contents of files: the settings of a network, the topology of a domain, and the topology or the changes in the file that a line
//! names; the words of their faults, and peers that a server could not tell apart. Also the files of a large network that is drawn
//! pseudorandomly, and requests over it.
#![tactic(auto)]

mod drawn_rows;
mod draws;
mod error;
mod faults;
mod files;
mod loading;
mod meeting;
mod network;
mod reading;
mod requests;

pub use draws::Draws;
pub use error::FileError;
pub use faults::fault_words;
pub use files::draw_files;
pub use loading::{LineFault, LoadError, SETTINGS_MAX, TOPOLOGY_MAX, load_network, load_topology};
pub use meeting::{are_alike, comes_to};
pub use network::settings;
pub use reading::{changed_of, changes_of, topology_of};
pub use requests::{Ends, draw_ends, sequence};
