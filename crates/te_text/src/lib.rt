//! The text of a topology, read and written.
#![tactic(auto)]

mod error;
mod fields;
mod read;
mod reading;
mod row;
mod words;
mod write;

pub use error::TextError;
pub use fields::{is_end, next_addr, next_as};
pub use read::read_topology;
pub use row::{RowError, TextRow, read_row};
pub use write::write_topology;
