//! Changes to a topology: rows that are dropped and added, one after the other.
#![tactic(auto)]

mod blaming;
mod changes;
mod copy;
mod law;
mod making;
mod name;
mod reading;
mod rows;
mod seen;
mod table;

pub use blaming::line_of_fault;
pub use changes::Change;
pub use law::built_once;
pub use making::{ChangeError, apply};
pub use name::RowName;
pub use reading::{is_change_file, read_changes};

/// How many bytes a change file may have.
pub const CHANGE_FILE_MAX: usize = 4_194_304;
