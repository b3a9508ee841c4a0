//! What a server's record is a record of: the turns at its lock. Laws, as the contracts of calls that do nothing.
#![tactic(auto)]

mod laws;

pub use laws::{served_records_are_replayed, servers_have_days};
