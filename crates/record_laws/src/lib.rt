//! What a record of a day is worth: its lines, played again, say what was said on that day. Laws, as the contracts of calls that do
//! nothing.
#![tactic(auto)]

mod laws;

pub use laws::{
    ends_are_records, hands_are_said, records_are_readable, records_are_replayed,
    whole_records_are_replayed,
};
