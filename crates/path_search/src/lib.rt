//! The search: for each node the least label over all walks to a seed.
#![tactic(auto)]

mod arc;
mod arrive;
mod asked;
mod blocks;
mod chosen;
mod exits;
mod find;
mod labels;
mod law;
mod opened;
mod short;
mod shown;
mod spread;
mod starts;
mod stopping;
mod waiting;

pub use chosen::{Step, segment, segment_to, tight_step};
pub use find::{LabelsTo, search, search_to};
pub use labels::Labels;
pub use law::{cut_labels, stops_are_labelled};
pub use shown::{label_rows, open_segment};
