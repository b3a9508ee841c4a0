//! A cache of solved rows: the labels of all nodes over an ask, kept so that further asks over the same
//! exits are answered without reading a link.
#![tactic(auto)]

mod answer;
mod best;
mod cache;
mod compare;
mod ends;
mod kept;
mod key;
mod nexts;
mod shown;

pub use cache::Cache;
pub use kept::{Kept, Next};
pub use key::Key;
