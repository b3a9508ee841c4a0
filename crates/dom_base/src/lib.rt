//! The plain types that the path computation shares: addresses, costs, links, queries, lists, texts, and numbers as octets.
#![tactic(auto)]

mod addr;
mod addr_rows;
mod addr_text;
mod border;
mod cost;
mod limits;
mod link;
mod list;
mod names;
mod numerals;
mod octets;
mod query;
mod text;
mod words;

pub use addr::Addr;
pub use addr_rows::{ends_at, said_of, stands};
pub use addr_text::{read_addr, write_addr};
pub use border::{BorderRow, ParentLink};
pub use cost::{Cost, word_of_cost};
pub use limits::{COST_MAX, limits_are_numbers};
pub use link::Link;
pub use list::{Bytes, List};
pub use names::{As, NoMemory, Peer, Tick};
pub use numerals::{read_colour, read_number, write_colour, write_number};
pub use octets::{half, word};
pub use query::{Excluded, Exclusion, Label, Metric, Query, Seed, copy_exclusions};
pub use text::Text;
pub use words::{units_of_word, whole_of_word};
