//! Border costs: for each entry of a domain the least cost to the destination, over the costs that
//! the next domain told (RFC 5441).
#![tactic(auto)]

mod answer;
mod best;
mod job;
mod labelled;
mod law;
mod places;
mod seeds;
mod solution;
mod solved;
mod table;
mod ways;

pub use answer::{Answer, LabelledAnswer};
pub use best::head_of;
pub use job::{Ask, Down, Job, Target};
pub use law::{one_answer, rows_compose, table_tells_pairs};
pub use seeds::{seed_of_target, seeds_of};
pub use solution::{is_node, knows_target, solve_labelled_rows, solve_rows};
pub use solved::{Solved, solve, solve_labelled};
pub use table::border_table;
