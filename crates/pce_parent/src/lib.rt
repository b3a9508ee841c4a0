//! The parent element, above those of the domains (RFC 6805, section 4.6): it asks its children, joins their
//! rows with its own links, and answers.
#![tactic(auto)]

mod accepting;
mod arcs;
mod asking;
mod change;
mod committing;
mod copies;
mod costs;
mod ending;
mod errands;
mod gathering;
mod making;
mod order;
mod parent;
mod pending;
mod places;
mod plan;
mod relax;
mod route;
mod rows;
mod sending;
mod solved;
mod sought;
mod spot;
mod starts;
mod taking;
mod tellers;
mod tight;
mod told;
mod wait;
mod work;

pub use copies::copy_links;
pub use parent::Parent;
pub use plan::BorderPlan;
pub use solved::{BorderSolved, solve_border};
pub use work::{Done, Work};
