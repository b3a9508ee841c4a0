//! Pairs of paths that share no link and have the least sum: their certificates, and a checker that
//! trusts nobody.
#![tactic(auto)]

mod arcs;
mod asking;
mod certificate;
mod checker;
mod copying;
mod costs;
mod equal;
mod false_crossing;
mod false_links;
mod false_path;
mod look_up;
mod lower;
mod lowest;
mod network;
mod pair_row;
mod reading;
mod residual;
mod rising;
mod shown;
mod solve;
mod tight;
mod turning;
mod verdict;
mod waiting;
mod writing;

pub use asking::{Pair, PairError, pair_of};
pub use certificate::{PairCertificate, PairForm};
pub use checker::check_pair;
pub use costs::path_cost;
pub use reading::read_pair;
pub use rising::is_rising;
pub use solve::solve_pair;
pub use verdict::PairVerdict;
pub use writing::write_pair;
