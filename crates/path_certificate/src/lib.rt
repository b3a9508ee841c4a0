//! Certificates: the labels of all nodes and a path, which a checker verifies without trust in whoever
//! made them.
#![tactic(auto)]

mod broken;
mod certificate;
mod checker;
mod false_links;
mod false_nodes;
mod false_path;
mod false_seeds;
mod limits;
mod look_up;
mod marks;
mod offers;
mod ordered;
mod reading;
mod text_row;
mod verdict;
mod writing;

pub use certificate::Certificate;
pub use checker::check;
pub use limits::{CERTIFICATE_BYTES_MAX, SEEDS_MAX, limits_are_numbers};
pub use offers::{admits_node, admitted_link};
pub use reading::{is_behind, read_certificate, read_own};
pub use text_row::{addrs_of, is_dash};
pub use verdict::{Place, Verdict};
pub use writing::{write_addrs, write_certificate};
