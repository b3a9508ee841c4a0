//! What is kept of a reply of an outside element: for each entry and type of METRIC the first path of
//! least cost, of strict hops and path keys alone, with the word of its whole cost.
//!
//! An outside element that is asked for the rest of a path may tell any paths.
//! `sift` makes of them what the elements of one network tell each other, branches of a virtual
//! shortest path tree (RFC 5441, section 4.2): one path for each entry and type, in rising order, each
//! of which can be joined to a path that leads to its entry. That `sift` keeps just these is the
//! contract of `sifts_exactly`.
#![tactic(auto)]

mod hops;
mod law;
mod reported;
mod rows;
mod sifting;

pub use law::{sifted_fits, sifts_exactly, sifts_once};
pub use reported::Reported;
pub use sifting::sift;
