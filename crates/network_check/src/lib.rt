//! What is to be told of the files of a network before it is served: each file that is at fault, and what no rule sees.
#![tactic(auto)]

mod breaches;
mod clashes;
mod compare;
mod documents;
mod fields;
mod findings;
mod forms;
mod keys;
mod kinds;
mod looks;
mod pairs;
mod places;
mod rows;
mod sections;
mod settings;
mod slots;
mod told;
mod warnings;

pub use findings::{Report, check};
