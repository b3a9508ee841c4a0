//! A condition that is false.
use dom_base::Label;

/// A condition that is false, by its place among those of its kind, and the labels that are
/// compared there.
#[derive(Drop)]
pub struct Broken {
    pub index: u32,
    pub told: Option<Label>,
    pub bound: Option<Label>,
}
