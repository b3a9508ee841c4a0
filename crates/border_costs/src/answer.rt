//! The answer to an ask.
use dom_base::List;
use path_certificate::Certificate;
use vspt_tree::Best;

/// The answer to an ask: the best way from each entry that has one, in the order of the
/// ask's entries; and whether the source and the target are nodes of the domain (a target beyond it
/// counts as known).
#[derive(Drop)]
pub struct Answer {
    pub best: List<Best>,
    pub source_known: bool,
    pub target_known: bool,
}

/// The answer to an ask, and the labels of all nodes, as a certificate without a path.
#[derive(Drop)]
pub struct LabelledAnswer {
    pub rows: Answer,
    pub certificate: Certificate,
}
