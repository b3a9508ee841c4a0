//! Settings as they are given, before their rules are tested.
use crate::fault::Breach;
use crate::settings::NetworkParts;
use dom_base::Text;

/// For each table the fault of the row behind those that were read, where that row is malformed; and whether the
/// parent, the number of workers or the port of watchers is malformed.
#[derive(Clone, Copy)]
pub struct Cuts {
    pub elements: Option<Breach>,
    pub links: Option<Breach>,
    pub peers: Option<Breach>,
    pub deny: Option<Breach>,
    /// The table `parent` is malformed.
    pub parent: bool,
    /// The value of `parent` is no table.
    pub no_parent: bool,
    pub parent_links: Option<Breach>,
    pub workers: bool,
    pub watch: bool,
}

/// Settings as a text gives them: the rows of each table up to the first malformed row, and the least unknown name
/// beside the tables, by bytes.
#[derive(Drop)]
pub struct Sheet {
    pub parts: NetworkParts,
    pub cuts: Cuts,
    pub other: Option<Text>,
}
