//! The name of a row among all rows of a topology.
ghost use Rattle.std.specs.Prelude.{◌≡◌};
ghost use Rattle.te_deltas.specs.Changes.{name_of};

use dom_base::Addr;
use te_links::Entry;
use te_text::TextRow;

/// The name of a row: the address of a node, the far address of a link or an out link, or all
/// fields of an entry. No two rows of a topology have one name.
#[derive(Clone, Copy, PartialEq, Eq, PartialOrd, Ord)]
pub enum RowName {
    Node(Addr),
    Link(Addr),
    Out(Addr),
    Entry(Entry),
}

/// The name of a row.
pub(crate) fn name_of_row(row: &TextRow) -> RowName
    ensures { result ≡ name_of row.now }
{
    match row {
        TextRow::Node(node) => RowName::Node(*node),
        TextRow::Link(link) => RowName::Link(link.far),
        TextRow::Out(out) => RowName::Out(out.link.far),
        TextRow::Entry(entry) => RowName::Entry(*entry),
    }
}
