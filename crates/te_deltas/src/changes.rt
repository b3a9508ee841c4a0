//! A change to a topology.
ghost use Rattle.std.specs.Prelude.{◌≡◌, IfOk};
ghost use Rattle.te_deltas.specs.Changes.{added, named};

use crate::copy::{copy_link, copy_out};
use crate::name::RowName;
use dom_base::{Addr, Link, NoMemory};
use std::alloc::Global;
use te_links::{Entry, OutLink};
use te_text::TextRow;

/// A row to add, or one to drop. Links and out links are dropped by their far address.
#[derive(Drop)]
pub enum Change {
    AddNode(Addr),
    DropNode(Addr),
    AddLink(Link),
    DropLink(Addr),
    AddOut(OutLink),
    DropOut(Addr),
    AddEntry(Entry),
    DropEntry(Entry),
}

impl Change {
    // The name of the row that is added or dropped.
    pub(crate) fn name(&self) -> RowName
        ensures { result ≡ named self.now }
    {
        match self {
            Change::AddNode(node) | Change::DropNode(node) => RowName::Node(*node),
            Change::AddLink(link) => RowName::Link(link.far),
            Change::DropLink(far) => RowName::Link(*far),
            Change::AddOut(out) => RowName::Out(out.link.far),
            Change::DropOut(far) => RowName::Out(*far),
            Change::AddEntry(entry) | Change::DropEntry(entry) => RowName::Entry(*entry),
        }
    }

    // A copy of the row that is added.
    pub(crate) fn row(&self, alloc: Global) -> Result<Option<TextRow>, NoMemory>
        ensures { IfOk result (λ row. row ≡ added self.now) }
    {
        match self {
            Change::AddNode(node) => Ok(Some(TextRow::Node(*node))),
            Change::AddLink(link) => {
                let copy = copy_link(alloc, link)?;
                Ok(Some(TextRow::Link(copy)))
            }
            Change::AddOut(out) => {
                let copy = copy_out(alloc, out)?;
                Ok(Some(TextRow::Out(copy)))
            }
            Change::AddEntry(entry) => Ok(Some(TextRow::Entry(*entry))),
            Change::DropNode(_) | Change::DropLink(_) | Change::DropOut(_) | Change::DropEntry(_) =>
                Ok(None),
        }
    }
}
