//! The parts of which drafts of changes are made.
ghost use Rattle.std.specs.Prelude.{◌≡◌, false, Contains, IfOk};
ghost use Rattle.pce_common.specs.plant_model.Element.{Ready, is_ready, only, silent};
ghost use Rattle.pce_common.specs.plant_model.Taking.{answered, staged};
ghost use Rattle.pce_element.specs.Changes.{IsDraft};
ghost use Rattle.pce_element.specs.Rows.{row_of};

use crate::change::{Change, Draft, DraftIn};
use crate::element::Element;
use crate::pinned::Row;
use crate::world::World;
use dom_base::{List, NoMemory, Peer};
use pce_common::model::Output;
use pce_common::one;
use pcep_messages::Message;
use vspt_tree::Branch;

impl<W: World> Element<W> {
    /// Nothing changes, and nothing is sent.
    pub(crate) fn silent(&self) -> DraftIn<W>
        ensures { IsDraft self.now (silent self.now.losing.element) result }
    {
        Draft {
            change: Change::Nothing,
            outputs: List::new(self.alloc),
        }
    }

    /// A message is sent, and nothing changes.
    pub(crate) fn only(&self, to: Peer, message: Message) -> Result<DraftIn<W>, NoMemory>
        ensures { IfOk result (IsDraft self.now (only to message self.now.losing.element)) }
    {
        Ok(Draft {
            change: Change::Nothing,
            outputs: one(self.alloc, Output { to, message })?,
        })
    }

    /// The asker of a request gets an answer, and the request ends.
    pub(crate) fn answered(
        &self,
        row: &Row<'_, W::Pin>,
        message: Message,
    ) -> Result<DraftIn<W>, NoMemory>
        ensures { IfOk result (IsDraft self.now (answered (row_of row.now) message self.now.losing.element)) }
    {
        let to = row.key.peer;
        Ok(Draft {
            change: Change::Ends(one(self.alloc, row.number)?),
            outputs: one(self.alloc, Output { to, message })?,
        })
    }

    /// A request becomes ready.
    pub(crate) fn readied(&self, row: &Row<'_, W::Pin>, branches: List<Branch>) -> DraftIn<W>
        requires has { Contains self.now.losing.element.pending.rows (row_of row.now) }
        requires waits { is_ready (row_of row.now).1.item.stage ≡ false }
        ensures { IsDraft self.now (silent (staged (row_of row.now) (Ready branches) self.now.losing.element)) result }
    {
        let _count = self.requests().len();
        Draft {
            change: Change::Readies {
                number: row.number,
                branches,
            },
            outputs: List::new(self.alloc),
        }
    }
}
