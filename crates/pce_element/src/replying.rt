//! What an element does with a reply.
ghost use Rattle.std.specs.Prelude.{◌≡◌, false, Contains, IfOk};
ghost use Rattle.pce_common.specs.plant_model.Element.{is_ready};
ghost use Rattle.pce_common.specs.plant_model.RealWire.{wire};
ghost use Rattle.pce_common.specs.plant_model.Taking.{made_ready, take_answer, take_reply};
ghost use Rattle.std.specs.Prelude.{Some};
ghost use Rattle.pce_element.specs.Changes.{IsDraft};
ghost use Rattle.pce_element.specs.Rows.{row_of};

use crate::branches::branches_in;
use crate::change::DraftIn;
use crate::element::Element;
use crate::pinned::Row;
use crate::world::World;
use dom_base::{As, List, NoMemory, Peer};
use pce_common::{error_message, is_same_peer, reply_message, unavailable};
use pcep_codes::errors;
use pcep_messages::{Answer, Reply};

impl<W: World> Element<W> {
    // The answer of the next domain makes a request ready, or ends it.
    fn made_ready(&self, row: &Row<'_, W::Pin>, answer: Answer) -> Result<DraftIn<W>, NoMemory>
        requires has { Contains self.now.losing.element.pending.rows (row_of row.now) }
        requires waits { is_ready (row_of row.now).1.item.stage ≡ false }
        ensures { IfOk result (IsDraft self.now (made_ready wire (row_of row.now) answer self.now.losing.element)) }
    {
        match answer {
            Answer::Paths(paths) => {
                let metric = row.item.wanted().query.metric;
                let branches = branches_in(self.alloc, metric, paths)?;
                Ok(self.readied(row, branches))
            }
            Answer::NoPath { nature, vector: _ } => {
                if nature == 0 {
                    return Ok(self.readied(row, List::new(self.alloc)));
                }
                let message = reply_message(
                    self.alloc,
                    row.item.flags(),
                    row.key.id,
                    unavailable(),
                )?;
                self.answered(row, message)
            }
        }
    }

    // The parent's answer is passed on as it is.
    fn take_answer(
        &self,
        peer: Peer,
        row: &Row<'_, W::Pin>,
        reply: Reply,
    ) -> Result<DraftIn<W>, NoMemory>
        requires has { Contains self.now.losing.element.pending.rows (row_of row.now) }
        requires waits { is_ready (row_of row.now).1.item.stage ≡ false }
        ensures { IfOk result (IsDraft self.now (take_answer wire peer reply self.now.losing.element (Some (row_of row.now)))) }
    {
        if is_same_peer(peer, Peer::Inner(As(0))) {
            let message = reply_message(self.alloc, row.item.flags(), row.key.id, reply.answer)?;
            return self.answered(row, message);
        }
        self.made_ready(row, reply.answer)
    }

    /// A reply of a peer.
    pub(crate) fn take_reply(&self, peer: Peer, reply: Reply) -> Result<DraftIn<W>, NoMemory>
        ensures { IfOk result (IsDraft self.now (take_reply wire peer reply self.now.losing.element)) }
    {
        match self.requests().waiting(&[], peer, reply.id) {
            Some(row) => self.take_answer(peer, &row, reply),
            None => {
                let rp = Some((reply.flags, reply.id));
                let message = error_message(self.alloc, rp, errors::UNKNOWN_REQUEST)?;
                self.only(peer, message)
            }
        }
    }
}
