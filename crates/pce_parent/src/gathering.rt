//! The parent takes a child's answer.
ghost use Rattle.std.specs.Prelude.{◌≡◌, ◌≤◌, Some, length, IfOk};
ghost use Rattle.pce_common.specs.plant_model.RealWire.{wire};
ghost use Rattle.pce_common.specs.plant_model.Branches.{branches_in};
ghost use Rattle.pce_common.specs.plant_model.Parent.{each, answered, gathers, take_answer, take_reply, waiting};
ghost use Rattle.pce_parent.specs.Changes.{IsDraft};
ghost use Rattle.pce_parent.specs.Pendings.{row_of};

use crate::change::{Change, Draft};
use crate::ending::Ending;
use crate::parent::Parent;
use crate::pending::Row;
use crate::rows::rows_of;
use crate::sought::{Sought, find};
use dom_base::{List, NoMemory, Peer};
use pce_common::{error_message, reply_message, unavailable};
use pcep_codes::errors;
use pcep_messages::{Answer, Message, Path, Reply};

impl Parent {
    /// The asker of a request gets an answer, and the request ends.
    pub(crate) fn answers(&self, row: Row<'_>, message: Message) -> Result<Draft, NoMemory>
        ensures { IfOk result (IsDraft self.now (answered (row_of row.entry) message self.now.losing.parent)) }
    {
        let mut ending = Ending::new(self.alloc);
        ending.answer(row, message)?;
        Ok(ending.into_draft())
    }

    // The rows of the paths are kept.
    fn gather(
        &self,
        peer: Peer,
        id: u32,
        row: Row<'_>,
        paths: List<Path>,
    ) -> Result<Draft, NoMemory>
        requires { waiting peer id self.now.losing.parent.pending.rows ≡ Some (row_of row) }
        ensures { IfOk result (IsDraft self.now (gathers peer id (branches_in wire (row_of row.entry).1.item.wanted.query.metric paths) (row_of row.entry) self.now.losing.parent)) }
    {
        let _count = self.requests.len();
        let Some(wait) = row.item.wait(peer, id) else {
            unreachable!()
        };
        let rows = rows_of(self.alloc, row.item.wanted().query.metric, wait, paths)?;
        Ok(Draft {
            change: Change::Gathers {
                number: row.number,
                peer,
                id,
                rows,
            },
            outputs: List::new(self.alloc),
        })
    }

    fn take_answer(
        &self,
        peer: Peer,
        id: u32,
        row: Row<'_>,
        answer: Answer,
    ) -> Result<Draft, NoMemory>
        requires { waiting peer id self.now.losing.parent.pending.rows ≡ Some (row_of row) }
        ensures { IfOk result (IsDraft self.now (take_answer wire peer id (row_of row.entry) self.now.losing.parent answer)) }
    {
        match answer {
            Answer::Paths(paths) => self.gather(peer, id, row, paths),
            Answer::NoPath {
                nature: 0,
                vector: _,
            } => self.gather(peer, id, row, List::new(self.alloc)),
            Answer::NoPath {
                nature: _,
                vector: _,
            } => {
                let flags = row.item.flags();
                let message = reply_message(self.alloc, flags, row.key.id, unavailable())?;
                self.answers(row, message)
            }
        }
    }

    fn take_reply(&self, peer: Peer, reply: Reply) -> Result<Draft, NoMemory>
        ensures { IfOk result (IsDraft self.now (take_reply wire peer reply self.now.losing.parent)) }
    {
        match find(&self.requests, &[], Sought::Awaited(peer, reply.id)) {
            Some(row) => self.take_answer(peer, reply.id, row, reply.answer),
            None => {
                let rp = Some((reply.flags, reply.id));
                self.says(
                    peer,
                    error_message(self.alloc, rp, errors::UNKNOWN_REQUEST)?,
                )
            }
        }
    }

    /// A reply of a peer.
    pub(crate) fn take_replies(&self, peer: Peer, replies: List<Reply>) -> Result<Draft, NoMemory>
        requires { length replies ≤ 1 }
        ensures { IfOk result (IsDraft self.now (each (take_reply wire peer) replies self.now.losing.parent)) }
    {
        let mut replies = replies.into_vec();
        match replies.pop() {
            Some(reply) => self.take_reply(peer, reply),
            None => Ok(Draft::nothing(self.alloc)),
        }
    }
}
