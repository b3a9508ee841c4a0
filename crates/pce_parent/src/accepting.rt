//! The parent takes a request.
ghost use Rattle.std.specs.Prelude.{◌≡◌, ◌≤◌, false, true, None, length, IfOk, IsOk};
ghost use Rattle.request_table.specs.Pending.{is_full, number_of};
ghost use Rattle.pce_common.specs.plant_model.RealWire.{wire};
ghost use Rattle.pce_common.specs.plant_model.Parent.{each, only, all_up, is_up, take_path, take_wish, take_new, take_asked};
ghost use Rattle.pce_common.specs.plant_model.Element.{way_to};
ghost use Rattle.pce_common.specs.plant_model.Writing.{busy};
ghost use Rattle.pce_parent.specs.Changes.{IsDraft};

use crate::asking::Asking;
use crate::change::{Change, Draft};
use crate::errands::errands;
use crate::parent::Parent;
use crate::sending::{Sending, send_all};
use dom_base::{As, NoMemory, Peer};
use pce_common::model::{Output, PARENT_PENDING_MAX};
use pce_common::{busy, error_message, no_key, one, reply_message, unavailable};
use pcep_messages::{Asked, Message, Refusal, Request, Wanted, Wish, request_of};

impl Parent {
    /// Nothing changes, and a message is sent.
    pub(crate) fn says(&self, to: Peer, message: Message) -> Result<Draft, NoMemory>
        ensures { IfOk result (IsDraft self.now (only to message self.now.losing.parent)) }
    {
        Ok(Draft {
            change: Change::Nothing,
            outputs: one(self.alloc, Output { to, message })?,
        })
    }

    fn is_full(&self) -> bool
        ensures { result ≡ is_full self.now.losing.parent.pending }
    {
        self.requests.len() >= PARENT_PENDING_MAX || self.last == u64::MAX
    }

    // Whether the session of each child is up.
    fn all_up(&self) -> bool
        ensures { result ≡ all_up self.now.family.children self.now.losing.parent.ways }
    {
        for child in self.children.as_slice() {
            if !self.ways.is_up(Peer::Inner(*child)) {
                return false;
            }
        }
        true
    }

    // The children are asked, one request for each end of interest.
    fn ask_all(&self, peer: Peer, flags: u32, id: u32, wanted: Wanted) -> Result<Draft, NoMemory>
        requires new { number_of self.now.losing.parent.pending peer id ≡ None }
        requires fits { is_full self.now.losing.parent.pending ≡ false }
        ensures { IfOk result (IsDraft self.now (take_path self.now.family peer flags id wanted self.now.losing.parent)) }
    {
        let children = self.children.as_slice();
        let errands = errands(self.alloc, self.links.as_slice(), wanted.target, children)?;
        let Sending {
            taken: _taken,
            waits,
            ways,
            outputs,
        } = send_all(self.alloc, &wanted, &errands, &self.requests, &self.ways)?;
        let asking = Asking::new(self.alloc, flags, wanted, waits)?;
        let change = Change::Opens {
            peer,
            id,
            asking,
            ways,
        };
        Ok(Draft { change, outputs })
    }

    // The children are asked where there is room for the request; a full table is answered with the notice, which takes no
    // more memory.
    fn ask_or_notice(
        &self,
        peer: Peer,
        flags: u32,
        id: u32,
        wanted: Wanted,
        notice: Draft,
    ) -> Result<Draft, NoMemory>
        requires new { number_of self.now.losing.parent.pending peer id ≡ None }
        requires notice { IsDraft self.now (only peer (busy flags id) self.now.losing.parent) notice }
        ensures draft { IfOk result (IsDraft self.now (take_wish self.now.family peer flags id self.now.losing.parent (Wish.Path wanted))) }
        ensures full { is_full self.now.losing.parent.pending ≡ true → IsOk result }
    {
        if self.is_full() {
            return Ok(notice);
        }
        if !self.all_up() {
            return self.says(peer, reply_message(self.alloc, flags, id, unavailable())?);
        }
        self.ask_all(peer, flags, id, wanted)
    }

    // The notice is made before the table is looked at, so that a full table is answered even where memory then runs out.
    fn take_wish(&self, peer: Peer, flags: u32, id: u32, wish: Wish) -> Result<Draft, NoMemory>
        requires { number_of self.now.losing.parent.pending peer id ≡ None }
        ensures { IfOk result (IsDraft self.now (take_wish self.now.family peer flags id self.now.losing.parent wish)) }
    {
        let wanted = match wish {
            Wish::Expand { key: _, pce: _ } => {
                return self.says(peer, reply_message(self.alloc, flags, id, no_key())?);
            }
            Wish::Path(wanted) => wanted,
        };
        let notice = self.says(peer, busy(self.alloc, flags, id)?)?;
        self.ask_or_notice(peer, flags, id, wanted, notice)
    }

    // A request that is pending already is answered once only.
    fn take_new(&self, peer: Peer, request: Request) -> Result<Draft, NoMemory>
        ensures { IfOk result (IsDraft self.now (take_new self.now.family peer request self.now.losing.parent (number_of self.now.losing.parent.pending peer request.id))) }
    {
        if self.requests.asked(peer, request.id).is_some() {
            return Ok(Draft::nothing(self.alloc));
        }
        self.take_wish(peer, request.flags, request.id, request.wish)
    }

    fn take_asked(&self, peer: Peer, asked: &Asked) -> Result<Draft, NoMemory>
        ensures { IfOk result (IsDraft self.now (take_asked wire self.now.family peer asked.now self.now.losing.parent)) }
    {
        match request_of(self.alloc, asked, As(0)) {
            Ok(request) => self.take_new(peer, request),
            Err(Refusal::Wire { rp, kind, value }) => {
                self.says(peer, error_message(self.alloc, rp, (kind, value))?)
            }
            Err(Refusal::NoMemory) => Err(NoMemory),
        }
    }

    /// A request of a peer.
    pub(crate) fn take_asks(&self, peer: Peer, asks: &[Asked]) -> Result<Draft, NoMemory>
        requires { length asks.now ≤ 1 }
        ensures { IfOk result (IsDraft self.now (each (take_asked wire self.now.family peer) asks.now self.now.losing.parent)) }
    {
        match asks.first() {
            Some(asked) => self.take_asked(peer, asked),
            None => Ok(Draft::nothing(self.alloc)),
        }
    }
}
