//! What an element does with a request.
ghost use Rattle.std.specs.Prelude.{◌≡◌, ◌≤◌, cond, drop, false, length, true, IfOk, IsOk, None};
ghost use Rattle.request_table.specs.Pending.{is_full, number_of};
ghost use Rattle.pce_common.specs.plant_model.Element.{only, way_to};
ghost use Rattle.pce_common.specs.plant_model.RealWire.{wire};
ghost use Rattle.pce_common.specs.plant_model.Writing.{busy};
ghost use Rattle.pce_common.specs.plant_model.Taking.{denied, expansion, goes_up, send_on, sent_on, sequence_or, take_along, take_asked, take_new, take_path, take_wish, sight, wanting};
ghost use Rattle.pce_element.specs.Changes.{IsDraft};

use crate::accepted::{Opening, Stage};
use crate::change::{Change, Draft, DraftIn};
use crate::element::Element;
use crate::looks::is_same_addr;
use crate::world::World;
use disclosure::{Class, may_expand};
use dom_base::{Addr, As, List, NoMemory, Peer, Tick};
use pce_common::model::Output;
use pce_common::{
    Way, busy, error_message, no_key, one, reply_message, request_message, unavailable,
};
use pcep_messages::{Answer, Asked, Path, Refusal, Request, Wanted, Wish, request_of};

/// Who asks, with the flags and the id of the request.
#[derive(Clone, Copy)]
pub(crate) struct Asker {
    pub peer: Peer,
    pub class: Class,
    pub flags: u32,
    pub id: u32,
}

// Whether a request goes to the parent: a client's without a sequence, where there is a parent.
fn goes_up(parent: bool, class: Class, sequence: &[As]) -> bool
    ensures { result ≡ goes_up parent class sequence.now }
{
    match (sequence, class) {
        ([], Class::Client { .. }) => parent,
        _ => false,
    }
}

impl<W: World> Element<W> {
    // The chain is not available.
    fn denied(&self, asker: Asker) -> Result<DraftIn<W>, NoMemory>
        ensures { IfOk result (IsDraft self.now (denied asker.peer asker.flags asker.id self.now.losing.element)) }
    {
        let message = reply_message(self.alloc, asker.flags, asker.id, unavailable())?;
        self.only(asker.peer, message)
    }

    // The request waits on the peer of a way, to which it is sent under a new id.
    fn sent_on(
        &self,
        asker: Asker,
        wanted: Wanted,
        sequence: List<As>,
        way: &Way,
    ) -> Result<DraftIn<W>, NoMemory>
        requires new { number_of self.now.losing.element.pending asker.peer asker.id ≡ None }
        requires fits { is_full self.now.losing.element.pending ≡ false }
        ensures { IfOk result (IsDraft self.now (sent_on (sight self.now.current asker.peer asker.class) (wanting asker.flags asker.id wanted) sequence (drop 1 sequence) self.now.losing.element way.now)) }
    {
        let on = way.peer();
        let id = self.requests().fresh_id(on, way.last_id());
        let rest = match sequence.as_slice() {
            [] => &[],
            [_own, rest @ ..] => rest,
        };
        let message = request_message(self.alloc, id, &wanted, wanted.target, rest)?;
        let opening = Opening {
            class: asker.class,
            flags: asker.flags,
            wanted,
            sequence,
            stage: Stage::Waits { on, id },
        };
        Ok(Draft {
            change: Change::Opens {
                peer: asker.peer,
                id: asker.id,
                opening,
            },
            outputs: one(self.alloc, Output { to: on, message })?,
        })
    }

    // The request goes to a peer, where there is a way and policy allows it.
    fn send_on(
        &self,
        asker: Asker,
        wanted: Wanted,
        sequence: List<As>,
        refused: bool,
        to: Peer,
    ) -> Result<DraftIn<W>, NoMemory>
        requires new { number_of self.now.losing.element.pending asker.peer asker.id ≡ None }
        requires fits { is_full self.now.losing.element.pending ≡ false }
        ensures { IfOk result (IsDraft self.now (send_on (sight self.now.current asker.peer asker.class) (wanting asker.flags asker.id wanted) sequence (drop 1 sequence) refused self.now.losing.element (way_to to self.now.losing.element.ways))) }
    {
        let Some(way) = self.way_to(to) else {
            return self.denied(asker);
        };
        if way.is_up() && !refused {
            self.sent_on(asker, wanted, sequence, way)
        } else {
            self.denied(asker)
        }
    }

    // The job of a request whose sequence ends here is ready at once.
    fn own_job(&self, asker: Asker, wanted: Wanted, sequence: List<As>) -> DraftIn<W>
        requires new { number_of self.now.losing.element.pending asker.peer asker.id ≡ None }
        requires fits { is_full self.now.losing.element.pending ≡ false }
        requires own { length sequence ≡ 1 }
        ensures { IsDraft self.now (take_along self.now.place (sight self.now.current asker.peer asker.class) (wanting asker.flags asker.id wanted) self.now.losing.element sequence) result }
    {
        let opening = Opening {
            class: asker.class,
            flags: asker.flags,
            wanted,
            sequence,
            stage: Stage::Ready(List::new(self.alloc)),
        };
        Draft {
            change: Change::Opens {
                peer: asker.peer,
                id: asker.id,
                opening,
            },
            outputs: List::new(self.alloc),
        }
    }

    // Along a sequence that begins with the own domain.
    fn take_along(
        &self,
        asker: Asker,
        wanted: Wanted,
        sequence: List<As>,
    ) -> Result<DraftIn<W>, NoMemory>
        requires new { number_of self.now.losing.element.pending asker.peer asker.id ≡ None }
        requires fits { is_full self.now.losing.element.pending ≡ false }
        requires begins { 1 ≤ length sequence }
        ensures { IfOk result (IsDraft self.now (take_along self.now.place (sight self.now.current asker.peer asker.class) (wanting asker.flags asker.id wanted) self.now.losing.element sequence)) }
    {
        match sequence.as_slice().get(1) {
            Some(next) => {
                let next = *next;
                let refused = !self.allows(asker.class, next);
                self.send_on(asker, wanted, sequence, refused, self.toward(next))
            }
            None => Ok(self.own_job(asker, wanted, sequence)),
        }
    }

    // The domain sequence of a request: its own, or this domain alone.
    fn sequence_or_own(&self, sequence: &List<As>) -> Result<List<As>, NoMemory>
        ensures is { IfOk result (λ list. list ≡ sequence_or self.now.place.own sequence.now) }
        ensures begins { IfOk result (λ list. 1 ≤ length list) }
    {
        match sequence.as_slice() {
            [] => one(self.alloc, self.own),
            [_first, ..] => sequence.copy(self.alloc),
        }
    }

    fn take_path(&self, asker: Asker, wanted: Wanted) -> Result<DraftIn<W>, NoMemory>
        requires new { number_of self.now.losing.element.pending asker.peer asker.id ≡ None }
        requires fits { is_full self.now.losing.element.pending ≡ false }
        ensures { IfOk result (IsDraft self.now (take_path self.now.place (sight self.now.current asker.peer asker.class) (wanting asker.flags asker.id wanted) self.now.losing.element)) }
    {
        if goes_up(self.has_parent(), asker.class, wanted.sequence.as_slice()) {
            let none = List::new(self.alloc);
            return self.send_on(asker, wanted, none, false, Peer::Inner(As(0)));
        }
        let sequence = self.sequence_or_own(&wanted.sequence)?;
        self.take_along(asker, wanted, sequence)
    }

    // What a key stands for is shown, or one and the same refusal (RFC 5520, section 3.2).
    fn expansion(&self, class: Class, key: u16, pce: Addr, now: Tick) -> Result<Answer, NoMemory>
        ensures { IfOk result (λ answer. answer ≡ expansion W.show self.now.place class now.0 key pce self.now.losing.element) }
    {
        if !is_same_addr(pce, self.id()) || !may_expand(class) {
            return Ok(no_key());
        }
        let Some(segment) = self.segment(now, key) else {
            return Ok(no_key());
        };
        let path = Path {
            hops: W::hops(self.alloc, segment)?,
            metric: None,
        };
        Ok(Answer::Paths(one(self.alloc, path)?))
    }

    // The path is looked for where there is room for the request; a full table is answered with the notice, which takes no
    // more memory.
    fn path_or_notice(
        &self,
        asker: Asker,
        wanted: Wanted,
        notice: DraftIn<W>,
    ) -> Result<DraftIn<W>, NoMemory>
        requires new { number_of self.now.losing.element.pending asker.peer asker.id ≡ None }
        requires notice { IsDraft self.now (only asker.peer (busy asker.flags asker.id) self.now.losing.element) notice }
        ensures draft { IfOk result (IsDraft self.now (cond (is_full self.now.losing.element.pending) (only asker.peer (busy asker.flags asker.id) self.now.losing.element) (take_path self.now.place (sight self.now.current asker.peer asker.class) (wanting asker.flags asker.id wanted) self.now.losing.element))) }
        ensures full { is_full self.now.losing.element.pending ≡ true → IsOk result }
    {
        if self.requests().is_full() {
            return Ok(notice);
        }
        self.take_path(asker, wanted)
    }

    // The notice is made before the table is looked at, so that a full table is answered even where memory then runs out.
    fn take_wish(&self, asker: Asker, wish: Wish, now: Tick) -> Result<DraftIn<W>, NoMemory>
        requires { number_of self.now.losing.element.pending asker.peer asker.id ≡ None }
        ensures { IfOk result (IsDraft self.now (take_wish W.show self.now.place (sight self.now.current asker.peer asker.class) now.0 asker.flags asker.id self.now.losing.element wish)) }
    {
        match wish {
            Wish::Path(wanted) => {
                let message = busy(self.alloc, asker.flags, asker.id)?;
                let notice = self.only(asker.peer, message)?;
                self.path_or_notice(asker, wanted, notice)
            }
            Wish::Expand { key, pce } => {
                let answer = self.expansion(asker.class, key, pce, now)?;
                let message = reply_message(self.alloc, asker.flags, asker.id, answer)?;
                self.only(asker.peer, message)
            }
        }
    }

    // A request that is pending already is answered once only.
    fn take_new(
        &self,
        peer: Peer,
        class: Class,
        request: Request,
        now: Tick,
    ) -> Result<DraftIn<W>, NoMemory>
        ensures { IfOk result (IsDraft self.now (take_new W.show self.now.place self.now.current peer class now.0 request self.now.losing.element (number_of self.now.losing.element.pending peer request.id))) }
    {
        let asker = Asker {
            peer,
            class,
            flags: request.flags,
            id: request.id,
        };
        match self.requests().asked(peer, request.id) {
            Some(_number) => Ok(self.silent()),
            None => self.take_wish(asker, request.wish, now),
        }
    }

    /// A request of a peer.
    pub(crate) fn take_asked(
        &self,
        peer: Peer,
        class: Class,
        asked: &Asked,
        now: Tick,
    ) -> Result<DraftIn<W>, NoMemory>
        ensures { IfOk result (IsDraft self.now (take_asked wire W.show self.now.place self.now.current peer class now.0 asked.now self.now.losing.element)) }
    {
        match request_of(self.alloc, asked, self.own()) {
            Ok(request) => self.take_new(peer, class, request, now),
            Err(Refusal::Wire { rp, kind, value }) => {
                let message = error_message(self.alloc, rp, (kind, value))?;
                self.only(peer, message)
            }
            Err(Refusal::NoMemory) => Err(NoMemory),
        }
    }
}
