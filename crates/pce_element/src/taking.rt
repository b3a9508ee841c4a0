//! What an element does with a message.
ghost use Rattle.std.specs.Prelude.{◌≡◌, ◌≤◌, length, IfOk, None};
ghost use Rattle.pce_common.specs.plant_model.Element.{each};
ghost use Rattle.pce_common.specs.plant_model.RealWire.{wire};
ghost use Rattle.pce_common.specs.plant_model.Taking.{take, take_asked, take_reply};
ghost use Rattle.pce_element.specs.Changes.{IsDraft};
ghost use Rattle.pce_common.specs.Messages.{HasOnePart};
ghost use Rattle.pce_element.specs.Seen.{SameButRoom};

use crate::change::DraftIn;
use crate::element::Element;
use crate::plan::Plan;
use crate::world::World;
use disclosure::Class;
use dom_base::{List, NoMemory, Peer, Tick};
use pcep_messages::{Asked, Message, Reply};

impl<W: World> Element<W> {
    fn take_requests(
        &self,
        peer: Peer,
        class: Class,
        asks: &[Asked],
        now: Tick,
    ) -> Result<DraftIn<W>, NoMemory>
        requires { length asks.now ≤ 1 }
        ensures { IfOk result (IsDraft self.now (each (take_asked wire W.show self.now.place self.now.current peer class now.0) asks.now self.now.losing.element)) }
    {
        match asks {
            [] => Ok(self.silent()),
            [asked, ..] => self.take_asked(peer, class, asked, now),
        }
    }

    fn take_replies(&self, peer: Peer, replies: List<Reply>) -> Result<DraftIn<W>, NoMemory>
        requires { length replies ≤ 1 }
        ensures { IfOk result (IsDraft self.now (each (take_reply wire peer) replies self.now.losing.element)) }
    {
        let mut replies = replies.into_vec();
        match replies.pop() {
            Some(reply) => self.take_reply(peer, reply),
            None => Ok(self.silent()),
        }
    }

    // What a message changes, and what is sent.
    fn take_message(
        &self,
        peer: Peer,
        class: Class,
        message: Message,
        now: Tick,
    ) -> Result<DraftIn<W>, NoMemory>
        requires { HasOnePart message }
        ensures { IfOk result (IsDraft self.now (take wire W.show self.now.place self.now.current peer class now.0 message self.now.losing.element)) }
    {
        match message {
            Message::PcReq(asks) => self.take_requests(peer, class, asks.as_slice(), now),
            Message::PcRep(replies) => self.take_replies(peer, replies),
            Message::PcNtf(notices) => self.take_notices(peer, notices.as_slice()),
            Message::PcErr(reports) => self.take_reports(peer, reports.as_slice()),
            Message::Open(_) | Message::Keepalive | Message::Close(_) | Message::Other(_) => {
                Ok(self.silent())
            }
        }
    }

    /// Plans what a message of a peer changes, and makes the room for it. A message has at most one
    /// request or reply. `now` never falls from call to call.
    pub fn take(
        &mut self,
        peer: Peer,
        class: Class,
        message: Message,
        now: Tick,
    ) -> Result<Plan<W>, NoMemory>
        requires { HasOnePart message }
        ensures same { SameButRoom self.old self.new }
        ensures from { IfOk result (λ plan. plan.from ≡ self.new) }
        ensures taken { IfOk result (λ plan. plan.taken ≡ take wire W.show self.old.place self.old.current peer class now.0 message self.old.losing.element) }
        ensures keys { IfOk result (λ plan. plan.taken.element.keys ≡ self.old.losing.element.keys) }
        ensures solved { IfOk result (λ plan. plan.solved ≡ None) }
    {
        let draft = self.take_message(peer, class, message, now)?;
        self.plan(draft)
    }
}
