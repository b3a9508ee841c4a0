//! The parent takes a message: what is to change is planned.
ghost use Rattle.std.specs.Prelude.{◌≡◌, None, IfOk};
ghost use Rattle.pce_common.specs.plant_model.RealWire.{wire};
ghost use Rattle.pce_common.specs.plant_model.Parent.{take};
ghost use Rattle.pce_common.specs.Messages.{HasOnePart};
ghost use Rattle.pce_parent.specs.Seen.{SameButRoom};
ghost use Rattle.pce_parent.specs.Changes.{IsDraft};

use crate::change::Draft;
use crate::parent::Parent;
use crate::plan::BorderPlan;
use dom_base::{NoMemory, Peer, Tick};
use pcep_messages::Message;

impl Parent {
    fn draft(&self, peer: Peer, message: Message) -> Result<Draft, NoMemory>
        requires { HasOnePart message }
        ensures { IfOk result (IsDraft self.now (take wire self.now.family peer message self.now.losing.parent)) }
    {
        match message {
            Message::PcReq(asks) => self.take_asks(peer, asks.as_slice()),
            Message::PcRep(replies) => self.take_replies(peer, replies),
            Message::PcNtf(notices) => self.take_notices(peer, notices.as_slice()),
            Message::PcErr(reports) => self.take_reports(peer, reports.as_slice()),
            Message::Open(_) | Message::Keepalive | Message::Close(_) | Message::Other(_) => {
                Ok(Draft::nothing(self.alloc))
            }
        }
    }

    /// Plans what a message of a peer changes, and makes room for it. Of the parent nothing changes
    /// but its room. The message has at most one request or reply.
    pub fn take(&mut self, peer: Peer, message: Message, _now: Tick) -> Result<BorderPlan, NoMemory>
        requires { HasOnePart message }
        ensures same { SameButRoom self.old self.new }
        ensures from { IfOk result (λ plan. plan.from ≡ self.new) }
        ensures given { IfOk result (λ plan. plan.given ≡ take wire self.old.family peer message self.old.losing.parent) }
        ensures solved { IfOk result (λ plan. plan.solved ≡ None) }
    {
        let draft = self.draft(peer, message)?;
        self.plan(draft)
    }
}
