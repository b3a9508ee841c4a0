//! What an element heeds of an outside peer's messages.
ghost use Rattle.std.specs.Prelude.{◌≡◌, IfOk};
ghost use Rattle.pce_common.specs.plant_model.Outside.{heeded_by, heeded_in};
ghost use Rattle.pce_common.specs.plant_model.RealWire.{wire};
ghost use Rattle.network_members.specs.Elements.{at_domain};
ghost use Rattle.network_members.specs.Heeding.{heeded_each, sent_at};

use crate::elements::Elements;
use dom_base::{As, List, NoMemory, Peer};
use outside_part::sift;
use pce_element::World;
use pcep_messages::{Message, Reply};
use std::alloc::Global;
use std::collections::VecDeque;

// A path has at most so many hops in a domain: where it enters it, a path key (RFC 5520, section 3.1), and
// where it leaves it or ends.
const HOPS: usize = 3;

// What is kept of a reply, by the number of domains that the request was sent on through. One for which
// nothing waits stays as it is. The count of hops cannot overflow, since no memory holds a request through
// so many domains.
fn heed_reply(alloc: Global, sent: Option<usize>, reply: Reply) -> Result<Reply, NoMemory>
    ensures { IfOk result (λ heeded. heeded ≡ heeded_by wire sent reply) }
{
    let Some(domains) = sent else {
        return Ok(reply);
    };
    let Some(most) = HOPS.checked_mul(domains) else {
        return Err(NoMemory);
    };
    sift(alloc, &reply, most)
}

impl<W: World> Elements<W> {
    // The request that waits at the element of a domain for the answer to an id of an outside peer: through
    // how many domains beyond the element's own it was sent on.
    fn sent(&self, at: As, peer: u32, id: u32) -> Option<usize>
        ensures { result ≡ sent_at peer (at_domain at self.now) id }
    {
        match self.at(at) {
            Some(element) => element.sent(Peer::Outside(peer), id),
            None => None,
        }
    }

    fn heed_each(&self, at: As, peer: u32, replies: List<Reply>) -> Result<List<Reply>, NoMemory>
        ensures { IfOk result (λ heeded. heeded ≡ heeded_each (sent_at peer (at_domain at self.now)) replies) }
    {
        let alloc = *self.domains.allocator();
        let mut left = VecDeque::from_vec(replies.into_vec());
        let mut heeded = List::new(alloc);
        while let Some(reply) = left.pop_front() {
            let sent = self.sent(at, peer, reply.id);
            heeded.push(heed_reply(alloc, sent, reply)?)?;
        }
        Ok(heeded)
    }

    /// What the element of a domain is given of a message of an outside peer: of a reply to a request that
    /// it sent on there what sifting keeps, and any other message as it came.
    pub fn heed(&self, at: As, peer: u32, message: Message) -> Result<Message, NoMemory>
        ensures { IfOk result (λ heeded. heeded ≡ heeded_in wire (sent_at peer (at_domain at self.now)) message) }
    {
        match message {
            Message::PcRep(replies) => Ok(Message::PcRep(self.heed_each(at, peer, replies)?)),
            other => Ok(other),
        }
    }
}
