//! The two requests for a pair as hexadecimal text.
ghost use Rattle.pce_tool.specs.Requests.{IsRequests, ReadsPair};
ghost use Rattle.std.specs.Prelude.{MatchOption};
ghost use Rattle.pcep_messages.specs.declared.message.Message.TheVariants as messages;
ghost use Rattle.std.specs.Prelude.{◌≡◌};

use crate::reading::{RequestError, Why, read_spelled};
use diverse_pairs::{Pair, PairError, pair_of};
use dom_base::{As, List};
use pcep_messages::{Asked, Message, Request, Wanted, Wish};
use std::alloc::Global;

/// Two requests for one path each: their flags, their numbers, and the path that each asks for.
#[derive(Drop)]
pub struct PairRequest {
    pub flags: u32,
    pub first: u32,
    pub second: u32,
    pub wanted: Wanted,
}

// The requests of a PCReq.
fn requests(message: Message) -> Option<List<Asked>>
    ensures { MatchOption result (¬ IsRequests message) (λ asked. message ≡ messages.PcReq asked) }
{
    match message {
        Message::PcReq(asked) => Some(asked),
        _ => None,
    }
}

/// Reads the two requests for a pair within the domain `own`: hexadecimal text of one PCReq.
#[tactic(auto, using(crate::proofs::Unread::pair_unread))]
pub fn read_pair_request(alloc: Global, text: &[u8], own: As) -> Result<PairRequest, RequestError>
    ensures { ReadsPair own.0 text.now result }
{
    let message = match read_spelled(alloc, text) {
        Ok(message) => message,
        Err(error) => return Err(error),
    };
    let Some(asked) = requests(message) else {
        return Err(RequestError::Not(Why::NotRequest));
    };
    let pair = match pair_of(alloc, asked.as_slice(), own) {
        Ok(pair) => pair,
        Err(PairError::Refused(kind, value)) => {
            return Err(RequestError::Not(Why::Refused(kind, value)));
        }
        Err(PairError::NotBuilt) => return Err(RequestError::Not(Why::NotBuilt)),
        Err(PairError::NoMemory) => return Err(RequestError::NoMemory),
    };
    let Pair { first, second } = pair;
    let Request { flags, id, wish } = first;
    match wish {
        Wish::Path(wanted) => Ok(PairRequest {
            flags,
            first: id,
            second: second.id,
            wanted,
        }),
        Wish::Expand { .. } => Err(RequestError::Not(Why::NotBuilt)),
    }
}
