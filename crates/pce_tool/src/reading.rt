//! A request as hexadecimal text.
ghost use Rattle.std.specs.Prelude.{◌≡◌, ◌≤◌, length, Err, MatchOption};
ghost use Rattle.pcep_messages.specs.declared.message.Wish.TheVariants as wishes;
ghost use Rattle.pce_tool.specs.Requests.{one_request as one_request_of, GoesOn, ReadsMessage, ReadsRequest};

use dom_base::As;
use line_text::{HexError, read_hex};
use one_domain::PathRequest;
use pcep_messages::{
    Asked, Bad, Message, Refusal, Request, Wanted, Wish, read_message, request_of,
};
use std::alloc::Global;
use std::fmt;

/// Why an input is no request that a command answers.
#[derive(Clone, Copy)]
pub enum Why {
    /// It is no hexadecimal text.
    Hex,
    /// The bytes are no message of the protocol.
    Malformed,
    /// The message is no PCReq, or has more than the one request that the command answers.
    NotRequest,
    /// The request is answered with this type and value of PCEP-ERROR.
    Refused(u8, u8),
    /// It asks what a path key stands for, or for a path through further domains; or, where a pair is
    /// to be asked for, the requests ask for none.
    NotBuilt,
}

impl fmt::Display for Why {
    fn fmt<W: fmt::Write>(&self, f: &mut fmt::Formatter<W>) -> fmt::Result {
        match self {
            Why::Hex => write!(f, "hex"),
            Why::Malformed => write!(f, "malformed"),
            Why::NotRequest => write!(f, "not request"),
            Why::Refused(kind, value) => write!(f, "refused {kind} {value}"),
            Why::NotBuilt => write!(f, "not built"),
        }
    }
}

/// Why there is no request.
#[derive(Clone, Copy)]
pub enum RequestError {
    Not(Why),
    NoMemory,
}

// The request of a PCReq that has just one.
fn one_request(message: Message) -> Option<Asked>
    ensures { result ≡ one_request_of message }
{
    let Message::PcReq(requests) = message else {
        return None;
    };
    let mut requests = requests.into_vec();
    if requests.len() != 1 {
        return None;
    }
    requests.pop()
}

// The path that is wished for, where the domain alone serves it.
fn staying(wish: Wish) -> Option<Wanted>
    ensures { MatchOption result (GoesOn wish) (λ w. (wish ≡ wishes.Path w) × (length w.sequence ≤ 1)) }
{
    match wish {
        Wish::Path(wanted) if wanted.sequence.len() <= 1 => Some(wanted),
        _ => None,
    }
}

/// The message that hexadecimal text spells.
pub(crate) fn read_spelled(alloc: Global, text: &[u8]) -> Result<Message, RequestError>
    ensures { ReadsMessage text.now result }
{
    let frame = match read_hex(alloc, text) {
        Ok(frame) => frame,
        Err(HexError::NotHex) => return Err(RequestError::Not(Why::Hex)),
        Err(HexError::NoMemory) => return Err(RequestError::NoMemory),
    };
    match read_message(alloc, &frame) {
        Ok(message) => Ok(message),
        Err(Bad::Malformed(_)) => Err(RequestError::Not(Why::Malformed)),
        Err(Bad::NoMemory) => Err(RequestError::NoMemory),
    }
}

/// Reads a request for a path within the domain `own`: hexadecimal text of one PCReq.
#[tactic(auto, using(crate::proofs::Unread::unread, crate::proofs::Beyond::beyond))]
pub fn read_path_request(alloc: Global, text: &[u8], own: As) -> Result<PathRequest, RequestError>
    ensures { ReadsRequest own.0 text.now result }
{
    let message = match read_spelled(alloc, text) {
        Ok(message) => message,
        Err(error) => return Err(error),
    };
    let Some(asked) = one_request(message) else {
        return Err(RequestError::Not(Why::NotRequest));
    };
    let request = match request_of(alloc, &asked, own) {
        Ok(request) => request,
        Err(Refusal::Wire { rp: _, kind, value }) => {
            return Err(RequestError::Not(Why::Refused(kind, value)));
        }
        Err(Refusal::NoMemory) => return Err(RequestError::NoMemory),
    };
    let Request { flags, id, wish } = request;
    match staying(wish) {
        Some(wanted) => Ok(PathRequest { flags, id, wanted }),
        None => Err(RequestError::Not(Why::NotBuilt)),
    }
}
