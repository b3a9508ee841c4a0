//! What a peer reports of requests, by pairs of a type and a value.
ghost use Rattle.std.specs.Prelude.{◌≡◌, IfOk};
ghost use Rattle.std.specs.Option.{option_to_list};
ghost use Rattle.pcep_codes.specs.declared.notices.TheConstants as notices;
ghost use Rattle.plant_model.specs.Names.{has_pair};
ghost use Rattle.plant_model.specs.Taking.{error_answer};

use crate::messages::{error_message, reply_message, unavailable};
use dom_base::NoMemory;
use pcep_codes::{errors, notices};
use pcep_messages::Message;
use std::alloc::Global;

/// Whether a pair is among others.
pub fn has_pair(pairs: &[(u8, u8)], pair: (u8, u8)) -> bool
    ensures { result ≡ has_pair pair.0 pair.1 pairs.now }
{
    for own in pairs {
        if own.0 == pair.0 && own.1 == pair.1 {
            return true;
        }
    }
    false
}

/// What a notice tells of the requests that it names.
#[derive(Clone, Copy)]
pub struct Told {
    /// There is no room for them.
    pub busy: bool,
    /// Their asker gives them up.
    pub cancelled: bool,
}

/// What a notice tells, by its types and values.
pub fn told_by(kinds: &[(u8, u8)]) -> Told
    ensures busy { result.busy ≡ has_pair notices.BUSY.0 notices.BUSY.1 kinds.now }
    ensures cancelled { result.cancelled ≡ has_pair notices.CANCELLED.0 notices.CANCELLED.1 kinds.now }
{
    Told {
        busy: has_pair(kinds, notices::BUSY),
        cancelled: has_pair(kinds, notices::CANCELLED),
    }
}

/// What the asker of a request is told when an error is reported of it: nothing where the error is that of
/// a reply.
pub fn error_answer(
    alloc: Global,
    error: (u8, u8),
    flags: u32,
    id: u32,
) -> Result<Option<Message>, NoMemory>
    ensures { IfOk result (λ message. option_to_list message ≡ error_answer error flags id) }
{
    match error {
        errors::UNKNOWN_REQUEST => Ok(None),
        errors::PARAMETER_NOT_SERVED | errors::CHAIN_FAILED => {
            let asked = Some((flags, id));
            Ok(Some(error_message(alloc, asked, errors::CHAIN_FAILED)?))
        }
        _ => Ok(Some(reply_message(alloc, flags, id, unavailable())?)),
    }
}
