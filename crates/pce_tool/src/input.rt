//! The requests in the input of a command.
ghost use Rattle.std.specs.Prelude.{◌≤◌, IfOk, IfErr};
ghost use Rattle.pce_tool.specs.Requests.{IsPairWhy, IsWhy};
ghost use Rattle.pce_tool.specs.Run.{HasPairRequest, HasRequest};
ghost use Rattle.pce_tool.specs.Parts.{IsInput, IsInputStatus, IsNeverBad};

use crate::limits::INPUT_MAX;
use crate::pair_reading::{PairRequest, read_pair_request};
use crate::reading::{RequestError, read_path_request};
use crate::status::Status;
use dom_base::{As, Text};
use dom_edge::{ReadError, Source, read_all};
use one_domain::PathRequest;
use std::alloc::Global;

// The bytes of the input.
fn read_input<I: Source>(alloc: Global, input: &mut I) -> Result<Vec<u8>, Status>
    ensures ok { IfOk result (λ bytes. IsInput (I.left input.old) bytes.items) }
    ensures err { IfErr result (IsInputStatus IsNeverBad (I.left input.old) (I.faults input.old, I.faults input.new)) }
    ensures later { I.faults input.old ≤ I.faults input.new }
{
    match read_all(alloc, input, INPUT_MAX) {
        Ok(bytes) => Ok(bytes),
        Err(ReadError::Failed) => Err(Status::ReadFault),
        Err(ReadError::TooLarge) => match Text::copy_of(alloc, "input") {
            Ok(name) => Err(Status::TooLarge(name)),
            Err(_) => Err(Status::NoMemory),
        },
        Err(ReadError::NoMemory) => Err(Status::NoMemory),
    }
}

/// The request in the input, for the element of the domain `own`.
#[tactic(auto, using(crate::proofs::InputEnds::whatever_is_bad))]
pub(crate) fn load_request<I: Source>(
    alloc: Global,
    input: &mut I,
    own: As,
) -> Result<PathRequest, Status>
    ensures ok { IfOk result (HasRequest (I.left input.old) own.0) }
    ensures err { IfErr result (IsInputStatus (IsWhy own.0) (I.left input.old) (I.faults input.old, I.faults input.new)) }
    ensures later { I.faults input.old ≤ I.faults input.new }
{
    let bytes = match read_input(alloc, input) {
        Ok(bytes) => bytes,
        Err(status) => return Err(status),
    };
    match read_path_request(alloc, &bytes, own) {
        Ok(request) => Ok(request),
        Err(RequestError::Not(why)) => Err(Status::BadRequest(why)),
        Err(RequestError::NoMemory) => Err(Status::NoMemory),
    }
}

/// The two requests for a pair in the input, for the element of the domain `own`.
#[tactic(auto, using(crate::proofs::InputEnds::whatever_is_bad))]
pub(crate) fn load_pair_request<I: Source>(
    alloc: Global,
    input: &mut I,
    own: As,
) -> Result<PairRequest, Status>
    ensures ok { IfOk result (HasPairRequest (I.left input.old) own.0) }
    ensures err { IfErr result (IsInputStatus (IsPairWhy own.0) (I.left input.old) (I.faults input.old, I.faults input.new)) }
    ensures later { I.faults input.old ≤ I.faults input.new }
{
    let bytes = match read_input(alloc, input) {
        Ok(bytes) => bytes,
        Err(status) => return Err(status),
    };
    match read_pair_request(alloc, &bytes, own) {
        Ok(request) => Ok(request),
        Err(RequestError::Not(why)) => Err(Status::BadRequest(why)),
        Err(RequestError::NoMemory) => Err(Status::NoMemory),
    }
}
