//! `answer`: the reply of a domain's element to a client.
ghost use Rattle.std.specs.Prelude.{◌≡◌, ◌≤◌, length, IfOk};
ghost use Rattle.pcep_messages.specs.Spelling.{message_text};
ghost use Rattle.pce_tool.specs.Commands.Answer.{IsReplyText};
ghost use Rattle.pce_tool.specs.Run.{Answer, Ends};
ghost use Rattle.pce_tool.specs.Worlds.{world};

use crate::files::load_topology;
use crate::input::load_request;
use crate::output::finish;
use crate::status::Status;
use dom_base::NoMemory;
use dom_edge::{Sink, Source, Store};
use line_text::write_hex;
use one_domain::{PathRequest, reply_of};
use pcep_messages::{Message, WriteError, write_message};
use std::alloc::Global;
use te_links::Topology;

// The bytes of a message that is not too long.
pub(crate) fn message_bytes(alloc: Global, message: &Message) -> Result<Vec<u8>, NoMemory>
    requires { length (message_text message.now) ≤ 65532 }
    ensures { IfOk result (λ bytes. bytes.items ≡ message_text message.now) }
{
    let mut bytes = Vec::new(alloc);
    match write_message(alloc, message, &mut bytes) {
        Ok(()) => Ok(bytes),
        Err(WriteError::NoMemory) => Err(NoMemory),
        Err(WriteError::TooLong) => unreachable!(),
    }
}

/// The reply to a client as lower-case hexadecimal text with a line end.
pub fn reply_text(
    alloc: Global,
    topology: &Topology,
    request: &PathRequest,
) -> Result<Vec<u8>, NoMemory>
    ensures { IfOk result (λ text. IsReplyText topology.now request.now text.items) }
{
    let message = reply_of(alloc, topology, request)?;
    let bytes = message_bytes(alloc, &message)?;
    let mut text = write_hex(alloc, &bytes)?;
    text.push(b'\n')?;
    Ok(text)
}

/// Answers a request over one domain: the reply of its element to a client.
pub(crate) fn run<S: Store, I: Source, K: Sink>(
    alloc: Global,
    topology: &str,
    store: &mut S,
    input: &mut I,
    out: &mut K,
) -> Status
    ensures { Ends (world (S.files store.old) (I.left input.old) (K.written out.old, K.written out.new) (S.faults store.old, S.faults store.new) (I.faults input.old, I.faults input.new) (K.faults out.old, K.faults out.new) (S.failed_at store.new)) (Answer topology.now) result }
{
    let topology = match load_topology(alloc, store, topology) {
        Ok(topology) => topology,
        Err(status) => return status,
    };
    let request = match load_request(alloc, input, topology.own()) {
        Ok(request) => request,
        Err(status) => return status,
    };
    match reply_text(alloc, &topology, &request) {
        Ok(text) => finish(out, &text),
        Err(_) => Status::NoMemory,
    }
}
