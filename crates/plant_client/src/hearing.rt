//! What a client received, as the cost of the path that it asked for.
ghost use Rattle.std.specs.Prelude.{◌≡◌, IfOk, Some};
ghost use Rattle.plant_client.specs.Hearing.{heard_in, in_answer, in_frame, in_message, in_paths, in_replies, with_cost, with_metric};
ghost use Rattle.plant_client.specs.Telling.{last_of};

use dom_base::{Bytes, NoMemory, units_of_word};
use pcep_framing::Framer;
use pcep_messages::{Answer, Bad, Message, Path, Reply, read_message};
use std::alloc::Global;

/// What a client is told of a path that it asked for.
#[derive(Clone, Copy)]
pub enum Heard {
    /// There is one of this cost.
    Path(u64),
    /// There is none.
    NoPath,
    /// Neither is said.
    Nothing,
}

fn with_cost(cost: Option<u64>) -> Heard
    ensures { result ≡ with_cost cost }
{
    match cost {
        Some(cost) => Heard::Path(cost),
        None => Heard::Nothing,
    }
}

fn with_metric(metric: &Option<(u8, u32)>) -> Heard
    ensures { result ≡ with_metric metric.now }
{
    match metric {
        Some((_, word)) => with_cost(units_of_word(*word)),
        None => Heard::Nothing,
    }
}

fn in_paths(paths: &[Path]) -> Heard
    ensures { result ≡ in_paths paths.now }
{
    match paths {
        [] => Heard::Nothing,
        [path, ..] => with_metric(&path.metric),
    }
}

fn in_answer(answer: &Answer) -> Heard
    ensures { result ≡ in_answer answer.now }
{
    match answer {
        Answer::Paths(paths) => in_paths(paths.as_slice()),
        Answer::NoPath { .. } => Heard::NoPath,
    }
}

fn in_replies(replies: &[Reply]) -> Heard
    ensures { result ≡ in_replies replies.now }
{
    match replies {
        [] => Heard::Nothing,
        [reply, ..] => in_answer(&reply.answer),
    }
}

fn in_message(message: &Message) -> Heard
    ensures { result ≡ in_message message.now }
{
    match message {
        Message::PcRep(replies) => in_replies(replies.as_slice()),
        Message::PcNtf(_)
        | Message::PcErr(_)
        | Message::PcReq(_)
        | Message::Open(_)
        | Message::Keepalive
        | Message::Close(_)
        | Message::Other(_) => Heard::Nothing,
    }
}

fn in_frame(alloc: Global, frame: &[u8]) -> Result<Heard, NoMemory>
    ensures { IfOk result (λ heard. heard ≡ in_frame (Some frame.now)) }
{
    match read_message(alloc, frame) {
        Ok(message) => Ok(in_message(&message)),
        Err(Bad::Malformed(_place)) => Ok(Heard::Nothing),
        Err(Bad::NoMemory) => Err(NoMemory),
    }
}

fn in_last(alloc: Global, frames: &[Bytes]) -> Result<Heard, NoMemory>
    ensures { IfOk result (λ heard. heard ≡ in_frame (last_of frames.now)) }
{
    match frames.last() {
        Some(frame) => in_frame(alloc, frame.as_slice()),
        None => Ok(Heard::Nothing),
    }
}

/// What the last message that came says of the path that was asked for. Of a reply its first path counts.
pub fn hear(alloc: Global, received: &[u8]) -> Result<Heard, NoMemory>
    ensures { IfOk result (λ heard. heard ≡ heard_in received.now) }
{
    let fed = Framer::new(alloc).feed(received)?;
    in_last(alloc, fed.frames.as_slice())
}
