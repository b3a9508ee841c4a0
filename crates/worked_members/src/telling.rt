//! Messages that are taken and sent.
ghost use Rattle.std.specs.Prelude.{IfOk, IsTrue};
ghost use Rattle.pce_common.specs.Messages.{HasOnePart};

use crate::words::{number, octets, peer, peer_in};
use dom_base::Peer;
use line_text::Words;
use pcep_messages::{Message, read_message, write_message};
use plant_model::{Lost, Outputs};
use std::alloc::Global;
use std::test::Fail;

/// A message, and whom it is sent to.
#[derive(Drop)]
pub(crate) struct Said {
    pub to: Peer,
    pub octets: Vec<u8>,
}

pub(crate) fn said_by(alloc: Global, outputs: &Outputs) -> Result<Vec<Said>, Fail> {
    let mut said = Vec::new(alloc);
    for output in outputs.as_slice() {
        let mut octets = Vec::new(alloc);
        write_message(alloc, &output.message, &mut octets)?;
        said.push(Said {
            to: output.to,
            octets,
        })?;
    }
    Ok(said)
}

/// Whether these are the messages of the other words, and no others.
pub(crate) fn are_these(
    alloc: Global,
    names: &'static [u8],
    said: &[Said],
    words: &mut Words<'_>,
) -> Result<bool, Fail> {
    for one in said {
        if one.to != peer(words)? || one.octets != octets(alloc, names, words)? {
            return Ok(false);
        }
    }
    Ok(words.next_word().is_none())
}

fn has_one_part(message: &Message) -> bool
    ensures { IsTrue result → HasOnePart message.now }
{
    match message {
        Message::PcReq(asks) => asks.len() <= 1,
        Message::PcRep(replies) => replies.len() <= 1,
        _ => true,
    }
}

pub(crate) fn message_of(alloc: Global, frame: &[u8]) -> Result<Message, Fail>
    ensures { IfOk result HasOnePart }
{
    let message = read_message(alloc, frame)?;
    if !has_one_part(&message) {
        return Err(Fail::from("more than one part"));
    }
    Ok(message)
}

/// The next lost request; none without a word.
pub(crate) fn lost_in(words: &mut Words<'_>) -> Result<Option<Lost>, Fail> {
    let Some(word) = words.next_word() else {
        return Ok(None);
    };
    let to = peer_in(word)?;
    let flags = number(words)?;
    let id = number(words)?;
    Ok(Some(Lost { to, flags, id }))
}
