//! The question of a client, and the bytes that it sends.
ghost use Rattle.std.specs.Prelude.{◌≡◌, ◌≤◌, length, IfOk, OnOk};
ghost use Rattle.std.specs.Option.{option_to_list};
ghost use Rattle.pcep_subobjects.specs.Subobjects.{AreOctets};
ghost use Rattle.plant_play.specs.plant_model.Writing.{bandwidth};
ghost use Rattle.plant_client.specs.Questions.{asked_of, opening_text, question_message, question_text, sequence_most};

use dom_base::{Addr, As, Bytes, List, NoMemory};
use pce_common::{ends, needed, one, sequence_object};
use pcep_codes::classes;
use pcep_messages::{Asked, Message, WriteError, write_message};
use pcep_objects::{Body, Object};
use std::alloc::Global;

/// A path that is asked for: the number of the request, from where, to where, the word of the bandwidth that it is to
/// have, and the domains that it goes through, in order. Where no domains are named, the parent finds them.
#[derive(Drop)]
pub struct Question {
    pub id: u32,
    pub source: Addr,
    pub target: Addr,
    pub bandwidth: Option<u32>,
    pub sequence: List<As>,
}

fn bandwidth_object(word: Option<u32>) -> Option<Object>
    ensures { option_to_list result ≡ bandwidth word }
{
    match word {
        Some(word) => Some(needed(classes::BANDWIDTH, Body::Bandwidth(word))),
        None => None,
    }
}

fn asked_of(alloc: Global, question: &Question) -> Result<Asked, NoMemory>
    ensures { IfOk result (λ asked. asked ≡ asked_of question.now) }
{
    let rp = Body::Rp {
        flags: 0,
        id: question.id,
    };
    let mut objects = List::new(alloc);
    objects.push(needed(classes::RP, rp))?;
    objects.push(ends(question.source, question.target))?;
    if let Some(object) = bandwidth_object(question.bandwidth) {
        objects.push(object)?;
    }
    if let Some(object) = sequence_object(alloc, question.sequence.as_slice())? {
        objects.push(object)?;
    }
    Ok(Asked { objects })
}

fn question_message(alloc: Global, question: &Question) -> Result<Message, NoMemory>
    ensures { IfOk result (λ message. message ≡ question_message question.now) }
{
    let asked = asked_of(alloc, question)?;
    Ok(Message::PcReq(one(alloc, asked)?))
}

// Bytes are octets.
fn are_octets(_bytes: &[u8])
    ensures { AreOctets _bytes.now }
{}

/// The request, as bytes.
pub(crate) fn question_bytes(alloc: Global, question: &Question) -> Result<Bytes, NoMemory>
    requires few { length question.now.sequence ≤ sequence_most }
    ensures text { IfOk result (λ bytes. bytes ≡ question_text question.now) }
    ensures octets { OnOk result (AreOctets (question_text question.now)) }
{
    let message = question_message(alloc, question)?;
    let mut text = Vec::new(alloc);
    match write_message(alloc, &message, &mut text) {
        Ok(()) => {
            are_octets(&text);
            Ok(List::from_vec(text))
        }
        Err(WriteError::NoMemory) => Err(NoMemory),
        Err(WriteError::TooLong) => unreachable!(),
    }
}

/// The two messages that open a session, as bytes.
pub(crate) fn opening_bytes(alloc: Global) -> Result<Bytes, NoMemory>
    ensures { IfOk result (λ bytes. bytes ≡ opening_text) }
{
    let text = b"\x20\x01\x00\x0c\x01\x10\x00\x08\x20\x00\x00\x01\x20\x02\x00\x04";
    Ok(List::from_vec(Vec::from_slice(alloc, text)?))
}
