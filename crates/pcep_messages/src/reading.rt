//! Octets as messages.
ghost use Rattle.std.specs.Prelude.{◌≡◌, ◌≤◌, length, IfOk};
ghost use Rattle.pcep_messages.specs.Messages.{Gives, content_of, message_of, made_by_first, made_by_all, made_of, members_of, close_in, said_at_first};
ghost use Rattle.pcep_objects.specs.Objects.{object_at};
ghost use Rattle.pcep_messages.specs.Spelling.{WrittenIsRead, WrittenIsOctets, NoneBeginsAnother};
ghost use Rattle.pcep_messages.specs.Groups.{opening_in, report_groups};
ghost use Rattle.pcep_codes.specs.declared.messages.TheConstants as types;
ghost use Rattle.pcep_messages.specs.declared.message.Message.TheVariants as messages;

use crate::answers::{notices, replies, reports, requests};
use crate::groups::{Closer, cut_groups, opening};
use crate::message::{Bad, Message};
use crate::objects::{fault_of_members, read_members};
use dom_base::{List, NoMemory};
use pcep_codes::{VERSION, messages};
use pcep_objects::{Body, Object, OpenBody, read_object};
use std::alloc::Global;

/// The OPEN at the front of a message.
fn opening_at(alloc: Global, bytes: &[u8]) -> Option<OpenBody>
    ensures { result ≡ said_at_first opening_in (object_at bytes.now) }
{
    match read_object(alloc, bytes) {
        Ok((first, _len)) => opening(&first),
        Err(_) => None,
    }
}

fn open(alloc: Global, bytes: &[u8]) -> Result<Message, Bad>
    requires { length bytes.now ≤ 65536 }
    ensures { Gives result (made_by_first opening_in messages.Open (object_at bytes.now) (members_of bytes.now)) }
{
    let Some(found) = opening_at(alloc, bytes) else {
        return Err(Bad::Malformed(4));
    };
    match fault_of_members(bytes) {
        Some(place) => Err(Bad::Malformed(place)),
        None => Ok(Message::Open(found)),
    }
}

fn close_reason(object: &Object) -> Option<u8>
    ensures { result ≡ close_in object.now.body }
{
    match object.body {
        Body::Close(reason) => Some(reason),
        _ => None,
    }
}

/// The reason in a CLOSE that a message begins with.
fn reason_at(alloc: Global, bytes: &[u8]) -> Option<u8>
    ensures { result ≡ said_at_first close_in (object_at bytes.now) }
{
    match read_object(alloc, bytes) {
        Ok((first, _len)) => close_reason(&first),
        Err(_) => None,
    }
}

fn close(alloc: Global, bytes: &[u8]) -> Result<Message, Bad>
    requires { length bytes.now ≤ 65536 }
    ensures { Gives result (made_by_first close_in messages.Close (object_at bytes.now) (members_of bytes.now)) }
{
    let Some(reason) = reason_at(alloc, bytes) else {
        return Err(Bad::Malformed(4));
    };
    match fault_of_members(bytes) {
        Some(place) => Err(Bad::Malformed(place)),
        None => Ok(Message::Close(reason)),
    }
}

fn keepalive(bytes: &[u8]) -> Result<Message, Bad>
    requires { length bytes.now ≤ 65536 }
    ensures { Gives result (made_by_all types.KEEPALIVE (members_of bytes.now)) }
{
    match fault_of_members(bytes) {
        Some(place) => Err(Bad::Malformed(place)),
        None => Ok(Message::Keepalive),
    }
}

fn groups_of_reports(alloc: Global, objects: List<Object>) -> Result<List<List<Object>>, NoMemory>
    ensures { IfOk result (λ groups. groups ≡ report_groups objects) }
{
    if objects.is_empty() {
        return Ok(List::new(alloc));
    }
    cut_groups(alloc, Closer::Report, false, objects)
}

/// The message that all its objects make.
fn made(alloc: Global, kind: u8, objects: List<Object>) -> Result<Message, NoMemory>
    ensures { IfOk result (λ m. m ≡ made_of kind objects) }
{
    match kind {
        messages::PCREQ => {
            let groups = cut_groups(alloc, Closer::Rp, false, objects)?;
            Ok(Message::PcReq(requests(alloc, groups)?))
        }
        messages::PCREP => {
            let groups = cut_groups(alloc, Closer::Rp, true, objects)?;
            Ok(Message::PcRep(replies(alloc, groups)?))
        }
        messages::PCNTF => {
            let groups = groups_of_reports(alloc, objects)?;
            Ok(Message::PcNtf(notices(alloc, groups.as_slice())?))
        }
        messages::PCERR => {
            let groups = groups_of_reports(alloc, objects)?;
            Ok(Message::PcErr(reports(alloc, groups.as_slice())?))
        }
        _ => Ok(Message::Keepalive),
    }
}

fn made_by_members(alloc: Global, kind: u8, bytes: &[u8]) -> Result<Message, Bad>
    requires { length bytes.now ≤ 65536 }
    ensures { Gives result (made_by_all kind (members_of bytes.now)) }
{
    match read_members(alloc, bytes) {
        Ok(objects) => Ok(made(alloc, kind, objects)?),
        Err(Bad::Malformed(place)) => Err(Bad::Malformed(place)),
        Err(Bad::NoMemory) => Err(Bad::NoMemory),
    }
}

fn content(alloc: Global, kind: u8, bytes: &[u8]) -> Result<Message, Bad>
    requires { length bytes.now ≤ 65536 }
    ensures { Gives result (content_of kind bytes.now) }
{
    match kind {
        messages::OPEN => open(alloc, bytes),
        messages::KEEPALIVE => keepalive(bytes),
        messages::PCREQ..=messages::PCERR => made_by_members(alloc, kind, bytes),
        messages::CLOSE => close(alloc, bytes),
        _ => Ok(Message::Other(kind)),
    }
}

/// The message that a frame is (RFC 5440, section 6), or the place at fault. Reserved bits, message
/// flags and the I bit are not read, and of a frame of another type no more than the header. A fault
/// is answered even when out of memory.
pub fn read_message(alloc: Global, frame: &[u8]) -> Result<Message, Bad>
    ensures { Gives result (message_of frame.now) }
{
    match frame {
        [first, kind, high, low, rest @ ..] => {
            let len = 256 * *high as usize + *low as usize;
            if *first / 32 != VERSION || rest.len() + 4 != len {
                return Err(Bad::Malformed(0));
            }
            content(alloc, *kind, rest)
        }
        _ => Err(Bad::Malformed(0)),
    }
}

/// A message in written form is read again from its text.
pub fn messages_are_read_again()
    ensures { WrittenIsRead }
{}

/// The text of no message in written form begins that of another.
pub fn no_message_begins_another()
    ensures { NoneBeginsAnother }
{}

/// The text of a message in written form is octets.
pub fn messages_are_octets()
    ensures { WrittenIsOctets }
{}
