//! Messages as octets.
ghost use Rattle.std.specs.Prelude.{◌≡◌, ◌<◌, ◌↔◌, ◌++◌, length, map, OnOk, OnErr};
ghost use Rattle.std.specs.List.{flat_map};
ghost use Rattle.pcep_objects.specs.Spelling.{object_text};
ghost use Rattle.pcep_messages.specs.Spelling.{first_kind, id_object, kind_object, error_object, path_objects, answer_objects, reply_objects, notice_objects, report_objects, content_text, message_text, kind_of};

use crate::message::{Answer, Asked, ErrorReport, Message, Notice, Path, Reply, WriteError};
use crate::room::behind_content;
use dom_base::NoMemory;
use pcep_codes::{VERSION, classes, kinds, messages};
use pcep_objects::{Body, Object, write_object, write_route};
use std::alloc::Global;

fn put(text: &mut Vec<u8>, class: u8, must: bool, body: Body) -> Result<(), NoMemory>
    ensures { OnOk result (text.new.items ≡ text.old.items ++ object_text (first_kind class must body)) }
{
    let object = Object {
        class,
        kind: kinds::FIRST,
        must,
        body,
    };
    write_object(&object, text)
}

fn put_objects(text: &mut Vec<u8>, objects: &[Object]) -> Result<(), NoMemory>
    ensures { OnOk result (text.new.items ≡ text.old.items ++ flat_map object_text objects.now) }
{
    for object in objects {
        write_object(object, text)?;
    }
    Ok(())
}

fn put_asked(text: &mut Vec<u8>, asked: &[Asked]) -> Result<(), NoMemory>
    ensures { OnOk result (text.new.items ≡ text.old.items ++ flat_map object_text (flat_map (λ a. a.objects) asked.now)) }
{
    for request in asked {
        put_objects(text, request.objects.as_slice())?;
    }
    Ok(())
}

fn put_path(text: &mut Vec<u8>, path: &Path) -> Result<(), NoMemory>
    ensures { OnOk result (text.new.items ≡ text.old.items ++ flat_map object_text (path_objects path.now)) }
{
    write_route(&path.hops, text)?;
    if let Some((kind, word)) = path.metric {
        let metric = Body::Metric {
            bound: false,
            computed: false,
            kind,
            word,
        };
        put(text, classes::METRIC, false, metric)?;
    }
    Ok(())
}

fn put_paths(text: &mut Vec<u8>, paths: &[Path]) -> Result<(), NoMemory>
    ensures { OnOk result (text.new.items ≡ text.old.items ++ flat_map object_text (flat_map path_objects paths.now)) }
{
    for path in paths {
        put_path(text, path)?;
    }
    Ok(())
}

fn put_answer(text: &mut Vec<u8>, answer: &Answer) -> Result<(), NoMemory>
    ensures { OnOk result (text.new.items ≡ text.old.items ++ flat_map object_text (answer_objects answer.now)) }
{
    match answer {
        Answer::Paths(paths) => put_paths(text, paths.as_slice()),
        Answer::NoPath { nature, vector } => {
            let body = Body::NoPath {
                nature: *nature,
                vector: *vector,
            };
            put(text, classes::NO_PATH, false, body)
        }
    }
}

fn put_reply(text: &mut Vec<u8>, reply: &Reply) -> Result<(), NoMemory>
    ensures { OnOk result (text.new.items ≡ text.old.items ++ flat_map object_text (reply_objects reply.now)) }
{
    let rp = Body::Rp {
        flags: reply.flags,
        id: reply.id,
    };
    put(text, classes::RP, true, rp)?;
    put_answer(text, &reply.answer)
}

fn put_replies(text: &mut Vec<u8>, replies: &[Reply]) -> Result<(), NoMemory>
    ensures { OnOk result (text.new.items ≡ text.old.items ++ flat_map object_text (flat_map reply_objects replies.now)) }
{
    for reply in replies {
        put_reply(text, reply)?;
    }
    Ok(())
}

fn put_ids(text: &mut Vec<u8>, ids: &[(u32, u32)]) -> Result<(), NoMemory>
    ensures { OnOk result (text.new.items ≡ text.old.items ++ flat_map object_text (map id_object ids.now)) }
{
    for (flags, id) in ids {
        let rp = Body::Rp {
            flags: *flags,
            id: *id,
        };
        put(text, classes::RP, false, rp)?;
    }
    Ok(())
}

fn put_kinds(text: &mut Vec<u8>, kinds: &[(u8, u8)]) -> Result<(), NoMemory>
    ensures { OnOk result (text.new.items ≡ text.old.items ++ flat_map object_text (map kind_object kinds.now)) }
{
    for (kind, value) in kinds {
        put(
            text,
            classes::NOTIFICATION,
            false,
            Body::Notification(*kind, *value),
        )?;
    }
    Ok(())
}

fn put_notice(text: &mut Vec<u8>, notice: &Notice) -> Result<(), NoMemory>
    ensures { OnOk result (text.new.items ≡ text.old.items ++ flat_map object_text (notice_objects notice.now)) }
{
    put_ids(text, notice.ids.as_slice())?;
    put_kinds(text, notice.kinds.as_slice())
}

fn put_notices(text: &mut Vec<u8>, notices: &[Notice]) -> Result<(), NoMemory>
    ensures { OnOk result (text.new.items ≡ text.old.items ++ flat_map object_text (flat_map notice_objects notices.now)) }
{
    for notice in notices {
        put_notice(text, notice)?;
    }
    Ok(())
}

fn put_errors(text: &mut Vec<u8>, errors: &[(u8, u8)]) -> Result<(), NoMemory>
    ensures { OnOk result (text.new.items ≡ text.old.items ++ flat_map object_text (map error_object errors.now)) }
{
    for (kind, value) in errors {
        put(text, classes::PCEP_ERROR, false, Body::Error(*kind, *value))?;
    }
    Ok(())
}

fn put_report(text: &mut Vec<u8>, report: &ErrorReport) -> Result<(), NoMemory>
    ensures { OnOk result (text.new.items ≡ text.old.items ++ flat_map object_text (report_objects report.now)) }
{
    put_ids(text, report.ids.as_slice())?;
    put_errors(text, report.errors.as_slice())?;
    if let Some(opening) = report.opening {
        put(text, classes::OPEN, false, Body::Open(opening))?;
    }
    Ok(())
}

fn put_reports(text: &mut Vec<u8>, reports: &[ErrorReport]) -> Result<(), NoMemory>
    ensures { OnOk result (text.new.items ≡ text.old.items ++ flat_map object_text (flat_map report_objects reports.now)) }
{
    for report in reports {
        put_report(text, report)?;
    }
    Ok(())
}

fn put_content(text: &mut Vec<u8>, message: &Message) -> Result<(), NoMemory>
    ensures { OnOk result (text.new.items ≡ text.old.items ++ content_text message.now) }
{
    match message {
        Message::Open(opening) => put(text, classes::OPEN, false, Body::Open(*opening)),
        Message::PcReq(asked) => put_asked(text, asked.as_slice()),
        Message::PcRep(replies) => put_replies(text, replies.as_slice()),
        Message::PcNtf(notices) => put_notices(text, notices.as_slice()),
        Message::PcErr(reports) => put_reports(text, reports.as_slice()),
        Message::Close(reason) => put(text, classes::CLOSE, false, Body::Close(*reason)),
        Message::Keepalive | Message::Other(_) => Ok(()),
    }
}

fn kind(message: &Message) -> u8
    ensures { result ≡ kind_of message.now }
{
    match message {
        Message::Open(_) => messages::OPEN,
        Message::Keepalive => messages::KEEPALIVE,
        Message::PcReq(_) => messages::PCREQ,
        Message::PcRep(_) => messages::PCREP,
        Message::PcNtf(_) => messages::PCNTF,
        Message::PcErr(_) => messages::PCERR,
        Message::Close(_) => messages::CLOSE,
        Message::Other(kind) => *kind,
    }
}

/// The greatest length of a message's text, in octets: what its header can say, in whole words.
const MESSAGE_MAX: usize = 65_532;

/// Appends the text of a message: version 1, no flags, and its objects in order. The P bit is set in
/// the RP of a reply and in those objects of a request that have it. A message of more than 65,532
/// octets is too long, and that is seen before any memory is taken.
pub fn write_message(alloc: Global, message: &Message, into: &mut Vec<u8>) -> Result<(), WriteError>
    ensures ok { OnOk result (into.new.items ≡ into.old.items ++ message_text message.now) }
    ensures too_long { (result ≡ Err WriteError.TooLong) ↔ (65532 < length (message_text message.now)) }
    ensures err { OnErr result (into.new.items ≡ into.old.items) }
{
    let Some(left) = behind_content(message, MESSAGE_MAX - 4) else {
        return Err(WriteError::TooLong);
    };
    let len = MESSAGE_MAX - left;
    let [high, low] = (len as u16).to_be_bytes();
    let mut text = Vec::with_capacity(alloc, len)?;
    text.extend_from_slice(&[VERSION * 32, kind(message), high, low])?;
    put_content(&mut text, message)?;
    into.extend_from_slice(&text)?;
    Ok(())
}
