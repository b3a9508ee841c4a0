//! How many octets a message takes, before memory is taken for it.

ghost use Rattle.std.specs.Prelude.{◌-◌, ◌*◌, ◌≤◌, map, SomeIff};
ghost use Rattle.std.specs.List.{flat_map};
ghost use Rattle.pcep_subobjects.specs.Subobjects.{IsLeftBehind};
ghost use Rattle.pcep_objects.specs.Spelling.{object_text};
ghost use Rattle.pcep_messages.specs.Spelling.{first_kind, id_object, kind_object, error_object, path_objects, answer_objects, reply_objects, notice_objects, report_objects, objects_text, content_text};

use crate::message::{Answer, Asked, ErrorReport, Message, Notice, Path, Reply};
use pcep_codes::{classes, kinds};
use pcep_objects::{Body, Object, room_behind_object, room_behind_route};

// Each function answers how many of `room` octets are left behind a text, and None where the text
// is longer.

fn behind(class: u8, must: bool, body: Body, room: usize) -> Option<usize>
    ensures { IsLeftBehind (object_text (first_kind class must body)) room result }
{
    let object = Object {
        class,
        kind: kinds::FIRST,
        must,
        body,
    };
    room_behind_object(&object, room)
}

fn behind_objects(objects: &[Object], room: usize) -> Option<usize>
    ensures { IsLeftBehind (objects_text objects.now) room result }
{
    let mut left = room;
    for object in objects {
        match room_behind_object(object, left) {
            Some(rest) => left = rest,
            None => return None,
        }
    }
    Some(left)
}

fn behind_requests(asked: &[Asked], room: usize) -> Option<usize>
    ensures { IsLeftBehind (objects_text (flat_map (λ a. a.objects) asked.now)) room result }
{
    let mut left = room;
    for request in asked {
        match behind_objects(request.objects.as_slice(), left) {
            Some(rest) => left = rest,
            None => return None,
        }
    }
    Some(left)
}

fn behind_path(path: &Path, room: usize) -> Option<usize>
    ensures { IsLeftBehind (objects_text (path_objects path.now)) room result }
{
    let left = match room_behind_route(&path.hops, room) {
        Some(left) => left,
        None => return None,
    };
    match path.metric {
        Some(_) => left.checked_sub(12),
        None => Some(left),
    }
}

fn behind_paths(paths: &[Path], room: usize) -> Option<usize>
    ensures { IsLeftBehind (objects_text (flat_map path_objects paths.now)) room result }
{
    let mut left = room;
    for path in paths {
        match behind_path(path, left) {
            Some(rest) => left = rest,
            None => return None,
        }
    }
    Some(left)
}

fn behind_answer(answer: &Answer, room: usize) -> Option<usize>
    ensures { IsLeftBehind (objects_text (answer_objects answer.now)) room result }
{
    match answer {
        Answer::Paths(paths) => behind_paths(paths.as_slice(), room),
        Answer::NoPath { nature, vector } => {
            let body = Body::NoPath {
                nature: *nature,
                vector: *vector,
            };
            behind(classes::NO_PATH, false, body, room)
        }
    }
}

fn behind_reply(reply: &Reply, room: usize) -> Option<usize>
    ensures { IsLeftBehind (objects_text (reply_objects reply.now)) room result }
{
    match room.checked_sub(12) {
        Some(left) => behind_answer(&reply.answer, left),
        None => None,
    }
}

fn behind_replies(replies: &[Reply], room: usize) -> Option<usize>
    ensures { IsLeftBehind (objects_text (flat_map reply_objects replies.now)) room result }
{
    let mut left = room;
    for reply in replies {
        match behind_reply(reply, left) {
            Some(rest) => left = rest,
            None => return None,
        }
    }
    Some(left)
}

fn behind_each(count: usize, len: usize, room: usize) -> Option<usize>
    ensures { SomeIff result (count * len ≤ room) (room - count * len) }
{
    match count.checked_mul(len) {
        Some(all) => room.checked_sub(all),
        None => None,
    }
}

#[tactic(auto, using(crate::proofs::RoomLaws::sizes))]
fn behind_ids(ids: &[(u32, u32)], room: usize) -> Option<usize>
    ensures { IsLeftBehind (objects_text (map id_object ids.now)) room result }
{
    behind_each(ids.len(), 12, room)
}

#[tactic(auto, using(crate::proofs::RoomLaws::sizes))]
fn behind_kinds(kinds: &[(u8, u8)], room: usize) -> Option<usize>
    ensures { IsLeftBehind (objects_text (map kind_object kinds.now)) room result }
{
    behind_each(kinds.len(), 8, room)
}

fn behind_notice(notice: &Notice, room: usize) -> Option<usize>
    ensures { IsLeftBehind (objects_text (notice_objects notice.now)) room result }
{
    match behind_ids(notice.ids.as_slice(), room) {
        Some(left) => behind_kinds(notice.kinds.as_slice(), left),
        None => None,
    }
}

fn behind_notices(notices: &[Notice], room: usize) -> Option<usize>
    ensures { IsLeftBehind (objects_text (flat_map notice_objects notices.now)) room result }
{
    let mut left = room;
    for notice in notices {
        match behind_notice(notice, left) {
            Some(rest) => left = rest,
            None => return None,
        }
    }
    Some(left)
}

#[tactic(auto, using(crate::proofs::RoomLaws::sizes))]
fn behind_errors(errors: &[(u8, u8)], room: usize) -> Option<usize>
    ensures { IsLeftBehind (objects_text (map error_object errors.now)) room result }
{
    behind_each(errors.len(), 8, room)
}

fn behind_report(report: &ErrorReport, room: usize) -> Option<usize>
    ensures { IsLeftBehind (objects_text (report_objects report.now)) room result }
{
    let left = match behind_ids(report.ids.as_slice(), room) {
        Some(left) => left,
        None => return None,
    };
    let left = match behind_errors(report.errors.as_slice(), left) {
        Some(left) => left,
        None => return None,
    };
    match report.opening {
        Some(opening) => behind(classes::OPEN, false, Body::Open(opening), left),
        None => Some(left),
    }
}

fn behind_reports(reports: &[ErrorReport], room: usize) -> Option<usize>
    ensures { IsLeftBehind (objects_text (flat_map report_objects reports.now)) room result }
{
    let mut left = room;
    for report in reports {
        match behind_report(report, left) {
            Some(rest) => left = rest,
            None => return None,
        }
    }
    Some(left)
}

pub(crate) fn behind_content(message: &Message, room: usize) -> Option<usize>
    ensures { IsLeftBehind (content_text message.now) room result }
{
    match message {
        Message::Open(opening) => behind(classes::OPEN, false, Body::Open(*opening), room),
        Message::PcReq(asked) => behind_requests(asked.as_slice(), room),
        Message::PcRep(replies) => behind_replies(replies.as_slice(), room),
        Message::PcNtf(notices) => behind_notices(notices.as_slice(), room),
        Message::PcErr(reports) => behind_reports(reports.as_slice(), room),
        Message::Close(reason) => behind(classes::CLOSE, false, Body::Close(*reason), room),
        Message::Keepalive | Message::Other(_) => Some(room),
    }
}
