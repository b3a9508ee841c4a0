//! Objects as octets.
ghost use Rattle.std.specs.Prelude.{◌≡◌, ◌++◌, OnOk};
ghost use Rattle.pcep_objects.specs.Spelling.{body_text, header_text, object_text, route_text};
ghost use Rattle.pcep_objects.specs.Laws.{WrittenIsRead, WrittenIsOctets, NoneBeginsAnother};

use crate::bits::flag;
use crate::bodies::{
    bandwidth, close, end_points, error, exclude_route, lspa, metric, no_path, notification, open,
    rp,
};
use crate::object::{Body, Object};
use crate::octets::put_octets;
use crate::room::{room_behind_body, room_behind_object};
use dom_base::{List, NoMemory};
use pcep_codes::{classes, flags, kinds};
use pcep_subobjects::{Hop, Spelled, room_behind_hops, write_hops};

/// Appends the header before a body of this length, which it says modulo 65536.
fn put_header(
    text: &mut Vec<u8>,
    class: u8,
    kind: u8,
    must: bool,
    len: usize,
) -> Result<(), NoMemory>
    ensures { OnOk result (text.new.items ≡ text.old.items ++ header_text class kind must len) }
{
    let [high, low] = (((len % 65536 + 4) % 65536) as u16).to_be_bytes();
    let second = kind % 16 * 16 + flag(must, flags::MUST);
    put_octets(text, &[class, second, high, low])
}

fn put_body(text: &mut Vec<u8>, body: &Body) -> Result<(), NoMemory>
    ensures { OnOk result (text.new.items ≡ text.old.items ++ body_text body.now) }
{
    match body {
        Body::Open(opening) => open::put(text, *opening),
        Body::Rp { flags, id } => rp::put(text, *flags, *id),
        Body::NoPath { nature, vector } => no_path::put(text, *nature, *vector),
        Body::EndPoints { source, target } => end_points::put(text, *source, *target),
        Body::Bandwidth(word) => bandwidth::put(text, *word),
        Body::Metric {
            bound,
            computed,
            kind,
            word,
        } => metric::put(text, *bound, *computed, *kind, *word),
        Body::Ero(route) | Body::Iro(route) | Body::PathKey(route) => {
            write_hops(route.as_slice(), text)
        }
        Body::Lspa {
            exclude_any,
            include_any,
            include_all,
            setup,
            holding,
            flags,
        } => lspa::put(
            text,
            *exclude_any,
            *include_any,
            *include_all,
            *setup,
            *holding,
            *flags,
        ),
        Body::Notification(kind, value) => notification::put(text, *kind, *value),
        Body::Error(kind, value) => error::put(text, *kind, *value),
        Body::Close(reason) => close::put(text, *reason),
        Body::Xro(list) => exclude_route::put(text, list),
        Body::Unread(bytes) => put_octets(text, bytes.as_slice()),
    }
}

/// Appends the text of an object. Its type is written modulo 16, its length modulo 65,536 and the
/// version of an OPEN modulo 8; reserved bits and padding are 0. On `NoMemory` a part of the text
/// may stand there.
pub fn write_object(object: &Object, text: &mut Vec<u8>) -> Result<(), NoMemory>
    ensures { OnOk result (text.new.items ≡ text.old.items ++ object_text object.now) }
{
    let Some(left) = room_behind_body(&object.body, usize::MAX) else {
        return Err(NoMemory);
    };
    put_header(
        text,
        object.class,
        object.kind,
        object.must,
        usize::MAX - left,
    )?;
    put_body(text, &object.body)
}

/// Appends the text of an ERO of this route, with P clear. On `NoMemory` a part of the text may
/// stand there.
pub fn write_route(route: &List<Hop>, text: &mut Vec<u8>) -> Result<(), NoMemory>
    ensures { OnOk result (text.new.items ≡ text.old.items ++ route_text route.now) }
{
    let Some(left) = room_behind_hops(route.as_slice(), usize::MAX) else {
        return Err(NoMemory);
    };
    put_header(text, classes::ERO, kinds::FIRST, false, usize::MAX - left)?;
    write_hops(route.as_slice(), text)
}

/// An object in written form is read again from its text, whatever follows it.
pub fn objects_are_read_again()
    ensures { WrittenIsRead }
{}

/// The text of no object in written form begins that of another.
pub fn no_object_begins_another()
    ensures { NoneBeginsAnother }
{}

/// The text of an object in written form is octets.
pub fn objects_are_octets()
    ensures { WrittenIsOctets }
{}

impl Spelled for Object {
    ghost spelling = { object_text };

    fn put(&self, text: &mut Vec<u8>) -> Result<(), NoMemory> {
        write_object(self, text)
    }

    fn room_behind(&self, room: usize) -> Option<usize> {
        room_behind_object(self, room)
    }
}
