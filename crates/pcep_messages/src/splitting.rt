//! One message with several requests or replies, as one message for each.
ghost use Rattle.std.specs.Prelude.{◌≡◌, ◌∷◌, [], map, count_by, IfOk};
ghost use Rattle.pcep_messages.specs.Splitting.{octets_at, begins_rp, up_to_rp, groups_of, framed, frame_with, split_objects, split_of, GivesLength, GivesChunks, chunks_of};

use dom_base::{Bytes, List, NoMemory, half};
use pcep_codes::{VERSION, classes, kinds, messages};
use std::alloc::Global;

/// How many octets the object at the front has.
fn object_len(bytes: &[u8]) -> Option<usize>
    ensures { GivesLength bytes.now result (octets_at bytes.now) }
{
    if bytes.len() < 4 {
        return None;
    }
    let len = half(bytes, 2) as usize;
    if len >= 4 && len % 4 == 0 && len <= bytes.len() {
        Some(len)
    } else {
        None
    }
}

/// The octets of each object, where the lengths are good.
fn chunks(alloc: Global, bytes: &[u8]) -> Result<Option<List<Bytes>>, NoMemory>
    ensures { IfOk result (λ found. GivesChunks found (chunks_of bytes.now)) }
{
    let mut found = List::new(alloc);
    let mut rest = bytes;
    while !rest.is_empty() {
        let len = match object_len(rest) {
            None => return Ok(None),
            Some(len) => len,
        };
        let (object, after) = rest.split_at(len);
        found.push(List::from_vec(Vec::from_slice(alloc, object)?))?;
        rest = after;
    }
    Ok(Some(found))
}

fn begins(object: &[u8]) -> bool
    ensures { result ≡ begins_rp object.now }
{
    object.len() >= 2 && object[0] == classes::RP && object[1] / 16 == kinds::FIRST
}

fn frame(alloc: Global, first: u8, kind: u8, content: &[u8]) -> Result<Bytes, NoMemory>
    ensures { IfOk result (λ f. f ≡ framed first kind content.now) }
{
    let [high, low] = (((content.len() % 65536 + 4) % 65536) as u16).to_be_bytes();
    let mut text = Vec::new(alloc);
    text.extend_from_slice(&[first, kind, high, low])?;
    text.extend_from_slice(content)?;
    Ok(List::from_vec(text))
}

/// A frame for each RP, with the objects up to the next RP; objects before the first RP go with the first.
fn frames(alloc: Global, first: u8, kind: u8, objects: &[Bytes]) -> Result<List<Bytes>, NoMemory>
    ensures { IfOk result (λ f. f ≡ map (frame_with first kind) (groups_of (up_to_rp objects.now))) }
{
    let mut done = List::new(alloc);
    let mut current = Vec::new(alloc);
    let mut under_way = false;
    for object in objects {
        let starts = begins(object.as_slice());
        if starts && under_way {
            done.push(frame(alloc, first, kind, &current)?)?;
            current = Vec::new(alloc);
            current.extend_from_slice(object.as_slice())?;
        } else {
            current.extend_from_slice(object.as_slice())?;
            under_way = under_way || starts;
        }
    }
    if under_way {
        done.push(frame(alloc, first, kind, &current)?)?;
    }
    Ok(done)
}

fn count_begun(objects: &[Bytes]) -> usize
    ensures { result ≡ count_by begins_rp objects.now }
{
    objects
        .iter()
        .filter(|object| begins(object.as_slice()))
        .count()
}

fn alone(alloc: Global, frame: &[u8]) -> Result<List<Bytes>, NoMemory>
    ensures { IfOk result (λ f. f ≡ frame.now ∷ []) }
{
    let mut frames = List::new(alloc);
    frames.push(List::from_vec(Vec::from_slice(alloc, frame)?))?;
    Ok(frames)
}

fn split(
    alloc: Global,
    frame: &[u8],
    first: u8,
    kind: u8,
    content: &[u8],
) -> Result<List<Bytes>, NoMemory>
    ensures { IfOk result (λ f. f ≡ split_objects frame.now first kind (chunks_of content.now)) }
{
    match chunks(alloc, content)? {
        Some(objects) => {
            if count_begun(objects.as_slice()) >= 2 {
                frames(alloc, first, kind, objects.as_slice())
            } else {
                alone(alloc, frame)
            }
        }
        None => alone(alloc, frame),
    }
}

/// A PCReq or PCRep with several RPs as a message for each, in order; objects before the first RP
/// go with it. Any other frame, and one whose objects have other lengths than octets, is returned
/// alone. Bodies are not read.
pub fn split_message(alloc: Global, frame: &[u8]) -> Result<List<Bytes>, NoMemory>
    ensures { IfOk result (λ f. f ≡ split_of frame.now) }
{
    match frame {
        [first, kind, high, low, rest @ ..] => {
            let len = 256 * *high as usize + *low as usize;
            let is_whole = len == rest.len() + 4;
            if *first / 32 == VERSION
                && is_whole
                && (*kind == messages::PCREQ || *kind == messages::PCREP)
            {
                split(alloc, frame, *first, *kind, rest)
            } else {
                alone(alloc, frame)
            }
        }
        _ => alone(alloc, frame),
    }
}
