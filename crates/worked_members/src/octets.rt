//! Each row of the table: what is read is written again, or its fault is told.
mod rows;

use dom_base::{As, Bytes, List, NoMemory, Query};
use line_text::{read_hex, write_hex};
use outside_part::sift;
use path_constraints::{ExclusionError, supported};
use pcep_framing::frame_all;
use pcep_messages::{
    Asked, Bad, Message, Refusal, Request, Wanted, Wish, read_message, request_of, split_message,
    write_message,
};
use pcep_objects::{ObjectFault, read_object, write_object};
use pcep_subobjects::{HopFault, read_exclusions, read_hops, write_exclusions, write_hops};
use rows::ROWS;
use std::alloc::Global;
use std::fmt;
use std::test::Fail;

fn route(alloc: Global, octets: &[u8]) -> Result<Vec<u8>, HopFault> {
    let hops = read_hops(alloc, octets)?;
    let mut again = Vec::new(alloc);
    write_hops(hops.as_slice(), &mut again)?;
    Ok(again)
}

fn exclusions(alloc: Global, octets: &[u8]) -> Result<Vec<u8>, HopFault> {
    let list = read_exclusions(alloc, octets)?;
    let mut again = Vec::new(alloc);
    write_exclusions(list.as_slice(), &mut again)?;
    Ok(again)
}

fn kept(alloc: Global, octets: &[u8]) -> Result<Vec<u8>, ExclusionError> {
    let list = read_exclusions(alloc, octets).ok().ok_or(NoMemory)?;
    let kept = supported(alloc, list.as_slice())?;
    let mut again = Vec::new(alloc);
    write_exclusions(kept.as_slice(), &mut again)?;
    Ok(again)
}

fn object(alloc: Global, octets: &[u8]) -> Result<Vec<u8>, ObjectFault> {
    let (object, _len) = read_object(alloc, octets)?;
    let mut again = Vec::new(alloc);
    write_object(&object, &mut again)?;
    Ok(again)
}

fn message(alloc: Global, octets: &[u8]) -> Result<Vec<u8>, Bad> {
    let message = read_message(alloc, octets)?;
    let mut again = Vec::new(alloc);
    write_message(alloc, &message, &mut again)
        .ok()
        .ok_or(NoMemory)?;
    Ok(again)
}

fn joined(alloc: Global, parts: &[Bytes]) -> Result<Vec<u8>, NoMemory> {
    let mut all = Vec::new(alloc);
    for part in parts {
        all.extend_from_slice(part.as_slice())?;
    }
    Ok(all)
}

fn split(alloc: Global, octets: &[u8]) -> Result<Vec<u8>, NoMemory> {
    let parts = split_message(alloc, octets)?;
    joined(alloc, parts.as_slice())
}

fn told(alloc: Global, octets: &[u8], again: &[u8]) -> Result<Vec<u8>, NoMemory> {
    if again == octets {
        return Ok(Vec::from_slice(alloc, b"same")?);
    }
    write_hex(alloc, again)
}

fn told_or_fault<F: fmt::Debug + Drop>(
    alloc: Global,
    octets: &[u8],
    again: Result<Vec<u8>, F>,
) -> Result<Vec<u8>, Fail> {
    match again {
        Ok(again) => Ok(told(alloc, octets, &again)?),
        Err(fault) => Ok(format!(in alloc; "{fault:?}")?.into_bytes()),
    }
}

// The messages of a stream that comes octet by octet.
fn frames(alloc: Global, octets: &[u8]) -> Result<Vec<u8>, NoMemory> {
    let mut pieces = Vec::new(alloc);
    for octet in octets {
        pieces.push(List::from_vec(vec![in alloc; *octet]?))?;
    }
    let fed = frame_all(alloc, &pieces)?;
    let frames = told(alloc, octets, &joined(alloc, fed.frames.as_slice())?)?;
    if !fed.bad {
        return Ok(frames);
    }
    let mut text = Vec::from_slice(alloc, b"bad,")?;
    text.extend_from_slice(&frames)?;
    Ok(text)
}

// What is kept of a reply, behind the octet that says how many hops a path may have.
fn sifted(alloc: Global, octets: &[u8]) -> Result<Vec<u8>, Fail> {
    let [most, text @ ..] = octets else {
        return Err("there are no octets".into());
    };
    let Message::PcRep(replies) = read_message(alloc, text)? else {
        return Err("this is no reply".into());
    };
    let [reply] = replies.as_slice() else {
        return Err("these are other replies".into());
    };
    let mut kept = List::new(alloc);
    kept.push(sift(alloc, reply, usize::from(*most))?)?;
    let mut again = Vec::new(alloc);
    write_message(alloc, &Message::PcRep(kept), &mut again)?;
    Ok(told(alloc, text, &again)?)
}

fn refusal(alloc: Global, asked: &Asked, own: As) -> Option<Refusal> {
    request_of(alloc, asked, own).err()
}

fn accepted(alloc: Global, asked: &Asked) -> Option<Request> {
    request_of(alloc, asked, As(1)).ok()
}

fn request(alloc: Global, octets: &[u8], own: As) -> Result<Vec<u8>, Fail> {
    let Ok(Message::PcReq(requests)) = read_message(alloc, octets) else {
        return Err("this is no request".into());
    };
    let [asked] = requests.as_slice() else {
        return Err("these are other requests".into());
    };
    let text = match refusal(alloc, asked, own) {
        None => "served".to_string(alloc)?,
        Some(Refusal::Wire { rp, kind, value }) => match rp {
            Some((flags, id)) => format!(in alloc; "{kind}/{value},{flags},{id}")?,
            None => format!(in alloc; "{kind}/{value}")?,
        },
        Some(Refusal::NoMemory) => "no memory".to_string(alloc)?,
    };
    Ok(text.into_bytes())
}

fn query_text(alloc: Global, query: &Query) -> Result<String, Fail> {
    let cap = query.cap;
    let all = query.include_all;
    let count = query.exclusions.len();
    Ok(format!(in alloc;
        "{},{},{:?},{},{all},{count}",
        query.own.0,
        cap.get(),
        query.metric,
        query.bandwidth
    )?)
}

fn path_text(alloc: Global, wanted: &Wanted) -> Result<String, Fail> {
    let query = query_text(alloc, &wanted.query)?;
    let (any, some, all) = wanted.masks.ok_or("there are no masks")?;
    let domains = wanted.sequence.len();
    Ok(format!(in alloc;
        "{:?},{:?},{:?},{:?},{any}/{some}/{all},{domains},{}",
        wanted.source,
        wanted.target,
        wanted.bandwidth_word,
        wanted.bound_word,
        query.as_str()
    )?)
}

// What a request asks for at domain 1.
fn asks(alloc: Global, octets: &[u8]) -> Result<Vec<u8>, Fail> {
    let Ok(Message::PcReq(requests)) = read_message(alloc, octets) else {
        return Err("this is no request".into());
    };
    let [asked] = requests.as_slice() else {
        return Err("these are other requests".into());
    };
    let Some(
        Request {
            flags,
            id,
            wish: Wish::Path(wanted),
        },
    ) = accepted(alloc, asked)
    else {
        return Err("it asks for no path".into());
    };
    let path = path_text(alloc, &wanted)?;
    Ok(format!(in alloc; "{flags},{id},{}", path.as_str())?.into_bytes())
}

fn answer(alloc: Global, verb: &[u8], octets: &[u8]) -> Result<Vec<u8>, Fail> {
    match verb {
        b"route" => told_or_fault(alloc, octets, route(alloc, octets)),
        b"exclusions" => told_or_fault(alloc, octets, exclusions(alloc, octets)),
        b"kept" => told_or_fault(alloc, octets, kept(alloc, octets)),
        b"object" => told_or_fault(alloc, octets, object(alloc, octets)),
        b"message" => told_or_fault(alloc, octets, message(alloc, octets)),
        b"split" => told_or_fault(alloc, octets, split(alloc, octets)),
        b"frames" => Ok(frames(alloc, octets)?),
        b"sifted" => sifted(alloc, octets),
        b"asks" => asks(alloc, octets),
        b"element" => request(alloc, octets, As(1)),
        b"parent" => request(alloc, octets, As(0)),
        _ => Err("there is no such row".into()),
    }
}

// The text before the first blank of a line, and the text behind it.
fn cut(line: &[u8]) -> Option<(&[u8], &[u8])> {
    let place = line.iter().position(|c| *c == b' ')?;
    Some((&line[..place], &line[place + 1..]))
}

// Whether a line that is neither empty nor a comment is a row that holds.
fn holds(alloc: Global, line: &[u8]) -> Result<bool, Fail> {
    if line.is_empty() || line.starts_with(b"#") {
        return Ok(true);
    }
    let (verb, rest) = cut(line).ok_or("a row has no answer")?;
    let (wanted, digits) = cut(rest).ok_or("a row has no octets")?;
    let octets = read_hex(alloc, digits).ok().ok_or("these are no octets")?;
    Ok(answer(alloc, verb, &octets)?.as_slice() == wanted)
}

#[test]
fn octets_give_what_their_row_says(rt: HostRuntime) -> Result<(), Fail> {
    for (place, line) in ROWS.split(|c| *c == b'\n').enumerate() {
        assert!(rt; holds(rt.alloc(), line)?, "row {place}");
    }
    Ok(())
}
