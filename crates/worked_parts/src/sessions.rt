//! Sessions over links in memory and a small desk: streams in any pieces and with faults, and each other call once.
use crate::clerk::{Clerk, GREETING};
use crate::lines::numbers;
use dom_base::{As, Bytes, List, Tick, read_number, write_number};
use dom_edge::{MemoryClock, MemoryLink, MemoryListener, MemorySink, MemoryStream};
use server_loops::{Ended, Ran, carry_guided, carry_links, serve_port, serve_session, tick_on};
use std::alloc::Global;
use std::test::Fail;

const PEER: u32 = 1;

// An Open, a Keepalive, a request and a Close (RFC 5440, sections 6.2 to 6.4 and 6.8).
const STREAM: [u8; 56] = [
    0x20, 0x01, 0x00, 0x0C, 0x01, 0x10, 0x00, 0x08, 0x20, 0x1E, 0x78, 0x01, 0x20, 0x02, 0x00, 0x04,
    0x20, 0x03, 0x00, 0x1C, 0x02, 0x12, 0x00, 0x0C, 0x00, 0x00, 0x00, 0x00, 0x00, 0x00, 0x00, 0x01,
    0x04, 0x12, 0x00, 0x0C, 0x0A, 0x00, 0x00, 0x01, 0x0A, 0x00, 0x00, 0x03, 0x20, 0x07, 0x00, 0x0C,
    0x0F, 0x10, 0x00, 0x08, 0x00, 0x00, 0x00, 0x02,
];

// Sizes of pieces of the stream, of which the last may be left out and an empty one is a read to which nothing came;
// the read and the write that fail; how many turns there are; and then the events in short, how many bytes were
// written, and the end. Where the request was taken and a Close waits, more than 40 bytes are to be handed out first.
const ROWS: &[u8] = b"56|-|-|9|odftttds 56 peer end
56 0|-|-|9|odftttdtds 56 closed
0 56 0|-|-|9|odtdftttdtds 56 closed
12 4 20|-|-|9|odftdftdftds 28 peer end
12 4 28|-|-|0|os 0 turns
12 4 28|-|-|2|odftdfts 24 turns
12 4 28|0|-|9|ods 12 read fault
12 4 28|1|-|9|odftds 24 read fault
12 4 28|2|-|9|odftdftds 28 read fault
12 4 28|3|-|9|odftdftdftds 56 read fault
12 4 28|-|0|9|ods 0 write fault
12 4 28|-|1|9|odftds 12 write fault
12 4 28|-|2|9|odftdftds 24 write fault
12 4 28|-|3|9|odftdftdftds 28 write fault";

// The stream in pieces of these sizes.
fn pieces(alloc: Global, sizes: &[usize]) -> Option<List<Bytes>> {
    let mut list = Vec::new(alloc);
    let mut rest = STREAM.as_slice();
    for size in sizes {
        let piece = rest.get(..*size)?;
        rest = rest.get(*size..)?;
        list.push(Bytes::from_vec(piece.to_vec(alloc).ok()?)).ok()?;
    }
    Some(List::from_vec(list))
}

fn link(
    alloc: Global,
    sizes: &[usize],
    read: Option<u64>,
    write: Option<u64>,
) -> Option<MemoryLink> {
    let writes = numbers(alloc, write)?;
    let reads = numbers(alloc, read)?;
    let stream = MemoryStream::new(pieces(alloc, sizes)?, reads);
    Some(MemoryLink::new(stream, MemorySink::new(alloc, writes)))
}

fn name(end: Ended) -> &'static [u8] {
    match end {
        Ended::Closed => b" closed",
        Ended::PeerEnd => b" peer end",
        Ended::ReadFault => b" read fault",
        Ended::WriteFault => b" write fault",
        Ended::Turns => b" turns",
        _ => b" other",
    }
}

// Whether these bytes begin what the desk sends: its Open, and each message but the Close back.
fn is_due(written: &[u8]) -> bool {
    for (place, byte) in written.iter().enumerate() {
        let due = match place.checked_sub(GREETING.len()) {
            None => GREETING.get(place),
            Some(place) => STREAM.get(place),
        };
        if due != Some(byte) {
            return false;
        }
    }
    true
}

// The call has no clause, so that what follows does not carry the session's.
fn serve(alloc: Global, desk: &mut Clerk, link: &mut MemoryLink, turns: u64) -> Ended {
    serve_session(alloc, desk, PEER, 7, link, turns)
}

// What a row tells: the events, how many bytes were written, and the end.
fn tell(alloc: Global, desk: &Clerk, written: &[u8], end: Ended) -> Option<Vec<u8>> {
    if !is_due(written) {
        return None;
    }
    let mut text = Vec::new(alloc);
    desk.tell(&mut text)?;
    text.push(b' ').ok()?;
    write_number(written.len() as u64, &mut text).ok()?;
    text.extend_from_slice(name(end)).ok()?;
    Some(text)
}

// A session, as a row tells it.
fn run(
    alloc: Global,
    sizes: &[usize],
    read: Option<u64>,
    write: Option<u64>,
    turns: u64,
) -> Option<Vec<u8>> {
    let mut link = link(alloc, sizes, read, write)?;
    let mut desk = Clerk::new(alloc);
    let end = serve(alloc, &mut desk, &mut link, turns);
    tell(alloc, &desk, link.bytes(), end)
}

fn sizes_in(alloc: Global, text: &[u8]) -> Option<Vec<usize>> {
    let mut sizes = Vec::new(alloc);
    for word in text.split(|c| *c == b' ') {
        let Some(size) = read_number(word, 56) else {
            return None;
        };
        sizes.push(size as usize).ok()?;
    }
    Some(sizes)
}

// Whether a session goes as its row says; none where it is no row, or other bytes were written.
fn holds(alloc: Global, row: &[u8]) -> Option<bool> {
    let mut parts = row.split(|c| *c == b'|');
    let sizes = parts.next()?;
    let read = read_number(parts.next()?, 9);
    let write = read_number(parts.next()?, 9);
    let turns = read_number(parts.next()?, 9)?;
    let want = parts.next()?;
    let sizes = sizes_in(alloc, sizes)?;
    let told = run(alloc, &sizes, read, write, turns)?;
    Some(told.as_slice() == want)
}

#[test]
fn each_session_goes_as_its_row_says(rt: HostRuntime) -> Result<(), Fail> {
    for (place, row) in ROWS.split(|c| *c == b'\n').enumerate() {
        assert_eq!(rt; holds(rt.alloc(), row), Some(true), "row {place}");
    }
    Ok(())
}

#[test]
fn any_pieces_write_the_same(rt: HostRuntime) -> Result<(), Fail> {
    let mut told = run(rt.alloc(), &[1; 56], None, None, 99).ok_or("other bytes")?;
    assert!(rt; told.ends_with(b" 56 closed"));
    for cut in 0..=STREAM.len() {
        told = run(rt.alloc(), &[cut, STREAM.len() - cut, 0], None, None, 9).ok_or("other bytes")?;
        assert!(rt; told.ends_with(b" 56 closed"));
    }
    Ok(())
}

fn listener(alloc: Global) -> Option<MemoryListener> {
    let quiets = numbers(alloc, Some(1))?;
    let links = vec![in alloc; link(alloc, &[], None, None)?].ok()?;
    Some(MemoryListener::new(List::from_vec(links), quiets))
}

fn clock(alloc: Global) -> Option<MemoryClock> {
    let readings = vec![in alloc; Tick(0), Tick(3), Tick(3), Tick(5)].ok()?;
    Some(MemoryClock::new(List::from_vec(readings)))
}

fn host(alloc: Global, desk: &mut Clerk, listener: &mut MemoryListener) -> Ran {
    serve_port(alloc, desk, PEER, listener, 3)
}

const WAYS: [(As, As); 2] = [(As(1), As(2)), (As(2), As(1))];

fn carry(desk: &mut Clerk) -> Ran {
    carry_links(desk, &WAYS, 2)
}

fn carry_next(desk: &mut Clerk) -> Ran {
    carry_guided(desk, &WAYS, 3)
}

fn tick(desk: &mut Clerk, clock: &mut MemoryClock) {
    tick_on(desk, clock, 6);
}

// What a port, a carrier and a clock make, one after the other.
fn other_calls(alloc: Global) -> Option<Vec<u8>> {
    let mut listener = listener(alloc)?;
    let mut clock = clock(alloc)?;
    let mut desk = Clerk::new(alloc);
    let ends = (host(alloc, &mut desk, &mut listener), carry(&mut desk));
    let last = carry_next(&mut desk);
    tick(&mut desk, &mut clock);
    let mut text = Vec::new(alloc);
    desk.tell(&mut text)?;
    match (ends, last) {
        ((Ran::Turns, Ran::Turns), Ran::Turns) => Some(text),
        _ => None,
    }
}

#[test]
fn each_other_call_is_made(rt: HostRuntime) -> Result<(), Fail> {
    let told = other_calls(rt.alloc()).ok_or("an end")?;
    assert_eq!(rt; told.as_slice(), b"odsccccccckk".as_slice());
    Ok(())
}
