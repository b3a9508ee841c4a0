//! What operators are told who ask over a connection which topologies are published.
use crate::lines::{numbers, plain};
use dom_base::{As, Bytes, List, read_number};
use dom_edge::{MemoryLink, MemorySink, MemoryStream};
use std::alloc::Global;
use std::sync::Wait;
use std::test::Fail;
use ted_watch::{Shown, Watched, Watcher, open_watch, serve_watch};

// What comes in, in pieces that `/` parts; which read and which write fails; how many turns there are; how it ends; and what
// is told. `;` stands for a line end, and `^` for a CR. A topology of AS 1 is published, of three nodes and four links. There
// are connections that are quiet for six reads, and for five again and again. There
// are lines that are cut anywhere, with a quiet read and bytes behind the last line end, and lines of 63 and 64 bytes; of
// those that are cut each read fails in turn, and then each write.
const ROWS: &[u8] = b"1;2;x;|-|-|10|peer end|1 generation 1 nodes 3 links 4;2 none;bad line;
1/;2^/;//x/;1|-|-|10|peer end|1 generation 1 nodes 3 links 4;2 none;bad line;
0;65535;65536;01;; 1;|-|-|10|peer end|bad line;65535 none;bad line;1 generation 1 nodes 3 links 4;bad line;bad line;
000000000000000000000000000000000000000000000000000000000000001;|-|-|10|peer end|1 generation 1 nodes 3 links 4;
1;/0000000000000000000000000000000000000000000000000000000000000001;|-|-|10|long line|1 generation 1 nodes 3 links 4;
1;/1;|1|-|10|read fault|1 generation 1 nodes 3 links 4;
1;1;|-|1|10|write fault|1 generation 1 nodes 3 links 4;
1;//1;|-|-|2|turns|1 generation 1 nodes 3 links 4;
1;|-|-|0|turns|
1;///////1;|-|-|20|silent|1 generation 1 nodes 3 links 4;
1;//////2/////;//////x;|-|-|30|peer end|1 generation 1 nodes 3 links 4;2 none;bad line;
1;///////|-|-|6|turns|1 generation 1 nodes 3 links 4;
1/;2^/;//x/;1|0|-|10|read fault|
1/;2^/;//x/;1|1|-|10|read fault|
1/;2^/;//x/;1|2|-|10|read fault|1 generation 1 nodes 3 links 4;
1/;2^/;//x/;1|3|-|10|read fault|1 generation 1 nodes 3 links 4;2 none;
1/;2^/;//x/;1|4|-|10|read fault|1 generation 1 nodes 3 links 4;2 none;
1/;2^/;//x/;1|5|-|10|read fault|1 generation 1 nodes 3 links 4;2 none;
1/;2^/;//x/;1|6|-|10|read fault|1 generation 1 nodes 3 links 4;2 none;bad line;
1/;2^/;//x/;1|-|0|10|write fault|
1/;2^/;//x/;1|-|1|10|write fault|1 generation 1 nodes 3 links 4;
1/;2^/;//x/;1|-|2|10|write fault|1 generation 1 nodes 3 links 4;2 none;";

// The link over these pieces.
fn link(alloc: Global, pieces: &[u8], read: Option<u64>, write: Option<u64>) -> Option<MemoryLink> {
    let mut list = Vec::new(alloc);
    for piece in pieces.split(|c| *c == b'/') {
        list.push(Bytes::from_vec(plain(alloc, piece)?)).ok()?;
    }
    let stream = MemoryStream::new(List::from_vec(list), numbers(alloc, read)?);
    Some(MemoryLink::new(stream, MemorySink::new(alloc, numbers(alloc, write)?)))
}

fn name(end: Watched) -> &'static [u8] {
    match end {
        Watched::PeerEnd => b"peer end",
        Watched::LongLine => b"long line",
        Watched::ReadFault => b"read fault",
        Watched::WriteFault => b"write fault",
        Watched::Silent => b"silent",
        Watched::Turns => b"turns",
        _ => b"other",
    }
}

fn serve<R: Wait>(
    rt: &R,
    alloc: Global,
    watcher: &mut Watcher,
    link: &mut MemoryLink,
    turns: u64,
) -> Watched {
    serve_watch(rt, alloc, watcher, link, turns)
}

// Whether a connection goes as its row says; none where it is no row, or memory ran out.
fn holds<R: Wait>(rt: &R, alloc: Global, watcher: &mut Watcher, row: &[u8]) -> Option<bool> {
    let mut parts = row.split(|c| *c == b'|');
    let pieces = parts.next()?;
    let read = read_number(parts.next()?, 9);
    let write = read_number(parts.next()?, 9);
    let turns = read_number(parts.next()?, 99)?;
    let end = parts.next()?;
    let told = plain(alloc, parts.next()?)?;
    let mut link = link(alloc, pieces, read, write)?;
    let ended = serve(rt, alloc, watcher, &mut link, turns);
    Some(name(ended) == end && link.bytes() == told.as_slice())
}

#[test]
fn lines_are_answered(rt: HostRuntime) -> Result<(), Fail> {
    let alloc = rt.alloc();
    let (mut publisher, watchers) = open_watch(&rt, alloc, 1)?;
    let mut watchers = watchers.into_vec();
    let mut watcher = watchers.pop().ok_or("a watcher")?;
    publisher.show(Shown {
        at: As(1),
        generation: 1,
        nodes: 3,
        links: 4,
    })?;
    for (place, row) in ROWS.split(|c| *c == b'\n').enumerate() {
        assert_eq!(rt;
            holds(&rt, alloc, &mut watcher, row),
            Some(true),
            "row {place}"
        );
    }
    Ok(())
}
