//! Whom the events of a network stir: rows of an event and of what its turn tells.
ghost use Rattle.std.specs.Prelude.{◌≡◌, IfSome};
ghost use Rattle.plant_network.specs.Whole.{IsOwnLoad};

use dom_base::{As, Bytes, Tick, write_number};
use plant_lock::Turned;
use plant_network::model::Event;
use plant_network::{Act, Plant, Stirred};
use plant_text::read_network;
use std::alloc::Global;
use std::test::Fail;
use te_links::Topology;
use te_text::read_topology;

const CHAIN: &[u8] = b"[[element]]
as = 1
id = \"192.0.2.1\"
[[element]]
as = 2
id = \"192.0.2.2\"
[[element]]
as = 3
id = \"192.0.2.3\"
[[link]]
a = 1
b = 2
[[link]]
a = 2
b = 3
[[peer]]
name = \"c1\"
as = 1
class = \"client\"
";

const FAMILY: &[u8] = b"[[element]]
as = 1
id = \"192.0.2.1\"
parent = true
[[element]]
as = 2
id = \"192.0.2.2\"
parent = true
[[element]]
as = 3
id = \"192.0.2.3\"
parent = true
[[peer]]
name = \"c1\"
as = 1
class = \"client\"
[parent]
id = \"192.0.2.100\"
[[parent.link]]
from_as = 1
from = \"10.1.0.1\"
to_as = 2
to = \"10.2.0.2\"
near = \"10.12.0.3\"
far = \"10.12.0.4\"
igp = 1
te = 1
bw = 1000
colour = \"00000000\"
[[parent.link]]
from_as = 2
from = \"10.2.0.2\"
to_as = 3
to = \"10.3.0.2\"
near = \"10.23.0.3\"
far = \"10.23.0.4\"
igp = 1
te = 5
bw = 1000
colour = \"00000000\"
";

const DOMAINS: [&[u8]; 3] = [
    b"topology 1
node 10.1.0.1
out 10.1.0.1 10.2.0.1 10.12.0.1 10.12.0.2 2 1 1 1000 00000000
out 10.1.0.1 10.2.0.2 10.12.0.3 10.12.0.4 2 1 1 1000 00000000
",
    b"topology 2
node 10.2.0.1
node 10.2.0.2
out 10.2.0.1 10.3.0.1 10.23.0.1 10.23.0.2 3 1 1 1000 00000000
out 10.2.0.2 10.3.0.2 10.23.0.3 10.23.0.4 3 1 5 1000 00000000
entry 10.2.0.1 1
entry 10.2.0.2 1
",
    b"topology 3
node 10.3.0.1
node 10.3.0.2
node 10.3.0.9
link 10.3.0.1 10.3.0.9 10.33.0.1 10.33.0.2 1 100 1000 00000000
link 10.3.0.2 10.3.0.9 10.33.0.3 10.33.0.4 1 10 1000 00000000
entry 10.3.0.1 2
entry 10.3.0.2 2
",
];

// An Open and a Keepalive; a request for a path from 10.1.0.1 to 10.3.0.9 through the domains 1, 2 and 3; one that names no domain
// (RFC 5440, sections 6.2 to 6.4).
const PIECES: [&[u8]; 3] = [
    b"\x20\x01\x00\x0c\x01\x10\x00\x08\x20\x00\x00\x01\x20\x02\x00\x04",
    b"\x20\x03\x00\x2c\x02\x12\x00\x0c\x00\x00\x00\x00\x00\x00\x00\x01\x04\x12\x00\x0c\x0a\x01\x00\x01\x0a\x03\x00\x09\
\x0a\x12\x00\x10\x20\x04\x00\x01\x20\x04\x00\x02\x20\x04\x00\x03",
    b"\x20\x03\x00\x1c\x02\x12\x00\x0c\x00\x00\x00\x00\x00\x00\x00\x01\x04\x12\x00\x0c\x0a\x01\x00\x01\x0a\x03\x00\x09",
];

// Events in short, each with the peers and the ways that it stirs, `j` where a job may be ready, and `!` where one became ready: a
// session of each link begins, a client asks through three domains, and then once more, and a link breaks meanwhile.
const CHAIN_ROWS: &[u8] = b"c12 2>1
c21 1>2
c12 j
c21 j
c23 3>2
c32 2>3
c23 j
c32 j
o p0
f0
t p0
t j
f1
t 1>2
c12 2>3
c23 j !
s 3>2
c32 j !
s 2>1
c21 j !
s p0
d
t
c12
f1
t 1>2
c12 2>3
b23 2>1 2>3 3>2
c21 p0
d
k9 p0 1>2 2>1
x
x";

// The same where elements ask a parent: a link breaks as it asks its children.
const FAMILY_ROWS: &[u8] = b"c01 1>0
c10 0>1
c01 j
c10 j
c02 2>0
c20 0>2
c02 j
c20 j
c03 3>0
c30 0>3
c03 j
c30 j
o p0
f0
t p0
t j
f2
t 1>0
c10 0>1 0>1 0>2 0>2 0>3
c01 j !
c01 j !
c02 j !
c02 j !
c03 j !
s 1>0
s 1>0
s 2>0
s 2>0
s 3>0
c10 j
c10 j
c20 j
c20 j
c30 j !
s 0>1
c01 p0
f2
t 1>0
c10 0>1 0>1 0>2 0>2 0>3
b20 0>1 0>2 2>0
c01 j !
c01 j !
c01 p0
x";

fn load(plant: &mut Plant, topology: Topology) {
    let at = topology.own();
    plant.turn(Act::Do(Event::Load(at, topology)));
}

fn begin(alloc: Global, settings: &[u8]) -> Option<Plant> {
    let network = read_network(alloc, settings).ok()?;
    let Ok(mut plant) = Plant::new(alloc, network) else {
        return None;
    };
    for text in &DOMAINS {
        let topology = read_topology(alloc, text).ok()?;
        load(&mut plant, topology);
    }
    Some(plant)
}

// The digit at this place of a word, or 0.
fn digit(word: &[u8], place: usize) -> u16 {
    match word.get(place) {
        Some(byte) => u16::from(byte.saturating_sub(b'0')),
        None => 0,
    }
}

fn piece(alloc: Global, number: u16) -> Option<Bytes> {
    let bytes = PIECES.get(number as usize)?;
    Some(Bytes::from_vec(bytes.to_vec(alloc).ok()?))
}

fn event_of(alloc: Global, plant: &Plant, word: &[u8]) -> Option<Event>
    ensures { IfSome result IsOwnLoad }
{
    let (a, b) = (digit(word, 1), digit(word, 2));
    match *word.first()? {
        b'o' => Some(Event::Open(0, 7)),
        b'f' => Some(Event::Feed(0, piece(alloc, a)?)),
        b't' => Some(Event::Take(0)),
        b'c' => Some(Event::Carry(As(a), As(b))),
        b'b' => Some(Event::Break(As(a), As(b))),
        b'k' => Some(Event::Tick(Tick(u64::from(a) * 5))),
        b'd' => Some(Event::Drain(0, 7)),
        b'x' => Some(Event::Shut(0)),
        b's' => {
            let (at, number) = plant.ready(0)?;
            Some(Event::Solve(at, number))
        }
        _ => None,
    }
}

fn count_ready(plant: &Plant) -> usize {
    let mut count = 0;
    for k in 0..9 {
        if plant.ready(k).is_some() {
            count = k + 1;
        }
    }
    count
}

fn tell(alloc: Global, stirred: &Stirred, is_ready: bool) -> Option<Vec<u8>> {
    let mut text = Vec::new(alloc);
    let mut peers = stirred.peers;
    for _peer in 0..9 {
        let Some(peer) = peers.take_least() else {
            break;
        };
        text.extend_from_slice(b" p").ok()?;
        write_number(u64::from(peer), &mut text).ok()?;
    }
    for k in 0..9 {
        let Some((from, to)) = stirred.ways.get(k) else {
            break;
        };
        text.push(b' ').ok()?;
        write_number(u64::from(from.0), &mut text).ok()?;
        text.push(b'>').ok()?;
        write_number(u64::from(to.0), &mut text).ok()?;
    }
    if stirred.jobs {
        text.extend_from_slice(b" j").ok()?;
    }
    if is_ready {
        text.extend_from_slice(b" !").ok()?;
    }
    Some(text)
}

// The event is done in a turn; whether the turn tells what the row says.
fn holds(alloc: Global, plant: &mut Plant, row: &[u8]) -> Option<bool> {
    let word = row.split(|c| *c == b' ').next()?;
    let want = row.get(word.len()..)?;
    let event = event_of(alloc, plant, word)?;
    let before = count_ready(plant);
    let answer = plant.turn(Act::Do(event));
    let is_ready = count_ready(plant) > before;
    let told = tell(alloc, &answer.stirred, is_ready)?;
    Some(told.as_slice() == want && answer.stirred.ways.is_whole())
}

#[test]
fn each_event_stirs_whom_its_row_says(rt: HostRuntime) -> Result<(), Fail> {
    let tables = [(CHAIN, CHAIN_ROWS), (FAMILY, FAMILY_ROWS)];
    for (settings, rows) in &tables {
        let mut plant = begin(rt.alloc(), settings).ok_or("a network")?;
        for (place, row) in rows.split(|c| *c == b'\n').enumerate() {
            assert_eq!(rt;
                holds(rt.alloc(), &mut plant, row),
                Some(true),
                "row {place}"
            );
        }
    }
    Ok(())
}
