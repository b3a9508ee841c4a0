//! A short run in memory, and what its folder holds.
ghost use Rattle.std.specs.Prelude.{◌≡◌, None};

use crate::{Fault, Pause, Recorded, TapeDesk, begin, record};
use dom_base::{As, Bytes, List, Text, Tick};
use dom_edge::{MemoryCalendar, MemoryFolder, Moment, Noted};
use event_tape::{Handed, TapeEnd, Told};
use plant_text::read_network;
use std::alloc::Global;
use std::sync::Arc;
use std::test::Fail;
use te_links::Topology;

// Hands that were made before, the last of them first.
#[derive(Drop)]
struct Hands {
    later: Vec<Handed>,
    made: Noted<Handed>,
    spent: Option<u64>,
}

impl TapeDesk for Hands {
    ghost handed = { λ d. record { hands = d.made.items; spent = d.spent } };

    fn hand(&mut self, _room: List<Told>) -> Result<Handed, u64> {
        let Some(handed) = self.later.pop() else {
            self.spent = Some(7);
            return Err(7);
        };
        self.spent = None;
        self.made = self.made.and(&handed);
        Ok(handed)
    }
}

#[derive(Drop)]
struct NoPause;

impl Pause for NoPause {
    fn pause(&mut self) {}
}

const NETWORK: &[u8] = b"[[element]]
as = 1
id = \"10.1.0.1\"
[[peer]]
name = \"c1\"
as = 1
class = \"client\"
";

fn octets(alloc: Global) -> Result<Bytes, Fail> {
    Ok(List::from_vec(vec![in alloc; 32, 1, 0, 12, 1, 16, 0, 8, 32, 30, 120, 0, 32, 2, 0, 4]?))
}

fn first(alloc: Global) -> Result<List<Told>, Fail> {
    let topology = Arc::new(alloc, Topology::empty(alloc, As(1)))?;
    let other = Arc::new(alloc, Topology::empty(alloc, As(1)))?;
    Ok(List::from_vec(vec![in alloc;
        Told::Load(As(1), topology),
        Told::Carry(As(1), As(2)),
        Told::Open(0, 0),
        Told::Drain(0, 0),
        Told::Receive(0, octets(alloc)?),
        Told::Take(0),
        Told::Tick(Tick(3)),
        Told::Load(As(1), other),
    ]?))
}

fn second(alloc: Global) -> Result<List<Told>, Fail> {
    Ok(List::from_vec(vec![in alloc;
        Told::Break(As(1), As(2)),
        Told::Solve(As(1), 1),
        Told::Shut(0),
    ]?))
}

fn desk(alloc: Global, before: u64) -> Result<Hands, Fail> {
    let later = vec![in alloc;
        Handed {
            items: second(alloc)?,
            before,
            ended: Some(TapeEnd::Stopped)
        },
        Handed {
            items: first(alloc)?,
            before: 0,
            ended: None
        },
    ]?;
    Ok(Hands {
        later,
        made: Noted::new(),
        spent: None,
    })
}

fn calendar(alloc: Global) -> Result<MemoryCalendar, Fail> {
    let mut moments = List::new(alloc);
    for seconds in [1_796_059_680, 1_796_059_681, 1_796_169_600] {
        if let Some(moment) = Moment::new(seconds) {
            moments.push(moment)?;
        }
    }
    Ok(MemoryCalendar::new(moments))
}

// What a run leaves, with the names of its files, and how it ends: a letter.
fn run(
    alloc: Global,
    before: u64,
    fails: List<u64>,
    plans: List<List<u64>>,
) -> Result<Vec<u8>, Fail> {
    let network = match read_network(alloc, NETWORK) {
        Ok(network) => network,
        Err(_) => return Err(Fail::from("settings")),
    };
    let mut folder = MemoryFolder::new(alloc, List::new(alloc), plans, fails);
    let mut calendar = calendar(alloc)?;
    let mut desk = desk(alloc, before)?;
    let mut told = Vec::new(alloc);
    let end = match begin(
        alloc,
        &mut folder,
        &mut calendar,
        b"settings\n",
        "pce 0.1.0",
    ) {
        Ok(mut script) => record(
            alloc,
            &mut desk,
            &mut folder,
            &mut calendar,
            &mut NoPause,
            network.parts().peers.as_slice(),
            &mut script,
            9,
        ),
        Err(fault) => Recorded::Fault(fault),
    };
    for (name, bytes) in folder.closed() {
        told.push(b'=')?;
        told.extend_from_slice(name.as_str().as_bytes())?;
        told.push(b'\n')?;
        told.extend_from_slice(bytes.as_slice())?;
    }
    told.push(letter(end))?;
    Ok(told)
}

fn letter(end: Recorded) -> u8 {
    match end {
        Recorded::Ended(_) => b'e',
        Recorded::Turns => b't',
        Recorded::Spent(_) => b's',
        Recorded::Lost => b'l',
        Recorded::Fault(Fault::Folder) => b'f',
        Recorded::Fault(Fault::Write) => b'w',
        Recorded::Fault(Fault::NoMemory) => b'm',
    }
}

const WHOLE: &[u8] = b"=net.toml
settings
=load-1.txt
topology 1
=load-2.txt
topology 1
=000001.play
# record 20261130T172800Z part 1 tick 0 event 1 at 20261130T172800Z by pce 0.1.0
load 1 load-1.txt
carry 1 2
open c1 0
drain c1 0
receive c1 2001000c01100008201e780020020004
take c1
tick 3
load 1 load-2.txt
=000002.play
# record 20261130T172800Z part 2 tick 3 event 9 at 20261202T000000Z by pce 0.1.0
break 1 2
solve 1 1
shut c1
# end of record: stop
e";

#[test]
fn a_run_is_written(rt: HostRuntime) -> Result<(), Fail> {
    let alloc = rt.alloc();
    let told = run(alloc, 8, List::new(alloc), List::new(alloc))?;
    assert_eq!(rt; told.as_slice(), WHOLE);
    Ok(())
}
