//! A network under its lock: what desks do to it one after the other, and two workers that solve its jobs beside each other.
ghost use Rattle.std.specs.Prelude.{◌≡◌, ◌<◌, IfSome};

use cost_cache::Cache;
use dom_base::{As, Bytes, Tick};
use plant_lock::SplitError;
use plant_network::Plant;
use plant_network::model::{Event, Outcome};
use plant_text::read_network;
use server_loops::{Bench, Desk, Gate, Guide, Worked, work};
use std::alloc::Global;
use std::process::Abort;
use std::sync::Wait;
use std::test::Fail;
use std::thread::{join, sleep};
use std::time::{Clock, Duration};
use te_links::Topology;
use te_text::read_topology;
use turn_desk::{Circle, TurnDesk, WorkBench};

pub(crate) const AT: As = As(1);

// How often a gate looks, once a millisecond, before it gives up.
const LOOKS: u32 = 20_000;

pub(crate) const SETTINGS: &[u8] = b"[[element]]
as = 1
id = \"192.0.2.1\"

[[peer]]
name = \"c1\"
as = 1
class = \"client\"
";

const DOMAIN: &[u8] = b"topology 1
node 10.0.0.1
node 10.0.0.3
link 10.0.0.1 10.0.0.3 10.1.0.5 10.1.0.6 1 20 1000 00000000
";

// An Open, a Keepalive, and the requests 1 and 2 for a path from 10.0.0.1 to 10.0.0.3 (RFC 5440, sections 6.2 to 6.4).
const ASKED: &[u8] = b"\x20\x01\x00\x0c\x01\x10\x00\x08\x20\x1e\x78\x01\x20\x02\x00\x04\
\x20\x03\x00\x1c\x02\x12\x00\x0c\x00\x00\x00\x00\x00\x00\x00\x01\x04\x12\x00\x0c\x0a\x00\x00\x01\x0a\x00\x00\x03\
\x20\x03\x00\x1c\x02\x12\x00\x0c\x00\x00\x00\x00\x00\x00\x00\x02\x04\x12\x00\x0c\x0a\x00\x00\x01\x0a\x00\x00\x03";

// The answers to both: an Open and a Keepalive, and the replies to request 2 and then to request 1, each with the path over the link
// at its cost of 20.
const ANSWERS: &[u8] = b"\x20\x01\x00\x0c\x01\x10\x00\x08\x20\x1e\x78\x00\x20\x02\x00\x04\
\x20\x04\x00\x30\x02\x12\x00\x0c\x00\x00\x00\x00\x00\x00\x00\x02\x07\x10\x00\x14\x01\x08\x0a\x00\x00\x01\x20\x00\x01\x08\x0a\x01\x00\x06\x20\x00\x06\x10\x00\x0c\x00\x00\x00\x02\x41\xa0\x00\x00\
\x20\x04\x00\x30\x02\x12\x00\x0c\x00\x00\x00\x00\x00\x00\x00\x01\x07\x10\x00\x14\x01\x08\x0a\x00\x00\x01\x20\x00\x01\x08\x0a\x01\x00\x06\x20\x00\x06\x10\x00\x0c\x00\x00\x00\x02\x41\xa0\x00\x00";

// The topology, where it is of this domain.
fn topology(alloc: Global, at: As) -> Option<Topology>
    ensures { IfSome result (λ g. g.own ≡ at) }
{
    let topology = read_topology(alloc, DOMAIN).ok()?;
    if topology.own() == at {
        Some(topology)
    } else {
        None
    }
}

// A desk at a new lock round the network of the settings, with room for so many.
pub(crate) fn open<R: Wait + Clock + Drop>(
    rt: R,
    alloc: Global,
    settings: &[u8],
    seats: u32,
) -> Option<TurnDesk<R>>
    requires { 0 < seats }
{
    let network = read_network(alloc, settings).ok()?;
    let Ok(plant) = Plant::new(alloc, network) else {
        return None;
    };
    TurnDesk::open(rt, alloc, plant, seats).ok()
}

fn load<D: Desk>(alloc: Global, desk: &mut D) -> Option<Outcome> {
    let Some(topology) = topology(alloc, AT) else {
        return None;
    };
    desk.act(Event::Load(AT, topology)).ok()
}

fn feed<D: Desk>(alloc: Global, desk: &mut D) -> Option<Outcome> {
    let bytes = Bytes::from_vec(ASKED.to_vec(alloc).ok()?);
    desk.act(Event::Feed(0, bytes)).ok()
}

// The element loads its topology, and its client opens the session and asks twice.
pub(crate) fn ask<D: Desk>(alloc: Global, desk: &mut D) -> Option<()> {
    load(alloc, desk)?;
    desk.act(Event::Open(0, 7)).ok()?;
    feed(alloc, desk)?;
    for _message in 0..4 {
        desk.act(Event::Take(0)).ok()?;
    }
    Some(())
}

// Whether these bytes wait for the client, and its session is not over.
fn hears<D: Desk>(desk: &mut D, wanted: &[u8]) -> bool {
    match desk.act(Event::Drain(0, 7)) {
        Ok(Outcome::Drained { bytes, ended }) => bytes.as_slice() == wanted && !ended,
        _ => false,
    }
}

// A gate that lets the first of two jobs pass once the second was finished, or gives up. It looks by a desk of its own.
#[derive(Drop)]
pub(crate) struct Door<R: Abort + Wait + Clock> {
    rt: R,
    desk: TurnDesk<R>,
    is_open: bool,
    gave_up: bool,
    passed: Vec<(As, u64)>,
}

// Whether there is one ready job in time, and no more.
fn opens<R: Wait + Clock>(rt: &R, desk: &mut TurnDesk<R>) -> bool {
    for _look in 0..LOOKS {
        if desk.ready(1).is_none() {
            return true;
        }
        sleep(rt, Duration::from_millis(1));
    }
    false
}

impl<R: Abort + Wait + Clock> Gate for Door<R> {
    ghost passed = { λ d. d.passed.items };

    fn before(&mut self, at: As, number: u64) {
        if number == 1 && !self.is_open && !opens(&self.rt, &mut self.desk) {
            self.gave_up = true;
        }
        let Ok(()) = self.passed.push((at, number)) else {
            panic!(self.rt; "no memory at the gate");
        };
    }
}

pub(crate) fn make_door<R: Abort + Wait + Clock>(
    rt: R,
    alloc: Global,
    desk: TurnDesk<R>,
    is_open: bool,
) -> Door<R> {
    Door {
        rt,
        desk,
        is_open,
        gave_up: false,
        passed: Vec::new(alloc),
    }
}

// Turns of a worker with a new cache, in which just these jobs pass its gate. None where it does not end so, or the gate gives up.
pub(crate) fn run<R: Abort + Wait + Clock + Drop>(
    alloc: Global,
    mut desk: TurnDesk<R>,
    mut door: Door<R>,
    index: u32,
    turns: u64,
    jobs: &[(As, u64)],
) -> Option<TurnDesk<R>> {
    let mut cache = Cache::new(alloc, 64).ok()?;
    match work(alloc, &mut desk, &mut door, &mut cache, index, turns) {
        Worked::Turns if !door.gave_up && door.passed.as_slice() == jobs => Some(desk),
        _ => None,
    }
}

// The jobs of two requests are ready. The worker at place 1 takes the second of them; then the only one that is left, and then finds
// none.
#[test]
fn a_job_that_was_solved_is_no_longer_ready(rt: HostRuntime) -> Result<(), Fail> {
    let alloc = rt.alloc();
    let mut desk = open(rt, alloc, SETTINGS, 4).ok_or("a desk")?;
    let mut other = desk.split(rt).ok().ok_or("another")?;
    let third = desk.split(rt).ok().ok_or("a third")?;
    let fourth = desk.split(rt).ok().ok_or("a fourth")?;
    assert!(rt; matches!(desk.split(rt), Err(SplitError::NoSeat)));
    assert_eq!(rt; desk.ready(0), None);
    ask(alloc, &mut desk).ok_or("two requests")?;
    assert_eq!(rt;
        (desk.ready(0), desk.ready(1), desk.ready(2)),
        (Some((AT, 1)), Some((AT, 2)), None)
    );
    let desk = run(
        alloc,
        desk,
        make_door(rt, alloc, third, true),
        1,
        1,
        &[(AT, 2)],
    )
    .ok_or("a turn")?;
    assert_eq!(rt; (other.ready(0), other.ready(1)), (Some((AT, 1)), None));
    assert!(rt; matches!(other.look(AT, 2), Ok(None)));
    let mut desk = run(
        alloc,
        desk,
        make_door(rt, alloc, fourth, true),
        1,
        2,
        &[(AT, 1)],
    )
    .ok_or("two turns")?;
    assert_eq!(rt; other.ready(0), None);
    assert!(rt; hears(&mut desk, ANSWERS));
    assert!(rt; matches!(other.act(Event::Tick(Tick(1))), Ok(Outcome::Done)));
    assert!(rt; matches!(desk.act(Event::Tick(Tick(2))), Ok(Outcome::Done)));
    Ok(())
}

// Each makes one turn. The first takes job 1, and passes its gate once job 2 was finished, which the second takes.
#[test]
fn two_workers_at_one_lock_solve_beside_each_other(rt: HostRuntime) -> Result<(), Fail> {
    let alloc = rt.alloc();
    let mut first = open(rt, alloc, SETTINGS, 4).ok_or("a desk")?;
    let second = first.split(rt).ok().ok_or("a second")?;
    let third = first.split(rt).ok().ok_or("a third")?;
    let fourth = first.split(rt).ok().ok_or("a fourth")?;
    ask(alloc, &mut first).ok_or("two requests")?;
    let (one, two) = (
        make_door(rt, alloc, third, false),
        make_door(rt, alloc, fourth, false),
    );
    let (first, second) = join(
        &rt,
        || run(alloc, first, one, 0, 1, &[(AT, 1)]),
        || run(alloc, second, two, 1, 1, &[(AT, 2)]),
    );
    let mut desk = first.ok_or("the first worker")?;
    second.ok_or("the second worker")?;
    assert_eq!(rt; desk.ready(0), None);
    assert!(rt; hears(&mut desk, ANSWERS));
    Ok(())
}

// A bench for a worker, over a desk that has made no turn.
fn bench<R: Wait + Clock + Drop>(
    rt: R,
    alloc: Global,
    desk: &mut TurnDesk<R>,
    index: u32,
) -> Option<WorkBench<R>> {
    let circle = Circle::new(alloc, &[AT]).ok()?;
    let Ok(desk) = desk.split(rt) else {
        return None;
    };
    Some(WorkBench::new(desk, index, circle))
}

// The jobs of two requests are ready. Each of two workers is told another one, and the third none until the first lets its own go.
#[test]
fn a_job_that_a_worker_is_at_is_no_other_s(rt: HostRuntime) -> Result<(), Fail> {
    let alloc = rt.alloc();
    let mut desk = open(rt, alloc, SETTINGS, 4).ok_or("a desk")?;
    let mut first = bench(rt, alloc, &mut desk, 0).ok_or("a bench")?;
    let mut second = bench(rt, alloc, &mut desk, 1).ok_or("another")?;
    let mut third = bench(rt, alloc, &mut desk, 2).ok_or("a third")?;
    ask(alloc, &mut desk).ok_or("two requests")?;
    assert_eq!(rt;
        (first.ready(0), second.ready(1)),
        (Some((AT, 1)), Some((AT, 2)))
    );
    assert_eq!(rt; third.ready(0), None);
    assert!(rt; matches!(first.look(AT, 1), Ok(Some(_))));
    assert_eq!(rt; third.ready(0), None);
    first.let_go();
    assert_eq!(rt; third.ready(2), Some((AT, 1)));
    assert!(rt; matches!(second.look(AT, 3), Ok(None)));
    assert_eq!(rt; first.ready(0), Some((AT, 2)));
    Ok(())
}

const LINKED: &[u8] = b"[[element]]
as = 1
id = \"192.0.2.1\"
[[element]]
as = 2
id = \"192.0.2.2\"
[[link]]
a = 1
b = 2
";

// A whole round is first, from the last way on. Element 1 opens the session, and element 2 says a Keepalive: then its way is told,
// and once more for what may stand behind the Open that the round found.
#[test]
fn the_carrier_is_told_where_messages_wait(rt: HostRuntime) -> Result<(), Fail> {
    let alloc = rt.alloc();
    let ways = [(As(1), As(2)), (As(2), As(1))];
    let mut desk = open(rt, alloc, LINKED, 1).ok_or("a desk")?;
    desk.tell_ways(alloc, &ways).ok().ok_or("ways")?;
    assert_eq!(rt; (desk.next_way(2, 1), desk.next_way(2, 1)), (1, 0));
    assert!(rt; matches!(desk.act(Event::Carry(As(1), As(2))), Ok(Outcome::Done)));
    desk.found(0);
    assert_eq!(rt; (desk.next_way(2, 0), desk.next_way(2, 1)), (1, 0));
    Ok(())
}
