//! The tasks of the peers, of the carrier and of the workers.
ghost use Rattle.std.specs.Prelude.{◌≡◌, ◌+◌, ◌≤◌, ◌<◌, ◌^◌, ◌++◌, ◌∷◌, [], All, IfErr, IfOk, OnOk, length, map};
ghost use Rattle.std.specs.List.{flat_map};
ghost use Rattle.dom_edge.specs.Causes.{HasCause, next_count};
ghost use Rattle.dom_edge.specs.Opening.{IsOpenedAt, IsOpenedFor};
ghost use Rattle.network_serving.specs.Tasks.{duty_of};
ghost use Rattle.network_serving.specs.declared.duties.Duty.TheVariants.{Carry};
ghost use Rattle.network_serving.specs.Duties.{both_ways, child_ways, first_count, first_duties, port_duties, ways_of, work_duties};
ghost use Rattle.network_serving.specs.Ends.{RoseBy};
ghost use Rattle.network_serving.specs.Ports.{dialled, heeded};
ghost use Rattle.turn_desk.specs.Desks.{shares_at, split_from, stand_of};
ghost use Rattle.network_serving.specs.Starting.{Adds, IsClosed, IsFresh, IsPlanEnd, IsPlanned, called, peer_ports};

use crate::served::Served;
use crate::tasks::Task;
use cost_cache::Cache;
use dom_base::{As, List, NoMemory};
use dom_edge::{Listener, Opened, Ports};
use network_links::children_of;
use plant_lock::SplitError;
use plant_text::{Comes, Network, NetworkParts, PeerRow};
use std::alloc::Global;
use std::sync::Wait;
use std::time::Clock;
use turn_desk::{Circle, TurnDesk, WorkBench};

// How many solved jobs each worker keeps.
pub(crate) const CACHE_CAPACITY: usize = 64;

// Both ways of a link behind others.
fn push_both(ways: &mut List<(As, As)>, a: As, b: As) -> Result<(), NoMemory>
    ensures { OnOk result (ways.new ≡ ways.old ++ (a, b) ∷ (b, a) ∷ []) }
{
    ways.push((a, b))?;
    ways.push((b, a))
}

// Both ways of each of these links, behind others.
fn add_links(ways: &mut List<(As, As)>, links: &[(As, As)]) -> Result<(), NoMemory>
    ensures { OnOk result (ways.new ≡ ways.old ++ flat_map both_ways links.now) }
{
    for i in 0..links.len() {
        let link = links[i];
        push_both(ways, link.0, link.1)?;
    }
    Ok(())
}

// Both ways between the parent and each of these domains, behind others.
fn add_children(ways: &mut List<(As, As)>, children: &[As]) -> Result<(), NoMemory>
    ensures { OnOk result (ways.new ≡ ways.old ++ flat_map child_ways children.now) }
{
    for i in 0..children.len() {
        let child = children[i];
        push_both(ways, As(0), child)?;
    }
    Ok(())
}

/// The ways along which messages are carried.
pub(crate) fn ways_of(alloc: Global, parts: &NetworkParts) -> Result<List<(As, As)>, NoMemory>
    ensures { IfOk result (λ ways. ways ≡ ways_of parts.now) }
{
    let mut ways = List::new(alloc);
    add_links(&mut ways, parts.links.as_slice())?;
    let children = children_of(alloc, parts.elements.as_slice())?;
    add_children(&mut ways, children.as_slice())?;
    Ok(ways)
}

/// A further desk at the lock of a desk.
pub(crate) fn desk_beside<R: Wait + Clock + Copy + Drop>(
    rt: R,
    desk: &mut TurnDesk<R>,
) -> Result<TurnDesk<R>, NoMemory>
    requires seat { 1 < shares_at desk.old }
    ensures stand { stand_of desk.new ≡ stand_of desk.old }
    ensures ok { IfOk result (λ beside. stand_of beside ≡ split_from (stand_of desk.old)) }
    ensures seat { OnOk result (shares_at desk.new + 1 ≡ shares_at desk.old) }
{
    match desk.split(rt) {
        Ok(desk) => Ok(desk),
        Err(SplitError::NoMemory) => Err(NoMemory),
        Err(SplitError::NoSeat) => unreachable!(),
    }
}

// Listens at a port, or will dial one, as is said of who connects.
fn opened<Q: Ports>(ports: &mut Q, port: u16, comes: Comes) -> Opened<Q::Port>
    ensures called { Q.calls ports.new ≡ next_count (Q.calls ports.old) }
    ensures cause { HasCause (Q.faults ports.old) (Q.faults ports.new) (result ≡ Opened.Failed) }
    ensures asked { IsOpenedAt Q.Port.opened_at port result }
    ensures blame { result ≡ Opened.Failed → Q.failed_at ports.new ≡ port }
    ensures heeds { IsOpenedFor Q.Port.heeds Q.Port.dialled_to (heeded comes) (dialled comes) result }
{
    match comes {
        Comes::Anyone => ports.listen_for(port, None),
        Comes::From(address) => ports.listen_for(port, Some(address)),
        Comes::Dialled(address) => ports.dial(address, port),
    }
}

/// Listens at a port, or will dial one, as is said of who connects.
pub(crate) fn open_port<Q: Ports>(ports: &mut Q, port: u16, comes: Comes) -> Result<Q::Port, Served>
    ensures ok { IfOk result (λ listener. Q.Port.opened_at listener ≡ port) }
    ensures heeds { IfOk result (λ listener. (Q.Port.heeds listener ≡ heeded comes) × (Q.Port.dialled_to listener ≡ dialled comes)) }
    ensures err { IfErr result (IsClosed port (Q.faults ports.old, Q.faults ports.new) (Q.failed_at ports.new)) }
    ensures called { Q.calls ports.new ≡ next_count (Q.calls ports.old) }
    ensures later { Q.faults ports.old ≤ Q.faults ports.new }
{
    match opened(ports, port, comes) {
        Opened::Port(listener) => Ok(listener),
        Opened::Failed => Err(Served::NoPort(port)),
    }
}

/// One task more.
pub(crate) fn push_task<K: Listener + Drop, F: Drop, I: Drop, O: Drop, R: Wait + Clock + Drop>(
    tasks: &mut Vec<Task<K, F, I, O, R>>,
    task: Task<K, F, I, O, R>,
) -> Result<(), NoMemory>
    ensures ok { OnOk result (tasks.new.items ≡ tasks.old.items ++ task ∷ []) }
{
    match tasks.push(task) {
        Ok(()) => Ok(()),
        Err(_) => Err(NoMemory),
    }
}

// What wakes the thread that waits at that listener is hung on the board.
fn hang_bell<K: Listener, R: Wait + Clock>(desk: &TurnDesk<R>, peer: u32, listener: &K) {
    if let Some(bell) = listener.bell() {
        desk.hang(peer, bell);
    }
}

// A task for each peer, in order: at its port, or one that dials it.
#[tactic(auto, using(crate::proofs::Starts::plan_end, crate::proofs::Starts::want_plan))]
fn add_ports<Q: Ports, F: Drop, I: Drop, O: Drop, R: Wait + Clock + Copy + Drop>(
    rt: R,
    desk: &mut TurnDesk<R>,
    ports: &mut Q,
    peers: &[PeerRow],
    tasks: &mut Vec<Task<Q::Port, F, I, O, R>>,
) -> Result<(), Served>
    requires few { length peers.now < 2 ^ 32 }
    requires seats { length peers.now < shares_at desk.old }
    requires fresh { IsFresh (stand_of desk.old) }
    ensures seats { OnOk result (shares_at desk.new + length peers.now ≡ shares_at desk.old) }
    ensures stand { stand_of desk.new ≡ stand_of desk.old }
    ensures ok { OnOk result (Adds Q.Port.opened_at Q.Port.heeds Q.Port.dialled_to (stand_of desk.old) tasks.old.items tasks.new.items (port_duties 0 peers.now)) }
    ensures calls { OnOk result (RoseBy (length peers.now) (Q.calls ports.old, Q.calls ports.new)) }
    ensures err { IfErr result (IsPlanEnd (peer_ports peers.now) (called (Q.calls ports.old, Q.calls ports.new) (Q.faults ports.old, Q.faults ports.new) (Q.failed_at ports.new))) }
    ensures later { Q.faults ports.old ≤ Q.faults ports.new }
{
    for peer in 0..peers.len() {
        let row = &peers[peer];
        let listener = open_port(ports, row.port, row.comes)?;
        let desk = desk_beside(rt, desk)?;
        hang_bell(&desk, peer as u32, &listener);
        let task = Task::Port {
            peer: peer as u32,
            comes: row.comes,
            listener,
            desk,
        };
        push_task(tasks, task)?;
    }
    Ok(())
}

// A task for each worker, with a cache of its own.
fn add_workers<K: Listener + Drop, F: Drop, I: Drop, O: Drop, R: Wait + Clock + Copy + Drop>(
    rt: R,
    alloc: Global,
    desk: &mut TurnDesk<R>,
    members: &[As],
    workers: u32,
    tasks: &mut Vec<Task<K, F, I, O, R>>,
) -> Result<(), NoMemory>
    requires seats { workers < shares_at desk.old }
    requires fresh { IsFresh (stand_of desk.old) }
    ensures seats { OnOk result (shares_at desk.new + workers ≡ shares_at desk.old) }
    ensures stand { stand_of desk.new ≡ stand_of desk.old }
    ensures ok { OnOk result (Adds K.opened_at K.heeds K.dialled_to (stand_of desk.old) tasks.old.items tasks.new.items (work_duties 0 workers)) }
{
    for index in 0..workers {
        let cache = Cache::new(alloc, CACHE_CAPACITY)?;
        let circle = Circle::new(alloc, members)?;
        let bench = WorkBench::new(desk_beside(rt, desk)?, index, circle);
        push_task(
            tasks,
            Task::Work {
                index,
                cache,
                bench,
            },
        )?;
    }
    Ok(())
}

// A task for the carrier.
fn add_carrier<K: Listener + Drop, F: Drop, I: Drop, O: Drop, R: Wait + Clock + Copy + Drop>(
    rt: R,
    alloc: Global,
    desk: &mut TurnDesk<R>,
    parts: &NetworkParts,
    tasks: &mut Vec<Task<K, F, I, O, R>>,
) -> Result<(), NoMemory>
    requires seat { 1 < shares_at desk.old }
    requires fresh { IsFresh (stand_of desk.old) }
    ensures seat { OnOk result (shares_at desk.new + 1 ≡ shares_at desk.old) }
    ensures stand { stand_of desk.new ≡ stand_of desk.old }
    ensures ok { OnOk result (Adds K.opened_at K.heeds K.dialled_to (stand_of desk.old) tasks.old.items tasks.new.items (Carry (ways_of parts.now) ∷ [])) }
{
    let links = ways_of(alloc, parts)?;
    let desk = desk_beside(rt, desk)?;
    desk.tell_ways(alloc, links.as_slice())?;
    push_task(tasks, Task::Carry { links, desk })
}

// The members of a network that have jobs: the parent, where there is one, and the elements.
fn members_of(alloc: Global, parts: &NetworkParts) -> Result<Vec<As>, NoMemory> {
    let mut members = Vec::new(alloc);
    if parts.parent.is_some() {
        members.push(As(0))?;
    }
    for row in parts.elements.as_slice() {
        members.push(row.own)?;
    }
    Ok(members)
}

/// The tasks of the peers, of the carrier and of the workers. It listens at each peer's port or will dial it, in order.
pub(crate) fn plan_tasks<Q: Ports, F: Drop, I: Drop, O: Drop, R: Wait + Clock + Copy + Drop>(
    rt: R,
    alloc: Global,
    desk: &mut TurnDesk<R>,
    ports: &mut Q,
    network: &Network,
) -> Result<Vec<Task<Q::Port, F, I, O, R>>, Served>
    requires seats { first_count network.now < shares_at desk.old }
    requires fresh { IsFresh (stand_of desk.old) }
    ensures seats { OnOk result (shares_at desk.new + first_count network.now ≡ shares_at desk.old) }
    ensures stand { stand_of desk.new ≡ stand_of desk.old }
    ensures ok { IfOk result (λ tasks. (map (duty_of Q.Port.opened_at) tasks.items ≡ first_duties network.now) × All (IsPlanned Q.Port.heeds Q.Port.dialled_to (stand_of desk.old)) tasks.items) }
    ensures calls { OnOk result (RoseBy (length network.now.peers) (Q.calls ports.old, Q.calls ports.new)) }
    ensures err { IfErr result (IsPlanEnd (peer_ports network.now.peers) (called (Q.calls ports.old, Q.calls ports.new) (Q.faults ports.old, Q.faults ports.new) (Q.failed_at ports.new))) }
    ensures later { Q.faults ports.old ≤ Q.faults ports.new }
{
    let parts = network.parts();
    let mut tasks = Vec::new(alloc);
    add_ports(rt, desk, ports, parts.peers.as_slice(), &mut tasks)?;
    add_carrier(rt, alloc, desk, parts, &mut tasks)?;
    let members = members_of(alloc, parts)?;
    add_workers(
        rt,
        alloc,
        desk,
        members.as_slice(),
        parts.workers,
        &mut tasks,
    )?;
    Ok(tasks)
}
