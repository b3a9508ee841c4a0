//! One turn of a session.
ghost use Rattle.std.specs.Prelude.{◌≡◌, length, None};
ghost use Rattle.dom_edge.specs.Heeding.{sides};
ghost use Rattle.server_loops.specs.Sites.{Stays};
ghost use Rattle.server_loops.specs.Steps.{IsEndOf, IsHandedOn, Drains, IsHanded, IsTaken, IsReceived, IsTurned};

use crate::desks::{Desk, DeskRefused};
use crate::sessions::Ended;
use dom_base::Bytes;
use dom_edge::{Got, Wire, write_whole};
use network_links::Rest;
use plant_model::{Event, Outcome, Refused};
use std::alloc::Global;

// How many messages a turn takes at most.
const TAKES_MAX: u32 = 65_536;

// The end that a refusal makes of a session.
fn end_of(why: DeskRefused) -> Ended
    ensures { IsEndOf why result }
{
    match why {
        DeskRefused::Plant(Refused::NoMemory) => Ended::NoMemory,
        DeskRefused::Plant(why) => Ended::Lost(why),
        DeskRefused::Spent(number) => Ended::Spent(number),
    }
}

// Writes all that a Drain handed out, and says whether the connection ends with it.
fn hand_on<L: Wire>(link: &mut L, bytes: &Bytes, ended: bool) -> Result<(), Ended>
    ensures written { IsHandedOn bytes.now ended result (L.writing link.old) (L.writing link.new) }
    ensures reading { L.reading link.new ≡ L.reading link.old }
{
    if write_whole(link, bytes.as_slice()).is_err() {
        return Err(Ended::WriteFault);
    }
    if ended { Err(Ended::Closed) } else { Ok(()) }
}

// Drains, and writes all that this hands out.
fn drain<L: Wire, D: Desk>(desk: &mut D, peer: u32, holder: u32, link: &mut L) -> Result<(), Ended>
    ensures drains { Drains peer holder result (D.desked desk.old) (D.desked desk.new) (sides (L.reading link.old) (L.writing link.old)) (sides (L.reading link.new) (L.writing link.new)) }
    ensures stays { Stays D.is_at desk.old desk.new }
    ensures reading { L.reading link.new ≡ L.reading link.old }
{
    match desk.act(Event::Drain(peer, holder)) {
        Ok(Outcome::Drained { bytes, ended }) => hand_on(link, &bytes, ended),
        Ok(Outcome::Done | Outcome::Loaded(_)) => Ok(()),
        Err(why) => Err(end_of(why)),
    }
}

// Feeds a piece that was read.
fn feed<D: Desk>(alloc: Global, desk: &mut D, peer: u32, piece: &[u8]) -> Result<(), Ended>
    requires { (D.desked desk.old).spent ≡ None }
    ensures handed { IsHanded peer piece.now result (D.desked desk.old) (D.desked desk.new) }
    ensures stays { Stays D.is_at desk.old desk.new }
{
    let Ok(piece) = piece.to_vec(alloc) else {
        return Err(Ended::NoMemory);
    };
    match desk.act(Event::Feed(peer, Bytes::from_vec(piece))) {
        Ok(_) => Ok(()),
        Err(why) => Err(end_of(why)),
    }
}

// Takes messages until none waits, one is refused, or what waits for the peer has to be handed out first.
#[tactic(auto, using(crate::proofs::Turning::none_taken, crate::proofs::Turning::one_taken, crate::proofs::Turning::taken_last, crate::proofs::Turning::taken_until, crate::proofs::Turning::taken_cut, crate::proofs::Turning::all_taken))]
fn take_all<D: Desk>(desk: &mut D, peer: u32) -> Result<(), Ended>
    requires { (D.desked desk.old).spent ≡ None }
    ensures taken { IsTaken peer result (D.desked desk.old) (D.desked desk.new) }
    ensures stays { Stays D.is_at desk.old desk.new }
{
    for _take in 0..TAKES_MAX {
        match desk.take(peer) {
            Ok(Rest::Messages) => {}
            Ok(Rest::Nothing | Rest::Backlog) | Err(DeskRefused::Plant(_)) => return Ok(()),
            Err(DeskRefused::Spent(number)) => return Err(Ended::Spent(number)),
        }
    }
    Ok(())
}

// Reads once, feeds what was read, and takes messages.
fn receive<L: Wire, D: Desk>(
    alloc: Global,
    desk: &mut D,
    peer: u32,
    link: &mut L,
    buffer: &mut [u8],
) -> Result<(), Ended>
    requires unspent { (D.desked desk.old).spent ≡ None }
    requires room { length buffer.old ≡ 65536 }
    ensures received { IsReceived peer result (D.desked desk.old) (D.desked desk.new) (sides (L.reading link.old) (L.writing link.old)) (sides (L.reading link.new) (L.writing link.new)) }
    ensures stays { Stays D.is_at desk.old desk.new }
{
    match link.read(buffer) {
        Got::Failed => return Err(Ended::ReadFault),
        Got::End => return Err(Ended::PeerEnd),
        Got::Quiet => {}
        Got::Bytes(count) => feed(alloc, desk, peer, &buffer[..count])?,
    }
    take_all(desk, peer)
}

/// One turn: drains and writes, reads once, feeds, and takes messages.
pub(crate) fn turn<L: Wire, D: Desk>(
    alloc: Global,
    desk: &mut D,
    peer: u32,
    holder: u32,
    link: &mut L,
    buffer: &mut [u8],
) -> Result<(), Ended>
    requires room { length buffer.old ≡ 65536 }
    ensures stays { Stays D.is_at desk.old desk.new }
    ensures turned { IsTurned peer holder result (D.desked desk.old) (D.desked desk.new) (sides (L.reading link.old) (L.writing link.old)) (sides (L.reading link.new) (L.writing link.new)) }
    ensures buffer { length buffer.new ≡ length buffer.old }
{
    drain(desk, peer, holder, link)?;
    receive(alloc, desk, peer, link, buffer)
}
