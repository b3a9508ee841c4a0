//! A session over a link.
ghost use Rattle.std.specs.Prelude.{◌≡◌, ◌≤◌, ◌<◌, ◌↔◌, ℕ, length, IfOk, Some, None};
ghost use Rattle.dom_edge.specs.Heeding.{sides};
ghost use Rattle.server_loops.specs.Sessions.{Serves};
ghost use Rattle.server_loops.specs.Sites.{Stays};
ghost use Rattle.server_loops.specs.Steps.{AreServed, IsEndOfOpen, IsClosedBy, shown};
ghost use Rattle.server_loops.specs.declared.sessions.Ended.TheVariants.{Spent as SpentAt};

use crate::desks::{Desk, DeskRefused};
use crate::turn::turn;
use dom_base::NoMemory;
use dom_edge::Wire;
use plant_model::{Event, Refused};
use std::alloc::Global;

/// How a session ended: its peer's connection was closed by us, the peer closed it, reading or writing
/// failed, all turns were made, its Open, or a later event was refused, the desk was spent, or there was
/// no memory.
#[derive(Clone, Copy)]
pub enum Ended {
    Closed,
    PeerEnd,
    ReadFault,
    WriteFault,
    Turns,
    NotOpened,
    Lost(Refused),
    Spent(u64),
    NoMemory,
}

// For how many bytes a turn has room.
const ROOM: usize = 65_536;

// Room for what a turn reads.
fn room(alloc: Global) -> Result<Vec<u8>, NoMemory>
    ensures { IfOk result (λ buffer. length buffer.items ≡ 65536) }
{
    Ok(vec![in alloc; 0u8; ROOM]?)
}

// All turns of a session that is open.
#[tactic(auto, using(crate::proofs::Serving::set_out, crate::proofs::Serving::one_more, crate::proofs::Serving::cut_turn, crate::proofs::Serving::all_turns))]
fn serve_turns<L: Wire, D: Desk>(
    alloc: Global,
    desk: &mut D,
    peer: u32,
    holder: u32,
    link: &mut L,
    buffer: &mut [u8],
    turns: u64,
) -> Ended
    requires unspent { (D.desked desk.old).spent ≡ None }
    requires room { length buffer.old ≡ 65536 }
    ensures served { AreServed peer holder turns result (D.desked desk.old) (D.desked desk.new) (sides (L.reading link.old) (L.writing link.old)) (sides (L.reading link.new) (L.writing link.new)) }
    ensures stays { Stays D.is_at desk.old desk.new }
{
    for _turn in 0..turns {
        if let Err(end) = turn(alloc, desk, peer, holder, link, buffer) {
            return end;
        }
    }
    Ended::Turns
}

// A session that is open, as far as its last turn.
#[tactic(auto, using(crate::proofs::Serving::no_room))]
fn serve_open<L: Wire, D: Desk>(
    alloc: Global,
    desk: &mut D,
    peer: u32,
    holder: u32,
    link: &mut L,
    turns: u64,
) -> Ended
    requires { (D.desked desk.old).spent ≡ None }
    ensures served { AreServed peer holder turns result (D.desked desk.old) (D.desked desk.new) (sides (L.reading link.old) (L.writing link.old)) (sides (L.reading link.new) (L.writing link.new)) }
    ensures stays { Stays D.is_at desk.old desk.new }
{
    let Ok(mut buffer) = room(alloc) else {
        return Ended::NoMemory;
    };
    serve_turns(
        alloc,
        desk,
        peer,
        holder,
        link,
        buffer.as_mut_slice(),
        turns,
    )
}

// The end that a refused Open makes of a session.
fn unopened(why: DeskRefused) -> Ended
    ensures { IsEndOfOpen why result }
{
    match why {
        DeskRefused::Plant(Refused::NoSuchPeer) => Ended::NotOpened,
        DeskRefused::Plant(Refused::NoMemory) => Ended::NoMemory,
        DeskRefused::Plant(why) => Ended::Lost(why),
        DeskRefused::Spent(number) => Ended::Spent(number),
    }
}

// Shuts the connection at the end of a session, but not where it was lost or the desk is spent.
fn shut<D: Desk>(desk: &mut D, peer: u32, end: Ended) -> Ended
    requires { (D.desked desk.old).spent ≡ shown end }
    ensures closed { IsClosedBy peer end result (D.desked desk.old) (D.desked desk.new) }
    ensures stays { Stays D.is_at desk.old desk.new }
{
    match end {
        Ended::Lost(_) | Ended::Spent(_) => end,
        Ended::Closed
        | Ended::PeerEnd
        | Ended::ReadFault
        | Ended::WriteFault
        | Ended::Turns
        | Ended::NotOpened
        | Ended::NoMemory => match desk.act(Event::Shut(peer)) {
            Err(DeskRefused::Spent(number)) => Ended::Spent(number),
            Ok(_) | Err(DeskRefused::Plant(_)) => end,
        },
    }
}

/// Serves a peer over a link, for so many turns at most. It opens the peer's connection first, and in
/// each turn drains it and writes what that gave, reads once, feeds what was read, and takes messages
/// until one is refused. It shuts the connection at the end, unless it is lost.
pub fn serve_session<L: Wire, D: Desk>(
    alloc: Global,
    desk: &mut D,
    peer: u32,
    holder: u32,
    link: &mut L,
    turns: u64,
) -> Ended
    ensures serves { Serves peer holder turns result (D.desked desk.old) (D.desked desk.new) (sides (L.reading link.old) (L.writing link.old)) (sides (L.reading link.new) (L.writing link.new)) }
    ensures stays { Stays D.is_at desk.old desk.new }
    ensures spent { (t : ℕ) → (result ≡ SpentAt t) ↔ ((D.desked desk.new).spent ≡ Some t) }
{
    if let Err(why) = desk.act(Event::Open(peer, holder)) {
        return unopened(why);
    }
    let end = serve_open(alloc, desk, peer, holder, link, turns);
    shut(desk, peer, end)
}
