//! A port that serves one connection after the other.
ghost use Rattle.std.specs.Prelude.{◌≡◌, ◌↔◌, ℕ, Some};
ghost use Rattle.server_loops.specs.Serving.{heard, ServesPort};
ghost use Rattle.server_loops.specs.Sites.{Stays};
ghost use Rattle.server_loops.specs.Steps.{IsHosted};
ghost use Rattle.server_loops.specs.declared.port.Ran.TheVariants.{Spent as SpentAt};

use crate::desks::Desk;
use crate::sessions::serve_session;
use dom_edge::{Accepted, Listener};
use std::alloc::Global;

/// How turns that nothing else ends did end: all were made, or the desk was spent.
#[derive(Clone, Copy)]
pub enum Ran {
    Turns,
    Spent(u64),
}

// How many turns a session at a port may have.
const SESSION_TURNS: u64 = u64::MAX;

// Accepts once, and serves a connection that came. Returns the number of the next one.
#[tactic(auto, using(crate::proofs::Hosting::idle, crate::proofs::Hosting::hosted))]
fn accept_once<K: Listener, D: Desk>(
    alloc: Global,
    desk: &mut D,
    peer: u32,
    holder: u32,
    listener: &mut K,
) -> u32
    ensures hosted { IsHosted peer holder result (D.desked desk.old) (D.desked desk.new) (heard (K.faults listener.old) (K.quiets listener.old) (K.handed listener.old)) (heard (K.faults listener.new) (K.quiets listener.new) (K.handed listener.new)) }
    ensures stays { Stays D.is_at desk.old desk.new }
    ensures port { K.opened_at listener.new ≡ K.opened_at listener.old }
    ensures heeds { K.heeds listener.new ≡ K.heeds listener.old }
    ensures dials { K.dialled_to listener.new ≡ K.dialled_to listener.old }
{
    match listener.accept() {
        Accepted::Link(link) => {
            let mut link = link;
            serve_session(alloc, desk, peer, holder, &mut link, SESSION_TURNS);
            holder.wrapping_add(1)
        }
        Accepted::Quiet | Accepted::Failed => holder,
    }
}

/// Accepts once in each turn, and serves the connection that came to its end, under a number of its own.
#[tactic(auto, using(crate::proofs::Hosting::none_hosted, crate::proofs::Hosting::one_hosted, crate::proofs::Hosting::all_hosted, crate::proofs::Hosting::cut_hosted))]
pub fn serve_port<K: Listener, D: Desk>(
    alloc: Global,
    desk: &mut D,
    peer: u32,
    listener: &mut K,
    turns: u64,
) -> Ran
    ensures serves { ServesPort peer turns result (D.desked desk.old) (D.desked desk.new) (heard (K.faults listener.old) (K.quiets listener.old) (K.handed listener.old)) (heard (K.faults listener.new) (K.quiets listener.new) (K.handed listener.new)) }
    ensures stays { Stays D.is_at desk.old desk.new }
    ensures spent { (t : ℕ) → (result ≡ SpentAt t) ↔ ((D.desked desk.new).spent ≡ Some t) }
    ensures port { K.opened_at listener.new ≡ K.opened_at listener.old }
    ensures heeds { K.heeds listener.new ≡ K.heeds listener.old }
    ensures dials { K.dialled_to listener.new ≡ K.dialled_to listener.old }
{
    let mut holder = 0u32;
    for _turn in 0..turns {
        if let Some(number) = desk.spent() {
            return Ran::Spent(number);
        }
        holder = accept_once(alloc, desk, peer, holder, listener);
    }
    match desk.spent() {
        Some(number) => Ran::Spent(number),
        None => Ran::Turns,
    }
}
