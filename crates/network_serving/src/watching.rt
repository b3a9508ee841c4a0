//! A port at which watchers are answered, one connection after the other.
ghost use Rattle.std.specs.Prelude.{◌≡◌};
ghost use Rattle.server_loops.specs.Serving.{heard};
ghost use Rattle.ted_watch.specs.Watch.{known, list_at};
ghost use Rattle.network_serving.specs.Watching.{IsWatchTurn, WatchesPort};

use dom_edge::{Accepted, Listener};
use std::alloc::Global;
use std::sync::Wait;
use ted_watch::{Watcher, serve_watch};

// How many turns a watcher's connection may have.
const WATCH_TURNS: u64 = u64::MAX;

// Accepts once, and answers the lines of a connection that came.
fn accept_once<K: Listener, R: Wait>(rt: &R, alloc: Global, watcher: &mut Watcher, listener: &mut K)
    ensures turn { IsWatchTurn (known watcher.old) (known watcher.new) (heard (K.faults listener.old) (K.quiets listener.old) (K.handed listener.old)) (heard (K.faults listener.new) (K.quiets listener.new) (K.handed listener.new)) }
    ensures list { list_at watcher.new ≡ list_at watcher.old }
    ensures port { K.opened_at listener.new ≡ K.opened_at listener.old }
    ensures heeds { K.heeds listener.new ≡ K.heeds listener.old }
    ensures dials { K.dialled_to listener.new ≡ K.dialled_to listener.old }
{
    match listener.accept() {
        Accepted::Link(link) => {
            let mut link = link;
            serve_watch(rt, alloc, watcher, &mut link, WATCH_TURNS);
        }
        Accepted::Quiet | Accepted::Failed => {}
    }
}

/// Accepts once in each turn, and answers the lines of the connection that came to its end.
#[tactic(auto, using(crate::proofs::WatchTurns::none_watched, crate::proofs::WatchTurns::one_watched))]
pub(crate) fn watch_port<K: Listener, R: Wait>(
    rt: &R,
    alloc: Global,
    watcher: &mut Watcher,
    listener: &mut K,
    turns: u64,
)
    ensures watches { WatchesPort turns (known watcher.old) (known watcher.new) (heard (K.faults listener.old) (K.quiets listener.old) (K.handed listener.old)) (heard (K.faults listener.new) (K.quiets listener.new) (K.handed listener.new)) }
    ensures list { list_at watcher.new ≡ list_at watcher.old }
    ensures port { K.opened_at listener.new ≡ K.opened_at listener.old }
    ensures heeds { K.heeds listener.new ≡ K.heeds listener.old }
    ensures dials { K.dialled_to listener.new ≡ K.dialled_to listener.old }
{
    // Nobody rings for watchers: from now on a wait lasts until something comes, for ten seconds at most.
    let _bell = listener.bell();
    for _turn in 0..turns {
        accept_once(rt, alloc, watcher, listener);
    }
}
