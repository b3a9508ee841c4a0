//! A connection is served until it ends.
ghost use Rattle.std.specs.Prelude.{◌≡◌, ◌<◌};
ghost use Rattle.ted_watch.specs.Watch.{known, list_at};
ghost use Rattle.ted_watch.specs.Serving.{IsOpen, IsTurned, Watches, quiets_behind, sides};

use crate::taking::take_piece;
use crate::watch::Watcher;
use dom_base::NoMemory;
use dom_edge::{Got, Wire, WriteFailed};
use std::alloc::Global;
use std::sync::Wait;

// As many reads as this may be quiet one behind the other: a minute, where each waits ten seconds.
const QUIET_MOST: u32 = 6;

/// How it ended: the peer closed the connection, reading or writing failed, 64 bytes stood without a line end, nothing
/// came in six reads one behind the other, all turns were made, or there was no memory.
#[derive(Clone, Copy, Debug, PartialEq)]
pub enum Watched {
    PeerEnd,
    ReadFault,
    WriteFault,
    LongLine,
    Silent,
    Turns,
    NoMemory,
}

impl From<NoMemory> for Watched {
    ghost use Rattle.ted_watch.specs.declared.serving.Watched.TheVariants.{NoMemory};

    ghost from_gives = { λ _ e. e ≡ NoMemory };

    fn from(_: NoMemory) -> Self {
        Watched::NoMemory
    }
}

impl From<WriteFailed> for Watched {
    ghost use Rattle.ted_watch.specs.declared.serving.Watched.TheVariants.{WriteFault};

    ghost from_gives = { λ _ e. e ≡ WriteFault };

    fn from(_: WriteFailed) -> Self {
        Watched::WriteFault
    }
}

// Reads once, and answers the lines that end in what came. Whether something came.
fn turn<L: Wire, R: Wait>(
    rt: &R,
    alloc: Global,
    watcher: &mut Watcher,
    link: &mut L,
    line: &mut Vec<u8>,
) -> Result<bool, Watched>
    requires begun { IsOpen line.old.items }
    ensures turned { IsTurned result line.old.items line.new.items (known watcher.old) (known watcher.new) (sides (L.reading link.old) (L.writing link.old)) (sides (L.reading link.new) (L.writing link.new)) }
    ensures list { list_at watcher.new ≡ list_at watcher.old }
{
    let mut buffer = [0u8; 64];
    match link.read(&mut buffer) {
        Got::Bytes(count) => match take_piece(rt, alloc, watcher, link, line, &buffer[..count]) {
            Ok(()) => Ok(true),
            Err(end) => Err(end),
        },
        Got::Quiet => Ok(false),
        Got::End => Err(Watched::PeerEnd),
        Got::Failed => Err(Watched::ReadFault),
    }
}

// How many reads were quiet one behind the other, a turn later.
fn quiets_behind(came: bool, quiets: u32) -> u32
    requires few { quiets < 6 }
    ensures { result ≡ quiets_behind came quiets }
{
    if came { 0 } else { quiets + 1 }
}

/// Answers each line that comes over the connection, in order: an AS from 1 to 65,535 with the topology of it that is
/// published, another with `bad line`. A line ends with LF, and a CR before it is skipped; bytes behind the last LF are no line.
/// In each turn it reads once. Where six reads one behind the other were quiet it ends. It has no way to the network, so it takes no turn at its lock.
pub fn serve_watch<L: Wire, R: Wait>(
    rt: &R,
    alloc: Global,
    watcher: &mut Watcher,
    link: &mut L,
    turns: u64,
) -> Watched
    ensures watches { Watches turns result (known watcher.old) (known watcher.new) (sides (L.reading link.old) (L.writing link.old)) (sides (L.reading link.new) (L.writing link.new)) }
    ensures list { list_at watcher.new ≡ list_at watcher.old }
{
    let mut line = Vec::new(alloc);
    let mut quiets = 0;
    for _turn in 0..turns {
        match turn(rt, alloc, watcher, link, &mut line) {
            Ok(came) => {
                quiets = quiets_behind(came, quiets);
                if quiets == QUIET_MOST {
                    return Watched::Silent;
                }
            }
            Err(end) => return end,
        }
    }
    Watched::Turns
}
