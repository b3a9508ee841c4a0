//! Bytes that come in are cut into lines, and each line is answered.
ghost use Rattle.std.specs.Prelude.{◌≡◌, ◌≢◌, ◌∷◌, []};
ghost use Rattle.ted_watch.specs.Watch.{known, list_at};
ghost use Rattle.ted_watch.specs.Serving.{Feeds, GoesOn, IsOpen};

use crate::answers::write_answer;
use crate::serving::Watched;
use crate::watch::Watcher;
use dom_edge::{Wire, write_whole};
use std::alloc::Global;
use std::sync::Wait;

// How many bytes without a line end are too long.
const LINE_MAX: usize = 64;

// The line is answered, and a new one begins.
fn end_line<L: Wire, R: Wait>(
    rt: &R,
    alloc: Global,
    watcher: &mut Watcher,
    link: &mut L,
    line: &mut Vec<u8>,
) -> Result<(), Watched>
    requires begun { IsOpen line.old.items }
    ensures feeds { Feeds (10 ∷ []) result line.old.items line.new.items (known watcher.old) (known watcher.new) (L.writing link.old) (L.writing link.new) }
    ensures list { list_at watcher.new ≡ list_at watcher.old }
    ensures reading { L.reading link.new ≡ L.reading link.old }
{
    let mut text = Vec::new(alloc);
    write_answer(rt, watcher, line, &mut text)?;
    write_whole(link, &text)?;
    line.clear();
    Ok(())
}

// The line goes on by one byte.
fn go_on(line: &mut Vec<u8>, byte: u8) -> Result<(), Watched>
    requires begun { IsOpen line.old.items }
    requires inside { byte ≢ 10 }
    ensures { GoesOn byte result line.old.items line.new.items }
{
    if line.push(byte).is_err() {
        return Err(Watched::NoMemory);
    }
    if line.len() == LINE_MAX {
        return Err(Watched::LongLine);
    }
    Ok(())
}

fn take_byte<L: Wire, R: Wait>(
    rt: &R,
    alloc: Global,
    watcher: &mut Watcher,
    link: &mut L,
    line: &mut Vec<u8>,
    byte: u8,
) -> Result<(), Watched>
    requires begun { IsOpen line.old.items }
    ensures feeds { Feeds (byte ∷ []) result line.old.items line.new.items (known watcher.old) (known watcher.new) (L.writing link.old) (L.writing link.new) }
    ensures list { list_at watcher.new ≡ list_at watcher.old }
    ensures reading { L.reading link.new ≡ L.reading link.old }
{
    if byte == b'\n' {
        end_line(rt, alloc, watcher, link, line)
    } else {
        go_on(line, byte)
    }
}

/// Takes the bytes of a piece, one after the other, behind those of the line that was begun.
pub(crate) fn take_piece<L: Wire, R: Wait>(
    rt: &R,
    alloc: Global,
    watcher: &mut Watcher,
    link: &mut L,
    line: &mut Vec<u8>,
    piece: &[u8],
) -> Result<(), Watched>
    requires begun { IsOpen line.old.items }
    ensures feeds { Feeds piece.now result line.old.items line.new.items (known watcher.old) (known watcher.new) (L.writing link.old) (L.writing link.new) }
    ensures list { list_at watcher.new ≡ list_at watcher.old }
    ensures reading { L.reading link.new ≡ L.reading link.old }
{
    for byte in piece {
        take_byte(rt, alloc, watcher, link, line, *byte)?;
    }
    Ok(())
}
