//! The answer to a line.
ghost use Rattle.std.specs.Prelude.{◌≡◌, ◌++◌, OnOk};
ghost use Rattle.std.specs.Str.Lines.{strip_carriage_return};
ghost use Rattle.ted_watch.specs.Watch.{known, list_at};
ghost use Rattle.ted_watch.specs.Answers.{Reads, asked_in, bad_text, counts_text, said_text, shown_text, text_of};

use crate::shown::Shown;
use crate::watch::Watcher;
use dom_base::{As, NoMemory, read_number, write_number};
use std::sync::Wait;

// A line without the CR at its end.
fn without_return(line: &[u8]) -> &[u8]
    ensures { result.now ≡ strip_carriage_return line.now }
{
    match line {
        [front @ .., b'\r'] => front,
        _ => line,
    }
}

// The AS that a line asks for.
fn asked_in(line: &[u8]) -> Option<As>
    ensures { result ≡ asked_in line.now }
{
    let Some(number) = read_number(without_return(line), 65_535) else {
        return None;
    };
    if number == 0 {
        return None;
    }
    Some(As(number as u16))
}

// What is published of a topology.
fn write_counts(shown: &Shown, into: &mut Vec<u8>) -> Result<(), NoMemory>
    ensures { OnOk result (into.new.items ≡ into.old.items ++ counts_text shown.now) }
{
    into.extend_from_slice(b" generation ")?;
    write_number(shown.generation, into)?;
    into.extend_from_slice(b" nodes ")?;
    write_number(u64::from(shown.nodes), into)?;
    into.extend_from_slice(b" links ")?;
    write_number(u64::from(shown.links), into)?;
    Ok(())
}

fn write_said(shown: Option<Shown>, into: &mut Vec<u8>) -> Result<(), NoMemory>
    ensures { OnOk result (into.new.items ≡ into.old.items ++ said_text shown) }
{
    match shown {
        Some(shown) => write_counts(&shown, into),
        None => {
            into.extend_from_slice(b" none")?;
            Ok(())
        }
    }
}

// What is published of an AS.
fn write_shown(at: As, shown: Option<Shown>, into: &mut Vec<u8>) -> Result<(), NoMemory>
    ensures { OnOk result (into.new.items ≡ into.old.items ++ shown_text at shown) }
{
    write_number(u64::from(at.0), into)?;
    write_said(shown, into)?;
    into.push(b'\n')?;
    Ok(())
}

// What is said of a line that asks for no AS.
fn write_bad(into: &mut Vec<u8>) -> Result<(), NoMemory>
    ensures { OnOk result (into.new.items ≡ into.old.items ++ bad_text) }
{
    into.extend_from_slice(b"bad line\n")?;
    Ok(())
}

/// Writes the answer to a line at the end of a text. The watcher reads once where the line asks for an AS.
pub(crate) fn write_answer<R: Wait>(
    rt: &R,
    watcher: &mut Watcher,
    line: &[u8],
    into: &mut Vec<u8>,
) -> Result<(), NoMemory>
    ensures reads { Reads (asked_in line.now) (known watcher.old) (known watcher.new) }
    ensures list { list_at watcher.new ≡ list_at watcher.old }
    ensures text { OnOk result (into.new.items ≡ into.old.items ++ text_of (asked_in line.now) (known watcher.new)) }
{
    match asked_in(line) {
        Some(at) => {
            let shown = watcher.read(rt, at);
            write_shown(at, shown, into)
        }
        None => write_bad(into),
    }
}
