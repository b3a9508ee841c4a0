//! The transcript of events: as text, or none where nobody reads it.
ghost use Rattle.std.specs.Prelude.{◌≡◌, true, false, OnOk};
ghost use Rattle.transcript.specs.Lines.{answer_line, carry_line, certified_text, rows_text, sents_text, solve_line, take_line};
ghost use Rattle.plant_play.specs.Logs.{behind, untold};

use dom_base::{As, BorderRow, NoMemory};
use path_certificate::Certificate;
use plant_network::model::{Outcome, Refused};
use plant_queues::Said;
use plant_text::PeerRow;
use std::alloc::Global;
use std::marker::Model;

/// The transcript of events. An unseen log makes no text: a caller that plays lines passes one where nobody reads the
/// transcript.
pub struct Log {
    is_kept: bool,
    text: Vec<u8>,
}

// Written, so that it is proved in this crate alone.
impl Drop for Log {
    fn drop(self) {
        let Log {
            is_kept: _,
            text: _,
        } = self;
    }
}

impl Model for Log {
    ghost use Rattle.plant_play.specs.Logs.{Told};

    ghost Value = { Told };

    ghost use Rattle.plant_play.specs.LogFields.{log_of};

    ghost view = { log_of };
}

impl Log {
    /// An empty log that will keep its text.
    pub fn kept(alloc: Global) -> Log
        ensures { result ≡ untold true }
    {
        Log {
            is_kept: true,
            text: Vec::new(alloc),
        }
    }

    /// A log that keeps no text.
    pub fn unseen(alloc: Global) -> Log
        ensures { result ≡ untold false }
    {
        Log {
            is_kept: false,
            text: Vec::new(alloc),
        }
    }

    // An empty log, which will keep its text where this log does.
    pub(crate) fn beside(&self, alloc: Global) -> Log
        ensures { result ≡ untold self.now.is_kept }
    {
        Log {
            is_kept: self.is_kept,
            text: Vec::new(alloc),
        }
    }

    /// The text that was told and kept.
    pub fn text(&self) -> &[u8]
        ensures { result.now ≡ self.now.text }
    {
        &self.text
    }
}

// Appends what another log has told.
pub(crate) fn write_log(log: &Log, into: &mut Log) -> Result<(), NoMemory>
    ensures { OnOk result (into.new ≡ behind into.old log.now.text) }
{
    if !into.is_kept {
        return Ok(());
    }
    into.text.extend_from_slice(&log.text)?;
    Ok(())
}

// ---- each of these tells what the call of its name in `transcript` writes

pub(crate) fn write_answer(
    alloc: Global,
    line: u32,
    answer: &Result<Outcome, Refused>,
    into: &mut Log,
) -> Result<(), NoMemory>
    ensures { OnOk result (into.new ≡ behind into.old (answer_line line answer.now)) }
{
    if into.is_kept {
        transcript::write_answer(alloc, line, answer, &mut into.text)
    } else {
        Ok(())
    }
}

pub(crate) fn write_take(line: u32, name: &str, into: &mut Log) -> Result<(), NoMemory>
    ensures { OnOk result (into.new ≡ behind into.old (take_line line name.now)) }
{
    if into.is_kept {
        transcript::write_take(line, name, &mut into.text)
    } else {
        Ok(())
    }
}

pub(crate) fn write_carry(line: u32, from: As, to: As, into: &mut Log) -> Result<(), NoMemory>
    ensures { OnOk result (into.new ≡ behind into.old (carry_line line from to)) }
{
    if into.is_kept {
        transcript::write_carry(line, from, to, &mut into.text)
    } else {
        Ok(())
    }
}

pub(crate) fn write_solve(line: u32, at: As, number: u64, into: &mut Log) -> Result<(), NoMemory>
    ensures { OnOk result (into.new ≡ behind into.old (solve_line line at number)) }
{
    if into.is_kept {
        transcript::write_solve(line, at, number, &mut into.text)
    } else {
        Ok(())
    }
}

pub(crate) fn write_said(
    alloc: Global,
    line: u32,
    peers: &[PeerRow],
    said: &Said,
    into: &mut Log,
) -> Result<(), NoMemory>
    ensures { OnOk result (into.new ≡ behind into.old (sents_text line peers.now said.now.kept)) }
{
    if into.is_kept {
        transcript::write_said(alloc, line, peers, said, &mut into.text)
    } else {
        Ok(())
    }
}

pub(crate) fn write_rows(line: u32, rows: &[BorderRow], into: &mut Log) -> Result<(), NoMemory>
    ensures { OnOk result (into.new ≡ behind into.old (rows_text line rows.now)) }
{
    if into.is_kept {
        transcript::write_rows(line, rows, &mut into.text)
    } else {
        Ok(())
    }
}

pub(crate) fn write_certified(
    line: u32,
    certificate: &Certificate,
    into: &mut Log,
) -> Result<(), NoMemory>
    ensures { OnOk result (into.new ≡ behind into.old (certified_text line certificate.now)) }
{
    if into.is_kept {
        transcript::write_certified(line, certificate, &mut into.text)
    } else {
        Ok(())
    }
}
