//! The lines of a transcript. Each call writes at the end; on `NoMemory` a part may stand there.
ghost use Rattle.std.specs.Prelude.{◌≡◌, ◌++◌, ◌∷◌, [], ◌<◌, ◌+◌, codes, decimal, drop, length, OnOk};
ghost use Rattle.line_text.specs.Hexadecimal.{hex_text};
ghost use Rattle.plant_text.specs.Settings.{peer_row};
ghost use Rattle.plant_text.specs.Sents.{sent_line};
ghost use Rattle.transcript.specs.Lines.{answer_line, answer_text, bytes_text, carry_line, certified_text, ended_text, label_end, label_text, labels_text, name_from, name_of, numbered, outcome_text, refused_text, row_text, rows_text, sents_text, solve_line, take_line};

use dom_base::{Addr, As, BorderRow, Label, NoMemory, Peer, write_addr, write_number};
use line_text::write_hex;
use network_links::model::{Outcome, Refused};
use path_certificate::Certificate;
use plant_queues::Said;
use plant_text::PeerRow;
use std::alloc::Global;

fn write_words(words: &[u8], into: &mut Vec<u8>) -> Result<(), NoMemory>
    ensures { OnOk result (into.new.items ≡ into.old.items ++ words.now) }
{
    into.extend_from_slice(words)?;
    Ok(())
}

fn write_not_holder(holder: u32, into: &mut Vec<u8>) -> Result<(), NoMemory>
    ensures { OnOk result (into.new.items ≡ into.old.items ++ refused_text (Refused.NotHolder holder)) }
{
    into.extend_from_slice(b"refused not holder ")?;
    write_number(u64::from(holder), into)?;
    Ok(())
}

fn write_refused(why: &Refused, into: &mut Vec<u8>) -> Result<(), NoMemory>
    ensures { OnOk result (into.new.items ≡ into.old.items ++ refused_text why.now) }
{
    match why {
        Refused::GenerationsFull => write_words(b"refused generations full", into),
        Refused::NoSuchPeer => write_words(b"refused no such peer", into),
        Refused::NotHolder(holder) => write_not_holder(*holder, into),
        Refused::NothingToCarry => write_words(b"refused nothing to carry", into),
        Refused::NoSuchJob => write_words(b"refused no such job", into),
        Refused::NoMemory => write_words(b"refused no memory", into),
    }
}

fn write_digits(alloc: Global, bytes: &[u8], into: &mut Vec<u8>) -> Result<(), NoMemory>
    ensures { OnOk result (into.new.items ≡ into.old.items ++ hex_text bytes.now) }
{
    let digits = write_hex(alloc, bytes)?;
    into.extend_from_slice(&digits)?;
    Ok(())
}

fn write_bytes(alloc: Global, bytes: &[u8], into: &mut Vec<u8>) -> Result<(), NoMemory>
    ensures { OnOk result (into.new.items ≡ into.old.items ++ bytes_text bytes.now) }
{
    if bytes.is_empty() {
        into.push(b'-')?;
    } else {
        write_digits(alloc, bytes, into)?;
    }
    Ok(())
}

fn write_loaded(generation: u64, into: &mut Vec<u8>) -> Result<(), NoMemory>
    ensures { OnOk result (into.new.items ≡ into.old.items ++ outcome_text (Outcome.Loaded generation)) }
{
    into.extend_from_slice(b"ok generation ")?;
    write_number(generation, into)?;
    Ok(())
}

fn write_ended(ended: bool, into: &mut Vec<u8>) -> Result<(), NoMemory>
    ensures { OnOk result (into.new.items ≡ into.old.items ++ ended_text ended) }
{
    if ended {
        write_words(b" ended", into)
    } else {
        Ok(())
    }
}

fn write_drained(
    alloc: Global,
    bytes: &[u8],
    ended: bool,
    into: &mut Vec<u8>,
) -> Result<(), NoMemory>
    ensures { OnOk result (into.new.items ≡ into.old.items ++ outcome_text (Outcome.Drained bytes.now ended)) }
{
    write_words(b"ok ", into)?;
    write_bytes(alloc, bytes, into)?;
    write_ended(ended, into)
}

fn write_outcome(alloc: Global, outcome: &Outcome, into: &mut Vec<u8>) -> Result<(), NoMemory>
    ensures { OnOk result (into.new.items ≡ into.old.items ++ outcome_text outcome.now) }
{
    match outcome {
        Outcome::Done => write_words(b"ok", into),
        Outcome::Loaded(generation) => write_loaded(*generation, into),
        Outcome::Drained { bytes, ended } => {
            write_drained(alloc, bytes.as_slice(), *ended, into)
        }
    }
}

fn write_what_came(
    alloc: Global,
    answer: &Result<Outcome, Refused>,
    into: &mut Vec<u8>,
) -> Result<(), NoMemory>
    ensures { OnOk result (into.new.items ≡ into.old.items ++ answer_text answer.now) }
{
    match answer {
        Ok(outcome) => write_outcome(alloc, outcome, into),
        Err(why) => write_refused(why, into),
    }
}

fn write_head(line: u32, into: &mut Vec<u8>) -> Result<(), NoMemory>
    ensures { OnOk result (into.new.items ≡ into.old.items ++ decimal line ++ 32 ∷ []) }
{
    write_number(u64::from(line), into)?;
    into.push(b' ')?;
    Ok(())
}

/// Writes the outcome of an event: `LINE ok`, `LINE ok generation G`, `LINE ok HEX` with ` ended` behind it where a
/// session is over and `-` for no bytes, or `LINE refused WHY`.
pub fn write_answer(
    alloc: Global,
    line: u32,
    answer: &Result<Outcome, Refused>,
    into: &mut Vec<u8>,
) -> Result<(), NoMemory>
    ensures { OnOk result (into.new.items ≡ into.old.items ++ answer_line line answer.now) }
{
    write_head(line, into)?;
    write_what_came(alloc, answer, into)?;
    into.push(b'\n')?;
    Ok(())
}

/// Writes that the first item of a peer's inbox was taken: `LINE take NAME`.
pub fn write_take(line: u32, name: &str, into: &mut Vec<u8>) -> Result<(), NoMemory>
    ensures { OnOk result (into.new.items ≡ into.old.items ++ take_line line name.now) }
{
    write_head(line, into)?;
    into.extend_from_slice(b"take ")?;
    into.extend_from_slice(name.as_bytes())?;
    into.push(b'\n')?;
    Ok(())
}

/// Writes that a message was carried: `LINE carry FROM TO`.
pub fn write_carry(line: u32, from: As, to: As, into: &mut Vec<u8>) -> Result<(), NoMemory>
    ensures { OnOk result (into.new.items ≡ into.old.items ++ carry_line line from to) }
{
    write_head(line, into)?;
    into.extend_from_slice(b"carry ")?;
    write_number(u64::from(from.0), into)?;
    into.push(b' ')?;
    write_number(u64::from(to.0), into)?;
    into.push(b'\n')?;
    Ok(())
}

/// Writes that a job was solved: `LINE solve AS NUMBER`.
pub fn write_solve(line: u32, at: As, number: u64, into: &mut Vec<u8>) -> Result<(), NoMemory>
    ensures { OnOk result (into.new.items ≡ into.old.items ++ solve_line line at number) }
{
    write_head(line, into)?;
    into.extend_from_slice(b"solve ")?;
    write_number(u64::from(at.0), into)?;
    into.push(b' ')?;
    write_number(number, into)?;
    into.push(b'\n')?;
    Ok(())
}

// The name of an outside peer; nothing where there is none of that number.
fn name_at(peers: &[PeerRow], number: u32) -> &str
    ensures { result.now ≡ name_from (peer_row number peers.now) }
{
    match peers.get(number as usize) {
        Some(row) => row.name.as_str(),
        None => "",
    }
}

fn write_domain(at: As, into: &mut Vec<u8>) -> Result<(), NoMemory>
    ensures { OnOk result (into.new.items ≡ into.old.items ++ decimal at.0) }
{
    write_number(u64::from(at.0), into)?;
    Ok(())
}

fn write_name(peers: &[PeerRow], to: Peer, into: &mut Vec<u8>) -> Result<(), NoMemory>
    ensures { OnOk result (into.new.items ≡ into.old.items ++ name_of peers.now to) }
{
    match to {
        Peer::Inner(at) => write_domain(at, into),
        Peer::Outside(number) => write_words(name_at(peers, number).as_bytes(), into),
    }
}

fn write_way(peers: &[PeerRow], from: As, to: Peer, into: &mut Vec<u8>) -> Result<(), NoMemory>
    ensures { OnOk result (into.new.items ≡ into.old.items ++ decimal from.0 ++ 62 ∷ [] ++ name_of peers.now to ++ 32 ∷ []) }
{
    write_number(u64::from(from.0), into)?;
    into.push(b'>')?;
    write_name(peers, to, into)?;
    into.push(b' ')?;
    Ok(())
}

/// Writes a message of an event as `LINE FROM>TO HEX`: an element by its domain, the parent as 0, an outside peer by its
/// name in the settings.
pub fn write_sent(
    alloc: Global,
    line: u32,
    peers: &[PeerRow],
    from: As,
    to: Peer,
    bytes: &[u8],
    into: &mut Vec<u8>,
) -> Result<(), NoMemory>
    ensures { OnOk result (into.new.items ≡ into.old.items ++ sent_line line from (name_of peers.now to) bytes.now) }
{
    write_head(line, into)?;
    write_way(peers, from, to, into)?;
    write_digits(alloc, bytes, into)?;
    into.push(b'\n')?;
    Ok(())
}

// The k-th message, which is the first of those from there on.
fn write_kth(
    alloc: Global,
    line: u32,
    peers: &[PeerRow],
    said: &Said,
    k: usize,
    into: &mut Vec<u8>,
) -> Result<(), NoMemory>
    requires { k < length said.now.kept }
    ensures { OnOk result (into.new.items ++ sents_text line peers.now (drop (k + 1) said.now.kept) ≡ into.old.items ++ sents_text line peers.now (drop k said.now.kept)) }
{
    let (from, to) = said.way(k);
    write_sent(alloc, line, peers, from, to, said.bytes(k), into)?;
    Ok(())
}

/// Writes the messages of an event, one by one.
pub fn write_said(
    alloc: Global,
    line: u32,
    peers: &[PeerRow],
    said: &Said,
    into: &mut Vec<u8>,
) -> Result<(), NoMemory>
    ensures { OnOk result (into.new.items ≡ into.old.items ++ sents_text line peers.now said.now.kept) }
{
    for k in 0..said.len() {
        write_kth(alloc, line, peers, said, k, into)?;
    }
    Ok(())
}

fn write_row(line: u32, row: &BorderRow, into: &mut Vec<u8>) -> Result<(), NoMemory>
    ensures { OnOk result (into.new.items ≡ into.old.items ++ numbered line (row_text row.now)) }
{
    write_head(line, into)?;
    into.extend_from_slice(b"row ")?;
    write_addr(row.entry, into)?;
    into.push(b' ')?;
    write_addr(row.far, into)?;
    into.push(b' ')?;
    write_addr(row.head, into)?;
    into.push(b' ')?;
    write_number(u64::from(row.cost.get()), into)?;
    into.push(b'\n')?;
    Ok(())
}

/// Writes the rows of a border table, each as `LINE row ENTRY FAR HEAD COST`.
pub fn write_rows(line: u32, rows: &[BorderRow], into: &mut Vec<u8>) -> Result<(), NoMemory>
    ensures { OnOk result (into.new.items ≡ into.old.items ++ rows_text line rows.now) }
{
    for row in rows {
        write_row(line, row, into)?;
    }
    Ok(())
}

fn write_certificate_head(line: u32, own: As, into: &mut Vec<u8>) -> Result<(), NoMemory>
    ensures { OnOk result (into.new.items ≡ into.old.items ++ numbered line (codes "certificate " ++ decimal own.0)) }
{
    write_head(line, into)?;
    into.extend_from_slice(b"certificate ")?;
    write_number(u64::from(own.0), into)?;
    into.push(b'\n')?;
    Ok(())
}

fn write_label_end(label: &Option<Label>, into: &mut Vec<u8>) -> Result<(), NoMemory>
    ensures { OnOk result (into.new.items ≡ into.old.items ++ label_end label.now) }
{
    match label {
        Some(label) => {
            write_number(u64::from(label.cost.get()), into)?;
            into.push(b' ')?;
            write_addr(label.exit, into)?;
            Ok(())
        }
        None => write_words(b"-", into),
    }
}

fn write_label(line: u32, row: &(Addr, Option<Label>), into: &mut Vec<u8>) -> Result<(), NoMemory>
    ensures { OnOk result (into.new.items ≡ into.old.items ++ numbered line (label_text row.now)) }
{
    write_head(line, into)?;
    into.extend_from_slice(b"label ")?;
    write_addr(row.0, into)?;
    into.push(b' ')?;
    write_label_end(&row.1, into)?;
    into.push(b'\n')?;
    Ok(())
}

fn write_labels(
    line: u32,
    rows: &[(Addr, Option<Label>)],
    into: &mut Vec<u8>,
) -> Result<(), NoMemory>
    ensures { OnOk result (into.new.items ≡ into.old.items ++ labels_text line rows.now) }
{
    for row in rows {
        write_label(line, row, into)?;
    }
    Ok(())
}

/// Writes the lines of a certificate but its path, each behind the number of the line.
pub fn write_certified(
    line: u32,
    certificate: &Certificate,
    into: &mut Vec<u8>,
) -> Result<(), NoMemory>
    ensures { OnOk result (into.new.items ≡ into.old.items ++ certified_text line certificate.now) }
{
    write_certificate_head(line, certificate.own, into)?;
    write_labels(line, certificate.labels.as_slice(), into)
}
