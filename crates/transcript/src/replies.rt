//! The answer to a client, as lines for a person to read. Each call writes at the end; on `NoMemory` a part may
//! stand there.
ghost use Rattle.std.specs.Prelude.{◌≡◌, ◌++◌, OnOk};
ghost use Rattle.transcript.specs.Replies.{answer_lines, cost_line, cost_lines, hop_lines, hop_text, message_lines, notices_lines, pair_line, path_lines, replies_lines, reports_lines};

use dom_base::{NoMemory, units_of_word, write_addr, write_colour, write_number};
use pcep_messages::{Answer, ErrorReport, Message, Notice, Path, Reply};
use pcep_subobjects::Hop;

fn write_hop(hop: &Hop, into: &mut Vec<u8>) -> Result<(), NoMemory>
    ensures { OnOk result (into.new.items ≡ into.old.items ++ hop_text hop.now) }
{
    match hop {
        Hop::Prefix { addr, .. } => write_addr(*addr, into)?,
        Hop::Key { key, pce, .. } => {
            into.extend_from_slice(b"key ")?;
            write_number(u64::from(*key), into)?;
            into.extend_from_slice(b" at ")?;
            write_addr(*pce, into)?;
        }
        Hop::AsNumber { number, .. } => {
            into.extend_from_slice(b"as ")?;
            write_number(u64::from(number.0), into)?;
        }
        Hop::Other { kind, .. } => {
            into.extend_from_slice(b"other ")?;
            write_number(u64::from(*kind), into)?;
        }
    }
    Ok(())
}

fn write_hops(hops: &[Hop], into: &mut Vec<u8>) -> Result<(), NoMemory>
    ensures { OnOk result (into.new.items ≡ into.old.items ++ hop_lines hops.now) }
{
    for hop in hops {
        write_hop(hop, into)?;
        into.push(b'\n')?;
    }
    Ok(())
}

fn write_cost(cost: Option<u64>, into: &mut Vec<u8>) -> Result<(), NoMemory>
    ensures { OnOk result (into.new.items ≡ into.old.items ++ cost_line cost) }
{
    if let Some(cost) = cost {
        into.extend_from_slice(b"cost ")?;
        write_number(cost, into)?;
        into.push(b'\n')?;
    }
    Ok(())
}

fn write_metric(metric: &Option<(u8, u32)>, into: &mut Vec<u8>) -> Result<(), NoMemory>
    ensures { OnOk result (into.new.items ≡ into.old.items ++ cost_lines metric.now) }
{
    match metric {
        Some((_, word)) => write_cost(units_of_word(*word), into),
        None => Ok(()),
    }
}

fn write_paths(paths: &[Path], into: &mut Vec<u8>) -> Result<(), NoMemory>
    ensures { OnOk result (into.new.items ≡ into.old.items ++ path_lines paths.now) }
{
    match paths {
        [] => Ok(()),
        [path, ..] => {
            write_metric(&path.metric, into)?;
            write_hops(path.hops.as_slice(), into)
        }
    }
}

fn write_no_path(nature: u8, vector: u32, into: &mut Vec<u8>) -> Result<(), NoMemory>
    ensures { OnOk result (into.new.items ≡ into.old.items ++ answer_lines (Answer.NoPath nature vector)) }
{
    into.extend_from_slice(b"no-path ")?;
    write_number(u64::from(nature), into)?;
    into.push(b' ')?;
    write_colour(vector, into)?;
    into.push(b'\n')?;
    Ok(())
}

fn write_replies(replies: &[Reply], into: &mut Vec<u8>) -> Result<(), NoMemory>
    ensures { OnOk result (into.new.items ≡ into.old.items ++ replies_lines replies.now) }
{
    match replies {
        [] => Ok(()),
        [reply, ..] => match &reply.answer {
            Answer::Paths(paths) => write_paths(paths.as_slice(), into),
            Answer::NoPath { nature, vector } => write_no_path(*nature, *vector, into),
        },
    }
}

// The first type and value behind a word.
fn write_pair(word: &[u8], pairs: &[(u8, u8)], into: &mut Vec<u8>) -> Result<(), NoMemory>
    ensures { OnOk result (into.new.items ≡ into.old.items ++ pair_line word.now pairs.now) }
{
    if let [pair, ..] = pairs {
        into.extend_from_slice(word)?;
        write_number(u64::from(pair.0), into)?;
        into.push(b' ')?;
        write_number(u64::from(pair.1), into)?;
        into.push(b'\n')?;
    }
    Ok(())
}

fn write_notices(notices: &[Notice], into: &mut Vec<u8>) -> Result<(), NoMemory>
    ensures { OnOk result (into.new.items ≡ into.old.items ++ notices_lines notices.now) }
{
    match notices {
        [] => Ok(()),
        [notice, ..] => write_pair(b"notice ", notice.kinds.as_slice(), into),
    }
}

fn write_reports(reports: &[ErrorReport], into: &mut Vec<u8>) -> Result<(), NoMemory>
    ensures { OnOk result (into.new.items ≡ into.old.items ++ reports_lines reports.now) }
{
    match reports {
        [] => Ok(()),
        [report, ..] => write_pair(b"error ", report.errors.as_slice(), into),
    }
}

/// Writes what a message answers a client: `cost C` and one hop a line (an address, or `key K at ADDR`), `no-path NATURE
/// VECTOR` with eight hexadecimal digits, `notice TYPE VALUE` or `error TYPE VALUE`. Another message writes nothing.
pub fn write_message_lines(message: &Message, into: &mut Vec<u8>) -> Result<(), NoMemory>
    ensures { OnOk result (into.new.items ≡ into.old.items ++ message_lines message.now) }
{
    match message {
        Message::PcRep(replies) => write_replies(replies.as_slice(), into),
        Message::PcNtf(notices) => write_notices(notices.as_slice(), into),
        Message::PcErr(reports) => write_reports(reports.as_slice(), into),
        Message::PcReq(_)
        | Message::Open(_)
        | Message::Keepalive
        | Message::Close(_)
        | Message::Other(_) => Ok(()),
    }
}
