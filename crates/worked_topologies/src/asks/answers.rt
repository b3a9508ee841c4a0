//! The answer to an ask as lines, each behind a line end.
use border_costs::{Job, Solved, border_table};
use dom_base::{Addr, BorderRow, Label, NoMemory, write_addr, write_number};
use path_certificate::Certificate;
use std::alloc::Global;
use vspt_tree::Best;

fn put_addr(addr: Addr, text: &mut Vec<u8>) -> Result<(), NoMemory> {
    text.push(b' ')?;
    write_addr(addr, text)
}

pub(crate) fn put_number(number: u64, text: &mut Vec<u8>) -> Result<(), NoMemory> {
    text.push(b' ')?;
    write_number(number, text)
}

// The domains of the job and of its topology, its number, and which ends are known.
fn put_ends(solved: &Solved, text: &mut Vec<u8>) -> Result<(), NoMemory> {
    text.extend_from_slice(b"\nsolved")?;
    put_number(u64::from(solved.at().0), text)?;
    put_number(u64::from(solved.own().0), text)?;
    put_number(solved.number(), text)?;
    if solved.source_known() {
        text.extend_from_slice(b" source")?;
    }
    if solved.target_known() {
        text.extend_from_slice(b" target")?;
    }
    Ok(())
}

// The entry, the cost, the exit and the head of a way, and its segment.
fn put_best(best: &Best, text: &mut Vec<u8>) -> Result<(), NoMemory> {
    text.extend_from_slice(b"\nbest")?;
    put_addr(best.entry, text)?;
    put_number(u64::from(best.cost.get()), text)?;
    put_addr(best.exit, text)?;
    match best.head {
        Some(head) => put_addr(head, text)?,
        None => text.extend_from_slice(b" -")?,
    }
    text.extend_from_slice(b" via")?;
    for addr in best.segment.as_slice() {
        put_addr(*addr, text)?;
    }
    Ok(())
}

fn put_label(label: &Option<Label>, text: &mut Vec<u8>) -> Result<(), NoMemory> {
    match label {
        Some(label) => {
            put_number(u64::from(label.cost.get()), text)?;
            put_addr(label.exit, text)
        }
        None => Ok(text.extend_from_slice(b" -")?),
    }
}

/// The ends, and the best way from each entry.
pub(crate) fn put_answer(solved: &Solved, text: &mut Vec<u8>) -> Result<(), NoMemory> {
    put_ends(solved, text)?;
    for best in solved.best() {
        put_best(best, text)?;
    }
    Ok(())
}

/// The label of each node.
pub(crate) fn put_labels(certificate: &Certificate, text: &mut Vec<u8>) -> Result<(), NoMemory> {
    text.extend_from_slice(b"\nlabels")?;
    for row in certificate.labels.as_slice() {
        put_label(&row.1, text)?;
    }
    Ok(())
}

fn put_row(row: &BorderRow, text: &mut Vec<u8>) -> Result<(), NoMemory> {
    text.extend_from_slice(b"\nrow")?;
    put_addr(row.entry, text)?;
    put_addr(row.far, text)?;
    put_addr(row.head, text)?;
    put_number(u64::from(row.cost.get()), text)
}

/// The rows of a job's border table.
pub(crate) fn put_table(alloc: Global, job: &Job, text: &mut Vec<u8>) -> Result<(), NoMemory> {
    let table = border_table(alloc, job)?;
    for row in table.as_slice() {
        put_row(row, text)?;
    }
    Ok(())
}
