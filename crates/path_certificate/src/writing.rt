//! The text of a certificate.
ghost use Rattle.std.specs.Prelude.{◌≡◌, ◌≢◌, ◌++◌, ◌∷◌, [], ℕ, Some, Ok, None, IfOk, OnOk, All, map};
ghost use Rattle.dom_base.specs.AddrText.{addr_in, addr_text};
ghost use Rattle.line_text.specs.Spelling.{line_text};
ghost use Rattle.te_links.specs.Rows.{Rows};
ghost use Rattle.path_certificate.specs.Rows.{AreLabelRows};
ghost use Rattle.path_certificate.specs.Text.{certificate_in};
ghost use Rattle.path_certificate.specs.CertificateText.{certificate_text, header_words, row_words, rows_text, spaced, AreAddrs, IsPathWritten, IsWritten, IsWrittenHeader};

use crate::certificate::Certificate;
use crate::text_row::TextRow;
use dom_base::{Addr, As, Bytes, Label, List, NoMemory, write_addr, write_number};
use std::alloc::Global;

// Each of these writes a line at the end. On `NoMemory` a part of it may stand there.

fn write_header(own: As, into: &mut Vec<u8>) -> Result<(), NoMemory>
    ensures ok { OnOk result (into.new.items ≡ into.old.items ++ line_text (header_words own)) }
    ensures again { OnOk result (IsWrittenHeader own) }
{
    into.extend_from_slice(b"certificate ")?;
    write_number(u64::from(own.0), into)?;
    into.push(b'\n')?;
    Ok(())
}

fn write_no_label(addr: Addr, into: &mut Vec<u8>) -> Result<(), NoMemory>
    ensures ok { OnOk result (into.new.items ≡ into.old.items ++ line_text (row_words (TextRow.Label addr None))) }
    ensures again { OnOk result (IsWritten (TextRow.Label addr None)) }
{
    into.extend_from_slice(b"label ")?;
    write_addr(addr, into)?;
    into.extend_from_slice(b" -\n")?;
    Ok(())
}

fn write_label(addr: Addr, label: &Label, into: &mut Vec<u8>) -> Result<(), NoMemory>
    ensures ok { OnOk result (into.new.items ≡ into.old.items ++ line_text (row_words (TextRow.Label addr (Some label.now)))) }
    ensures again { OnOk result (IsWritten (TextRow.Label addr (Some label.now))) }
{
    into.extend_from_slice(b"label ")?;
    write_addr(addr, into)?;
    into.push(b' ')?;
    write_number(u64::from(label.cost.get()), into)?;
    into.push(b' ')?;
    write_addr(label.exit, into)?;
    into.push(b'\n')?;
    Ok(())
}

fn write_row(addr: Addr, label: &Option<Label>, into: &mut Vec<u8>) -> Result<(), NoMemory>
    ensures ok { OnOk result (into.new.items ≡ into.old.items ++ line_text (row_words (TextRow.Label addr label.now))) }
    ensures again { OnOk result (IsWritten (TextRow.Label addr label.now)) }
{
    match label {
        Some(label) => write_label(addr, label, into),
        None => write_no_label(addr, into),
    }
}

/// Writes addresses at the end, with a blank before each. On `NoMemory` a part of them may stand
/// there.
pub fn write_addrs(addrs: &[Addr], into: &mut Vec<u8>) -> Result<(), NoMemory>
    ensures ok { OnOk result (into.new.items ≡ into.old.items ++ spaced (map addr_text addrs.now)) }
    ensures again { OnOk result (AreAddrs addrs.now) }
{
    for addr in addrs {
        into.push(b' ')?;
        write_addr(*addr, into)?;
    }
    Ok(())
}

fn write_no_path(into: &mut Vec<u8>) -> Result<(), NoMemory>
    ensures { OnOk result (into.new.items ≡ into.old.items ++ line_text (row_words (TextRow.Path None))) }
{
    into.extend_from_slice(b"path -\n")?;
    Ok(())
}

fn write_whole_path(addrs: &[Addr], into: &mut Vec<u8>) -> Result<(), NoMemory>
    ensures ok { OnOk result (into.new.items ≡ into.old.items ++ line_text (row_words (TextRow.Path (Some addrs.now)))) }
    ensures again { OnOk result (AreAddrs addrs.now) }
{
    into.extend_from_slice(b"path")?;
    write_addrs(addrs, into)?;
    into.push(b'\n')?;
    Ok(())
}

fn write_path(path: &Option<List<Addr>>, into: &mut Vec<u8>) -> Result<(), NoMemory>
    ensures ok { OnOk result (into.new.items ≡ into.old.items ++ line_text (row_words (TextRow.Path path.now))) }
    ensures again { OnOk result (IsPathWritten path.now) }
{
    match path {
        Some(addrs) => write_whole_path(addrs.as_slice(), into),
        None => write_no_path(into),
    }
}

fn write_rows(rows: &[(Addr, Option<Label>)], into: &mut Vec<u8>) -> Result<(), NoMemory>
    ensures ok { OnOk result (into.new.items ≡ into.old.items ++ rows_text rows.now) }
    ensures again { OnOk result (All (λ row. IsWritten (TextRow.Label row.0 row.1)) rows.now) }
{
    for row in rows {
        write_row(row.0, &row.1, into)?;
    }
    Ok(())
}

/// The text of a certificate. It is read again as the same certificate, for a topology of its domain
/// where the labels stand at nodes in rising order and the path, if there is one, has an address.
pub fn write_certificate(alloc: Global, certificate: &Certificate) -> Result<Bytes, NoMemory>
    ensures text { IfOk result (λ bytes. bytes ≡ certificate_text certificate.now) }
    ensures again { IfOk result (λ bytes. (g : Rows) → g.own ≡ certificate.now.own → AreLabelRows g.nodes certificate.now.labels → certificate.now.path ≢ Some [] → certificate_in g bytes ≡ Ok certificate.now) }
{
    let mut text = Vec::new(alloc);
    write_header(certificate.own, &mut text)?;
    write_rows(certificate.labels.as_slice(), &mut text)?;
    write_path(&certificate.path, &mut text)?;
    Ok(List::from_vec(text))
}
