//! The text of a pair's certificate.
ghost use Rattle.std.specs.Prelude.{◌≡◌, ◌++◌, ◌∷◌, [], ℕ, Ok, IfOk, OnOk, All, map};
ghost use Rattle.std.specs.List.{flat_map};
ghost use Rattle.dom_base.specs.AddrText.{addr_text};
ghost use Rattle.line_text.specs.Spelling.{line_text, text_of};
ghost use Rattle.te_links.specs.Rows.{Rows};
ghost use Rattle.path_certificate.specs.CertificateText.{spaced, AreAddrs};
ghost use Rattle.diverse_pairs.specs.Text.{pair_in};
ghost use Rattle.diverse_pairs.specs.PairText.{form_lines, header_words, nodes_words, pair_text, potential_words, row_words, IsFormWritten, CanBeTold, IsWritten, IsWrittenHeader};
ghost use Rattle.diverse_pairs.specs.declared.pair_row.PairRow.TheVariants as rows;

use crate::certificate::{PairCertificate, PairForm};
use dom_base::{Addr, As, Bytes, List, NoMemory, write_addr, write_number};
use path_certificate::write_addrs;
use std::alloc::Global;

// Each of these writes lines at the end. On `NoMemory` a part of them may stand there.

fn write_header(own: As, into: &mut Vec<u8>) -> Result<(), NoMemory>
    ensures ok { OnOk result (into.new.items ≡ into.old.items ++ line_text (header_words own)) }
    ensures again { OnOk result (IsWrittenHeader own) }
{
    into.extend_from_slice(b"pair ")?;
    write_number(u64::from(own.0), into)?;
    into.push(b'\n')?;
    Ok(())
}

fn write_potential(addr: Addr, number: u64, into: &mut Vec<u8>) -> Result<(), NoMemory>
    ensures ok { OnOk result (into.new.items ≡ into.old.items ++ line_text (potential_words (addr, number))) }
    ensures again { OnOk result (IsWritten (rows.At addr number)) }
{
    into.extend_from_slice(b"at ")?;
    write_addr(addr, into)?;
    into.push(b' ')?;
    write_number(number, into)?;
    into.push(b'\n')?;
    Ok(())
}

fn write_potentials(potentials: &[(Addr, u64)], into: &mut Vec<u8>) -> Result<(), NoMemory>
    ensures ok { OnOk result (into.new.items ≡ into.old.items ++ flat_map (λ row. line_text (potential_words row)) potentials.now) }
    ensures again { OnOk result (All (λ row. IsWritten (rows.At row.0 row.1)) potentials.now) }
{
    for row in potentials {
        write_potential(row.0, row.1, into)?;
    }
    Ok(())
}

// Addresses behind the first word of a line, and the end of the line.
fn end_line(addrs: &[Addr], into: &mut Vec<u8>) -> Result<(), NoMemory>
    ensures ok { OnOk result (into.new.items ≡ into.old.items ++ (spaced (map addr_text addrs.now) ++ 10 ∷ [])) }
    ensures again { OnOk result (AreAddrs addrs.now) }
{
    write_addrs(addrs, into)?;
    into.push(b'\n')?;
    Ok(())
}

fn write_first(addrs: &[Addr], into: &mut Vec<u8>) -> Result<(), NoMemory>
    ensures ok { OnOk result (into.new.items ≡ into.old.items ++ line_text (row_words (rows.First addrs.now))) }
    ensures again { OnOk result (AreAddrs addrs.now) }
{
    into.extend_from_slice(b"first")?;
    end_line(addrs, into)?;
    Ok(())
}

fn write_second(addrs: &[Addr], into: &mut Vec<u8>) -> Result<(), NoMemory>
    ensures ok { OnOk result (into.new.items ≡ into.old.items ++ line_text (row_words (rows.Second addrs.now))) }
    ensures again { OnOk result (AreAddrs addrs.now) }
{
    into.extend_from_slice(b"second")?;
    end_line(addrs, into)?;
    Ok(())
}

fn write_cut(nodes: &[Addr], into: &mut Vec<u8>) -> Result<(), NoMemory>
    ensures ok { OnOk result (into.new.items ≡ into.old.items ++ line_text (row_words (rows.Cut nodes.now))) }
    ensures again { OnOk result (AreAddrs nodes.now) }
{
    if nodes.is_empty() {
        into.extend_from_slice(b"cut -\n")?;
        return Ok(());
    }
    into.extend_from_slice(b"cut")?;
    end_line(nodes, into)?;
    Ok(())
}

fn write_form(form: &PairForm, into: &mut Vec<u8>) -> Result<(), NoMemory>
    ensures ok { OnOk result (into.new.items ≡ into.old.items ++ text_of (form_lines form.now)) }
    ensures again { OnOk result (IsFormWritten form.now) }
{
    match form {
        PairForm::Paths {
            potentials,
            first,
            second,
        } => {
            write_potentials(potentials.as_slice(), into)?;
            write_first(first.as_slice(), into)?;
            write_second(second.as_slice(), into)?;
        }
        PairForm::Cut(nodes) => write_cut(nodes.as_slice(), into)?,
    }
    Ok(())
}

/// The text of a certificate. Where potentials, or the nodes of a cut, stand in strictly rising order
/// of address and each path has an address, it is read again as the same certificate, for a topology
/// of its domain.
pub fn write_pair(alloc: Global, certificate: &PairCertificate) -> Result<Bytes, NoMemory>
    ensures text { IfOk result (λ bytes. bytes ≡ pair_text certificate.now) }
    ensures again { IfOk result (λ bytes. (g : Rows) → g.own ≡ certificate.now.own → CanBeTold certificate.now.form → pair_in g bytes ≡ Ok certificate.now) }
{
    let mut text = Vec::new(alloc);
    write_header(certificate.own, &mut text)?;
    write_form(&certificate.form, &mut text)?;
    Ok(List::from_vec(text))
}
