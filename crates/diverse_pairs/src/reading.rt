//! A pair's certificate from its text.
ghost use Rattle.std.specs.Prelude.{◌≡◌, ◌+◌, ◌-◌, ◌<◌, ◌^◌, Ok, None, IfOk, length, nat_le, ℕ};
ghost use Rattle.std.specs.Str.Lines.{lines as lines_of};
ghost use Rattle.te_text.specs.Given.{GivesText};
ghost use Rattle.diverse_pairs.specs.PairText.{CanBeTold};
ghost use Rattle.diverse_pairs.specs.Potentials.{HasRising};
ghost use Rattle.path_certificate.specs.Text.{header_at};
ghost use Rattle.diverse_pairs.specs.Text.{body_in, cut_says, nothing_in, pair_in, pair_word, row_at, second_in};

use crate::certificate::{PairCertificate, PairForm};
use crate::pair_row::{PairRow, read_row};
use dom_base::{Addr, As, List};
use line_text::{Line, Lines, Words, is_trimmed, line_count};
use path_certificate::{is_behind, read_own};
use std::alloc::Global;
use te_links::{TopoFault, Topology};
use te_text::{RowError, TextError};

fn read_header(own: As, line: &Line<'_>) -> Result<As, TextError>
    ensures { result ≡ header_at pair_word own (record { number = line.now.number; text = line.now.text.now }) }
{
    read_own(b"pair".as_slice(), own, line)
}

#[tactic(auto, unfolding(crate::specs::Text::row_at))]
fn read_line(alloc: Global, line: &Line<'_>) -> Result<PairRow, TextError>
    ensures { GivesText result (row_at (record { number = line.now.number; text = line.now.text.now })) }
{
    if !is_trimmed(line.text) {
        return Err(TextError::At(line.number, TopoFault::Syntax));
    }
    match read_row(alloc, &mut Words::new(line.text)) {
        Ok(row) => Ok(row),
        Err(RowError::Syntax) => Err(TextError::At(line.number, TopoFault::Syntax)),
        Err(RowError::NoMemory) => Err(TextError::NoMemory),
    }
}

fn read_end(lines: &mut Lines<'_>) -> Result<(), TextError>
    ensures { result ≡ nothing_in lines.old }
{
    match lines.next_line() {
        Some(line) => Err(TextError::At(line.number, TopoFault::Syntax)),
        None => Ok(()),
    }
}

// The second path, and nothing behind it.
fn read_second(alloc: Global, end: u32, lines: &mut Lines<'_>) -> Result<List<Addr>, TextError>
    ensures { GivesText result (second_in end lines.old) }
{
    let Some(line) = lines.next_line() else {
        return Err(TextError::At(end, TopoFault::Syntax));
    };
    match read_line(alloc, &line)? {
        PairRow::Second(second) => {
            read_end(lines)?;
            Ok(second)
        }
        _ => Err(TextError::At(line.number, TopoFault::Syntax)),
    }
}

// A cut that stands alone at a line.
fn read_cut(
    last: Option<Addr>,
    line: u32,
    nodes: List<Addr>,
    lines: &mut Lines<'_>,
) -> Result<PairForm, TextError>
    ensures { result ≡ cut_says last line lines.old nodes }
{
    if last.is_some() {
        return Err(TextError::At(line, TopoFault::Syntax));
    }
    read_end(lines)?;
    Ok(PairForm::Cut(nodes))
}

// What the lines behind the header say; `end` is the line after the last.
fn read_body(alloc: Global, end: u32, lines: &mut Lines<'_>) -> Result<PairForm, TextError>
    ensures { GivesText result (body_in end None lines.old) }
{
    let mut potentials = List::new(alloc);
    let mut last = None;
    while let Some(line) = lines.next_line() {
        match read_line(alloc, &line)? {
            PairRow::At(addr, number) => {
                if !is_behind(last, addr) {
                    return Err(TextError::At(line.number, TopoFault::Syntax));
                }
                last = Some(addr);
                potentials.push((addr, number))?;
            }
            PairRow::First(first) => {
                let second = read_second(alloc, end, lines)?;
                return Ok(PairForm::Paths {
                    potentials,
                    first,
                    second,
                });
            }
            PairRow::Second(_second) => {
                return Err(TextError::At(line.number, TopoFault::Syntax));
            }
            PairRow::Cut(nodes) => return read_cut(last, line.number, nodes, lines),
        }
    }
    Err(TextError::At(end, TopoFault::Syntax))
}

/// The certificate that a text says, for a topology. Lines end with LF; words stand apart by blanks;
/// blank lines and those that begin with `#` count and are skipped. The lines are `pair AS` with the
/// domain of the topology, then `at ADDR N` in rising order of address, `first ADDR ..` and
/// `second ADDR ..`; or `pair AS` and `cut ADDR ..` in rising order, or `cut -`. A text outside this
/// form is refused at its first wrong line, or at the line after the last where its end is missing.
pub fn read_pair(
    alloc: Global,
    bytes: &[u8],
    topology: &Topology,
) -> Result<PairCertificate, TextError>
    requires lines { length (lines_of bytes.now) < 2 ^ 32 - 1 }
    ensures text { GivesText result (pair_in topology.now bytes.now) }

    // So a check may be asked for it, and it can be written and read again.
    ensures rising { IfOk result (λ c. HasRising c.form) }
    ensures told { IfOk result (λ c. CanBeTold c.form) }
{
    let end = line_count(bytes) as u32 + 1;
    let mut lines = Lines::new(bytes);
    let Some(line) = lines.next_line() else {
        return Err(TextError::At(end, TopoFault::Syntax));
    };
    let own = read_header(topology.own(), &line)?;
    let form = read_body(alloc, end, &mut lines)?;
    Ok(PairCertificate { own, form })
}
