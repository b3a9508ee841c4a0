//! A certificate from its text.
ghost use Rattle.std.specs.Prelude.{◌≡◌, ◌+◌, ◌≤◌, ◌<◌, ◌^◌, Ok, IfOk, length, nat_le, ℕ};
ghost use Rattle.dom_base.specs.AddrOrder.{rank};
ghost use Rattle.std.specs.Str.Lines.{lines as lines_of};
ghost use Rattle.path_certificate.specs.Rows.{AreLabelRows};
ghost use Rattle.te_text.specs.Given.{GivesText};
ghost use Rattle.te_text.specs.Reading.{and_then};
ghost use Rattle.path_certificate.specs.Text.{body_in, certificate_in, certificate_word, gathered, header_at, is_node, least_behind, or_first, own_behind, row_at, stranger_at as stranger_of};

use crate::certificate::Certificate;
use crate::limits::CERTIFICATE_BYTES_MAX;
use crate::text_row::{TextRow, read_row};
use dom_base::{Addr, As, Label, List};
use line_text::{Line, Lines, Words, is_trimmed, line_count};
use std::alloc::Global;
use te_links::{TopoFault, Topology};
use te_text::{RowError, TextError, is_end, next_as};

/// What the lines behind the header say, and the first line whose address is no node.
#[derive(Drop)]
pub struct Gathered {
    pub labels: List<(Addr, Option<Label>)>,
    pub stranger: Option<u32>,
    pub path: Option<List<Addr>>,
}

// The number of the domain, in the words of a header.
#[tactic(auto, unfolding(crate::specs::Text::own_behind))]
fn own_of(word: &[u8], words: &mut Words<'_>) -> Option<As>
    ensures { result ≡ own_behind word.now words.old }
{
    let name = words.next_word()?;
    if name != word {
        return None;
    }
    let own = next_as(words)?;
    if is_end(words) { Some(own) } else { None }
}

/// The domain of a header that begins with a word; a line that is no such header, or that of another
/// domain, is at fault.
#[tactic(auto, unfolding(crate::specs::Text::header_at))]
pub fn read_own(word: &[u8], own: As, line: &Line<'_>) -> Result<As, TextError>
    ensures { result ≡ header_at word.now own (record { number = line.now.number; text = line.now.text.now }) }
{
    let fault = TextError::At(line.number, TopoFault::Syntax);
    if !is_trimmed(line.text) {
        return Err(fault);
    }
    match own_of(word, &mut Words::new(line.text)) {
        Some(number) if number == own => Ok(own),
        _ => Err(fault),
    }
}

fn read_header(own: As, line: &Line<'_>) -> Result<As, TextError>
    ensures { result ≡ header_at certificate_word own (record { number = line.now.number; text = line.now.text.now }) }
{
    read_own(b"certificate".as_slice(), own, line)
}

#[tactic(auto, unfolding(crate::specs::Text::row_at))]
fn read_line(alloc: Global, line: &Line<'_>) -> Result<TextRow, TextError>
    ensures { GivesText result (row_at (record { number = line.now.number; text = line.now.text.now })) }
{
    if !is_trimmed(line.text) {
        return Err(TextError::At(line.number, TopoFault::Syntax));
    }
    match read_row(alloc, &mut Words::new(line.text)) {
        Ok(row) => Ok(row),
        Err(RowError::Syntax) => Err(TextError::At(line.number, TopoFault::Syntax)),
        Err(RowError::NoMemory) => Err(TextError::NoMemory),
    }
}

// The line of an address that is no node.
#[tactic(auto, using(crate::proofs::Strangers::node_found, crate::proofs::Strangers::node_missing))]
fn stranger_at(topology: &Topology, line: u32, addr: Addr) -> Option<u32>
    ensures { result ≡ stranger_of topology.now.nodes line addr }
{
    match topology.find_node(addr) {
        Some(_place) => None,
        None => Some(line),
    }
}

// The first line whose address is no node, with a further line.
fn first_stranger(topology: &Topology, before: Option<u32>, line: u32, addr: Addr) -> Option<u32>
    ensures { result ≡ or_first before (stranger_of topology.now.nodes line addr) }
{
    match before {
        Some(earlier) => Some(earlier),
        None => stranger_at(topology, line, addr),
    }
}

/// Whether an address comes behind the last one.
pub fn is_behind(last: Option<Addr>, addr: Addr) -> bool
    ensures { result ≡ nat_le (least_behind last) (rank addr) }
{
    match last {
        None => true,
        Some(before) => before < addr,
    }
}

// What the lines behind the header say; `end` is the line after the last.
fn read_body(
    alloc: Global,
    topology: &Topology,
    end: u32,
    lines: &mut Lines<'_>,
) -> Result<Gathered, TextError>
    ensures { GivesText result (and_then (body_in end 0 lines.old) (λ body. Ok (gathered topology.now.nodes body))) }
{
    let mut labels = List::new(alloc);
    let mut stranger = None;
    let mut last = None;
    while let Some(line) = lines.next_line() {
        match read_line(alloc, &line)? {
            TextRow::Label(addr, label) => {
                if !is_behind(last, addr) {
                    return Err(TextError::At(line.number, TopoFault::Syntax));
                }
                last = Some(addr);
                stranger = first_stranger(topology, stranger, line.number, addr);
                labels.push((addr, label))?;
            }
            TextRow::Path(path) => {
                return match lines.next_line() {
                    Some(other) => Err(TextError::At(other.number, TopoFault::Syntax)),
                    None => Ok(Gathered {
                        labels,
                        stranger,
                        path,
                    }),
                };
            }
        }
    }
    Err(TextError::At(end, TopoFault::Syntax))
}

/// The certificate that a text says, for a topology. Lines end with LF; words stand apart by blanks;
/// blank lines and those that begin with `#` count and are skipped. The lines are `certificate AS`
/// with the domain of the topology, then `label ADDR COST EXIT` or `label ADDR -` in rising order of
/// address, then `path ADDR ..` or `path -`. A text outside this form is refused at its first wrong
/// line, or at the line after the last where its end is missing; in a text of this form an address
/// that is no node is refused at its line.
pub fn read_certificate(
    alloc: Global,
    bytes: &[u8],
    topology: &Topology,
) -> Result<Certificate, TextError>
    requires { length bytes.now ≤ CERTIFICATE_BYTES_MAX }
    ensures text { GivesText result (certificate_in topology.now bytes.now) }

    // So a check may be asked for it.
    ensures rows { IfOk result (λ c. AreLabelRows topology.now.nodes c.labels) }
{
    let end = line_count(bytes) as u32 + 1;
    let mut lines = Lines::new(bytes);
    let Some(line) = lines.next_line() else {
        return Err(TextError::At(end, TopoFault::Syntax));
    };
    let own = read_header(topology.own(), &line)?;
    let Gathered {
        labels,
        stranger,
        path,
    } = read_body(alloc, topology, end, &mut lines)?;
    match stranger {
        Some(line) => Err(TextError::At(line, TopoFault::UnknownNode)),
        None => Ok(Certificate { own, labels, path }),
    }
}
