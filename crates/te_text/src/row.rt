//! One line of a topology text, as a row.
ghost use Rattle.std.specs.Prelude.{◌≡◌, Some, None, MatchOption, OnErr, IfOk};
ghost use Rattle.te_text.specs.Given.{GivesRow};
ghost use Rattle.te_text.specs.RowText.{fields_in, first, kind_in, link_of, row_in, srlgs_in};

use crate::fields::{Ends, Traits, is_end, next_addr, next_as, next_ends, next_traits};
use dom_base::{Addr, Link, List, NoMemory, read_number};
use line_text::Words;
use std::alloc::Global;
use te_links::{Entry, OutLink, RowKind};

/// A row of a topology, as a line of its text gives it.
#[derive(Drop)]
pub enum TextRow {
    Node(Addr),
    Link(Link),
    Out(OutLink),
    Entry(Entry),
}

/// Why words give no row of a text.
#[derive(Clone, Copy)]
pub enum RowError {
    Syntax,
    NoMemory,
}

impl From<NoMemory> for RowError {
    ghost use Rattle.te_text.specs.declared.row.RowError.TheVariants.{NoMemory};

    ghost from_gives = { λ _ e. e ≡ NoMemory };

    fn from(_: NoMemory) -> Self {
        RowError::NoMemory
    }
}

// The first word of a row.
fn next_kind(words: &mut Words<'_>) -> Option<RowKind>
    ensures { MatchOption result (first kind_in words.old ≡ None) (λ kind. first kind_in words.old ≡ Some (kind, words.new)) }
{
    kind_of(words.next_word()?)
}

fn kind_of(word: &[u8]) -> Option<RowKind>
    ensures { result ≡ kind_in word.now }
{
    if word == b"node".as_slice() {
        Some(RowKind::Node)
    } else if word == b"link".as_slice() {
        Some(RowKind::Link)
    } else if word == b"out".as_slice() {
        Some(RowKind::Out)
    } else if word == b"entry".as_slice() {
        Some(RowKind::Entry)
    } else {
        None
    }
}

// The numbers of shared risk groups, up to the last word.
fn srlgs_of(alloc: Global, words: &mut Words<'_>) -> Result<List<u32>, RowError>
    ensures { GivesRow result (srlgs_in words.old) }
{
    let mut srlgs = List::new(alloc);
    while let Some(word) = words.next_word() {
        let Some(number) = read_number(word, u64::from(u32::MAX)) else {
            return Err(RowError::Syntax);
        };
        srlgs.push(number as u32)?;
    }
    Ok(srlgs)
}

fn make_link(ends: Ends, traits: Traits, srlgs: List<u32>) -> Link
    ensures { result ≡ link_of ends traits srlgs }
{
    Link {
        from: ends.from,
        to: ends.to,
        near: ends.near,
        far: ends.far,
        igp: traits.igp,
        te: traits.te,
        bytes_per_second: traits.bytes_per_second,
        colour: traits.colour,
        srlgs,
    }
}

#[tactic(auto, unfolding(crate::specs::RowText::fields_in))]
fn node_of(words: &mut Words<'_>) -> Result<TextRow, RowError>
    ensures { GivesRow result (fields_in RowKind.Node words.old) }
{
    let addr = next_addr(words).ok_or(RowError::Syntax)?;
    if is_end(words) {
        Ok(TextRow::Node(addr))
    } else {
        Err(RowError::Syntax)
    }
}

#[tactic(auto, unfolding(crate::specs::RowText::fields_in))]
fn link_row(alloc: Global, words: &mut Words<'_>) -> Result<TextRow, RowError>
    ensures { GivesRow result (fields_in RowKind.Link words.old) }
{
    let ends = next_ends(words).ok_or(RowError::Syntax)?;
    let traits = next_traits(words).ok_or(RowError::Syntax)?;
    let srlgs = srlgs_of(alloc, words)?;
    Ok(TextRow::Link(make_link(ends, traits, srlgs)))
}

#[tactic(auto, unfolding(crate::specs::RowText::fields_in))]
fn out_row(alloc: Global, words: &mut Words<'_>) -> Result<TextRow, RowError>
    ensures { GivesRow result (fields_in RowKind.Out words.old) }
{
    let ends = next_ends(words).ok_or(RowError::Syntax)?;
    let to_as = next_as(words).ok_or(RowError::Syntax)?;
    let traits = next_traits(words).ok_or(RowError::Syntax)?;
    let srlgs = srlgs_of(alloc, words)?;
    Ok(TextRow::Out(OutLink {
        link: make_link(ends, traits, srlgs),
        to_as,
    }))
}

#[tactic(auto, unfolding(crate::specs::RowText::fields_in))]
fn entry_row(words: &mut Words<'_>) -> Result<TextRow, RowError>
    ensures { GivesRow result (fields_in RowKind.Entry words.old) }
{
    let node = next_addr(words).ok_or(RowError::Syntax)?;
    let from_as = next_as(words).ok_or(RowError::Syntax)?;
    if is_end(words) {
        Ok(TextRow::Entry(Entry { node, from_as }))
    } else {
        Err(RowError::Syntax)
    }
}

/// The row that words give, all of them: `node ADDR`, `link FROM TO NEAR FAR IGP TE BW COLOUR
/// [SRLG ..]`, `out FROM HEAD NEAR FAR AS IGP TE BW COLOUR [SRLG ..]` or `entry NODE AS`. `Syntax`
/// exactly for other words.
#[tactic(auto, unfolding(crate::specs::RowText::row_in))]
pub fn read_row(alloc: Global, words: &mut Words<'_>) -> Result<TextRow, RowError>
    ensures { GivesRow result (row_in words.old) }
{
    match next_kind(words).ok_or(RowError::Syntax)? {
        RowKind::Node => node_of(words),
        RowKind::Link => link_row(alloc, words),
        RowKind::Out => out_row(alloc, words),
        RowKind::Entry => entry_row(words),
    }
}
