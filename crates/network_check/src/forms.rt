//! Topologies whose text is outside the form: each line that is, with the first word that may not stand at its place.
ghost use Rattle.std.specs.Prelude.{◌≡◌, ◌++◌, ◌<◌, ◌^◌, ◌∷◌, IfOk, OnOk, length};
ghost use Rattle.std.specs.Str.Lines.{lines as lines_of};
ghost use Rattle.line_text.specs.Lines.{told_lines};
ghost use Rattle.te_text.specs.Reading.{begins_topology as begins_header, own_behind};
ghost use Rattle.te_text.specs.RowText.{kind_in};
ghost use Rattle.line_text.specs.Words.{all_words};
ghost use Rattle.network_check.specs.Forms.{blank_text, extra_text, form_text, header_text, is_header as says_domain, is_row as says_row, kind_text, missing_text, no_header_text, own_text, plain_text, rest_text, row_text, rows_text, slots_text, words_text, wrong_text};

use crate::slots::{ENTRY, HEADER, LINK, NODE, OUT, Slot, allowed_at, is_slot, name_of};
use crate::told::{Piece, tell};
use dom_base::{As, NoMemory};
use line_text::{Line, Lines, Words, is_trimmed};
use std::alloc::Global;
use te_links::RowKind;
use te_text::{RowError, is_end, next_as, read_row};

// ---- words

fn tell_wrong(
    file: &[u8],
    line: u32,
    slot: Slot,
    word: &[u8],
    into: &mut Vec<u8>,
) -> Result<(), NoMemory>
    ensures { OnOk result (into.new.items ≡ into.old.items ++ wrong_text file.now line slot word.now) }
{
    tell(
        file,
        line,
        &[
            Piece::Text(b"syntax: "),
            Piece::Text(name_of(slot)),
            Piece::Text(b" is not "),
            Piece::Text(allowed_at(slot)),
            Piece::Text(b": "),
            Piece::Name(word),
        ],
        into,
    )
}

fn tell_missing(file: &[u8], line: u32, slot: Slot, into: &mut Vec<u8>) -> Result<(), NoMemory>
    ensures { OnOk result (into.new.items ≡ into.old.items ++ missing_text file.now line slot) }
{
    tell(
        file,
        line,
        &[
            Piece::Text(b"syntax: "),
            Piece::Text(name_of(slot)),
            Piece::Text(b" is missing: "),
            Piece::Text(allowed_at(slot)),
        ],
        into,
    )
}

fn tell_extra(file: &[u8], line: u32, word: &[u8], into: &mut Vec<u8>) -> Result<(), NoMemory>
    ensures { OnOk result (into.new.items ≡ into.old.items ++ extra_text file.now line word.now) }
{
    tell(
        file,
        line,
        &[Piece::Text(b"syntax: a word too many: "), Piece::Name(word)],
        into,
    )
}

fn tell_plain(file: &[u8], line: u32, into: &mut Vec<u8>) -> Result<(), NoMemory>
    ensures { OnOk result (into.new.items ≡ into.old.items ++ plain_text file.now line) }
{
    tell(file, line, &[Piece::Text(b"syntax")], into)
}

fn tell_blank(file: &[u8], line: u32, into: &mut Vec<u8>) -> Result<(), NoMemory>
    ensures { OnOk result (into.new.items ≡ into.old.items ++ blank_text file.now line) }
{
    tell(
        file,
        line,
        &[Piece::Text(b"syntax: a blank before the first word or behind the last")],
        into,
    )
}

// The words behind the places of a row.
fn tell_rest(
    file: &[u8],
    line: u32,
    has_groups: bool,
    words: &mut Words<'_>,
    into: &mut Vec<u8>,
) -> Result<(), NoMemory>
    ensures { OnOk result (into.new.items ≡ into.old.items ++ rest_text file.now line has_groups words.old) }
{
    while let Some(word) = words.next_word() {
        if !has_groups {
            return tell_extra(file, line, word, into);
        }
        if !is_slot(Slot::Group, word) {
            return tell_wrong(file, line, Slot::Group, word, into);
        }
    }
    tell_plain(file, line, into)
}

// The words of a row with these places.
fn tell_slots(
    file: &[u8],
    line: u32,
    has_groups: bool,
    slots: &[Slot],
    words: &mut Words<'_>,
    into: &mut Vec<u8>,
) -> Result<(), NoMemory>
    ensures { OnOk result (into.new.items ≡ into.old.items ++ slots_text file.now line has_groups slots.now words.old) }
{
    for slot in slots {
        let Some(word) = words.next_word() else {
            return tell_missing(file, line, *slot, into);
        };
        if !is_slot(*slot, word) {
            return tell_wrong(file, line, *slot, word, into);
        }
    }
    tell_rest(file, line, has_groups, words, into)
}

// ---- rows

fn kind_of(word: &[u8]) -> Option<RowKind>
    ensures { result ≡ kind_in word.now }
{
    if word == b"node".as_slice() {
        Some(RowKind::Node)
    } else if word == b"link".as_slice() {
        Some(RowKind::Link)
    } else if word == b"out".as_slice() {
        Some(RowKind::Out)
    } else if word == b"entry".as_slice() {
        Some(RowKind::Entry)
    } else {
        None
    }
}

// The words behind the first.
fn tell_kind(
    file: &[u8],
    line: u32,
    word: &[u8],
    words: &mut Words<'_>,
    into: &mut Vec<u8>,
) -> Result<(), NoMemory>
    ensures { OnOk result (into.new.items ≡ into.old.items ++ kind_text file.now line word.now words.old (kind_in word.now)) }
{
    match kind_of(word) {
        Some(RowKind::Node) => tell_slots(file, line, false, &NODE, words, into),
        Some(RowKind::Link) => tell_slots(file, line, true, &LINK, words, into),
        Some(RowKind::Out) => tell_slots(file, line, true, &OUT, words, into),
        Some(RowKind::Entry) => tell_slots(file, line, false, &ENTRY, words, into),
        None => tell(
            file,
            line,
            &[
                Piece::Text(b"syntax: not node, link, out or entry: "),
                Piece::Name(word),
            ],
            into,
        ),
    }
}

fn tell_words(
    file: &[u8],
    line: u32,
    words: &mut Words<'_>,
    into: &mut Vec<u8>,
) -> Result<(), NoMemory>
    ensures { OnOk result (into.new.items ≡ into.old.items ++ words_text file.now line words.old) }
{
    match words.next_word() {
        Some(word) => tell_kind(file, line, word, words, into),
        None => tell_plain(file, line, into),
    }
}

fn is_row(alloc: Global, text: &[u8]) -> Result<bool, NoMemory>
    ensures { IfOk result (λ is. is ≡ says_row text.now) }
{
    if !is_trimmed(text) {
        return Ok(false);
    }
    match read_row(alloc, &mut Words::new(text)) {
        Ok(_) => Ok(true),
        Err(RowError::Syntax) => Ok(false),
        Err(RowError::NoMemory) => Err(NoMemory),
    }
}

fn tell_row(alloc: Global, file: &[u8], line: &Line<'_>, into: &mut Vec<u8>) -> Result<(), NoMemory>
    ensures { OnOk result (into.new.items ≡ into.old.items ++ row_text file.now (record { number = line.now.number; text = line.now.text.now })) }
{
    if is_row(alloc, line.text)? {
        return Ok(());
    }
    if is_trimmed(line.text) {
        tell_words(file, line.number, &mut Words::new(line.text), into)
    } else {
        tell_blank(file, line.number, into)
    }
}

// ---- the header

fn begins_topology(text: &[u8]) -> bool
    ensures { result ≡ begins_header (all_words text.now) }
{
    let mut words = Words::new(text);
    match words.next_word() {
        Some(word) => word == b"topology".as_slice(),
        None => false,
    }
}

// The number of the domain, behind the first word of a header.
#[tactic(auto, unfolding(te_text::specs::Reading::own_behind))]
fn own_of(words: &mut Words<'_>) -> Option<As>
    ensures { result ≡ own_behind words.old }
{
    let own = next_as(words)?;
    if is_end(words) { Some(own) } else { None }
}

fn is_header(text: &[u8]) -> bool
    ensures { result ≡ says_domain text.now }
{
    if !is_trimmed(text) {
        return false;
    }
    let mut words = Words::new(text);
    let Some(_name) = words.next_word() else {
        return false;
    };
    own_of(&mut words).is_some()
}

// The words behind `topology`.
fn tell_own(file: &[u8], line: &Line<'_>, into: &mut Vec<u8>) -> Result<(), NoMemory>
    ensures { OnOk result (into.new.items ≡ into.old.items ++ own_text file.now (record { number = line.now.number; text = line.now.text.now })) }
{
    if is_trimmed(line.text) {
        let mut words = Words::new(line.text);
        let _name = words.next_word();
        tell_slots(file, line.number, false, &HEADER, &mut words, into)
    } else {
        tell_blank(file, line.number, into)
    }
}

fn tell_no_header(file: &[u8], line: u32, into: &mut Vec<u8>) -> Result<(), NoMemory>
    ensures { OnOk result (into.new.items ≡ into.old.items ++ no_header_text file.now line) }
{
    tell(
        file,
        line,
        &[Piece::Text(b"no header: not topology AS")],
        into,
    )
}

fn tell_header(file: &[u8], line: &Line<'_>, into: &mut Vec<u8>) -> Result<(), NoMemory>
    ensures { OnOk result (into.new.items ≡ into.old.items ++ header_text file.now (record { number = line.now.number; text = line.now.text.now })) }
{
    if !begins_topology(line.text) {
        tell_no_header(file, line.number, into)
    } else if is_header(line.text) {
        Ok(())
    } else {
        tell_own(file, line, into)
    }
}

// ---- the whole

fn tell_rows(
    alloc: Global,
    file: &[u8],
    lines: &mut Lines<'_>,
    into: &mut Vec<u8>,
) -> Result<(), NoMemory>
    ensures { OnOk result (into.new.items ≡ into.old.items ++ rows_text file.now lines.old) }
{
    while let Some(line) = lines.next_line() {
        tell_row(alloc, file, &line, into)?;
    }
    Ok(())
}

/// Tells of each line of a text that is outside the form of a topology.
pub(crate) fn tell_form(
    alloc: Global,
    file: &[u8],
    text: &[u8],
    into: &mut Vec<u8>,
) -> Result<(), NoMemory>
    requires short { length (lines_of text.now) < 2 ^ 32 }
    ensures { OnOk result (into.new.items ≡ into.old.items ++ form_text file.now (told_lines text.now)) }
{
    let mut lines = Lines::new(text);
    match lines.next_line() {
        Some(line) => {
            tell_header(file, &line, into)?;
            tell_rows(alloc, file, &mut lines, into)
        }
        None => tell_no_header(file, 1, into),
    }
}
