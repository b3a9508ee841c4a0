//! Keys of a row that do not go together.
ghost use Rattle.std.specs.Prelude.{◌≡◌, ◌++◌, ◌<◌, ◌^◌, OnOk, length};
ghost use Rattle.std.specs.Str.Lines.{lines as lines_of};
ghost use Rattle.toml.specs.View.{table_view};
ghost use Rattle.network_check.specs.Pairs.{class_text, ends_text, key_text, pairs_text};
ghost use Rattle.network_check.specs.Stands.{stand_of};

use crate::keys::{has_key, has_yes, is_neighbour, is_other, meet};
use crate::rows::{Row, line_of_key};
use crate::told::{Piece, tell};
use dom_base::NoMemory;
use toml::Table;

// What is told at a key, where it is so.
fn tell_at_key<'x>(
    row: &Row<'x>,
    is: bool,
    key: &[u8],
    words: &'x [u8],
    into: &mut Vec<u8>,
) -> Result<(), NoMemory>
    requires short { length (lines_of row.now.page.text.now) < 2 ^ 32 }
    ensures { OnOk result (into.new.items ≡ into.old.items ++ key_text (stand_of row.now) is key.now words.now) }
{
    if !is {
        return Ok(());
    }
    tell(
        row.page.file,
        line_of_key(row, key),
        &[Piece::Text(row.label), Piece::Text(words)],
        into,
    )
}

// The class of a peer, and the keys that only a neighbour has.
fn tell_class(row: &Row<'_>, table: &Table, into: &mut Vec<u8>) -> Result<(), NoMemory>
    requires short { length (lines_of row.now.page.text.now) < 2 ^ 32 }
    ensures { OnOk result (into.new.items ≡ into.old.items ++ class_text (stand_of row.now) (table_view table.now)) }
{
    let lacks = is_neighbour(table) && !has_key(table, "neighbour");
    let stray = is_other(table) && has_key(table, "neighbour");
    let leads = is_other(table) && has_yes(table, "down");
    let needs_key = b": class neighbour needs the key neighbour";
    let needs_class = b": neighbour needs class neighbour";
    tell_at_key(row, lacks, b"class", needs_key, into)?;
    tell_at_key(row, stray, b"neighbour", needs_class, into)?;
    let words = b": down needs class neighbour";
    tell_at_key(row, leads, b"down", words, into)
}

/// Keys of a peer that do not go together.
pub(crate) fn tell_pairs(row: &Row<'_>, table: &Table, into: &mut Vec<u8>) -> Result<(), NoMemory>
    requires short { length (lines_of row.now.page.text.now) < 2 ^ 32 }
    ensures { OnOk result (into.new.items ≡ into.old.items ++ pairs_text (stand_of row.now) (table_view table.now)) }
{
    let both = has_key(table, "from") && has_key(table, "connect");
    let words = b": connect does not go with from";
    tell_class(row, table, into)?;
    tell_at_key(row, both, b"connect", words, into)
}

/// A link that joins a domain to itself.
pub(crate) fn tell_ends(row: &Row<'_>, table: &Table, into: &mut Vec<u8>) -> Result<(), NoMemory>
    requires short { length (lines_of row.now.page.text.now) < 2 ^ 32 }
    ensures { OnOk result (into.new.items ≡ into.old.items ++ ends_text (stand_of row.now) (table_view table.now)) }
{
    let same = meet(table, "a", table, "b");
    let words = b": a and b are the same domain";
    tell_at_key(row, same, b"b", words, into)
}
