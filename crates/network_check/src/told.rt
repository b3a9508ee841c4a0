//! Lines that are told: the file, the line of it, and what is said.
ghost use Rattle.std.specs.Prelude.{◌≡◌, ◌++◌, ◌∷◌, [], decimal, OnOk};
ghost use Rattle.network_check.specs.Told.{line_head, piece_text, pieces_text, shown, steady as steady_octet, told, told_if};

use dom_base::{Addr, NoMemory, write_addr, write_number};

/// A part of what is said.
#[derive(Clone, Copy)]
pub enum Piece<'a> {
    Text(&'a [u8]),
    /// A name that comes from a file.
    Name(&'a [u8]),
    Number(u64),
    Address(Addr),
}

fn steady(octet: u8) -> u8
    ensures { result ≡ steady_octet octet }
{
    if octet < 32 || octet == 127 {
        b'?'
    } else {
        octet
    }
}

// A name, without what ends a line or steers a terminal.
pub(crate) fn write_name(name: &[u8], into: &mut Vec<u8>) -> Result<(), NoMemory>
    ensures { OnOk result (into.new.items ≡ into.old.items ++ shown name.now) }
{
    for octet in name {
        into.push(steady(*octet))?;
    }
    Ok(())
}

fn write_text(text: &[u8], into: &mut Vec<u8>) -> Result<(), NoMemory>
    ensures { OnOk result (into.new.items ≡ into.old.items ++ text.now) }
{
    into.extend_from_slice(text)?;
    Ok(())
}

fn write_decimal(number: u64, into: &mut Vec<u8>) -> Result<(), NoMemory>
    ensures { OnOk result (into.new.items ≡ into.old.items ++ decimal number) }
{
    write_number(number, into)
}

fn write_address(addr: Addr, into: &mut Vec<u8>) -> Result<(), NoMemory>
    ensures { OnOk result (into.new.items ≡ into.old.items ++ piece_text (Piece.Address addr)) }
{
    write_addr(addr, into)
}

fn write_piece(piece: &Piece<'_>, into: &mut Vec<u8>) -> Result<(), NoMemory>
    ensures { OnOk result (into.new.items ≡ into.old.items ++ piece_text piece.now) }
{
    match piece {
        Piece::Text(text) => write_text(text, into),
        Piece::Name(name) => write_name(name, into),
        Piece::Number(number) => write_decimal(*number, into),
        Piece::Address(addr) => write_address(*addr, into),
    }
}

/// Writes parts one behind the other.
pub(crate) fn write_pieces(pieces: &[Piece<'_>], into: &mut Vec<u8>) -> Result<(), NoMemory>
    ensures { OnOk result (into.new.items ≡ into.old.items ++ pieces_text pieces.now) }
{
    for piece in pieces {
        write_piece(piece, into)?;
    }
    Ok(())
}

// `FILE LINE `
fn write_head(file: &[u8], line: u32, into: &mut Vec<u8>) -> Result<(), NoMemory>
    ensures { OnOk result (into.new.items ≡ into.old.items ++ line_head file.now line) }
{
    write_pieces(
        &[
            Piece::Name(file),
            Piece::Text(b" "),
            Piece::Number(u64::from(line)),
            Piece::Text(b" "),
        ],
        into,
    )
}

/// Writes a line: the file, the line of it, and what is said.
pub(crate) fn tell(
    file: &[u8],
    line: u32,
    pieces: &[Piece<'_>],
    into: &mut Vec<u8>,
) -> Result<(), NoMemory>
    ensures { OnOk result (into.new.items ≡ into.old.items ++ told file.now line (pieces_text pieces.now)) }
{
    write_head(file, line, into)?;
    write_pieces(pieces, into)?;
    into.push(b'\n')?;
    Ok(())
}

/// The same, where something is so; else nothing.
pub(crate) fn tell_if(
    is: bool,
    file: &[u8],
    line: u32,
    pieces: &[Piece<'_>],
    into: &mut Vec<u8>,
) -> Result<(), NoMemory>
    ensures { OnOk result (into.new.items ≡ into.old.items ++ told_if is file.now line (pieces_text pieces.now)) }
{
    if is {
        tell(file, line, pieces, into)
    } else {
        Ok(())
    }
}
