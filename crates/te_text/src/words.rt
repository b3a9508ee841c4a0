//! Words of a row, written with a blank before each.
ghost use Rattle.std.specs.Prelude.{◌≡◌, ◌≤◌, ◌++◌, ◌∷◌, [], ℕ, List, Some, OnOk, decimal, map};
ghost use Rattle.dom_base.specs.Numerals.{colour_in, colour_text, number_in};
ghost use Rattle.dom_base.specs.AddrText.{addr_in, addr_text};
ghost use Rattle.te_text.specs.TopologyText.{ends_words, traits_words};
ghost use Rattle.te_text.specs.Spelled.{spaced, SpellsEnds, SpellsSrlgs, SpellsTraits};

use dom_base::{Addr, Link, NoMemory, write_addr, write_colour, write_number};

// Each of these writes words at the end, with a blank before each. On `NoMemory` a part of them
// may stand there.

pub(crate) fn push_addr(addr: Addr, into: &mut Vec<u8>) -> Result<(), NoMemory>
    ensures ok { OnOk result (into.new.items ≡ into.old.items ++ 32 ∷ addr_text addr) }
    ensures again { OnOk result (addr_in (addr_text addr) ≡ Some addr) }
{
    into.push(b' ')?;
    write_addr(addr, into)?;
    Ok(())
}

pub(crate) fn push_number(n: u64, into: &mut Vec<u8>) -> Result<(), NoMemory>
    ensures ok { OnOk result (into.new.items ≡ into.old.items ++ 32 ∷ decimal n) }
    ensures again { OnOk result ((most : ℕ) → n ≤ most → number_in most (decimal n) ≡ Some n) }
{
    into.push(b' ')?;
    write_number(n, into)?;
    Ok(())
}

fn push_colour(colour: u32, into: &mut Vec<u8>) -> Result<(), NoMemory>
    ensures ok { OnOk result (into.new.items ≡ into.old.items ++ 32 ∷ colour_text colour) }
    ensures again { OnOk result (colour_in (colour_text colour) ≡ Some colour) }
{
    into.push(b' ')?;
    write_colour(colour, into)?;
    Ok(())
}

pub(crate) fn push_ends(link: &Link, into: &mut Vec<u8>) -> Result<(), NoMemory>
    ensures ok { OnOk result (into.new.items ≡ into.old.items ++ spaced (ends_words link.now)) }
    ensures again { OnOk result (SpellsEnds link.now) }
{
    push_addr(link.from, into)?;
    push_addr(link.to, into)?;
    push_addr(link.near, into)?;
    push_addr(link.far, into)?;
    Ok(())
}

pub(crate) fn push_traits(link: &Link, into: &mut Vec<u8>) -> Result<(), NoMemory>
    ensures ok { OnOk result (into.new.items ≡ into.old.items ++ spaced (traits_words link.now)) }
    ensures again { OnOk result (SpellsTraits link.now) }
{
    push_number(u64::from(link.igp), into)?;
    push_number(u64::from(link.te), into)?;
    push_number(link.bytes_per_second, into)?;
    push_colour(link.colour, into)?;
    Ok(())
}

pub(crate) fn push_srlgs(srlgs: &[u32], into: &mut Vec<u8>) -> Result<(), NoMemory>
    ensures ok { OnOk result (into.new.items ≡ into.old.items ++ spaced (map decimal srlgs.now)) }
    ensures again { OnOk result (SpellsSrlgs srlgs.now) }
{
    for number in srlgs {
        push_number(u64::from(*number), into)?;
    }
    Ok(())
}
