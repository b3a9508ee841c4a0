//! The fields of a row, read from the words of its line.
ghost use Rattle.std.specs.Prelude.{◌≡◌, ◌==◌, Some, None, MatchOption, length};
ghost use Rattle.dom_base.specs.Numerals.{colour_in};
ghost use Rattle.dom_base.specs.AddrText.{addr_in};
ghost use Rattle.te_text.specs.RowText.{as_in, ends_in, first, number_32, number_64, traits_in};

use dom_base::{Addr, As, read_addr, read_colour, read_number};
use line_text::Words;

/// The nodes of a link and the addresses of its two ends.
#[derive(Clone, Copy)]
pub struct Ends {
    pub from: Addr,
    pub to: Addr,
    pub near: Addr,
    pub far: Addr,
}

/// What a link costs and can carry, and its colour.
#[derive(Clone, Copy)]
pub struct Traits {
    pub igp: u32,
    pub te: u32,
    pub bytes_per_second: u64,
    pub colour: u32,
}

/// Whether no word is left.
pub fn is_end(words: &mut Words<'_>) -> bool
    ensures { result ≡ (length words.old == 0) }
{
    words.next_word().is_none()
}

/// The address in the next word.
pub fn next_addr(words: &mut Words<'_>) -> Option<Addr>
    ensures { MatchOption result (first addr_in words.old ≡ None) (λ addr. first addr_in words.old ≡ Some (addr, words.new)) }
{
    read_addr(words.next_word()?)
}

/// The number of a domain in the next word.
pub fn next_as(words: &mut Words<'_>) -> Option<As>
    ensures { MatchOption result (first as_in words.old ≡ None) (λ number. first as_in words.old ≡ Some (number, words.new)) }
{
    let number = read_number(words.next_word()?, u64::from(u16::MAX))?;
    Some(As(number as u16))
}

fn next_number(words: &mut Words<'_>) -> Option<u32>
    ensures { MatchOption result (first number_32 words.old ≡ None) (λ number. first number_32 words.old ≡ Some (number, words.new)) }
{
    let number = read_number(words.next_word()?, u64::from(u32::MAX))?;
    Some(number as u32)
}

fn next_wide(words: &mut Words<'_>) -> Option<u64>
    ensures { MatchOption result (first number_64 words.old ≡ None) (λ number. first number_64 words.old ≡ Some (number, words.new)) }
{
    read_number(words.next_word()?, u64::MAX)
}

fn next_colour(words: &mut Words<'_>) -> Option<u32>
    ensures { MatchOption result (first colour_in words.old ≡ None) (λ colour. first colour_in words.old ≡ Some (colour, words.new)) }
{
    read_colour(words.next_word()?)
}

#[tactic(auto, unfolding(crate::specs::RowText::ends_in))]
pub(crate) fn next_ends(words: &mut Words<'_>) -> Option<Ends>
    ensures { MatchOption result (ends_in words.old ≡ None) (λ ends. ends_in words.old ≡ Some (ends, words.new)) }
{
    let from = next_addr(words)?;
    let to = next_addr(words)?;
    let near = next_addr(words)?;
    let far = next_addr(words)?;
    Some(Ends {
        from,
        to,
        near,
        far,
    })
}

#[tactic(auto, unfolding(crate::specs::RowText::traits_in))]
pub(crate) fn next_traits(words: &mut Words<'_>) -> Option<Traits>
    ensures { MatchOption result (traits_in words.old ≡ None) (λ traits. traits_in words.old ≡ Some (traits, words.new)) }
{
    let igp = next_number(words)?;
    let te = next_number(words)?;
    let bytes_per_second = next_wide(words)?;
    let colour = next_colour(words)?;
    Some(Traits {
        igp,
        te,
        bytes_per_second,
        colour,
    })
}
