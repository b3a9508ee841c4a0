//! The places of a row of a topology: what each is called, and what may stand there.
ghost use Rattle.std.specs.Prelude.{◌≡◌, is_some};
ghost use Rattle.dom_base.specs.Numerals.{colour_in};
ghost use Rattle.network_check.specs.Slots.{is_address_word, is_number_word, is_slot as may_stand, slot_allowed, slot_name};

use dom_base::{read_addr, read_colour, read_number};

/// A place of a row.
#[derive(Clone, Copy)]
pub enum Slot {
    Addr,
    Node,
    From,
    To,
    Head,
    Near,
    Far,
    Domain,
    Igp,
    Te,
    Bandwidth,
    Colour,
    /// The number of a shared risk group.
    Group,
}

/// The places behind `topology`.
pub(crate) const HEADER: [Slot; 1] = [Slot::Domain];

/// The places behind `node`; behind `link`, `out` and `entry`.
pub(crate) const NODE: [Slot; 1] = [Slot::Addr];

pub(crate) const LINK: [Slot; 8] = [
    Slot::From,
    Slot::To,
    Slot::Near,
    Slot::Far,
    Slot::Igp,
    Slot::Te,
    Slot::Bandwidth,
    Slot::Colour,
];

pub(crate) const OUT: [Slot; 9] = [
    Slot::From,
    Slot::Head,
    Slot::Near,
    Slot::Far,
    Slot::Domain,
    Slot::Igp,
    Slot::Te,
    Slot::Bandwidth,
    Slot::Colour,
];

pub(crate) const ENTRY: [Slot; 2] = [Slot::Node, Slot::Domain];

/// What a place is called.
pub(crate) fn name_of(slot: Slot) -> &'static [u8]
    ensures { result.now ≡ slot_name slot }
{
    match slot {
        Slot::Addr => b"ADDR",
        Slot::Node => b"NODE",
        Slot::From => b"FROM",
        Slot::To => b"TO",
        Slot::Head => b"HEAD",
        Slot::Near => b"NEAR",
        Slot::Far => b"FAR",
        Slot::Domain => b"AS",
        Slot::Igp => b"IGP",
        Slot::Te => b"TE",
        Slot::Bandwidth => b"BW",
        Slot::Colour => b"COLOUR",
        Slot::Group => b"SRLG",
    }
}

fn is_address(word: &[u8]) -> bool
    ensures { result ≡ is_address_word word.now }
{
    read_addr(word).is_some()
}

fn is_number(word: &[u8], most: u64) -> bool
    ensures { result ≡ is_number_word most word.now }
{
    read_number(word, most).is_some()
}

fn is_colour(word: &[u8]) -> bool
    ensures { result ≡ is_some (colour_in word.now) }
{
    read_colour(word).is_some()
}

/// Whether a word may stand at a place.
pub(crate) fn is_slot(slot: Slot, word: &[u8]) -> bool
    ensures { result ≡ may_stand slot word.now }
{
    match slot {
        Slot::Addr | Slot::Node | Slot::From | Slot::To | Slot::Head | Slot::Near | Slot::Far =>
            is_address(word),
        Slot::Domain => is_number(word, u64::from(u16::MAX)),
        Slot::Igp | Slot::Te | Slot::Group => is_number(word, u64::from(u32::MAX)),
        Slot::Bandwidth => is_number(word, u64::MAX),
        Slot::Colour => is_colour(word),
    }
}

/// What may stand at a place, in words.
pub(crate) fn allowed_at(slot: Slot) -> &'static [u8]
    ensures { result.now ≡ slot_allowed slot }
{
    match slot {
        Slot::Addr | Slot::Node | Slot::From | Slot::To | Slot::Head | Slot::Near | Slot::Far =>
            b"an address",
        Slot::Domain => b"a number up to 65535",
        Slot::Igp | Slot::Te | Slot::Group => b"a number up to 4294967295",
        Slot::Bandwidth => b"a number up to 18446744073709551615",
        Slot::Colour => b"8 hexadecimal digits",
    }
}
