//! The texts of short messages, which take no memory.
ghost use Rattle.std.specs.Prelude.{◌≡◌, length};
ghost use Rattle.pcep_messages.specs.Spelling.{message_text};
ghost use Rattle.plant_model.specs.Deeds as deeds;
ghost use Rattle.plant_model.specs.Element.{lost_output};
ghost use Rattle.network_links.specs.Ends.{own_bytes};
ghost use Rattle.network_links.specs.OwnFields.{octets_of};

use crate::ANSWER_LENGTH;
use pcep_objects::Offer;
use pcep_session::Own;
use plant_model::Lost;
use std::marker::Model;

/// The octets of a message that is so short.
#[derive(Clone, Copy)]
enum Short {
    Word([u8; 4]),
    Object([u8; 12]),
    Capable([u8; 20]),
    Answer([u8; 32]),
}

/// The text of a short message, which takes no memory.
#[derive(Drop)]
pub struct ShortText {
    octets: Short,
}

impl Model for ShortText {
    ghost use Rattle.std.specs.Prelude.{List, ℕ};

    ghost Value = { List ℕ };

    ghost use Rattle.network_links.specs.OwnFields.{text_of};

    ghost view = { text_of };
}

impl ShortText {
    /// The octets of the message.
    pub fn as_slice(&self) -> &[u8]
        ensures { result.now ≡ self.now }
    {
        match &self.octets {
            Short::Word(octets) => octets,
            Short::Object(octets) => octets,
            Short::Capable(octets) => octets,
            Short::Answer(octets) => octets,
        }
    }
}

/// What this side offers at its so many-th session (RFC 5440, section 7.3).
pub fn our_offer(sid: u8) -> Offer
    ensures { result ≡ deeds.our_offer sid }
{
    Offer {
        keepalive: 30,
        dead: 120,
        sid,
        stateful: false,
    }
}

fn open_octets(offer: Offer) -> Short
    ensures { octets_of result ≡ own_bytes (Own.Open offer) }
{
    let Offer {
        keepalive,
        dead,
        sid,
        stateful,
    } = offer;
    if stateful {
        Short::Capable([
            32, 1, 0, 20, 1, 16, 0, 16, 32, keepalive, dead, sid, 0, 16, 0, 4, 0, 0, 0, 0,
        ])
    } else {
        Short::Object([32, 1, 0, 12, 1, 16, 0, 8, 32, keepalive, dead, sid])
    }
}

fn error_octets(kind: u8, value: u8) -> Short
    ensures { octets_of result ≡ own_bytes (Own.Error kind value) }
{
    Short::Object([32, 6, 0, 12, 13, 16, 0, 8, 0, 0, kind, value])
}

fn close_octets(reason: u8) -> Short
    ensures { octets_of result ≡ own_bytes (Own.Close reason) }
{
    Short::Object([32, 7, 0, 12, 15, 16, 0, 8, 0, 0, 0, reason])
}

/// The text of a message that a session says of itself; takes no memory.
pub fn own_text(own: Own) -> ShortText
    ensures { result ≡ own_bytes own }
{
    let octets = match own {
        Own::Open(offer) => open_octets(offer),
        Own::Keepalive => Short::Word([32, 2, 0, 4]),
        Own::Error(kind, value) => error_octets(kind, value),
        Own::Close(reason) => close_octets(reason),
    };
    ShortText { octets }
}

/// The text of the Open of a session with this number; takes no memory.
pub(crate) fn open_text(sid: u8) -> ShortText
    ensures { result ≡ own_bytes (Own.Open (deeds.our_offer sid)) }
{
    own_text(Own::Open(our_offer(sid)))
}

/// The text of what a lost request is answered: the chain of elements is not available (RFC 5441,
/// section 7). It takes no memory.
pub fn lost_text(lost: &Lost) -> ShortText
    ensures text { result ≡ message_text (lost_output lost.now).message }
    ensures length { length result ≡ ANSWER_LENGTH }
{
    let [f0, f1, f2, f3] = lost.flags.to_be_bytes();
    let [i0, i1, i2, i3] = lost.id.to_be_bytes();
    ShortText {
        octets: Short::Answer([
            32, 4, 0, 32, 2, 18, 0, 12, f0, f1, f2, f3, i0, i1, i2, i3, 3, 16, 0, 16, 1, 0, 0, 0,
            0, 1, 0, 4, 0, 0, 0, 8,
        ]),
    }
}
