//! The body of OPEN: what a peer offers for a session (RFC 5440, section 7.3; RFC 8231, section
//! 7.1.1).
ghost use Rattle.std.specs.Prelude.{◌≡◌, ◌++◌, length, OnOk};
ghost use Rattle.pcep_objects.specs.Bodies.Open.{open_of, open_text};

use crate::object::{Body, OpenBody};
use crate::offer::Offer;
use crate::tlvs::{put_tlv, tlv_behind};
use dom_base::NoMemory;
use pcep_codes::tlvs;

pub(crate) fn read(content: &[u8]) -> Option<Body>
    ensures { result ≡ open_of content.now }
{
    let Ok(word) = tlv_behind(4, content, tlvs::STATEFUL) else {
        return None;
    };
    Some(Body::Open(OpenBody {
        version: content[0] / 32,
        offer: Offer {
            keepalive: content[1],
            dead: content[2],
            sid: content[3],
            stateful: word.is_some(),
        },
    }))
}

pub(crate) fn len(opening: OpenBody) -> usize
    ensures { result ≡ length (open_text opening) }
{
    if opening.offer.stateful { 12 } else { 4 }
}

pub(crate) fn put(text: &mut Vec<u8>, opening: OpenBody) -> Result<(), NoMemory>
    ensures { OnOk result (text.new.items ≡ text.old.items ++ open_text opening) }
{
    let offer = opening.offer;
    let first = opening.version % 8 * 32;
    text.extend_from_slice(&[first, offer.keepalive, offer.dead, offer.sid])?;
    if offer.stateful {
        put_tlv(text, tlvs::STATEFUL, 0)?;
    }
    Ok(())
}
