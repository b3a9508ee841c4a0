//! The body of RP: the flags of a request and its number (RFC 5440, section 7.4).
ghost use Rattle.std.specs.Prelude.{◌≡◌, ◌++◌, OnOk};
ghost use Rattle.pcep_objects.specs.Bodies.Rp.{rp_of, rp_text};

use crate::object::Body;
use crate::octets::put_octets;
use crate::tlvs::tlv_behind;
use dom_base::{NoMemory, word};

pub(crate) const LEN: usize = 8;

pub(crate) fn read(content: &[u8]) -> Option<Body>
    ensures { result ≡ rp_of content.now }
{
    let Ok(_word) = tlv_behind(LEN, content, 0) else {
        return None;
    };
    Some(Body::Rp {
        flags: word(content, 0),
        id: word(content, 4),
    })
}

pub(crate) fn put(text: &mut Vec<u8>, flags: u32, id: u32) -> Result<(), NoMemory>
    ensures { OnOk result (text.new.items ≡ text.old.items ++ rp_text flags id) }
{
    let [a, b, c, d] = flags.to_be_bytes();
    let [e, f, g, h] = id.to_be_bytes();
    put_octets(text, &[a, b, c, d, e, f, g, h])
}
