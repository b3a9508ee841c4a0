//! The body of LSPA: attributes of links that a path wants or not, priorities and flags (RFC 5440,
//! section 7.11).
ghost use Rattle.std.specs.Prelude.{◌≡◌, ◌++◌, OnOk};
ghost use Rattle.pcep_objects.specs.Bodies.Lspa.{lspa_of, lspa_text};

use crate::object::Body;
use crate::octets::put_octets;
use crate::tlvs::tlv_behind;
use dom_base::{NoMemory, word};

pub(crate) const LEN: usize = 16;

pub(crate) fn read(content: &[u8]) -> Option<Body>
    ensures { result ≡ lspa_of content.now }
{
    let Ok(_word) = tlv_behind(LEN, content, 0) else {
        return None;
    };
    Some(Body::Lspa {
        exclude_any: word(content, 0),
        include_any: word(content, 4),
        include_all: word(content, 8),
        setup: content[12],
        holding: content[13],
        flags: content[14],
    })
}

pub(crate) fn put(
    text: &mut Vec<u8>,
    exclude_any: u32,
    include_any: u32,
    include_all: u32,
    setup: u8,
    holding: u8,
    flags: u8,
) -> Result<(), NoMemory>
    ensures { OnOk result (text.new.items ≡ text.old.items ++ lspa_text exclude_any include_any include_all setup holding flags) }
{
    let [a, b, c, d] = exclude_any.to_be_bytes();
    let [e, f, g, h] = include_any.to_be_bytes();
    let [i, j, k, l] = include_all.to_be_bytes();
    put_octets(
        text,
        &[a, b, c, d, e, f, g, h, i, j, k, l, setup, holding, flags, 0],
    )
}
