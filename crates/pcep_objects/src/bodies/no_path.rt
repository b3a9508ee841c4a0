//! The body of NO-PATH: why there is none (RFC 5440, section 7.5).
ghost use Rattle.std.specs.Prelude.{◌≡◌, ◌+◌, ◌++◌, length, OnOk};
ghost use Rattle.pcep_objects.specs.Bodies.NoPath.{no_path_of, no_path_text, vector_text};

use crate::object::Body;
use crate::tlvs::{put_tlv, tlv_behind};
use dom_base::NoMemory;
use pcep_codes::tlvs;

pub(crate) fn read(content: &[u8]) -> Option<Body>
    ensures { result ≡ no_path_of content.now }
{
    let Ok(vector) = tlv_behind(4, content, tlvs::NO_PATH_VECTOR) else {
        return None;
    };
    Some(Body::NoPath {
        nature: content[0],
        vector: vector.unwrap_or(0),
    })
}

pub(crate) fn len(vector: u32) -> usize
    ensures { result ≡ 4 + length (vector_text vector) }
{
    if vector == 0 { 4 } else { 12 }
}

pub(crate) fn put(text: &mut Vec<u8>, nature: u8, vector: u32) -> Result<(), NoMemory>
    ensures { OnOk result (text.new.items ≡ text.old.items ++ no_path_text nature vector) }
{
    text.extend_from_slice(&[nature, 0, 0, 0])?;
    if vector != 0 {
        put_tlv(text, tlvs::NO_PATH_VECTOR, vector)?;
    }
    Ok(())
}
