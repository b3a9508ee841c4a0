//! Octets as objects.
ghost use Rattle.std.specs.Prelude.{◌≡◌, ◌≤◌, ◌+◌, ◌/◌, Err, length, IfOk, IfErr};
ghost use Rattle.pcep_objects.specs.Bodies.{body_of};
ghost use Rattle.pcep_objects.specs.Objects.{object_at, with_body, Gives, Measures};

use crate::bits::has_flag;
use crate::bodies::{is_body, read_body};
use crate::object::{Object, ObjectFault};
use pcep_codes::flags;
use std::alloc::Global;

/// The class, the octet of type and flags, and the body of the object at the front.
fn framed(bytes: &[u8]) -> Result<(u8, u8, &[u8]), ObjectFault>
    ensures ok { IfOk result (λ x. object_at bytes.now ≡ with_body x.0 x.1 (length x.2.now + 4) (body_of x.0 (x.1 / 16) x.2.now)) }
    ensures within { IfOk result (λ x. length x.2.now + 4 ≤ length bytes.now) }
    ensures err { IfErr result (λ f. object_at bytes.now ≡ Err (λ _. f)) }
    ensures told { IfErr result (λ f. Gives (Err f) (object_at bytes.now)) }
{
    match bytes {
        [class, second, high, low, rest @ ..] => {
            let len = 256 * *high as usize + *low as usize;
            if rest.len() + 4 < len {
                return Err(ObjectFault::Short);
            }
            if len < 4 {
                return Err(ObjectFault::BadLength);
            }
            if len % 4 != 0 {
                return Err(ObjectFault::BadLength);
            }
            let (content, _) = rest.split_at(len - 4);
            Ok((*class, *second, content))
        }
        _ => Err(ObjectFault::Short),
    }
}

fn object(
    alloc: Global,
    class: u8,
    second: u8,
    content: &[u8],
) -> Result<(Object, usize), ObjectFault>
    ensures found { Gives result (with_body class second (length content.now + 4) (body_of class (second / 16) content.now)) }
    ensures len { IfOk result (λ x. x.1 ≡ length content.now + 4) }
{
    let kind = second / 16;
    let must = has_flag(second, flags::MUST);
    let body = read_body(alloc, class, kind, content)?;
    let object = Object {
        class,
        kind,
        must,
        body,
    };
    Ok((object, content.len() + 4))
}

/// The first object, and how many octets it takes (RFC 5440, section 7.2). A fault is answered even
/// when out of memory.
pub fn read_object(alloc: Global, bytes: &[u8]) -> Result<(Object, usize), ObjectFault>
    ensures found { Gives result (object_at bytes.now) }
    ensures some { IfOk result (λ x. 4 ≤ x.1) }
    ensures within { IfOk result (λ x. x.1 ≤ length bytes.now) }
{
    match framed(bytes) {
        Ok((class, second, content)) => object(alloc, class, second, content),
        Err(fault) => Err(fault),
    }
}

/// How many octets the first object takes, or what is at fault; takes no memory.
pub fn measure_object(bytes: &[u8]) -> Result<usize, ObjectFault>
    ensures found { Measures result (object_at bytes.now) }
    ensures some { IfOk result (λ len. 4 ≤ len) }
    ensures within { IfOk result (λ len. len ≤ length bytes.now) }
{
    match framed(bytes) {
        Ok((class, second, content)) => {
            if is_body(class, second / 16, content) {
                Ok(content.len() + 4)
            } else {
                Err(ObjectFault::BadBody)
            }
        }
        Err(fault) => Err(fault),
    }
}
