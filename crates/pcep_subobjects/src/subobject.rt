//! What every subobject begins with, and the octets behind it.
ghost use Rattle.std.specs.Prelude.{◌≡◌, ◌≤◌, ◌+◌, ◌%◌, ℕ, Bool, List, IsTrue, IfOk, IfErr, Ok, Err, length, nat_le};
ghost use Rattle.pcep_subobjects.specs.Subobjects.{subobject_at};
ghost use Rattle.pcep_subobjects.specs.declared.hop.HopFault.{HopFault};

use crate::hop::HopFault;
use crate::part::Part;
use dom_base::NoMemory;
use pcep_codes::subobjects::FIRST_BIT;
use std::alloc::Global;

/// A kind of subobjects: those of routes, or those of exclusions.
pub trait Subobject: Sized + Drop {
    /// The lengths that a type may have.
    ghost has_length: { ℕ → ℕ → Bool };

    /// What a bit, a type and octets mean.
    ghost meaning: { Bool → ℕ → List ℕ → Self };

    fn fits(kind: u8, len: usize) -> bool
        ensures value { result ≡ has_length kind len }
        ensures least { IsTrue result → 4 ≤ len };

    fn of(alloc: Global, bit: bool, kind: u8, content: &[u8]) -> Result<Self, NoMemory>
        requires { IsTrue (has_length kind (length content.now + 2)) }
        ensures { IfOk result (λ x. x ≡ meaning bit kind content.now) };
}

/// The first octet and those behind the length of the subobject at the front, or what is at fault.
fn frame<S: Subobject>(place: usize, bytes: &[u8]) -> Result<(u8, &[u8]), HopFault>
    ensures ok { IfOk result (λ x. subobject_at S.has_length S.meaning bytes.now ≡ Ok (S.meaning (nat_le 128 x.0) (x.0 % 128) x.1.now, length x.1.now + 2)) }
    ensures fits { IfOk result (λ x. IsTrue (S.has_length (x.0 % 128) (length x.1.now + 2))) }
    ensures within { IfOk result (λ x. length x.1.now + 2 ≤ length bytes.now) }
    ensures err { IfErr result (λ e. (fault : ℕ → HopFault) × (subobject_at S.has_length S.meaning bytes.now ≡ Err fault) × (e ≡ fault place)) }
{
    match bytes {
        [first, len, rest @ ..] => {
            let len = *len as usize;
            if rest.len() + 2 < len {
                return Err(HopFault::Short(place));
            }
            if !S::fits(*first % FIRST_BIT, len) {
                return Err(HopFault::BadLength(place));
            }
            let (content, _) = rest.split_at(len - 2);
            Ok((*first, content))
        }
        _ => Err(HopFault::Short(place)),
    }
}

impl<S: Subobject> Part<HopFault> for S {
    ghost at = { λ bytes. subobject_at S.has_length S.meaning bytes };

    fn measure(place: usize, bytes: &[u8]) -> Result<usize, HopFault> {
        match frame::<S>(place, bytes) {
            Ok((_first, content)) => Ok(content.len() + 2),
            Err(fault) => Err(fault),
        }
    }

    fn build(alloc: Global, bytes: &[u8]) -> Result<(S, usize), NoMemory> {
        match frame::<S>(0, bytes) {
            Ok((first, content)) => {
                let part = S::of(alloc, first >= FIRST_BIT, first % FIRST_BIT, content)?;
                Ok((part, content.len() + 2))
            }
            Err(_) => unreachable!(),
        }
    }
}
