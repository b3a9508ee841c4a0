//! Whole messages, cut off the front of some bytes.
ghost use Rattle.std.specs.Prelude.{◌≡◌, ◌≤◌, ◌<◌, drop, length, MatchOption, IfOk};
ghost use Rattle.pcep_framing.specs.Frames.{IsHead, length_field, Cuts, Stops};

use crate::HEADER_LENGTH;
use dom_base::{Bytes, List, NoMemory, half};
use pcep_codes::VERSION;
use std::alloc::Global;

/// The messages at the front of some bytes, where they end, and whether a bad header follows.
#[derive(Drop)]
pub(crate) struct Cut {
    pub frames: List<Bytes>,
    pub at: usize,
    pub bad: bool,
}

// The length in a header, if a message may have that header.
fn head_length(bytes: &[u8]) -> Option<usize>
    requires { 4 ≤ length bytes.now }
    ensures { MatchOption result (¬ IsHead bytes.now) (λ n. IsHead bytes.now × (n ≡ length_field bytes.now)) }
{
    let length = usize::from(half(bytes, 2));
    if bytes[0] / 32 == VERSION && length >= 4 && length % 4 == 0 {
        Some(length)
    } else {
        None
    }
}

fn copy_of(alloc: Global, bytes: &[u8]) -> Result<Bytes, NoMemory>
    ensures { IfOk result (λ copy. copy ≡ bytes.now) }
{
    Ok(List::from_vec(Vec::from_slice(alloc, bytes)?))
}

/// Cuts the messages off the front.
pub(crate) fn cut_front(alloc: Global, bytes: &[u8]) -> Result<Cut, NoMemory>
    ensures cuts { IfOk result (λ c. Cuts bytes.now c.frames c.at) }
    ensures stops { IfOk result (λ c. Stops c.bad (drop c.at bytes.now)) }
{
    let mut frames = List::new(alloc);
    let mut at = 0;
    while bytes.len() - at >= HEADER_LENGTH {
        let rest = &bytes[at..];
        let Some(length) = head_length(rest) else {
            return Ok(Cut {
                frames,
                at,
                bad: true,
            });
        };
        if rest.len() < length {
            break;
        }
        frames.push(copy_of(alloc, &rest[..length])?)?;
        at += length;
    }
    Ok(Cut {
        frames,
        at,
        bad: false,
    })
}
