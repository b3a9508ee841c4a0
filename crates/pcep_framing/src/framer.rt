//! The framer, which is fed a stream piece by piece.
ghost use Rattle.std.specs.Prelude.{◌≡◌, ◌≤◌, ◌++◌, [], true, false, ℕ, Bool, List, length, drop, IfOk, OnErr, map};
ghost use Rattle.pcep_framing.specs.Frames.{joined, Framing, Splits, AreFrames, Stops, FeedsTo};

use crate::cut::cut_front;
use dom_base::{Bytes, List, NoMemory};
use std::alloc::Global;
use std::marker::Model;

/// The messages that a piece of the stream completes, and whether the stream is bad by now: a header
/// had a version other than 1, a length below 4, or one that is no multiple of 4.
#[derive(Drop)]
pub struct Fed {
    pub frames: List<Bytes>,
    pub bad: bool,
}

/// The part of a stream that has come behind its last whole message.
#[derive(Drop)]
pub struct Framer {
    held: Vec<u8>,
    bad: bool,
}

impl Model for Framer {
    ghost use Rattle.pcep_framing.specs.Frames.{Framing};

    ghost Value = { Framing };

    ghost use Rattle.pcep_framing.specs.Fields.{framing_of, HoldsFraming};

    ghost view = { framing_of };

    ghost invariant = { HoldsFraming };
}

// Drops the first bytes.
fn drop_front(bytes: &mut Vec<u8>, count: usize)
    requires { count ≤ length bytes.old.items }
    ensures { bytes.new.items ≡ drop count bytes.old.items }
{
    let left = bytes.len() - count;
    bytes.as_mut_slice().rotate_left(count);
    bytes.truncate(left);
}

impl Framer {
    /// Nothing has come yet; takes no memory.
    pub fn new(alloc: Global) -> Framer
        ensures { result ≡ record { held = []; bad = false } }
    {
        Framer {
            held: Vec::new(alloc),
            bad: false,
        }
    }

    /// Takes the next piece of the stream. A bad stream gives no more frames. An `Err` changes nothing.
    pub fn feed(&mut self, piece: &[u8]) -> Result<Fed, NoMemory>
        ensures ok { IfOk result (λ fed. FeedsTo self.old piece.now fed.frames self.new) }
        ensures bad { IfOk result (λ fed. fed.bad ≡ self.new.bad) }
        ensures err { OnErr result (self.new ≡ self.old) }
    {
        let alloc = *self.held.allocator();
        if self.bad {
            return Ok(Fed {
                frames: List::new(alloc),
                bad: true,
            });
        }
        let before = self.held.len();
        self.held.extend_from_slice(piece)?;
        match cut_front(alloc, &self.held) {
            Ok(found) => {
                drop_front(&mut self.held, found.at);
                self.bad = found.bad;
                Ok(Fed {
                    frames: found.frames,
                    bad: found.bad,
                })
            }
            Err(NoMemory) => {
                self.held.truncate(before);
                Err(NoMemory)
            }
        }
    }

    /// An equal framer.
    pub fn copy(&self) -> Result<Framer, NoMemory>
        ensures { IfOk result (λ copy. copy ≡ self.now) }
    {
        let alloc = *self.held.allocator();
        let held = Vec::from_slice(alloc, self.held.as_slice())?;
        Ok(Framer {
            held,
            bad: self.bad,
        })
    }
}

/// The messages of a stream that comes in these pieces.
pub fn frame_all(alloc: Global, pieces: &[Bytes]) -> Result<Fed, NoMemory>
    // They are those of the pieces joined, and the stream is bad where the joined one is.
    ensures frames { IfOk result (λ fed. AreFrames (joined pieces.now) fed.frames fed.bad) }
    // No others are, so the cuts between pieces do not matter.
    ensures only { IfOk result (λ fed. (others : List (List ℕ)) (bad : Bool) → AreFrames (joined pieces.now) others bad → (fed.frames ≡ others) × (fed.bad ≡ bad)) }
{
    let mut framer = Framer::new(alloc);
    let mut frames = Vec::new(alloc);
    for piece in pieces {
        let fed = framer.feed(piece.as_slice())?;
        let mut more = fed.frames.into_vec();
        frames.append(&mut more)?;
    }
    Ok(Fed {
        frames: List::from_vec(frames),
        bad: framer.bad,
    })
}
