//! Bytes in memory that come in pieces.
ghost use Rattle.std.specs.Prelude.{◌≡◌, ◌≢◌, ◌<◌, ℕ, length};
ghost use Rattle.dom_edge.specs.Streams.{IsRead};
ghost use Rattle.dom_edge.specs.Links.{IsPieceRead, pieces_reading, new_pieces};

use crate::rest::Rest;
use crate::stream::Got;
use crate::supply::Supply;
use dom_base::{Bytes, List as Rows};
use std::marker::Model;

// The pieces that are left, and how often a read was quiet, and met the end. A piece that was taken
// whole stands in front, empty, until the next read.
#[derive(Drop)]
pub(crate) struct Pieces {
    front: Rest,
    later: Supply<Bytes>,
    quiets: u64,
    ends: u64,
}

impl Model for Pieces {
    ghost use Rattle.dom_edge.specs.Links.{PiecesState};

    ghost Value = { PiecesState };

    ghost view = { λ p. record { front = p.front; later = p.later; quiets = p.quiets; ends = p.ends } };
}

impl Pieces {
    pub(crate) fn new(pieces: Rows<Bytes>) -> Self
        ensures { result ≡ new_pieces pieces }
    {
        let pieces = pieces.into_vec();
        let alloc = *pieces.allocator();
        Pieces {
            front: Rest::new(Bytes::new(alloc)),
            later: Supply::new(Rows::from_vec(pieces)),
            quiets: 0,
            ends: 0,
        }
    }

    // A read that does not fail.
    pub(crate) fn read(&mut self, into: &mut [u8]) -> Got
        requires { 0 < length into.old }
        ensures reads { (n : ℕ) → IsRead (pieces_reading self.old n) (pieces_reading self.new n) result into.new }
        ensures pieces { IsPieceRead self.old self.new result (length into.old) }
        ensures not_failed { result ≢ Got.Failed }
    {
        if self.front.is_empty() {
            match self.later.next() {
                None => {
                    self.ends = self.ends.saturating_add(1);
                    return Got::End;
                }
                Some(piece) => {
                    if piece.is_empty() {
                        self.quiets = self.quiets.saturating_add(1);
                        return Got::Quiet;
                    }
                    self.front = Rest::new(piece);
                }
            }
        }
        Got::Bytes(self.front.take(into))
    }
}
