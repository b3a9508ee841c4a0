//! A source that is read piece by piece, and given out line by line.
ghost use Rattle.std.specs.Prelude.{◌≡◌, ◌≤◌, ◌==◌, ◌++◌, ◌∷◌, [], IfErr, IfOk, MatchOption, OnOk, length, position, true, false, IfSome};
ghost use Rattle.dom_edge.specs.Causes.{HasCause};
ghost use Rattle.plant_play.specs.Reels.{Cuts, Fills, Gives, IsReelEnd, ahead};
ghost use Rattle.plant_play.specs.Replays.{HasNoEnd};
ghost use Rattle.transcript.specs.Stops.{line_most};

use crate::cue::too_large;
use dom_base::NoMemory;
use dom_edge::{Piece, Source};
use std::alloc::Global;
use std::marker::Model;
use transcript::{LINE_MAX, Stop};

// How many bytes are read at once.
const PIECE_MAX: usize = 65_536;

/// What came of a try to take a line out of what was read: a line; all of it, and no line end; or too many bytes for one line.
#[derive(Clone, Copy)]
pub(crate) enum Cut {
    Line,
    More,
    Long,
}

/// The line that was begun, and the piece that was read last, of which the bytes from one place to another are still to be taken.
#[derive(Drop)]
pub(crate) struct Reel {
    line: Vec<u8>,
    piece: Vec<u8>,
    from: usize,
    to: usize,
}

impl Model for Reel {
    ghost use Rattle.plant_play.specs.Reels.{Wound};
    ghost use Rattle.plant_play.specs.ReelFields.{IsWithin, wound_of};

    ghost Value = { Wound };

    ghost view = { wound_of };

    ghost invariant = { IsWithin };
}

// The place of the first line end.
fn line_feed_of(bytes: &[u8]) -> Option<usize>
    ensures { result ≡ position (λ c. c == 10) bytes.now }
{
    bytes.iter().position(|c| *c == b'\n')
}

impl Reel {
    /// Nothing was read yet.
    pub(crate) fn new(alloc: Global) -> Result<Self, NoMemory>
        ensures { IfOk result (λ reel. (reel.line ≡ []) × (reel.read ≡ [])) }
    {
        let piece = vec![in alloc; 0u8; PIECE_MAX]?;
        Ok(Reel {
            line: Vec::new(alloc),
            piece,
            from: 0,
            to: 0,
        })
    }

    /// The line that came last, without its line end.
    pub(crate) fn line(&self) -> &[u8]
        ensures line { result.now ≡ self.now.line }
        ensures short { length result.now ≤ line_most }
    {
        &self.line
    }

    // Takes a line up to this line end, or all that was read where there is none.
    fn take(&mut self, end: Option<usize>) -> Result<Cut, NoMemory>
        requires { end ≡ position (λ c. c == 10) self.old.read }
        ensures { IfOk result (λ cut. Cuts cut self.old self.new) }
    {
        let count = end.unwrap_or(self.to - self.from);
        if self.line.len() + count > LINE_MAX {
            return Ok(Cut::Long);
        }
        let stop = self.from + count;
        self.line.extend_from_slice(&self.piece[self.from..stop])?;
        match end {
            Some(_place) => {
                self.from = stop + 1;
                Ok(Cut::Line)
            }
            None => {
                self.from = stop;
                Ok(Cut::More)
            }
        }
    }

    // Takes a line, or all that was read.
    fn cut(&mut self) -> Result<Cut, NoMemory>
        ensures { IfOk result (λ cut. Cuts cut self.old self.new) }
    {
        let end = line_feed_of(&self.piece[self.from..self.to]);
        self.take(end)
    }

    // Reads the next piece, where all of the last one was taken.
    fn fill<I: Source>(&mut self, input: &mut I) -> Piece
        requires taken { self.old.read ≡ [] }
        ensures line { self.new.line ≡ self.old.line }
        ensures fills { Fills (I.left input.old) (I.left input.new) result self.new.read }
        ensures cause { HasCause (I.faults input.old) (I.faults input.new) (result ≡ Piece.Failed) }
    {
        let piece = input.read(&mut self.piece);
        if let Piece::Bytes(count) = piece {
            self.from = 0;
            self.to = count;
        }
        piece
    }

    /// Reads up to the next line end. False is that the input ended before.
    pub(crate) fn next_line<I: Source>(
        &mut self,
        alloc: Global,
        input: &mut I,
    ) -> Result<bool, Stop>
        ensures line { result ≡ Ok true → HasNoEnd self.new.line × Gives (ahead self.old.read (I.left input.old)) (self.new.line ++ 10 ∷ []) (ahead self.new.read (I.left input.new)) }
        ensures none { result ≡ Ok false → IfSome (ahead self.old.read (I.left input.old)) HasNoEnd }
        ensures err { IfErr result (IsReelEnd (ahead self.old.read (I.left input.old)) (I.faults input.old, I.faults input.new)) }
        ensures later { I.faults input.old ≤ I.faults input.new }
    {
        self.line.clear();
        for _turn in 0..u64::MAX {
            match self.cut()? {
                Cut::Line => return Ok(true),
                Cut::Long => return Err(too_large(alloc, "input")),
                Cut::More => {}
            }
            match self.fill(input) {
                Piece::Bytes(_) => {}
                Piece::End => return Ok(false),
                Piece::Failed => return Err(Stop::ReadFault),
            }
        }
        Err(Stop::NoMemory)
    }
}
