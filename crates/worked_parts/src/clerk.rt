//! A desk in memory: it cuts what it is fed into messages, and hands each that is taken back to its peer.
ghost use Rattle.std.specs.Prelude.{◌≡◌, ◌<◌, ◌++◌, ◌∷◌, [], vec_len};
ghost use Rattle.std.specs.Vec.{vec_capacity};

use dom_base::Bytes;
use server_loops::model::{Event, Outcome, Refused};
use server_loops::{Desk, DeskRefused, Ends, Guide, Rest, Sited};
use std::alloc::Global;
use std::mem::replace;
use std::snapshot::Snapshot;

/// What the desk sends where a connection is opened: an Open.
pub const GREETING: [u8; 12] = [
    0x20, 0x01, 0x00, 0x0C, 0x01, 0x10, 0x00, 0x08, 0x20, 0x1E, 0x78, 0x00,
];

// The type of a message after which the desk sends nothing more.
const CLOSE: u8 = 7;

// How many bytes may wait for the peer while more of its messages are taken.
const BACKLOG_MAX: usize = 40;

// An event that was made, with its answer, and what a take leaves to do.
#[derive(Drop)]
struct Note {
    event: Event,
    answer: Snapshot<Result<Outcome, DeskRefused>>,
    rest: Rest,
}

// What was fed, how much of it was taken, and what is to be sent.
#[derive(Drop)]
struct Mail {
    alloc: Global,
    fed: Vec<u8>,
    taken: usize,
    waiting: Vec<u8>,
    ended: bool,
}

// How long the first message is, by its header.
fn message_len(rest: &[u8]) -> Option<usize> {
    let header = rest.get(..4)?;
    Some(usize::from(header[2]) * 256 + usize::from(header[3]))
}

// The first message that was fed and not yet taken.
fn first_of(fed: &[u8], taken: usize) -> Option<&[u8]> {
    let rest = fed.get(taken..)?;
    rest.get(..message_len(rest)?)
}

impl Mail {
    fn keep(room: &mut Vec<u8>, bytes: &[u8]) -> Result<Outcome, Refused> {
        match room.extend_from_slice(bytes) {
            Ok(()) => Ok(Outcome::Done),
            Err(_) => Err(Refused::NoMemory),
        }
    }

    fn rest(&self) -> Rest {
        match first_of(&self.fed, self.taken) {
            None => Rest::Nothing,
            Some(_) if self.waiting.len() > BACKLOG_MAX => Rest::Backlog,
            Some(_) => Rest::Messages,
        }
    }

    fn take(&mut self) -> Result<Outcome, Refused> {
        let Some(message) = first_of(&self.fed, self.taken) else {
            return Err(Refused::NothingToCarry);
        };
        self.taken = self.taken.saturating_add(message.len());
        if message.get(1).copied() == Some(CLOSE) {
            self.ended = true;
            return Ok(Outcome::Done);
        }
        Mail::keep(&mut self.waiting, message)
    }

    fn answer(&mut self, event: &Event) -> Result<Outcome, Refused> {
        match event {
            Event::Open(..) => Mail::keep(&mut self.waiting, &GREETING),
            Event::Feed(_peer, bytes) => Mail::keep(&mut self.fed, bytes.as_slice()),
            Event::Take(_peer) => self.take(),
            Event::Drain(..) => {
                let bytes = replace(&mut self.waiting, Vec::new(self.alloc));
                Ok(Outcome::Drained {
                    bytes: Bytes::from_vec(bytes),
                    ended: self.ended,
                })
            }
            _ => Ok(Outcome::Done),
        }
    }
}

// The letter of an event.
fn letter(event: &Event) -> u8 {
    match event {
        Event::Open(..) => b'o',
        Event::Drain(..) => b'd',
        Event::Feed(..) => b'f',
        Event::Take(_) => b't',
        Event::Shut(_) => b's',
        Event::Carry(..) => b'c',
        Event::Tick(_) => b'k',
        _ => b'?',
    }
}

/// The desk. Without memory for a note it is spent.
#[derive(Drop)]
pub struct Clerk {
    mail: Mail,
    spent_at: Option<u64>,
    notes: Vec<Note>,
}

impl Clerk {
    pub(crate) fn new(alloc: Global) -> Self {
        Clerk {
            mail: Mail {
                alloc,
                fed: Vec::new(alloc),
                taken: 0,
                waiting: Vec::new(alloc),
                ended: false,
            },
            spent_at: None,
            notes: Vec::new(alloc),
        }
    }

    // Puts a note behind the others.
    fn note(&mut self, event: Event, answer: Snapshot<Result<Outcome, DeskRefused>>, rest: Rest)
        requires { vec_len self.old.notes < vec_capacity self.old.notes }
        ensures notes { self.new.notes.items ≡ self.old.notes.items ++ record { event = event; answer = answer; rest = rest } ∷ [] }
        ensures spent { self.new.spent_at ≡ self.old.spent_at }
    {
        self.notes.push_reserved(Note {
            event,
            answer,
            rest,
        });
    }

    /// Appends the letters of the events that were made.
    pub(crate) fn tell(&self, text: &mut Vec<u8>) -> Option<()> {
        for note in &self.notes {
            text.push(letter(&note.event)).ok()?;
        }
        Some(())
    }
}

impl Sited for Clerk {
    ghost Site = { Unit {0} };

    ghost is_at = { λ _ _. Unit {0} };
}

impl Desk for Clerk {
    ghost use Rattle.std.specs.Prelude.{map};

    ghost desked = { λ d. record { calls = map (λ n. record { event = n.event; answer = n.answer.value; rest = n.rest }) d.notes.items; spent = d.spent_at } };

    fn act(&mut self, event: Event) -> Result<Outcome, DeskRefused> {
        if let Some(number) = self.spent_at {
            return Err(DeskRefused::Spent(number));
        }
        if self.notes.reserve(1).is_err() {
            self.spent_at = Some(0);
            return Err(DeskRefused::Spent(0));
        }
        match self.mail.answer(&event) {
            Ok(outcome) => {
                let answer = Ok(outcome);
                self.note(event, Snapshot::of(&answer), Rest::Nothing);
                answer
            }
            Err(why) => {
                let answer = Err(DeskRefused::Plant(why));
                self.note(event, Snapshot::of(&answer), Rest::Nothing);
                answer
            }
        }
    }

    fn take(&mut self, peer: u32) -> Result<Rest, DeskRefused> {
        if let Some(number) = self.spent_at {
            return Err(DeskRefused::Spent(number));
        }
        if self.notes.reserve(1).is_err() {
            self.spent_at = Some(0);
            return Err(DeskRefused::Spent(0));
        }
        match self.mail.take() {
            Ok(outcome) => {
                let rest = self.mail.rest();
                self.note(Event::Take(peer), Snapshot::of(&Ok(outcome)), rest);
                Ok(rest)
            }
            Err(why) => {
                let answer = Err(DeskRefused::Plant(why));
                self.note(Event::Take(peer), Snapshot::of(&answer), Rest::Nothing);
                Err(DeskRefused::Plant(why))
            }
        }
    }

    fn spent(&self) -> Option<u64> {
        self.spent_at
    }
}

// One way after the other.
impl Guide for Clerk {
    fn next_way(&self, _count: usize, last: usize) -> usize {
        last.wrapping_add(1)
    }

    fn found(&self, _place: usize) {}
}

// Nobody asks it to end.
impl Ends for Clerk {
    fn is_over(&self) -> bool {
        false
    }
}
