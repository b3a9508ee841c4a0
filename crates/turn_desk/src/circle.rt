//! The members of a network in a circle, round which a worker goes.
use dom_base::{As, NoMemory, Peer};
use std::alloc::Global;

/// A member, and who asked for the last job of it that the worker was given.
#[derive(Clone, Copy)]
pub(crate) struct Member {
    pub at: As,
    pub asker: Option<Peer>,
}

/// The members of a network, each of which has its turn behind the one before it, and who was served last at each.
#[derive(Drop)]
pub struct Circle {
    members: Vec<Member>,
    turn: usize,
}

impl Circle {
    /// These members, at none of which anybody was served.
    pub fn new(alloc: Global, members: &[As]) -> Result<Circle, NoMemory> {
        let mut circle = Vec::new(alloc);
        for at in members {
            circle.push(Member {
                at: *at,
                asker: None,
            })?;
        }
        Ok(Circle {
            members: circle,
            turn: 0,
        })
    }

    /// How many members there are.
    pub(crate) fn len(&self) -> usize {
        self.members.len()
    }

    /// The member whose turn it is. The next turn is that of the member behind it.
    pub(crate) fn next(&mut self) -> Option<Member> {
        let count = self.members.len();
        if count == 0 {
            return None;
        }
        let turn = self.turn % count;
        self.turn = turn.wrapping_add(1);
        Some(self.members[turn])
    }

    /// A job of this member was given for that peer.
    pub(crate) fn note(&mut self, at: As, asker: Peer) {
        for member in &mut self.members {
            if member.at == at {
                member.asker = Some(asker);
            }
        }
    }
}
