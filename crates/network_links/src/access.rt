//! An outside peer, open or closed.
ghost use Rattle.std.specs.Prelude.{◌≡◌, ◌+◌, ◌%◌, OnOk, OnErr, IsSomeAnd};
ghost use Rattle.network_links.specs.Ends.{just_open};
ghost use Rattle.network_links.specs.Rooms.{KeepsRoom, queue};

use crate::connection::Connection;
use dom_base::{NoMemory, Tick};
use std::alloc::Global;

/// How often an outside peer was opened, and its connection while it is open.
#[derive(Drop)]
pub struct Access {
    pub opened: u64,
    pub connection: Option<Connection>,
}

impl Access {
    /// A peer that was never open.
    pub fn new() -> Access
        ensures { result ≡ record { opened = 0; connection = None } }
    {
        Access {
            opened: 0,
            connection: None,
        }
    }

    /// Connects it with this holder: a connection whose session has the next number and has not begun, with
    /// room for what it says of itself. A peer that was opened 2^64 - 1 times is refused as if out of
    /// memory. An `Err` changes nothing.
    pub fn connect(&mut self, alloc: Global, holder: u32, now: Tick) -> Result<(), NoMemory>
        ensures count { OnOk result (self.new.opened ≡ self.old.opened + 1) }
        ensures connection { OnOk result (IsSomeAnd self.new.connection (λ c. c.kept ≡ just_open holder (self.old.opened % 256) now)) }
        ensures room { OnOk result (IsSomeAnd self.new.connection (λ c. KeepsRoom 0 0 (queue c.kept.out c.spare))) }
        ensures err { OnErr result (self.new ≡ self.old) }
    {
        let Some(opened) = self.opened.checked_add(1) else {
            return Err(NoMemory);
        };
        let sid = (self.opened % 256) as u8;
        let mut connection = Connection::new(alloc, holder, sid, now);
        connection.reserve(0, 0)?;
        self.connection = Some(connection);
        self.opened = opened;
        Ok(())
    }

    /// Closes it; takes no memory.
    pub fn shut(&mut self)
        ensures { self.new ≡ record self.old { connection = None } }
    {
        self.connection = None;
    }
}
