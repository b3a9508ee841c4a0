//! The effects of calls on one outside peer.
ghost use Rattle.std.specs.Prelude.{◌≡◌, [], length};
ghost use Rattle.plant_queues.specs.Messages.{Covers};
ghost use Rattle.plant_model.specs.Deeds as deeds;
ghost use Rattle.network_links.specs.Accesses.{ConnectsGuest, DrainsGuest, FeedsGuest, Goes, GrowsGuest, SendsGuest, Shuts, TicksGuest};
ghost use Rattle.network_links.specs.Flow.{drop_first};
ghost use Rattle.network_links.specs.Peers.{guest_of, room_of};

use crate::access::Access;
use crate::peers::Drained;
use dom_base::{NoMemory, Tick};
use pcep_session::Session;
use plant_model::Refused;
use std::alloc::Global;

pub(crate) fn set_session(access: &mut Access, session: Session)
    ensures { Goes (deeds.with_session session) (guest_of access.old) (guest_of access.new) }
{
    if let Some(connection) = &mut access.connection {
        connection.set_session(session);
    }
}

pub(crate) fn drop_first(access: &mut Access)
    ensures { Goes drop_first (guest_of access.old) (guest_of access.new) }
{
    if let Some(connection) = &mut access.connection {
        connection.drop_first();
    }
}

pub(crate) fn empty_inbox(access: &mut Access)
    ensures { Goes (deeds.with_inbox []) (guest_of access.old) (guest_of access.new) }
{
    if let Some(connection) = &mut access.connection {
        connection.empty_inbox();
    }
}

pub(crate) fn connect(
    access: &mut Access,
    alloc: Global,
    holder: u32,
    now: Tick,
) -> Result<(), NoMemory>
    ensures { ConnectsGuest holder now result (guest_of access.old) (guest_of access.new) }
{
    access.connect(alloc, holder, now)
}

pub(crate) fn shut(access: &mut Access)
    ensures { Shuts (guest_of access.old) (guest_of access.new) }
{
    access.shut();
}

pub(crate) fn reserve(access: &mut Access, messages: usize, bytes: usize) -> Result<(), NoMemory>
    ensures { GrowsGuest messages bytes result (guest_of access.old) (guest_of access.new) }
{
    match &mut access.connection {
        Some(connection) => connection.reserve(messages, bytes),
        None => Err(NoMemory),
    }
}

pub(crate) fn put(access: &mut Access, message: &[u8])
    requires { Covers (room_of access.old.connection) 1 (length message.now) }
    ensures { SendsGuest message.now (guest_of access.old) (guest_of access.new) }
{
    match &mut access.connection {
        Some(connection) => connection.put(message),
        None => unreachable!(),
    }
}

pub(crate) fn feed(access: &mut Access, piece: &[u8]) -> Result<(), Refused>
    ensures { FeedsGuest piece.now result (guest_of access.old) (guest_of access.new) }
{
    let Some(connection) = &mut access.connection else {
        return Err(Refused::NoSuchPeer);
    };
    match connection.feed(piece) {
        Ok(()) => Ok(()),
        Err(NoMemory) => Err(Refused::NoMemory),
    }
}

pub(crate) fn drain(access: &mut Access, holder: u32) -> Result<Drained, Refused>
    ensures { DrainsGuest holder result (guest_of access.old) (guest_of access.new) }
{
    let Some(connection) = &mut access.connection else {
        return Err(Refused::NoSuchPeer);
    };
    if connection.holder() != holder {
        return Err(Refused::NotHolder(connection.holder()));
    }
    let ended = connection.is_down();
    match connection.drain() {
        Ok(bytes) => Ok(Drained { bytes, ended }),
        Err(NoMemory) => Err(Refused::NoMemory),
    }
}

pub(crate) fn tick_quietly(access: &mut Access, now: Tick) -> bool
    ensures { TicksGuest now result (guest_of access.old) (guest_of access.new) }
{
    match &mut access.connection {
        Some(connection) => connection.tick_quietly(now),
        None => true,
    }
}
