//! A turnstile, and a seat at it.
ghost use Rattle.std.specs.Prelude.{◌≡◌, ◌<◌, [], true, length};
ghost use Rattle.plant_lock.specs.declared.view.SeatStage.TheVariants.{Idle};
ghost use Rattle.plant_lock.specs.History.{all_below};

use crate::steps::TicketRule;
use crate::turned::Turned;
use crate::view::{Key, Slot, View};
use atomic_table::{Seat, Table};
use std::alloc::Global;

/// A lock round a value that takes turns. Threads share it by reference.
///
/// Word 0 of its table is the next ticket, word 1 the ticket that is served, and slot 0 has the
/// value.
#[derive(Drop)]
pub struct Turnstile<T: Turned> {
    pub(crate) table: Table<
        Slot<T, T::Act, T::Answer>,
        View<T, T::Act, T::Answer>,
        Key<T>,
        TicketRule<T>,
        Global,
    >,
    ghost sized: { (table.shared.table_id.words ≡ 2) × (table.shared.table_id.slots ≡ 1) },
}

/// The right to take turns at one turnstile, by at least one share. It moves to the thread that
/// uses it. The shares of a seat that is dropped are lost, and the turnstile cannot be closed then.
#[derive(Drop)]
pub struct TurnSeat<T: Turned> {
    pub(crate) seat: Seat<Slot<T, T::Act, T::Answer>, View<T, T::Act, T::Answer>>,
    pub(crate) shares: u32,
    ghost rests: { seat.me.1 ≡ [] },
    ghost idle: { seat.me.0.stage ≡ Idle },
    ghost counted: { shares ≡ seat.me.0.shares },
    ghost live: { 0 < shares },
    ghost within: { all_below (length seat.me.0.seen) seat.me.0.places ≡ true },
}
