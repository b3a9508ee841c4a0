//! The calls of a turnstile and its seats.
ghost use Rattle.std.specs.Prelude.{◌≡◌, ◌+◌, ◌-◌, ◌^◌, ◌<◌, ◌≤◌, ◌↔◌, [], ◌∷◌, ◌++◌, IsTrue, IfOk, IfErr, OnOk, OnErr, MatchResult};
ghost use Rattle.plant_lock.specs.declared.view.SeatStage.TheVariants.{Idle, Waits, Serves};
ghost use Rattle.plant_lock.specs.declared.turnstile.SplitError.TheVariants.{NoSeat};
ghost use Rattle.plant_lock.specs.History.{StartsWith};
ghost use Rattle.plant_lock.specs.Views.{opened, kept_half, given_half, joined, LegalFrom};
ghost use Rattle.plant_lock.specs.Steps.{Taken, Holds};
ghost use Rattle.plant_lock.specs.Seats.{IsAt, view_of, shares_of, seen_by, seats_of, own_entries, MayDo, IsLegal, Did, IsLeft};

use crate::seat::{TurnSeat, Turnstile};
use crate::steps::{Advance, Cut, Draw, Learn, Look, Merge, Take};
use crate::turned::Turned;
use crate::view::{Key, Slot, View};
use crate::waiting::{PATIENCE, stand_back, stand_by};
use atomic_table::{Seat, Table};
use dom_base::NoMemory;
use std::alloc::Global;
use std::snapshot::Snapshot;
use std::sync::Wait;
use std::time::Clock;

/// The first number that is no ticket.
const LAST: u64 = 1 << 63;

/// The tickets are used up. The number is the ticket word that was met, 2^63 or more.
#[derive(Clone, Copy, Debug)]
pub struct Spent(pub u64);

/// Why no seat was split off. Since a split takes no memory, it never answers `NoMemory`.
#[derive(Clone, Copy, Debug)]
pub enum SplitError {
    /// The seat has one share alone.
    NoSeat,
    NoMemory,
}

type SeatOf<T> = Seat<
    Slot<T, <T as Turned>::Act, <T as Turned>::Answer>,
    View<T, <T as Turned>::Act, <T as Turned>::Answer>,
>;

impl<T: Turned> Turnstile<T> {
    /// A turnstile round the value, and its first seat, which has all the shares: as many as there
    /// may be seats. Without memory the value is dropped.
    pub fn open(
        alloc: Global,
        value: T,
        seats: u32,
    ) -> Result<(Turnstile<T>, TurnSeat<T>), NoMemory>
    where
        T: Drop,
        requires { 0 < seats }
        ensures here { IfOk result (λ r. IsAt r.0 r.1) }
        ensures seats { IfOk result (λ r. seats_of r.0 ≡ seats) }
        ensures view { IfOk result (λ r. view_of r.1 ≡ opened value seats) }
    {
        let key = Key {
            value: Snapshot::of(&value),
            seats,
        };
        let mut slots = Vec::new(alloc);
        slots.push(Slot::Value(value))?;
        match Table::new(alloc, &[0, 0], slots, &key) {
            Ok((table, seat)) => Ok((
                Turnstile { table },
                TurnSeat {
                    seat,
                    shares: seats,
                },
            )),
            Err(_) => Err(NoMemory),
        }
    }

    /// Does the act once the caller's ticket is served, and answers the place of its entry in the
    /// history, from 0, with the value's answer. It takes no memory of its own.
    ///
    /// Where the tickets are used up the act is dropped, and the seat keeps the word that it met.
    pub fn turn<R: Wait + Clock>(
        &self,
        rt: &R,
        seat: &mut TurnSeat<T>,
        act: T::Act,
    ) -> Result<(u64, T::Answer), Spent>
        requires here { IsAt self.now seat.old }
        requires act { MayDo seat.old act }
        ensures here { IsAt self.now seat.new }
        ensures done { IfOk result (λ r. Did seat.old act r.0 r.1 seat.new) }
        ensures own { IfOk result (λ r. own_entries seat.new ≡ own_entries seat.old ++ (act, r.1) ∷ []) }
        ensures spent { IfErr result (λ e. 2 ^ 63 ≤ e.0) }
        ensures met { IfErr result (λ e. view_of seat.new ≡ record (view_of seat.old) { met = e.0 }) }
    {
        let ticket = match self.draw(rt, &mut seat.seat) {
            Ok(ticket) => ticket,
            Err(met) => return Err(Spent(met)),
        };
        self.enter(rt, &mut seat.seat, ticket);
        let answer = self.perform(&mut seat.seat, ticket, act);
        Ok((ticket, answer))
    }

    /// Moves one share into a new seat, which has seen as much and has no entries of its own.
    pub fn split(&self, seat: &mut TurnSeat<T>) -> Result<TurnSeat<T>, SplitError>
        requires here { IsAt self.now seat.old }
        ensures here { IsAt self.now seat.new }
        ensures seat { IfOk result (λ s. (1 < shares_of seat.old) × IsAt self.now s) }
        ensures kept { OnOk result (view_of seat.new ≡ kept_half (view_of seat.old)) }
        ensures given { IfOk result (λ s. view_of s ≡ given_half (view_of seat.old)) }
        ensures none { IfErr result (λ e. (e ≡ NoSeat) × (shares_of seat.old ≡ 1)) }
        ensures same { OnErr result (view_of seat.new ≡ view_of seat.old) }
    {
        if seat.shares == 1 {
            return Err(SplitError::NoSeat);
        }
        let given = self.table.shared.split_seat::<Cut>(&mut seat.seat);
        seat.shares -= 1;
        Ok(TurnSeat {
            seat: given,
            shares: 1,
        })
    }

    /// Adds the other seat's shares and places to the kept one, which then has seen what either had
    /// seen: both beginnings are beginnings of one history.
    pub fn join(&self, seat: &mut TurnSeat<T>, other: TurnSeat<T>)
        requires here { IsAt self.now seat.old × IsAt self.now other }
        ensures here { IsAt self.now seat.new }
        ensures view { view_of seat.new ≡ joined (view_of seat.old) (view_of other) }
        ensures seen { StartsWith (seen_by seat.new) (seen_by seat.old) × StartsWith (seen_by seat.new) (seen_by other) }
        ensures legal { IsLegal seat.new (seen_by seat.new) }
    {
        let TurnSeat {
            seat: given,
            shares,
        } = other;
        self.table.shared.join_seat::<Merge>(&mut seat.seat, given);
        self.table.shared.load::<Learn>(&mut seat.seat, 1);
        seat.shares += shares;
    }

    /// The value, once the seat has all the shares, so that no other seat is out.
    pub fn close(self, seat: TurnSeat<T>) -> T
        requires here { IsAt self seat }
        requires all { shares_of seat ≡ seats_of self }
        ensures { IsLeft seat result }
    {
        let Turnstile { table } = self;
        let TurnSeat { seat, shares: _ } = seat;
        let mut closed = table.close_with(seat);
        let slot = closed.take(0);
        closed.free();
        match slot {
            Slot::Value(value) => value,
            _ => unreachable!(),
        }
    }

    // The ticket word, met where no ticket was out, or after so many waits.
    fn approach<R: Clock>(&self, rt: &R, seat: &mut SeatOf<T>) -> u64
        requires here { seat.old.table_id ≡ self.now.table.shared.table_id }
        requires live { 0 < seat.old.me.0.shares }
        ensures here { (seat.new.table_id ≡ seat.old.table_id) × (seat.new.id ≡ seat.old.id) }
        ensures met { seat.new.me ≡ (record seat.old.me.0 { met = result }, seat.old.me.1) }
    {
        let mut met = self.table.shared.load::<Look>(seat, 0);
        for wait in 0..PATIENCE {
            if met == self.table.shared.peek(1) {
                return met;
            }
            stand_back(rt, wait);
            met = self.table.shared.load::<Look>(seat, 0);
        }
        met
    }

    // Draws a ticket, or else answers the word that it met.
    fn draw<R: Wait + Clock>(&self, rt: &R, seat: &mut SeatOf<T>) -> Result<u64, u64>
        requires here { seat.old.table_id ≡ self.now.table.shared.table_id }
        requires live { (0 < seat.old.me.0.shares) × (seat.old.me.0.stage ≡ Idle) }
        ensures here { (seat.new.table_id ≡ seat.old.table_id) × (seat.new.id ≡ seat.old.id) }
        ensures drawn { MatchResult result
            (λ t. (t < 2 ^ 63) × (seat.new.me ≡ (record seat.old.me.0 { met = t; stage = Waits t }, seat.old.me.1)))
            (λ t. (2 ^ 63 ≤ t) × (seat.new.me ≡ (record seat.old.me.0 { met = t }, seat.old.me.1))) }
    {
        for _ in rt.forever() {
            let met = self.approach(rt, seat);
            if is_spent(met) {
                return Err(met);
            }
            let found = self
                .table
                .shared
                .compare_exchange::<Draw>(seat, 0, met, met + 1);
            if found == met {
                return Ok(found);
            }
        }
        unreachable!()
    }

    // Waits until the ticket is served, and takes the slot.
    fn enter<R: Wait + Clock>(&self, rt: &R, seat: &mut SeatOf<T>, ticket: u64)
        requires here { seat.old.table_id ≡ self.now.table.shared.table_id }
        requires live { (0 < seat.old.me.0.shares) × (seat.old.me.0.stage ≡ Waits ticket) }
        ensures here { (seat.new.table_id ≡ seat.old.table_id) × (seat.new.id ≡ seat.old.id) }
        ensures taken { Taken T.plain T.admits T.allows T.after seat.old.me ticket seat.new.me }
    {
        let mut wait = 0u32;
        for _ in rt.forever() {
            let served = self.table.shared.load::<Take>(seat, 1);
            if served == ticket {
                return;
            }
            stand_by(rt, wait, ticket.saturating_sub(served));
            wait = wait.saturating_add(1);
        }
        unreachable!()
    }

    // Does the act, and gives the slot back with one entry more in the history.
    fn perform(&self, seat: &mut SeatOf<T>, ticket: u64, act: T::Act) -> T::Answer
        requires here { seat.old.table_id ≡ self.now.table.shared.table_id }
        requires live { (0 < seat.old.me.0.shares) × (seat.old.me.0.stage ≡ Serves ticket) × (ticket < 2 ^ 63) }
        requires slot { Holds T.plain T.admits T.allows T.after seat.old.me (λ x. T.admits (T.plain x) act) }
        requires legal { LegalFrom T.plain T.admits T.allows T.after seat.old.me.0.start seat.old.me.0.seen }
        ensures here { (seat.new.table_id ≡ seat.old.table_id) × (seat.new.id ≡ seat.old.id) }
        ensures entry { seat.new.me ≡ (record seat.old.me.0 { seen = seat.old.me.0.seen ++ (act, result) ∷ []; places = seat.old.me.0.places ++ ticket ∷ []; stage = Idle }, []) }
        ensures legal { LegalFrom T.plain T.admits T.allows T.after seat.old.me.0.start seat.new.me.0.seen }
    {
        let asked = Snapshot::of(&act);
        let mut value = match self.table.shared.exchange(seat, 0, Slot::Empty) {
            Slot::Value(value) => value,
            _ => unreachable!(),
        };
        let answer = value.turn(act);
        let told = Snapshot::of(&answer);
        match self.table.shared.exchange(seat, 0, Slot::Value(value)) {
            Slot::Empty => {}
            _ => unreachable!(),
        }
        let entry = Slot::Entry(asked, told);
        self.table
            .shared
            .compare_exchange_with::<Advance>(seat, 1, ticket, ticket + 1, &entry);
        let Slot::Entry(_, _) = entry else {
            unreachable!()
        };
        answer
    }
}

// No ticket is drawn at this ticket word.
fn is_spent(met: u64) -> bool
    ensures { IsTrue result ↔ (2 ^ 63 ≤ met) }
{
    met >= LAST
}
