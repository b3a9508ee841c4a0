//! The rule of the ticket lock, and what each kind of step tells the seat that makes it.
use crate::turned::Turned;
use crate::view::{Key, Slot, View};
use atomic_table::{Join, Play, Split, TableRule};
use std::marker::PhantomData;

/// What holds between any two steps.
pub struct TicketRule<T> {
    of: PhantomData<T>,
}

impl<T: Turned> TableRule<Slot<T, T::Act, T::Answer>, View<T, T::Act, T::Answer>, Key<T>>
    for TicketRule<T> {
    ghost use Rattle.plant_lock.specs.Rule.{Ruled};
    ghost use Rattle.plant_lock.specs.Views.{opened};

    ghost holds = { λ k. Ruled T.plain T.admits T.allows T.after k.value.value k.seats };

    ghost first = { λ k. opened k.value.value k.seats };
}

/// A load of the ticket word.
pub struct Look;

impl<T: Turned> Play<Slot<T, T::Act, T::Answer>, View<T, T::Act, T::Answer>> for Look {
    ghost use Rattle.plant_lock.specs.Steps.{looked};

    ghost then = { looked T.plain T.admits T.allows T.after };
}

/// An exchange of the ticket word for the next number.
pub struct Draw;

impl<T: Turned> Play<Slot<T, T::Act, T::Answer>, View<T, T::Act, T::Answer>> for Draw {
    ghost use Rattle.plant_lock.specs.Steps.{drew};

    ghost then = { drew T.plain T.admits T.allows T.after };
}

/// A load of the serving word, which takes the slot where it finds the seat's ticket.
pub struct Take;

impl<T: Turned> Play<Slot<T, T::Act, T::Answer>, View<T, T::Act, T::Answer>> for Take {
    ghost use Rattle.plant_lock.specs.Steps.{took};

    ghost then = { took T.plain T.admits T.allows T.after };
}

/// An exchange of the serving word for the next number, which gives the slot back and adds the
/// entry that it is told to the history.
pub struct Advance;

impl<T: Turned> Play<Slot<T, T::Act, T::Answer>, View<T, T::Act, T::Answer>> for Advance {
    ghost use Rattle.plant_lock.specs.Steps.{advanced};

    ghost then = { advanced T.plain T.admits T.allows T.after };
}

/// A load of the serving word after a join.
pub struct Learn;

impl<T: Turned> Play<Slot<T, T::Act, T::Answer>, View<T, T::Act, T::Answer>> for Learn {
    ghost use Rattle.plant_lock.specs.Steps.{learned};

    ghost then = { learned T.plain T.admits T.allows T.after };
}

/// One share is cut off.
pub struct Cut;

impl<T, A, B> Split<View<T, A, B>> for Cut {
    ghost use Rattle.plant_lock.specs.Views.{kept_half, given_half};

    ghost left = { kept_half };

    ghost right = { given_half };
}

/// Two seats become one.
pub struct Merge;

impl<T, A, B> Join<View<T, A, B>> for Merge {
    ghost use Rattle.plant_lock.specs.Views.{both, gone};

    ghost both = { both };

    ghost spent = { gone };
}
