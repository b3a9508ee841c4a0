//! What carries messages between elements.
ghost use Rattle.std.specs.Prelude.{◌≡◌, ◌<◌, ◌↔◌, ℕ, Some, length};
ghost use Rattle.server_loops.specs.Serving.{CarriesGuided, CarriesLinks};
ghost use Rattle.server_loops.specs.Sites.{Stays};
ghost use Rattle.server_loops.specs.declared.port.Ran.TheVariants.{Spent as SpentAt};
ghost use Rattle.server_loops.specs.Steps.{IsCarried, IsCarriedOf, IsRound, carried_at};

use crate::desks::{Desk, DeskRefused};
use crate::guides::Guide;
use crate::port::Ran;
use dom_base::As;
use plant_model::{Event, Outcome};

// One Carry, unless the desk is spent.
fn carry<D: Desk>(desk: &mut D, from: As, to: As) -> Result<(), u64>
    ensures carried { IsCarried from to result (D.desked desk.old) (D.desked desk.new) }
    ensures stays { Stays D.is_at desk.old desk.new }
{
    match desk.act(Event::Carry(from, to)) {
        Err(DeskRefused::Spent(number)) => Err(number),
        Ok(_) | Err(DeskRefused::Plant(_)) => Ok(()),
    }
}

// One Carry for each pair, in order, unless the desk is spent.
#[tactic(auto, using(crate::proofs::Rounds::none_carried, crate::proofs::Rounds::all_carried))]
fn carry_round<D: Desk>(desk: &mut D, links: &[(As, As)]) -> Result<(), u64>
    ensures round { IsRound links.now result (D.desked desk.old) (D.desked desk.new) }
    ensures stays { Stays D.is_at desk.old desk.new }
{
    for (from, to) in links {
        carry(desk, *from, *to)?;
    }
    Ok(())
}

// How it ends behind all its turns.
fn ended<D: Desk>(desk: &D) -> Ran
    ensures { (t : ℕ) → (result ≡ SpentAt t) ↔ ((D.desked desk.now).spent ≡ Some t) }
{
    match desk.spent() {
        Some(number) => Ran::Spent(number),
        None => Ran::Turns,
    }
}

/// Carries the first message of each of these ways in each turn, in order. Where there is no way it ends at once: its turns are all
/// empty.
#[tactic(auto, using(crate::proofs::Rounds::idly_made, crate::proofs::Rounds::none_made, crate::proofs::Rounds::one_made, crate::proofs::Rounds::whole_made, crate::proofs::Rounds::cut_made))]
pub fn carry_links<D: Desk>(desk: &mut D, links: &[(As, As)], turns: u64) -> Ran
    ensures carries { CarriesLinks links.now turns result (D.desked desk.old) (D.desked desk.new) }
    ensures stays { Stays D.is_at desk.old desk.new }
    ensures spent { (t : ℕ) → (result ≡ SpentAt t) ↔ ((D.desked desk.new).spent ≡ Some t) }
{
    if links.is_empty() {
        return ended(desk);
    }
    for _turn in 0..turns {
        if let Err(number) = carry_round(desk, links) {
            return Ran::Spent(number);
        }
    }
    ended(desk)
}

// A place below this count.
fn place_below(place: usize, count: usize) -> usize
    requires some { 0 < count }
    ensures { result < count }
{
    place % count
}

// Tells where a message was.
fn tell_found<D: Guide>(desk: &D, place: usize, answer: &Result<Outcome, DeskRefused>) {
    if answer.is_ok() {
        desk.found(place);
    }
}

// The place, unless the desk is spent.
fn carried_at(place: usize, answer: Result<Outcome, DeskRefused>) -> Result<usize, u64>
    ensures { result ≡ carried_at place answer }
{
    match answer {
        Err(DeskRefused::Spent(number)) => Err(number),
        Ok(_) | Err(DeskRefused::Plant(_)) => Ok(place),
    }
}

// One Carry of a pair, for which the desk as a guide is asked, unless the desk is spent. Answers the pair's place.
fn carry_next<D: Desk + Guide>(desk: &mut D, links: &[(As, As)], last: usize) -> Result<usize, u64>
    requires some { 0 < length links.now }
    ensures carried { IsCarriedOf links.now result (D.desked desk.old) (D.desked desk.new) }
    ensures stays { Stays D.is_at desk.old desk.new }
{
    let place = place_below(desk.next_way(links.len(), last), links.len());
    let (from, to) = links[place];
    let answer = desk.act(Event::Carry(from, to));
    tell_found(desk, place, &answer);
    carried_at(place, answer)
}

/// Carries the first message of one of these ways in each turn, of which the desk as a guide tells the place. Where there is no way
/// it ends at once: its turns are all empty.
#[tactic(auto, using(crate::proofs::Guided::none_guided, crate::proofs::Guided::one_guided, crate::proofs::Guided::all_guided, crate::proofs::Guided::cut_guided, crate::proofs::Guided::idly_guided))]
pub fn carry_guided<D: Desk + Guide>(desk: &mut D, links: &[(As, As)], turns: u64) -> Ran
    ensures carries { CarriesGuided links.now turns result (D.desked desk.old) (D.desked desk.new) }
    ensures stays { Stays D.is_at desk.old desk.new }
    ensures spent { (t : ℕ) → (result ≡ SpentAt t) ↔ ((D.desked desk.new).spent ≡ Some t) }
{
    if links.is_empty() {
        return ended(desk);
    }
    let mut last = links.len() - 1;
    for _turn in 0..turns {
        match carry_next(desk, links, last) {
            Ok(place) => last = place,
            Err(number) => return Ran::Spent(number),
        }
    }
    ended(desk)
}
