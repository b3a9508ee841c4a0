//! Inner links in their order.
ghost use Rattle.std.specs.Prelude.{◌≡◌, true, [], length, not, slice_get, Some, None, IfOk, MatchOption};
ghost use Rattle.std.specs.Option.{option_map};
ghost use Rattle.plant_text.specs.Names.{same_link};
ghost use Rattle.plant_text.specs.Settings.{has_adjacency};
ghost use Rattle.network_links.specs.Adjacencies.{adjacency_of, are_adjacencies};
ghost use Rattle.pcep_session.specs.Quiet.{is_quiet};
ghost use Rattle.plant_queues.specs.Messages.{Covers};
ghost use Rattle.plant_model.specs.Names.{is_empty};
ghost use Rattle.plant_model.specs.RealWire.{wire};
ghost use Rattle.plant_model.specs.Deeds as deeds;
ghost use Rattle.network_links.specs.Ends.{is_left_out};
ghost use Rattle.network_links.specs.Links.{at_end, new_sender, next_sid};
ghost use Rattle.network_links.specs.Rooms.{KeepsRoom, queue};
ghost use Rattle.network_links.specs.Quiet.{side_ticked};
ghost use Rattle.network_links.specs.Sides as sides;
ghost use Rattle.network_links.specs.Sides.{AreNewLinks, Begins, BothSidesChange, DropsFirst, Empties, IsPlace, Reserves, Sends, SideChanges, link_at, row_of, set_side, with_session};

use crate::OWN_LENGTH;
use crate::link::{End, Link};
use crate::own::our_offer;
use dom_base::{As, NoMemory, Tick};
use pcep_session::{Input, Own, Session};
use std::alloc::Global;
use std::marker::Model;

/// The inner links of a network. Between two ends the first one counts.
#[derive(Drop)]
pub(crate) struct Links {
    links: Vec<Link>,
}

impl Model for Links {
    ghost use Rattle.std.specs.Prelude.{List};
    ghost use Rattle.network_links.specs.Links.{Joined};

    ghost Value = { List Joined };

    ghost view = { λ a. a.links.items };
}

/// The place of a link, and an end of it.
#[derive(Clone, Copy)]
struct LinkEnd {
    link: usize,
    end: End,
}

fn is_between(link: &Link, a: As, b: As) -> bool
    ensures { result ≡ same_link link.now.adjacency.lower link.now.adjacency.upper a b }
{
    let (lower, upper) = link.adjacency();
    (lower.0 == a.0 && upper.0 == b.0) || (lower.0 == b.0 && upper.0 == a.0)
}

fn end_of(link: &Link, at: As) -> End
    ensures { result ≡ sides.end_of at link.now.adjacency }
{
    let (lower, _upper) = link.adjacency();
    if lower.0 == at.0 {
        End::Lower
    } else {
        End::Upper
    }
}

// The link on which one end sends to another, and that end.
fn place_of(links: &[Link], at: As, to: As) -> Option<LinkEnd>
    ensures { MatchOption result (link_at at to links.now ≡ None) (λ p. IsPlace at to p.link p.end links.now) }
{
    for i in 0..links.len() {
        let link = &links[i];
        if is_between(link, at, to) {
            let end = end_of(link, at);
            return Some(LinkEnd { link: i, end });
        }
    }
    None
}

fn new_link(alloc: Global, lower: As, upper: As) -> Result<Link, NoMemory>
    ensures adjacency { IfOk result (λ link. link.adjacency ≡ record { lower = lower; upper = upper }) }
    ensures lower { IfOk result (λ link. link.lower.kept ≡ new_sender) }
    ensures upper { IfOk result (λ link. link.upper.kept ≡ new_sender) }
    ensures lower_room { IfOk result (λ link. KeepsRoom 0 0 (queue [] link.lower.spare)) }
    ensures upper_room { IfOk result (λ link. KeepsRoom 0 0 (queue [] link.upper.spare)) }
{
    let mut link = Link::new(alloc, lower, upper);
    link.reserve(End::Lower, 0, 0)?;
    link.reserve(End::Upper, 0, 0)?;
    Ok(link)
}

fn session_at(link: &Link, end: End) -> Session
    ensures { result ≡ (at_end end link.now).kept.session }
{
    link.session(end)
}

impl Links {
    /// Links whose sessions have not begun.
    pub fn new(alloc: Global, adjacencies: &[(As, As)]) -> Result<Links, NoMemory>
        ensures { IfOk result (λ links. AreNewLinks (are_adjacencies adjacencies.now) (row_of links)) }
    {
        let mut links = Vec::new(alloc);
        for (lower, upper) in adjacencies {
            links.push(new_link(alloc, *lower, *upper)?)?;
        }
        Ok(Links { links })
    }

    /// How many inner links there are.
    pub fn count(&self) -> usize
        ensures { result ≡ length (row_of self.now).adjacencies }
    {
        self.links.len()
    }

    /// Whether a link joins these two, in either order.
    pub fn is_linked(&self, a: As, b: As) -> bool
        ensures { result ≡ has_adjacency a b (row_of self.now).adjacencies }
    {
        match place_of(&self.links, a, b) {
            Some(_) => true,
            None => false,
        }
    }

    /// The lower and the upper end of the k-th link.
    pub fn adjacency_at(&self, k: usize) -> Option<(As, As)>
        ensures { option_map adjacency_of result ≡ slice_get (row_of self.now).adjacencies k }
    {
        match self.links.get(k) {
            Some(link) => Some(link.adjacency()),
            None => None,
        }
    }

    /// The session of this end of the link.
    pub fn session(&self, at: As, to: As) -> Session
        ensures { result ≡ ((row_of self.now).sides at to).kept.session }
    {
        match place_of(&self.links, at, to) {
            Some(place) => self.links[place.link].session(place.end),
            None => Session::new(our_offer(0), Tick(0)),
        }
    }

    /// Replaces the session at this end of the link.
    pub fn set_session(&mut self, at: As, to: As, session: Session)
        requires linked { has_adjacency at to (row_of self.old).adjacencies ≡ true }
        requires sid { session.offer.sid ≡ ((row_of self.old).sides at to).kept.session.offer.sid }
        ensures { (row_of self.new) ≡ set_side at to (with_session session ((row_of self.old).sides at to)) (row_of self.old) }
    {
        match place_of(&self.links, at, to) {
            Some(place) => self.links[place.link].set_session(place.end, session),
            None => unreachable!(),
        }
    }

    /// Whether a message is on its way.
    pub fn is_on_its_way(&self, from: As, to: As) -> bool
        ensures { result ≡ not (is_empty ((row_of self.now).sides from to).kept.out) }
    {
        match place_of(&self.links, from, to) {
            Some(place) => self.links[place.link].has_sent(place.end),
            None => false,
        }
    }

    /// How many messages are on their way.
    pub fn queued(&self, from: As, to: As) -> usize
        ensures { result ≡ length ((row_of self.now).sides from to).kept.out }
    {
        match place_of(&self.links, from, to) {
            Some(place) => self.links[place.link].queued(place.end),
            None => 0,
        }
    }

    /// The first message that is on its way, as the session at the other end takes it.
    pub fn first_input(&self, from: As, to: As) -> Result<Option<Input>, NoMemory>
        ensures { IfOk result (λ input. input ≡ option_map (λ frame. deeds.input_of wire (Some frame)) (slice_get ((row_of self.now).sides from to).kept.out 0)) }
    {
        match place_of(&self.links, from, to) {
            Some(place) => self.links[place.link].first_input(place.end),
            None => Ok(None),
        }
    }

    /// Drops the first message on its way from one end to the other, where there is one.
    pub fn drop_first(&mut self, from: As, to: As)
        ensures { SideChanges from to DropsFirst (row_of self.old) (row_of self.new) }
    {
        match place_of(&self.links, from, to) {
            Some(place) => self.links[place.link].drop_first(place.end),
            None => {}
        }
    }

    /// Whether a message of the session itself is left out.
    pub fn leaves_out(&self, at: As, to: As, ticks: bool, own: &Own) -> bool
        ensures { result ≡ is_left_out ticks own.now ((row_of self.now).sides at to).kept.out }
    {
        match place_of(&self.links, at, to) {
            Some(place) => self.links[place.link].leaves_out(place.end, ticks, own),
            None => false,
        }
    }

    /// Empties both queues.
    pub fn clear(&mut self, a: As, b: As)
        ensures { BothSidesChange a b Empties (row_of self.old) (row_of self.new) }
    {
        match place_of(&self.links, a, b) {
            Some(place) => self.links[place.link].clear(),
            None => {}
        }
    }

    /// The number of the session after the present one.
    pub fn next_sid(&self, at: As, to: As) -> u8
        ensures { result ≡ next_sid ((row_of self.now).sides at to).kept.session }
    {
        match place_of(&self.links, at, to) {
            Some(place) => self.links[place.link].next_sid(place.end),
            None => 1,
        }
    }

    /// Makes room in the queue of an end; fails where there is no link.
    pub fn reserve(&mut self, at: As, to: As, messages: usize, bytes: usize) -> Result<(), NoMemory>
        ensures { SideChanges at to (Reserves messages bytes result) (row_of self.old) (row_of self.new) }
    {
        match place_of(&self.links, at, to) {
            Some(place) => self.links[place.link].reserve(place.end, messages, bytes),
            None => Err(NoMemory),
        }
    }

    /// An end sends a message for which there is room.
    pub fn put(&mut self, at: As, to: As, message: &[u8])
        requires { Covers ((row_of self.old).sides at to).spare 1 (length message.now) }
        ensures { SideChanges at to (Sends message.now) (row_of self.old) (row_of self.new) }
    {
        match place_of(&self.links, at, to) {
            Some(place) => self.links[place.link].put(place.end, message),
            None => unreachable!(),
        }
    }

    /// Makes a new session at an end and begins it: it sends its Open.
    pub fn begin(&mut self, at: As, to: As, sid: u8, now: Tick)
        requires { Covers ((row_of self.old).sides at to).spare 1 OWN_LENGTH }
        ensures { SideChanges at to (Begins sid now) (row_of self.old) (row_of self.new) }
    {
        match place_of(&self.links, at, to) {
            Some(place) => self.links[place.link].begin(place.end, sid, now),
            None => unreachable!(),
        }
    }

    /// A tick that may be silent: where the session of this end has nothing to say or to do, the tick is taken
    /// and the answer is true; else nothing changes.
    pub fn tick_quietly(&mut self, at: As, to: As, now: Tick) -> bool
        requires { has_adjacency at to (row_of self.old).adjacencies ≡ true }
        ensures quiet { result ≡ is_quiet now ((row_of self.old).sides at to).kept.session }
        ensures next { (row_of self.new) ≡ set_side at to (side_ticked now ((row_of self.old).sides at to)) (row_of self.old) }
    {
        match place_of(&self.links, at, to) {
            Some(place) => self.links[place.link].tick_quietly(place.end, now),
            None => unreachable!(),
        }
    }
}
