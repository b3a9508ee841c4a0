//! What came to a session: whole messages, one for each request or reply, and bad headers.
ghost use Rattle.std.specs.Prelude.{◌≡◌, ◌++◌, ◌∷◌, [], map, slice_index, Some, IfOk, OnOk, OnErr};
ghost use Rattle.pcep_framing.specs.Feeding.{feed_of};
ghost use Rattle.plant_model.specs.RealWire.{wire};
ghost use Rattle.plant_model.specs.Events as events;
ghost use Rattle.plant_model.specs.Deeds as deeds;
ghost use Rattle.network_links.specs.Inboxes.{brings};

use dom_base::{Bytes, List, NoMemory};
use pcep_framing::{Fed, Framer};
use pcep_messages::{Bad, read_message, split_message};
use pcep_session::Input;
use std::alloc::Global;
use std::collections::VecDeque;

/// A message, or the place of a bad header.
pub(crate) type Item = Option<Bytes>;

/// What a piece of a stream brings: the framer after it, and the items that it completes.
#[derive(Drop)]
pub(crate) struct Arrived {
    pub framer: Framer,
    pub items: VecDeque<Item>,
}

/// A framer that was fed, and what it handed out.
#[derive(Drop)]
struct Step {
    framer: Framer,
    fed: Fed,
}

fn push(items: &mut VecDeque<Item>, item: Item) -> Result<(), NoMemory>
    ensures { OnOk result (items.new.items ≡ items.old.items ++ item ∷ []) }
{
    items.push_back(item)?;
    Ok(())
}

fn push_parts(items: &mut VecDeque<Item>, parts: List<Bytes>) -> Result<(), NoMemory>
    ensures { OnOk result (items.new.items ≡ items.old.items ++ map Some parts) }
{
    let mut left = VecDeque::from_vec(parts.into_vec());
    while let Some(part) = left.pop_front() {
        push(items, Some(part))?;
    }
    Ok(())
}

/// The items of some frames of a stream.
#[tactic(auto, using(crate::proofs::InboxLemmas::split_all_is))]
fn split_all(alloc: Global, frames: &[Bytes]) -> Result<VecDeque<Item>, NoMemory>
    ensures { IfOk result (λ items. items.items ≡ events.split_all wire frames.now) }
{
    let mut items = VecDeque::new(alloc);
    for frame in frames {
        let parts = split_message(alloc, frame.as_slice())?;
        push_parts(&mut items, parts)?;
    }
    Ok(items)
}

/// The items of what a framer handed out.
fn items_of(alloc: Global, fed: &Fed) -> Result<VecDeque<Item>, NoMemory>
    ensures { IfOk result (λ items. items.items ≡ events.split_all wire fed.now.frames ++ events.bad_item fed.now.bad) }
{
    let mut items = split_all(alloc, fed.frames.as_slice())?;
    if fed.bad {
        push(&mut items, None)?;
    }
    Ok(items)
}

// A copy is fed, so that the framer is as before if memory runs out later.
fn feed_copy(framer: &Framer, piece: &[u8]) -> Result<Step, NoMemory>
    ensures frames { IfOk result (λ step. step.fed.frames ≡ (feed_of framer.now piece.now).frames) }
    ensures framing { IfOk result (λ step. step.framer ≡ (feed_of framer.now piece.now).framing) }
    ensures bad { IfOk result (λ step. step.fed.bad ≡ step.framer.bad) }
{
    let mut next = framer.copy()?;
    let fed = next.feed(piece)?;
    Ok(Step { framer: next, fed })
}

/// What a piece brings to a framer, which stays as it is.
pub(crate) fn arrive(alloc: Global, framer: &Framer, piece: &[u8]) -> Result<Arrived, NoMemory>
    ensures framing { IfOk result (λ arrived. arrived.framer ≡ (feed_of framer.now piece.now).framing) }
    ensures items { IfOk result (λ arrived. arrived.items.items ≡ brings piece.now framer.now) }
{
    let step = feed_copy(framer, piece)?;
    let items = items_of(alloc, &step.fed)?;
    Ok(Arrived {
        framer: step.framer,
        items,
    })
}

/// Appends the items that arrived. An `Err` leaves the inbox as it was.
pub(crate) fn append_all(
    inbox: &mut VecDeque<Item>,
    mut items: VecDeque<Item>,
) -> Result<(), NoMemory>
    ensures ok { OnOk result (inbox.new.items ≡ inbox.old.items ++ items.items) }
    ensures err { OnErr result (inbox.new.items ≡ inbox.old.items) }
{
    inbox.append(&mut items)?;
    Ok(())
}

/// What a frame is to a session: a message, or nothing that can be read.
pub(crate) fn read_input(alloc: Global, frame: &[u8]) -> Result<Input, NoMemory>
    ensures { IfOk result (λ input. input ≡ deeds.input_of wire (Some frame.now)) }
{
    match read_message(alloc, frame) {
        Ok(message) => Ok(Input::Got(message)),
        Err(Bad::Malformed(_)) => Ok(Input::Bad),
        Err(Bad::NoMemory) => Err(NoMemory),
    }
}

/// What an item is to a session.
pub(crate) fn input_of(alloc: Global, item: &Item) -> Result<Input, NoMemory>
    ensures { IfOk result (λ input. input ≡ deeds.input_of wire item.now) }
{
    match item {
        Some(frame) => read_input(alloc, frame.as_slice()),
        None => Ok(Input::Bad),
    }
}

/// The type of a message.
pub(crate) fn type_of(message: &[u8]) -> u8
    ensures { result ≡ slice_index message.now 1 }
{
    match message.get(1) {
        Some(octet) => *octet,
        None => 0,
    }
}
