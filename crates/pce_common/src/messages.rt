//! The messages that elements and the parent write (RFC 5440, section 6).
ghost use Rattle.std.specs.Prelude.{◌≡◌, ◌++◌, ◌∷◌, [], IfOk, OnOk};
ghost use Rattle.std.specs.Option.{option_to_list};
ghost use Rattle.plant_model.specs.Writing.{asked_of, busy, error_message, iro, no_key, no_path, reply_message, request_message, unavailable, xro};
ghost use Rattle.pce_common.specs.Messages.{first_objects};

use crate::objects::{
    bandwidth_object, bound_object, ends, exclusions_object, masks_object, needed, sequence_object,
};
use dom_base::{Addr, As, Exclusion, List, NoMemory, Query};
use pcep_codes::{classes, flags, no_paths, notices};
use pcep_messages::{Answer, Asked, ErrorReport, Message, Notice, Reply, Wanted, type_of_metric};
use pcep_objects::{Body, Object};
use std::alloc::Global;

// A request that is sent on has at most so many objects.
const OBJECTS_MOST: usize = 8;

/// A list of one.
pub fn one<T: Drop>(alloc: Global, row: T) -> Result<List<T>, NoMemory>
    ensures { IfOk result (λ list. list ≡ row ∷ []) }
{
    let mut list = Vec::with_capacity(alloc, 1)?;
    list.push(row)?;
    Ok(List::from_vec(list))
}

fn exclusions_of(query: Query) -> List<Exclusion>
    ensures { result ≡ query.exclusions }
{
    query.exclusions
}

fn add(objects: &mut List<Object>, object: Option<Object>) -> Result<(), NoMemory>
    ensures { OnOk result (objects.new ≡ objects.old ++ option_to_list object) }
{
    match object {
        Some(object) => objects.push(object),
        None => Ok(()),
    }
}

// The objects of a request that is sent on, before the domains and the exclusions.
fn put_first(
    objects: &mut List<Object>,
    id: u32,
    wanted: &Wanted,
    target: Addr,
) -> Result<(), NoMemory>
    ensures { OnOk result (objects.new ≡ objects.old ++ first_objects id wanted.now target) }
{
    let rp = Body::Rp {
        flags: flags::VSPT,
        id,
    };
    objects.push(needed(classes::RP, rp))?;
    objects.push(ends(wanted.source, target))?;
    add(objects, masks_object(wanted.masks))?;
    add(objects, bandwidth_object(wanted.bandwidth_word))?;
    let metric = wanted.query.metric;
    let computed = Body::Metric {
        bound: false,
        computed: true,
        kind: type_of_metric(metric),
        word: 0,
    };
    objects.push(needed(classes::METRIC, computed))?;
    add(objects, bound_object(metric, wanted.bound_word))
}

// Its domains and exclusions, behind these.
fn put_last(
    alloc: Global,
    objects: &mut List<Object>,
    query: &Query,
    sequence: &[As],
) -> Result<(), NoMemory>
    ensures { OnOk result (objects.new ≡ objects.old ++ iro sequence.now ++ xro query.now.exclusions) }
{
    add(objects, sequence_object(alloc, sequence)?)?;
    let query = query.copy(alloc)?;
    add(objects, exclusions_object(exclusions_of(query)))
}

// A request as it is sent on, under an id, to an end and along a sequence.
fn asked_of(
    alloc: Global,
    id: u32,
    wanted: &Wanted,
    target: Addr,
    sequence: &[As],
) -> Result<Asked, NoMemory>
    ensures { IfOk result (λ asked. asked ≡ asked_of id wanted.now target sequence.now) }
{
    let mut objects = List::from_vec(Vec::with_capacity(alloc, OBJECTS_MOST)?);
    put_first(&mut objects, id, wanted, target)?;
    put_last(alloc, &mut objects, &wanted.query, sequence)?;
    Ok(Asked { objects })
}

/// A request as it is sent on, alone in its message. To the parent it has no sequence.
pub fn request_message(
    alloc: Global,
    id: u32,
    wanted: &Wanted,
    target: Addr,
    sequence: &[As],
) -> Result<Message, NoMemory>
    ensures { IfOk result (λ message. message ≡ request_message id wanted.now target sequence.now) }
{
    let asked = asked_of(alloc, id, wanted, target, sequence)?;
    Ok(Message::PcReq(one(alloc, asked)?))
}

/// The answer to a request, alone in its message.
pub fn reply_message(
    alloc: Global,
    flags: u32,
    id: u32,
    answer: Answer,
) -> Result<Message, NoMemory>
    ensures { IfOk result (λ message. message ≡ reply_message flags id answer) }
{
    let reply = Reply { flags, id, answer };
    Ok(Message::PcRep(one(alloc, reply)?))
}

/// A notice that there is no room for a request (RFC 5440, section 7.14).
pub fn busy(alloc: Global, flags: u32, id: u32) -> Result<Message, NoMemory>
    ensures { IfOk result (λ message. message ≡ busy flags id) }
{
    let notice = Notice {
        ids: one(alloc, (flags, id))?,
        kinds: one(alloc, notices::BUSY)?,
    };
    Ok(Message::PcNtf(one(alloc, notice)?))
}

/// An error by its type and value, of a request where one is named by its flags and id.
pub fn error_message(
    alloc: Global,
    rp: Option<(u32, u32)>,
    error: (u8, u8),
) -> Result<Message, NoMemory>
    ensures { IfOk result (λ message. message ≡ error_message rp error.0 error.1) }
{
    let ids = match rp {
        Some(rp) => one(alloc, rp)?,
        None => List::new(alloc),
    };
    let report = ErrorReport {
        ids,
        errors: one(alloc, error)?,
        opening: None,
    };
    Ok(Message::PcErr(one(alloc, report)?))
}

/// What is said of a request that tells nothing of paths: the chain is not available (RFC 5441, section
/// 7).
pub fn unavailable() -> Answer
    ensures { result ≡ unavailable }
{
    Answer::NoPath {
        nature: no_paths::CHAIN_BROKEN,
        vector: no_paths::CHAIN_UNAVAILABLE,
    }
}

/// A key's expansion failed (RFC 5520, section 3.3).
pub fn no_key() -> Answer
    ensures { result ≡ no_key }
{
    Answer::NoPath {
        nature: no_paths::NONE_FOUND,
        vector: no_paths::KEY_FAILED,
    }
}

/// There is no path, with the bits of an unknown source and an unknown end.
pub fn no_path(source_known: bool, target_known: bool) -> Answer
    ensures { result ≡ no_path source_known target_known }
{
    let vector = match (source_known, target_known) {
        (true, true) => 0,
        (true, false) => no_paths::UNKNOWN_TARGET,
        (false, true) => no_paths::UNKNOWN_SOURCE,
        (false, false) => no_paths::UNKNOWN_SOURCE + no_paths::UNKNOWN_TARGET,
    };
    Answer::NoPath {
        nature: no_paths::NONE_FOUND,
        vector,
    }
}
