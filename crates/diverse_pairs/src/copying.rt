//! Copies of objects.
ghost use Rattle.std.specs.Prelude.{◌≡◌, IfOk};
ghost use Rattle.diverse_pairs.specs.Asking.{is_svec as is_joining, plain};

use dom_base::{List, NoMemory, copy_exclusions};
use pcep_codes::{classes, kinds};
use pcep_objects::{Body, Object};
use pcep_subobjects::copy_hops;
use std::alloc::Global;

fn metric(bound: bool, computed: bool, kind: u8, word: u32) -> Body
    ensures { result ≡ Body.Metric bound computed kind word }
{
    Body::Metric {
        bound,
        computed,
        kind,
        word,
    }
}

fn copy_body(alloc: Global, body: &Body) -> Result<Body, NoMemory>
    ensures { IfOk result (λ copy. copy ≡ body.now) }
{
    Ok(match *body {
        Body::Open(opening) => Body::Open(opening),
        Body::Rp { flags, id } => Body::Rp { flags, id },
        Body::NoPath { nature, vector } => Body::NoPath { nature, vector },
        Body::EndPoints { source, target } => Body::EndPoints { source, target },
        Body::Bandwidth(word) => Body::Bandwidth(word),
        Body::Metric {
            bound,
            computed,
            kind,
            word,
        } => metric(bound, computed, kind, word),
        Body::Ero(ref hops) => Body::Ero(copy_hops(alloc, hops.as_slice())?),
        Body::Lspa {
            exclude_any,
            include_any,
            include_all,
            setup,
            holding,
            flags,
        } => Body::Lspa {
            exclude_any,
            include_any,
            include_all,
            setup,
            holding,
            flags,
        },
        Body::Iro(ref hops) => Body::Iro(copy_hops(alloc, hops.as_slice())?),
        Body::Notification(kind, value) => Body::Notification(kind, value),
        Body::Error(kind, value) => Body::Error(kind, value),
        Body::Close(reason) => Body::Close(reason),
        Body::PathKey(ref hops) => Body::PathKey(copy_hops(alloc, hops.as_slice())?),
        Body::Xro(ref list) => Body::Xro(copy_exclusions(alloc, list.as_slice())?),
        Body::Unread(ref octets) => Body::Unread(octets.copy(alloc)?),
    })
}

fn copy_object(alloc: Global, object: &Object) -> Result<Object, NoMemory>
    ensures { IfOk result (λ copy. copy ≡ object.now) }
{
    Ok(Object {
        class: object.class,
        kind: object.kind,
        must: object.must,
        body: copy_body(alloc, &object.body)?,
    })
}

/// Whether an object is an SVEC.
pub(crate) fn is_svec(object: &Object) -> bool
    ensures { result ≡ is_joining object.now }
{
    object.class == classes::SVEC && object.kind == kinds::FIRST
}

/// Copies of the objects that are no SVEC.
pub(crate) fn copy_plain(alloc: Global, objects: &[Object]) -> Result<List<Object>, NoMemory>
    ensures { IfOk result (λ copies. copies ≡ plain objects.now) }
{
    let mut copies = List::new(alloc);
    for object in objects {
        if !is_svec(object) {
            copies.push(copy_object(alloc, object)?)?;
        }
    }
    Ok(copies)
}
