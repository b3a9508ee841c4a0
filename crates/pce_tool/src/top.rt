//! The top call.
ghost use Rattle.std.specs.Prelude.{◌≡◌, ◌↔◌, ◌∷◌, [], map, string_bytes, None, Some};
ghost use Rattle.pce_tool.specs.Headline.{RunsAreWorth};
ghost use Rattle.pce_tool.specs.Networks.{Runs};
ghost use Rattle.pce_tool.specs.Tasks.{LeavesInput, bulk_task, count_in, lines_task, network_task, path_in, path_task, span_in, task_of};
ghost use Rattle.pce_tool.specs.Worlds.{world};

use crate::commands::{
    answer, blind, bulk, certify, check, pair, pair_certify, pair_verify, path, play, replay,
    verify,
};
use crate::count::count_of;
use crate::route::path_of;
use crate::span::span_of;
use crate::status::Status;
use dom_edge::{Sink, Source, Store};
use std::alloc::Global;

// Runs the command that draws a network.
fn run_bulk<S: Store, I: Source, K: Sink>(
    alloc: Global,
    count: &str,
    store: &mut S,
    input: &mut I,
    out: &mut K,
) -> Status
    ensures usage { (result ≡ Status.Usage) ↔ (count_in count.now ≡ None) }
    ensures ends { Runs (world (S.files store.old) (I.left input.old) (K.written out.old, K.written out.new) (S.faults store.old, S.faults store.new) (I.faults input.old, I.faults input.new) (K.faults out.old, K.faults out.new) (S.failed_at store.new)) (bulk_task count.now) result }
    ensures unread { input.new ≡ input.old }
{
    match count_of(count) {
        Some(count) => bulk::run(alloc, count, store, input, out),
        None => Status::Usage,
    }
}

// Runs a command of one file, or of one number.
fn run_over<S: Store, I: Source, K: Sink>(
    alloc: Global,
    verb: &str,
    word: &str,
    store: &mut S,
    input: &mut I,
    out: &mut K,
) -> Status
    ensures usage { (result ≡ Status.Usage) ↔ (task_of (verb.now ∷ word.now ∷ []) ≡ None) }
    ensures ends { Runs (world (S.files store.old) (I.left input.old) (K.written out.old, K.written out.new) (S.faults store.old, S.faults store.new) (I.faults input.old, I.faults input.new) (K.faults out.old, K.faults out.new) (S.failed_at store.new)) (task_of (verb.now ∷ word.now ∷ [])) result }
    ensures unread { LeavesInput (task_of (verb.now ∷ word.now ∷ [])) → input.new ≡ input.old }
{
    if verb == "answer" {
        return answer::run(alloc, word, store, input, out);
    }
    if verb == "certify" {
        return certify::run(alloc, word, store, input, out);
    }
    if verb == "pair" {
        return pair::run(alloc, word, store, input, out);
    }
    if verb == "pair-certify" {
        return pair_certify::run(alloc, word, store, input, out);
    }
    if verb == "play" {
        return play::run(alloc, word, store, input, out);
    }
    if verb == "replay" {
        return replay::run(alloc, word, None, store, input, out);
    }
    if verb == "blind" {
        return blind::run(alloc, word, store, input, out);
    }
    if verb == "bulk" {
        return run_bulk(alloc, word, store, input, out);
    }
    if verb == "check" {
        return check::run(alloc, word, store, input, out);
    }
    Status::Usage
}

// Runs a command of two files.
fn run_with<S: Store, I: Source, K: Sink>(
    alloc: Global,
    verb: &str,
    topology: &str,
    certificate: &str,
    store: &mut S,
    input: &mut I,
    out: &mut K,
) -> Status
    ensures usage { (result ≡ Status.Usage) ↔ (task_of (verb.now ∷ topology.now ∷ certificate.now ∷ []) ≡ None) }
    ensures ends { Runs (world (S.files store.old) (I.left input.old) (K.written out.old, K.written out.new) (S.faults store.old, S.faults store.new) (I.faults input.old, I.faults input.new) (K.faults out.old, K.faults out.new) (S.failed_at store.new)) (task_of (verb.now ∷ topology.now ∷ certificate.now ∷ [])) result }
{
    if verb == "verify" {
        return verify::run(alloc, topology, certificate, store, input, out);
    }
    if verb == "pair-verify" {
        return pair_verify::run(alloc, topology, certificate, store, input, out);
    }
    Status::Usage
}

// Runs the command that asks a network for a path.
fn run_path<S: Store, I: Source, K: Sink>(
    alloc: Global,
    network: &str,
    source: &str,
    target: &str,
    domains: &[String],
    store: &mut S,
    input: &mut I,
    out: &mut K,
) -> Status
    ensures usage { (result ≡ Status.Usage) ↔ (path_in source.now target.now (map string_bytes domains.now) ≡ None) }
    ensures ends { Runs (world (S.files store.old) (I.left input.old) (K.written out.old, K.written out.new) (S.faults store.old, S.faults store.new) (I.faults input.old, I.faults input.new) (K.faults out.old, K.faults out.new) (S.failed_at store.new)) (path_task network.now source.now target.now (map string_bytes domains.now)) result }
    ensures unread { input.new ≡ input.old }
{
    match path_of(alloc, source, target, domains) {
        Ok(Some(route)) => path::run(alloc, network, route, store, input, out),
        Ok(None) => Status::Usage,
        Err(_) => Status::NoMemory,
    }
}

// Runs the command that plays a record, and tells these lines of it.
fn run_lines<S: Store, I: Source, K: Sink>(
    alloc: Global,
    network: &str,
    from: &str,
    to: &str,
    store: &mut S,
    input: &mut I,
    out: &mut K,
) -> Status
    ensures usage { (result ≡ Status.Usage) ↔ (span_in from.now to.now ≡ None) }
    ensures ends { Runs (world (S.files store.old) (I.left input.old) (K.written out.old, K.written out.new) (S.faults store.old, S.faults store.new) (I.faults input.old, I.faults input.new) (K.faults out.old, K.faults out.new) (S.failed_at store.new)) (lines_task network.now from.now to.now []) result }
{
    match span_of(from, to) {
        Some(span) => replay::run(alloc, network, Some(span), store, input, out),
        None => Status::Usage,
    }
}

// Runs a command of a network's settings, two words, and maybe more.
fn run_long<S: Store, I: Source, K: Sink>(
    alloc: Global,
    verb: &str,
    network: &str,
    first: &str,
    second: &str,
    others: &[String],
    store: &mut S,
    input: &mut I,
    out: &mut K,
) -> Status
    ensures usage { (result ≡ Status.Usage) ↔ (network_task (verb.now ∷ network.now ∷ first.now ∷ second.now ∷ map string_bytes others.now) ≡ None) }
    ensures ends { Runs (world (S.files store.old) (I.left input.old) (K.written out.old, K.written out.new) (S.faults store.old, S.faults store.new) (I.faults input.old, I.faults input.new) (K.faults out.old, K.faults out.new) (S.failed_at store.new)) (network_task (verb.now ∷ network.now ∷ first.now ∷ second.now ∷ map string_bytes others.now)) result }
    ensures unread { LeavesInput (network_task (verb.now ∷ network.now ∷ first.now ∷ second.now ∷ map string_bytes others.now)) → input.new ≡ input.old }
{
    if verb == "path" {
        return run_path(alloc, network, first, second, others, store, input, out);
    }
    if verb == "replay" && others.is_empty() {
        return run_lines(alloc, network, first, second, store, input, out);
    }
    Status::Usage
}

/// Runs the command that the words are: reads the files in the order of the words, then the input,
/// and writes to `out`. It returns on every input. A clause of its own says what holds for a run of a network.
pub fn run<S: Store, I: Source, K: Sink>(
    alloc: Global,
    words: &[String],
    store: &mut S,
    input: &mut I,
    out: &mut K,
) -> Status
    ensures usage { (result ≡ Status.Usage) ↔ (task_of (map string_bytes words.now) ≡ None) }
    ensures ends { Runs (world (S.files store.old) (I.left input.old) (K.written out.old, K.written out.new) (S.faults store.old, S.faults store.new) (I.faults input.old, I.faults input.new) (K.faults out.old, K.faults out.new) (S.failed_at store.new)) (task_of (map string_bytes words.now)) result }
    ensures worth { RunsAreWorth (S.files store.old) (task_of (map string_bytes words.now)) }
    ensures unread { LeavesInput (task_of (map string_bytes words.now)) → input.new ≡ input.old }
{
    match words {
        [verb, word] => run_over(alloc, verb.as_str(), word.as_str(), store, input, out),
        [verb, topology, certificate] => run_with(
            alloc,
            verb.as_str(),
            topology.as_str(),
            certificate.as_str(),
            store,
            input,
            out,
        ),
        [verb, network, first, second, others @ ..] => run_long(
            alloc,
            verb.as_str(),
            network.as_str(),
            first.as_str(),
            second.as_str(),
            others,
            store,
            input,
            out,
        ),
        _ => Status::Usage,
    }
}
