//! Runs of the commands over memory, in which each call of the outside fails in turn. What a run without a
//! fault writes, `.ci/runs` tries on the built program.
mod runs;

use dom_base::{Bytes, List, Text};
use dom_edge::{MemorySink, MemorySource, MemoryStore};
use pce_tool::{Status, run};
use runs::{FILES, PATH, PLAY, Run, VERIFY};
use std::alloc::Global;
use std::process::Abort;
use std::test::Fail;

// The one call of the outside that is to fail, by its number from 0.
#[derive(Clone, Copy)]
enum Fault {
    Store(u64),
    Input(u64),
    Output(u64),
}

// The numbers of the calls of the store, the input and the output that are to fail.
fn failing(alloc: Global, fault: Fault) -> Result<(List<u64>, List<u64>, List<u64>), Fail> {
    let (mut store, mut input, mut output) = (List::new(alloc), List::new(alloc), List::new(alloc));
    match fault {
        Fault::Store(call) => store.push(call)?,
        Fault::Input(call) => input.push(call)?,
        Fault::Output(call) => output.push(call)?,
    }
    Ok((store, input, output))
}

fn bytes_of(alloc: Global, bytes: &[u8]) -> Result<Bytes, Fail> {
    Ok(List::from_vec(bytes.to_vec(alloc)?))
}

fn files_of(alloc: Global) -> Result<List<(Text, Bytes)>, Fail> {
    let mut files = Vec::new(alloc);
    for (name, text) in &FILES {
        files.push((Text::copy_of(alloc, name)?, bytes_of(alloc, text)?))?;
    }
    Ok(List::from_vec(files))
}

fn words_of(alloc: Global, line: &str) -> Result<Vec<String>, Fail> {
    let mut words = Vec::new(alloc);
    for word in line.split(' ') {
        words.push(word.to_string(alloc)?)?;
    }
    Ok(words)
}

fn ended(
    alloc: Global,
    words: &[String],
    store: &mut MemoryStore,
    source: &mut MemorySource,
    sink: &mut MemorySink,
) -> Status {
    run(alloc, words, store, source, sink)
}

fn text_of(alloc: Global, status: Status) -> Result<String, Fail> {
    Ok(format!(in alloc; "{status}")?)
}

// Runs a command; answers what it wrote, and the text of its status.
fn told(alloc: Global, run: &Run, fault: Fault) -> Result<(MemorySink, String), Fail> {
    let (in_store, in_input, in_output) = failing(alloc, fault)?;
    let files = files_of(alloc)?;
    let input = bytes_of(alloc, run.input)?;
    let words = words_of(alloc, run.words)?;
    let mut store = MemoryStore::new(alloc, files, in_store);
    let mut source = MemorySource::new(input, in_input);
    let mut sink = MemorySink::new(alloc, in_output);
    let status = ended(alloc, &words, &mut store, &mut source, &mut sink);
    Ok((sink, text_of(alloc, status)?))
}

// Where that call fails, the run ends with that status, and has written its first so many pieces.
fn ends_there(
    alloc: Global,
    rt: &impl Abort,
    run: &Run,
    fault: Fault,
    status: &str,
    count: usize,
) -> Result<(), Fail> {
    let mut text = Vec::new(alloc);
    for piece in run.pieces.iter().take(count) {
        text.extend_from_slice(piece)?;
    }
    let (sink, told) = told(alloc, run, fault)?;
    assert_eq!(rt; told.as_str(), status, "{}", run.words);
    assert_eq!(rt; sink.bytes(), text.as_slice(), "{}", run.words);
    Ok(())
}

fn calls_fail(alloc: Global, rt: &impl Abort, run: &Run) -> Result<(), Fail> {
    for (call, count) in run.files.iter().enumerate() {
        let fault = Fault::Store(call as u64);
        ends_there(alloc, rt, run, fault, "read fault", *count)?;
    }
    for (call, count) in run.reads.iter().enumerate() {
        let fault = Fault::Input(call as u64);
        ends_there(alloc, rt, run, fault, "read fault", *count)?;
    }
    for call in 0..run.pieces.len() {
        let fault = Fault::Output(call as u64);
        ends_there(alloc, rt, run, fault, "write fault", call)?;
    }
    Ok(())
}

// No call comes behind the last of each kind.
fn no_more_calls(alloc: Global, rt: &impl Abort, run: &Run) -> Result<(), Fail> {
    let whole = run.pieces.len();
    let calls = [
        Fault::Store(run.files.len() as u64),
        Fault::Input(run.reads.len() as u64),
        Fault::Output(whole as u64),
    ];
    for fault in calls {
        ends_there(alloc, rt, run, fault, "ok", whole)?;
    }
    Ok(())
}

#[test]
fn runs_tell_each_fault_and_write_what_comes_before(rt: HostRuntime) -> Result<(), Fail> {
    for run in [VERIFY, PLAY, PATH] {
        calls_fail(rt.alloc(), &rt, &run)?;
        no_more_calls(rt.alloc(), &rt, &run)?;
    }
    Ok(())
}
