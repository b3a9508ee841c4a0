//! The program: makes the real files, input and output, and runs the words that it is given.
#![tactic(auto)]

mod awake;
mod errors;
mod help;
mod meaning;
mod patient;
mod ports;
mod progress;
mod server;
mod steady;

use crate::help::{HELP, asks_for_help, say_check, say_help, say_unread, say_what_is_wrong};
use crate::meaning::{Beginning, say_meaning};
use crate::progress::Progress;
use crate::server::{Ended, serve_network};
use crate::steady::Told;
use dom_edge::{FileStore, InputSource, OutputSink, write_all};
use pce_tool::{Status, run};
use plant_text::NetFault;
use std::alloc::Global;
use std::io::IsTerminal;
use std::process::ExitCode;
use std::sync::Wait;
use std::thread::Threads;
use std::time::Clock;
use std::{env, fmt, io};

const VERSION: &str = "pce 0.1.0, proved with rattle-kit-13f logic dac8208d650f15bf\n";

// Writes a text to the standard output.
fn say(rt: &HostRuntime, text: &str) -> Status {
    match write_all(&mut OutputSink::new(io::writer(rt)), text.as_bytes()) {
        Ok(()) => Status::Ok,
        Err(_) => Status::WriteFault,
    }
}

// The words behind the program's name. A word that is not UTF-8 is no command's.
fn words_of(rt: &HostRuntime) -> Result<Vec<String>, Status> {
    match env::args(rt) {
        Ok(args) => match args.skip(1).collect(rt.alloc()) {
            Ok(words) => Ok(words),
            Err(_) => Err(Status::NoMemory),
        },
        Err(error) if error.kind() == io::ErrorKind::InvalidData => Err(Status::Usage),
        Err(_) => Err(Status::NoMemory),
    }
}

// Whether the word behind this command is the file of a network's settings.
fn takes_settings(verb: &str) -> bool {
    matches!(
        verb,
        "path" | "play" | "replay" | "blind" | "serve" | "check"
    )
}

fn asks_for_path(words: &[String]) -> bool {
    matches!(words, [verb, ..] if verb.as_str() == "path")
}

// A file's folder and its name there; none where the name begins in the working folder.
fn folder_and_name(file: &str) -> Option<(&str, &str)> {
    match file.rsplit_once('/') {
        Some(("", name)) => Some(("/", name)),
        parts => parts,
    }
}

// Makes the folder of a network's settings the working folder, and names them as they are named there: so the files that settings
// and scripts name are looked for beside the settings. Where that folder can't be entered the words stay as they are.
fn enter_folder(rt: &HostRuntime, words: &mut [String]) -> Result<(), Status> {
    let [verb, settings, ..] = words else {
        return Ok(());
    };
    if !takes_settings(verb.as_str()) {
        return Ok(());
    }
    let Some((folder, name)) = folder_and_name(settings.as_str()) else {
        return Ok(());
    };
    let Ok(name) = name.to_string(rt.alloc()) else {
        return Err(Status::NoMemory);
    };
    if env::set_current_dir(rt, folder).is_ok() {
        *settings = name;
    }
    Ok(())
}

// Ends with a number, and where that is not 0, with a text on standard error.
fn end<E: fmt::Display>(rt: &HostRuntime, number: u8, text: &E) -> ExitCode {
    if number != 0 {
        let _ = eprintln!(rt; "pce: {}", Told(text));
    }
    ExitCode::from(number)
}

fn end_of(rt: &HostRuntime, status: Status) -> ExitCode {
    end(rt, status.number(), &status)
}

// The file of the settings, as the words name it.
fn typed_settings(rt: &HostRuntime, words: &[String]) -> Option<String> {
    match words {
        [verb, settings, ..] if takes_settings(verb.as_str()) => settings
            .as_str()
            .to_string(rt.alloc())
            .ok(),
        _ => None,
    }
}

// Whether a command ended by a fault that `check` tells, too: one of the settings, or of a topology that they name.
fn is_checked(words: &[String], status: &Status) -> bool {
    let [verb, settings, ..] = words else {
        return false;
    };
    match status {
        Status::BadNetwork {
            fault: NetFault::NoElement,
            ..
        } => false,
        Status::BadNetwork { file, .. } => {
            verb.as_str() == "path" || file.as_str() == settings.as_str()
        }
        _ => false,
    }
}

// What is said behind a status: help where the words ask for it; which file can't be read; what tells more of the settings; and on a
// terminal which word is wrong.
fn say_more(
    rt: &HostRuntime,
    words: &[String],
    typed: Option<&String>,
    status: &Status,
    unread: &[u8],
) {
    if asks_for_help(words) {
        say_help(rt, words);
        return;
    }
    match status {
        Status::Usage if rt.stderr().is_terminal() => say_what_is_wrong(rt, words),
        Status::ReadFault => say_unread(rt, unread),
        status if is_checked(words, status) => say_check(rt, typed),
        _ => {}
    }
}

// Runs a command over the real files, input and output.
fn run_command(rt: &HostRuntime, words: &mut [String]) -> ExitCode {
    let typed = typed_settings(rt, words);
    if let Err(status) = enter_folder(rt, words) {
        return end(rt, status.number(), &status);
    }
    let alloc = rt.alloc();
    let mut store = FileStore::new(alloc, *rt);
    let mut input = InputSource::new(rt.reader());
    let sink = Beginning::new(alloc, OutputSink::new(io::writer(rt)));
    let mut out = Progress::new(*rt, sink);
    let status = run(alloc, words, &mut store, &mut input, &mut out);
    let code = end(rt, status.number(), &status);
    if status.number() != 0 {
        say_more(rt, words, typed.as_ref(), &status, store.failed_at());
    } else if asks_for_path(words) {
        say_meaning(rt, out.sink().text());
    }
    code
}

// Serves a network, beside whose settings the files are that these and an operator name.
fn end_of_server<R>(rt: &HostRuntime, threads: R, words: &mut [String]) -> ExitCode
where
    R: Threads + Wait + Clock + Copy + Send + Drop + 'static,
{
    let typed = typed_settings(rt, words);
    if let Err(status) = enter_folder(rt, words) {
        return end(rt, status.number(), &status);
    }
    let mut store = FileStore::new(rt.alloc(), *rt);
    let ended = match words {
        [_verb, settings] => serve_network(rt, threads, &mut store, settings.as_str()),
        _ => Ended::Usage,
    };
    let code = end(rt, ended.number(), &ended);
    if asks_for_help(words) {
        say_help(rt, words);
    } else if ended.is_unread() {
        say_unread(rt, store.failed_at());
    } else if ended.is_checked() {
        say_check(rt, typed.as_ref());
    }
    code
}

// What the words ask the program itself for.
#[derive(Clone, Copy)]
enum Asked {
    Help,
    Version,
    Server,
    /// A command that comes to an end.
    Run,
}

fn asked_of(words: &[String]) -> Asked {
    match words {
        [word] if word.as_str() == "--help" => Asked::Help,
        [word] if word.as_str() == "--version" => Asked::Version,
        [verb, _] if verb.as_str() == "serve" => Asked::Server,
        _ => Asked::Run,
    }
}

fn main(rt: HostRuntime) -> ExitCode {
    let mut words = match words_of(&rt) {
        Ok(words) => words,
        Err(status) => return end_of(&rt, status),
    };
    match asked_of(&words) {
        Asked::Help => end_of(&rt, say(&rt, HELP)),
        Asked::Version => end_of(&rt, say(&rt, VERSION)),
        Asked::Server => end_of_server(&rt, rt, &mut words),
        Asked::Run => run_command(&rt, &mut words),
    }
}
