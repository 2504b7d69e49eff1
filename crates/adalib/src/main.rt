//! The program `adalib [--tick N] [FILE]` serves a session: it reads commands from a file or from the standard input, and writes their replies on the
//! standard output.
//!
//! The exit status is
//! - 0 at the end of the session;
//! - 1 if a device fails, the file can't be opened, or memory runs out outside the session. Nothing more is then written on the standard output, and
//!   the cause is on the standard error;
//! - 2 if the session ends by a `put` that has fewer bytes than it announces; also if the command line is wrong or isn't UTF-8, with the usage line
//!   on the standard error.
#![tactic(auto)]

ghost use Rattle.std.specs.Prelude.{◌≤◌};

mod options;
mod serving;
mod status;

use al_base::NoMemory;
use al_session::{Counted, Device};
use options::{MAX_TICK, Options, UsageError};
use serving::serve_ada;
use status::{Outcome, exit_code};
use std::alloc::Global;
use std::io;
use std::io::BufWriter;
use std::process::ExitCode;
use std::rt::{Env, Files};

fn main(rt: HostRuntime) -> ExitCode {
    let outcome = outcome_of(&rt);
    tell(&rt, &outcome);
    exit_code(outcome)
}

// Prints on the standard error why there is no whole session. If that fails too, the exit status still says it.
fn tell<R: Eprint>(rt: &R, outcome: &Outcome) {
    let _ = match outcome {
        Outcome::Served(Ok(_)) | Outcome::Unopened => Ok(()),
        Outcome::Served(Err(Device::Read)) => eprintln!(rt; "error: the input can't be read"),
        Outcome::Served(Err(Device::Write)) => eprintln!(rt; "error: the output can't be written"),
        Outcome::Usage => eprintln!(rt; "usage: adalib [--tick N] [FILE]"),
        Outcome::NoMemory => eprintln!(rt; "error: out of memory"),
    };
}

// Serves the session that the words of the command line ask for.
fn outcome_of<R: Env + Files + Input + Print + Eprint + AllocGlobal>(rt: &R) -> Outcome {
    let alloc = rt.alloc();
    let Ok(words) = words_of(rt) else {
        return Outcome::NoMemory;
    };
    let Some(words) = words else {
        return Outcome::Usage;
    };
    match Options::of(alloc, words.as_slice()) {
        Ok(options) => match options.file {
            Some(path) => session_of(alloc, rt, path, options.tick),
            None => session(alloc, rt, rt.reader(), options.tick),
        },
        Err(UsageError::OutOfMemory) => Outcome::NoMemory,
        Err(UsageError::Usage) => Outcome::Usage,
    }
}

// The session of a file's commands. If the file can't be opened, the cause is printed here.
fn session_of<R: Files + Print + Eprint>(alloc: Global, rt: &R, path: &str, tick: u32) -> Outcome
    requires some { 1 ≤ tick }
    requires few { tick ≤ MAX_TICK }
{
    match std::fs::open(rt, path) {
        Ok(file) => session(alloc, rt, file, tick),
        Err(e) => {
            let _ = eprintln!(rt; "error: {path} can't be opened: {e}");
            Outcome::Unopened
        }
    }
}

// The words of the command line, after the program's own; none if one of them isn't UTF-8.
fn words_of<R: Env + AllocGlobal>(rt: &R) -> io::Result<Option<Vec<String>>> {
    match std::env::args(rt) {
        Ok(words) => Ok(Some(words.collect(rt.alloc())?)),
        Err(e) if e.kind() == io::ErrorKind::InvalidData => Ok(None),
        Err(e) => Err(e),
    }
}

// One session, from an empty library. Each reply is passed on at its end; what a device that fails leaves of it is dropped.
fn session<D: io::Read + Drop, R: Print>(alloc: Global, rt: &R, input: D, tick: u32) -> Outcome
    requires some { 1 ≤ tick }
    requires few { tick ≤ MAX_TICK }
{
    let mut reader = Counted::new(input);
    let Ok(buffered) = BufWriter::new(alloc, io::writer(rt)) else {
        return Outcome::NoMemory;
    };
    let mut writer = Counted::new(buffered);
    let came = serve_ada(alloc, &mut reader, &mut writer, tick);
    let _ = writer.into_inner().into_parts();
    match came {
        Ok(ended) => Outcome::Served(ended),
        Err(NoMemory) => Outcome::NoMemory,
    }
}
