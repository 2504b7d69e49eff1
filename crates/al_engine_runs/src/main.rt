//! Builds libraries of the toy language, edit by edit, and prints what each build gives, which units it checked, how many checks it made, and how
//! many stored answers it compared. A line is a command: `put FILE TEXT`, `delete FILE`, `rename OLD NEW`, `build MAIN`, `run EVENTS`, `obsolete`,
//! `told`. A command that runs out of memory is tried once more. `serve COMMANDS PULLS MOST TEXT` is a session over the library within these bounds,
//! which itself replies that it is out of memory.
#![tactic(auto)]

ghost use Rattle.std.specs.Prelude.{◌≡◌};

mod files;
mod library;
mod predefined;
mod printed;
mod serving;

use crate::library::{Done, Library};
use std::alloc::AllocError;
use std::io;

/// Carries out a command.
fn act(library: &mut Library, word: &str, rest: &str) -> Result<Done, AllocError> {
    if let Ok(done) = library.act(word, rest) {
        return Ok(done);
    }
    match library.act(word, rest) {
        Ok(done) => Ok(done),
        Err(_) => Err(AllocError),
    }
}

/// Prints what was done.
fn tell(library: &Library, done: Done) -> Result<String, AllocError> {
    if let Ok(printed) = library.tell(done) {
        return Ok(printed);
    }
    match library.tell(done) {
        Ok(printed) => Ok(printed),
        Err(_) => Err(AllocError),
    }
}

/// Serves a session.
fn serve(library: &mut Library, words: &str) -> Result<String, AllocError> {
    match library.serve(words) {
        Ok(printed) => Ok(printed),
        Err(_) => Err(AllocError),
    }
}

/// Carries out a command, and prints what was done.
fn carried_out(library: &mut Library, word: &str, rest: &str) -> Result<String, AllocError> {
    if word == "serve" {
        return serve(library, rest);
    }
    let done = act(library, word, rest)?;
    tell(library, done)
}

/// Carries out the commands of these lines, and prints what they give.
fn carry_out(rt: HostRuntime, library: &mut Library, text: &str) -> io::Result<()> {
    for line in text.lines() {
        let (word, rest) = line.split_once(' ').unwrap_or((line, ""));
        let printed = carried_out(library, word, rest)?;
        rt.print(printed)?;
    }
    Ok(())
}

fn main(rt: HostRuntime) -> io::Result<()> {
    let text = io::read_to_string(rt.alloc(), rt.reader())?;
    let mut library = Library::new(rt.alloc());
    carry_out(rt, &mut library, text.as_str())
}
