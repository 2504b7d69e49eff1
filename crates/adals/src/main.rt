//! The program `adals [FOLDER ..]`: a language server over folders of Ada sources, on the standard input and output.
//!
//! What it does is done by `al_lsp_served`, over a library of Ada units and the machine's disk. The folders serve where the client names none.
//! The exit status is 0 after `shutdown` and `exit`, 2 where the words are of another form, else 1, with the cause on the standard error.
#![tactic(auto)]

ghost use Rattle.std.specs.Prelude.{◌-◌, ◌^◌, ◌<◌};

mod ada_library;
mod host;
mod points;
mod words;

use crate::ada_library::new_library;
use crate::host::Host;
use crate::words::{Asked, HELP, USAGE, read_words};
use al_base::NoMemory;
use al_check::ada_check;
use al_lsp_served::{Ending, Failure, Server, serve};
use al_session_stream::{Counted, Sink};
use std::io;
use std::io::BufWriter;
use std::process::ExitCode;
use std::rt::{Env, Files};

fn main(rt: HostRuntime) -> ExitCode {
    let Ok(words) = words_of(&rt) else {
        return fail(&rt, "out of memory");
    };
    let Some(words) = words else {
        return usage(&rt);
    };
    match read_words(rt.alloc(), words.as_slice()) {
        Ok(Asked::Serve(folders)) => session(&rt, folders),
        Ok(Asked::Help) => {
            let _ = print!(rt; "{HELP}");
            ExitCode::SUCCESS
        }
        Ok(Asked::Wrong) => usage(&rt),
        Err(NoMemory) => fail(&rt, "out of memory"),
    }
}

fn usage<R: Eprint>(rt: &R) -> ExitCode {
    let _ = eprint!(rt; "{USAGE}");
    ExitCode::from(2)
}

fn fail<R: Eprint>(rt: &R, why: &str) -> ExitCode {
    let _ = eprintln!(rt; "error: {why}");
    ExitCode::FAILURE
}

// Serves the client on the standard input and output.
fn session<R: Files + Input + Print + Eprint + AllocGlobal + Clone + Drop>(
    rt: &R,
    folders: Vec<String>,
) -> ExitCode {
    match served(rt, folders) {
        Ok(Ending::Exit(true)) => ExitCode::SUCCESS,
        Ok(Ending::Exit(false)) | Ok(Ending::End) => ExitCode::FAILURE,
        Ok(Ending::Broken) => fail(rt, "what is read is no message"),
        Err(Failure::Memory) => fail(rt, "out of memory"),
        Err(Failure::Input) => fail(rt, "the standard input can't be read"),
        Err(Failure::Output) => fail(rt, "the standard output can't be written"),
    }
}

fn served<R: Files + Input + Print + AllocGlobal + Clone + Drop>(
    rt: &R,
    folders: Vec<String>,
) -> Result<Ending, Failure> {
    let Ok(writer) = BufWriter::new(rt.alloc(), io::writer(rt)) else {
        return Err(Failure::Memory);
    };
    let mut sink = Counted::new(writer);
    let ended = served_over(rt, folders, &mut sink);
    let _ = sink.into_inner().into_parts();
    ended
}

// The system takes the memory of the library back at the end of the process: to let go of it would only take time.
fn served_over<R: Files + Input + AllocGlobal + Clone + Drop, K: Sink>(
    rt: &R,
    folders: Vec<String>,
    sink: &mut K,
) -> Result<Ending, Failure>
    requires { K.faults sink.old < 2 ^ 64 - 1 }
{
    let alloc = rt.alloc();
    let library = new_library(alloc, ada_check())?;
    let mut source = Counted::new(rt.reader());
    let mut server = Server::new(alloc, library, folders);
    let ended = serve(&mut source, sink, &mut server, &Host::new(rt));
    std::mem::forget(server);
    ended
}

// The words of the command line, the program's own in front; none where one of them isn't UTF-8.
fn words_of<R: Env + AllocGlobal>(rt: &R) -> io::Result<Option<Vec<String>>> {
    match std::env::args(rt) {
        Ok(words) => Ok(Some(words.collect(rt.alloc())?)),
        Err(e) if e.kind() == io::ErrorKind::InvalidData => Ok(None),
        Err(e) => Err(e),
    }
}
