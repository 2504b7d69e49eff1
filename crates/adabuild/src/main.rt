//! The program `adabuild` builds and runs folders of Ada sources.
//!
//! The work is done by `al_folder_served`, over a library of Ada units (`ada_library`, `why`), the machine's disk and its two outputs. `al_folder_words` reads
//! the command line; `al_folder_machine` has the machine, and traces, profiles and listings.
//!
//! The exit status is 0 if all was done, 1 if there is no program, 2 if the command line is wrong, 3 if an exception ended the run.
#![tactic(auto)]

ghost use Rattle.std.specs.Prelude.{◌≤◌, ◌<◌};

mod ada_library;
mod why;

use crate::ada_library::new_library;
use al_base::Name;
use al_check::ada_check;
use al_explain::{Page, page_text, pages};
use al_folder::{Ending, exit_code};
use al_folder_machine::{Host, Lines, Observer};
use al_folder_served::{
    Disk, Failure, LineSource, LoadRequest, Request, Run, Screen, Told, build_once, load,
    take_project, watch, worse_of,
};
use al_folder_words::{Asked, BuildAsked, HELP, Looks, USAGE, VERSION, read_words};
use al_session_stream::{Counted, Sink};
use std::alloc::Global;
use std::io;
use std::io::BufWriter;
use std::process::ExitCode;
use std::rt::{Clock, Env, Files};

fn main(rt: HostRuntime) -> ExitCode {
    let alloc = rt.alloc();
    let Ok(output) = BufWriter::new(alloc, rt.stdout()) else {
        return without_memory(&rt);
    };
    let Ok(error) = BufWriter::new(alloc, rt.stderr()) else {
        return without_memory(&rt);
    };
    let mut screen = Screen::new(Counted::new(output), Counted::new(error));
    let ending = match outcome_of(&rt, &mut screen) {
        Ok(ending) => ending,
        Err(failure) => {
            tell_failure(&mut screen, failure);
            Ending::NotBuilt
        }
    };
    let Screen {
        output,
        error,
        is_open: _,
        form: _,
    } = screen;
    let _ = output.into_sink().into_inner().into_parts();
    let _ = error.into_sink().into_inner().into_parts();
    exit_code(ending)
}

// Prints that there is no memory for the outputs.
fn without_memory<R: Eprint>(rt: &R) -> ExitCode {
    let _ = eprintln!(rt; "error: out of memory");
    exit_code(Ending::NotBuilt)
}

// Prints why the program can't go on, if it still can.
fn tell_failure<O: Sink, E: Sink>(screen: &mut Screen<O, E>, failure: Failure) {
    let why = match failure {
        Failure::Memory => b"error: out of memory".as_slice(),
        Failure::Output => b"error: the standard output can't be written".as_slice(),
        Failure::ErrorOutput => b"error: the standard error can't be written".as_slice(),
        Failure::Input => b"error: the standard input can't be read".as_slice(),
        Failure::Clock => b"error: the clock can't be read".as_slice(),
    };
    let _ = screen.tell_line(&[why]);
}

// Does what the command line asks for.
fn outcome_of<R: Env + Files + Input + Clock + AllocGlobal + Clone + Drop, O: Sink, E: Sink>(
    rt: &R,
    screen: &mut Screen<O, E>,
) -> Result<Ending, Failure> {
    let Ok(words) = words_of(rt) else {
        return Err(Failure::Memory);
    };
    let Some(words) = words else {
        return usage(screen, b"error: a word isn't UTF-8");
    };
    let Ok(mut host) = Host::new(rt) else {
        return Err(Failure::Clock);
    };
    match read_words(rt.alloc(), &host, words.as_slice()) {
        Ok(mut asked) => do_asked(rt, &mut host, screen, &mut asked),
        Err(failure) => Err(failure),
    }
}

// Does what is asked for.
fn do_asked<R: Files + Input + AllocGlobal, D: Disk, O: Sink, E: Sink>(
    rt: &R,
    disk: &mut D,
    screen: &mut Screen<O, E>,
    asked: &mut Asked<'_>,
) -> Result<Ending, Failure> {
    match asked {
        Asked::Help => say(screen, HELP),
        Asked::Version => say(screen, VERSION),
        Asked::Explain(code) => explain(rt.alloc(), screen, *code),
        Asked::Load(load) => load_asked(rt, disk, screen, load.request, load.looks),
        Asked::Build(build) => build_asked(rt, disk, screen, build),
        Asked::Wrong(line) => usage(screen, line.as_bytes()),
    }
}

// Runs the image that is asked for.
fn load_asked<R: Files + AllocGlobal, D: Disk, O: Sink, E: Sink>(
    rt: &R,
    disk: &D,
    screen: &mut Screen<O, E>,
    of: LoadRequest<'_>,
    looks: Looks<'_>,
) -> Result<Ending, Failure> {
    let mut run = Observer::new(rt, looks, of.pace.tick, !looks.listing);
    match load(rt.alloc(), disk, screen, &mut run, of) {
        Ok(ending) => Ok(ending_with(run.wrote, ending)),
        Err(failure) => Err(failure),
    }
}

// Builds what is asked for, with what its project file adds.
fn build_asked<R: Files + Input + AllocGlobal, D: Disk, O: Sink, E: Sink>(
    rt: &R,
    disk: &mut D,
    screen: &mut Screen<O, E>,
    asked: &mut BuildAsked<'_>,
) -> Result<Ending, Failure> {
    let alloc = rt.alloc();
    screen.form = asked.request.form;
    if let Some(file) = asked.request.project {
        if !take_project(alloc, disk, screen, file, &mut asked.request)? {
            return Ok(Ending::NotBuilt);
        }
    }
    let mut input = Lines::new(rt.reader());
    let mut run = Observer::new(rt, asked.looks, asked.request.pace.tick, true);
    match build(alloc, disk, screen, &mut run, &asked.request, &mut input) {
        Ok(ending) => Ok(ending_with(run.wrote, ending)),
        Err(failure) => Err(failure),
    }
}

// The ending for the exit status: `NotBuilt` if a trace couldn't be written.
fn ending_with(wrote: bool, ending: Ending) -> Ending {
    if wrote { ending } else { Ending::NotBuilt }
}

// Builds each main unit once, or the only one again and again.
fn build<D: Disk, O: Sink, E: Sink, S: LineSource, N: Run>(
    alloc: Global,
    disk: &mut D,
    screen: &mut Screen<O, E>,
    run: &mut N,
    request: &Request<'_>,
    input: &mut S,
) -> Result<Ending, Failure> {
    let mut told = Told::new(alloc);
    let mut ending = Ending::Done;
    for unit in request.units.iter() {
        let one = build_unit(alloc, disk, screen, run, request, unit, input, &mut told)?;
        ending = worse_of(ending, one);
    }
    Ok(ending)
}

// Builds a main unit in a library of its own.
fn build_unit<D: Disk, O: Sink, E: Sink, S: LineSource, N: Run>(
    alloc: Global,
    disk: &mut D,
    screen: &mut Screen<O, E>,
    run: &mut N,
    request: &Request<'_>,
    unit: &Name,
    input: &mut S,
    told: &mut Told,
) -> Result<Ending, Failure> {
    let mut library = new_library(alloc, ada_check())?;
    let ending = if request.watch {
        watch(alloc, disk, screen, run, &mut library, request, unit, input)
    } else {
        build_once(alloc, disk, screen, run, &mut library, request, unit, told)
    };
    library.leave();
    ending
}

// Prints the page of a code, or all pages.
fn explain<O: Sink, E: Sink>(
    alloc: Global,
    screen: &mut Screen<O, E>,
    code: Option<u16>,
) -> Result<Ending, Failure> {
    let table = pages(alloc)?;
    match put_pages(alloc, screen, table.as_slice(), code) {
        Ok(true) => Ok(Ending::Done),
        Ok(false) => usage(screen, b"error: there is no such code"),
        Err(failure) => Err(failure),
    }
}

// Prints the page of a code, or all pages. Gives whether there is one.
fn put_pages<O: Sink, E: Sink>(
    alloc: Global,
    screen: &mut Screen<O, E>,
    table: &[Page],
    code: Option<u16>,
) -> Result<bool, Failure> {
    let mut has_page = false;
    for page in table {
        if code.is_none() || code == Some(page.code) {
            put_page(alloc, screen, page)?;
            has_page = true;
        }
    }
    Ok(has_page)
}

fn put_page<O: Sink, E: Sink>(
    alloc: Global,
    screen: &mut Screen<O, E>,
    page: &Page,
) -> Result<(), Failure> {
    let text = page_text(alloc, page)?;
    screen.put(text.as_slice())
}

fn say<O: Sink, E: Sink>(screen: &mut Screen<O, E>, text: &str) -> Result<Ending, Failure> {
    screen.put(text.as_bytes())?;
    Ok(Ending::Done)
}

fn usage<O: Sink, E: Sink>(screen: &mut Screen<O, E>, line: &[u8]) -> Result<Ending, Failure> {
    screen.tell_line(&[line])?;
    screen.tell(USAGE.as_bytes())?;
    Ok(Ending::Usage)
}

// The words of the command line, beginning with the program's own name; `None` if one of them isn't UTF-8.
fn words_of<R: Env + AllocGlobal>(rt: &R) -> io::Result<Option<Vec<String>>> {
    match std::env::args(rt) {
        Ok(words) => Ok(Some(words.collect(rt.alloc())?)),
        Err(e) if e.kind() == io::ErrorKind::InvalidData => Ok(None),
        Err(e) => Err(e),
    }
}
