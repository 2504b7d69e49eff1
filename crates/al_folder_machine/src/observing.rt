// What is shown of runs: a trace that is written to a file, a profile on the standard output, or nothing; and listings of code.
ghost use Rattle.std.specs.Prelude.{◌≡◌, ◌≤◌, false, true, IfOk};

use al_base::{FileKey, Files, NoMemory};
use al_folder::line_at;
use al_folder_served::{Failure, Run, Screen, Sources};
use al_folder_words::Looks;
use al_link_image::{Image, ImageObject};
use al_listing::{NoSources, Profile, SourceLines, emit_listing};
use al_session_stream::{Device, Sink};
use al_tasks::World;
use al_trace::{ReadSources, Trace, task_report};
use std::alloc::Global;
use std::io::{self, Write};
use std::rt::Files as HostFiles;

// The sources that were read.
#[derive(Clone, Copy)]
struct Texts<'a> {
    files: &'a Files,
}

impl SourceLines for Texts<'_> {
    fn line(&self, unit: &ImageObject, number: u32) -> Option<&[u8]> {
        let file = FileKey::of(unit.name.as_slice(), unit.kind)?;
        let text = self.files.get(file.as_slice())?;
        Some(line_at(number, text))
    }
}

// What watches a run.
#[derive(Drop)]
enum Eye<W: Write> {
    Nobody,
    // The file can't be written, for this reason.
    Blind(io::Error),
    Trace(Trace<W>),
    Profile(Profile),
}

/// Watches the runs of programs, and shows what it saw.
pub struct Observer<'a, R: HostFiles> {
    rt: &'a R,
    alloc: Global,
    looks: Looks<'a>,
    tick: u32,
    /// Whether a program that is shown is also run.
    pub runs: bool,
    /// Whether each trace could be written.
    pub wrote: bool,
    eye: Eye<R::File>,
}

impl<R: HostFiles> Drop for Observer<'_, R> {
    fn drop(self) {
        let Observer {
            rt: _,
            alloc: _,
            looks: _,
            tick: _,
            runs: _,
            wrote: _,
            eye: _,
        } = self;
    }
}

impl<'a, R: HostFiles + AllocGlobal> Observer<'a, R> {
    /// An observer for what is asked for, with a tick of the clock after every `tick` instructions.
    pub fn new(rt: &'a R, looks: Looks<'a>, tick: u32, runs: bool) -> Observer<'a, R> {
        Observer {
            rt,
            alloc: rt.alloc(),
            looks,
            tick,
            runs,
            wrote: true,
            eye: Eye::Nobody,
        }
    }

    // What is to watch a run of the image.
    fn eye_of(&self, image: &Image) -> Result<Eye<R::File>, NoMemory> {
        if self.looks.profile {
            return Ok(Eye::Profile(Profile::new(self.alloc, image)?));
        }
        let Some(of) = self.looks.trace else {
            return Ok(Eye::Nobody);
        };
        let tick = u64::from(self.tick);
        match std::fs::create(self.rt, of.file) {
            Ok(file) => {
                let trace = Trace::new(self.alloc, image, of.format, tick, of.from, file)?;
                Ok(Eye::Trace(trace))
            }
            Err(e) => Ok(Eye::Blind(e)),
        }
    }

    // Prints that the file of the trace can't be written, and why.
    fn tell_blind<O: Sink, E: Sink>(
        &mut self,
        screen: &mut Screen<O, E>,
        cause: &io::Error,
    ) -> Result<(), Failure> {
        let why = format!(in self.alloc; ": {cause}")?;
        self.tell_unwritten(screen, why.as_bytes())
    }

    // Writes the end of the trace.
    fn end_trace<O: Sink, E: Sink>(
        &mut self,
        screen: &mut Screen<O, E>,
        world: &World,
        trace: &mut Trace<R::File>,
    ) -> Result<(), Failure> {
        if trace.finish(world)? {
            Ok(())
        } else {
            self.tell_unwritten(screen, b"")
        }
    }

    // Prints that the trace couldn't be written, and why.
    fn tell_unwritten<O: Sink, E: Sink>(
        &mut self,
        screen: &mut Screen<O, E>,
        why: &[u8],
    ) -> Result<(), Failure> {
        self.wrote = false;
        let file = self.looks.file().as_bytes();
        screen.tell_line(&[b"error: ", file, b" can't be written", why])
    }
}

impl<R: HostFiles + AllocGlobal> Run for Observer<'_, R> {
    ghost shows_nothing = { λ o. (o.looks.listing ≡ false) × (o.runs ≡ true) };

    fn show<O: Sink, E: Sink>(
        &mut self,
        screen: &mut Screen<O, E>,
        image: &Image,
        texts: &Files,
    ) -> Result<bool, Failure> {
        if self.looks.listing {
            put_listing(self.alloc, screen, image, texts)?;
        }
        Ok(self.runs)
    }

    fn begin(&mut self, image: &Image, _world: &World) -> Result<(), NoMemory> {
        self.eye = self.eye_of(image)?;
        Ok(())
    }

    fn go_on(
        &mut self,
        world: &mut World,
        steps: u64,
        tick: u32,
        since: u64,
    ) -> Result<u64, NoMemory> {
        let n = u64::from(tick);
        match &mut self.eye {
            Eye::Trace(trace) => world.watched_run_on(trace, steps, n, since),
            Eye::Profile(profile) => world.watched_run_on(profile, steps, n, since),
            _ => world.tick_run_on(steps, n, since),
        }
    }

    fn tell<O: Sink, E: Sink>(
        &mut self,
        screen: &mut Screen<O, E>,
        image: &Image,
        world: &World,
        sources: &Sources,
    ) -> Result<(), Failure> {
        tell_tasks(self.alloc, screen, image, world, sources)?;
        match std::mem::replace(&mut self.eye, Eye::Nobody) {
            Eye::Nobody => Ok(()),
            Eye::Blind(e) => self.tell_blind(screen, &e),
            Eye::Trace(mut trace) => self.end_trace(screen, world, &mut trace),
            Eye::Profile(profile) => put_profile(self.alloc, screen, image, &profile),
        }
    }
}

// Prints what the tasks are doing, if the program has tasks and didn't finish.
fn tell_tasks<O: Sink, E: Sink>(
    alloc: Global,
    screen: &mut Screen<O, E>,
    image: &Image,
    world: &World,
    sources: &Sources,
) -> Result<(), Failure> {
    let read = ReadSources {
        texts: &sources.texts,
        folders: &sources.folders,
    };
    let report = task_report(alloc, image, world, read)?;
    if report.is_empty() {
        return Ok(());
    }
    screen.tell(report.as_bytes())
}

// Prints the profile.
fn put_profile<O: Sink, E: Sink>(
    alloc: Global,
    screen: &mut Screen<O, E>,
    image: &Image,
    profile: &Profile,
) -> Result<(), Failure> {
    let so_far = screen.output.so_far;
    screen.output.so_far = Err(Device::Write);
    let sink = &mut screen.output.sink;
    let written = profile.emit(alloc, image, &NoSources, so_far, sink)?;
    screen.output.so_far = written;
    screen.end_put()
}

// Prints the code with its lines and tables.
fn put_listing<O: Sink, E: Sink>(
    alloc: Global,
    screen: &mut Screen<O, E>,
    image: &Image,
    texts: &Files,
) -> Result<(), Failure> {
    let sources = Texts { files: texts };
    let so_far = screen.output.so_far;
    screen.output.so_far = Err(Device::Write);
    let sink = &mut screen.output.sink;
    let written = emit_listing(alloc, image, &sources, so_far, sink)?;
    screen.output.so_far = written;
    screen.end_put()
}
