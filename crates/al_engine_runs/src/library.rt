// A library of the small language.
ghost use Rattle.std.specs.Prelude.{◌≡◌};

use crate::files::ToyFiles;
use crate::predefined::Predefined;
use crate::printed::{push_counts, push_gave, push_keys, push_ran, push_told};
use crate::serving::serve;
use al_base::{NoMemory, Refusal, UnitKey};
use al_engine::Engine;
use al_engine_toy::Toy;
use al_session::Served;
use al_session_served::UnitLibrary;
use al_tasks::RunReport;
use std::alloc::Global;

/// A library, and the allocator of what is printed of it.
#[derive(Drop)]
pub(crate) struct Library {
    alloc: Global,
    served: Served<ToyFiles, Toy, Predefined>,
}

/// What a command did, which is to be printed.
#[derive(Clone, Copy)]
pub(crate) enum Done {
    Edited,
    Refused,
    /// A build that made so many checks.
    Built(u64),
    Obsolete,
    /// A question about the library itself.
    Told,
    /// A run of at most so many events.
    Run(u64),
}

/// The result of a command, or none if it is refused.
fn given<T>(answer: Result<T, Refusal>) -> Result<Option<T>, NoMemory> {
    match answer {
        Ok(given) => Ok(Some(given)),
        Err(Refusal::NoMemory) => Err(NoMemory),
        Err(_) => Ok(None),
    }
}

impl Library {
    /// A library without files and builds.
    pub fn new(alloc: Global) -> Library {
        ToyFiles::are_read();
        Predefined::are_predefined();
        Library {
            alloc,
            served: Served::new(alloc, Toy::new(), Predefined::new(alloc)),
        }
    }

    fn engine(&self) -> &Engine<ToyFiles, Toy, Predefined> {
        self.served.engine()
    }

    /// Carries out a command.
    ///
    /// # Errors
    /// `NoMemory` if the allocator refuses memory; then nothing but the count of checks is changed.
    pub fn act(&mut self, word: &str, rest: &str) -> Result<Done, NoMemory> {
        if word == "build" {
            self.build(rest)
        } else if word == "run" {
            Ok(Done::Run(rest.parse::<u64>().unwrap_or(0)))
        } else if word == "obsolete" {
            Ok(Done::Obsolete)
        } else if word == "told" {
            Ok(Done::Told)
        } else {
            self.edit(word, rest)
        }
    }

    /// Edits the files.
    fn edit(&mut self, word: &str, rest: &str) -> Result<Done, NoMemory> {
        let (file, text) = rest.split_once(' ').unwrap_or((rest, ""));
        let name = file.as_bytes();
        let edited = if word == "put" {
            let bytes = Vec::from_slice(self.alloc, text.as_bytes())?;
            self.served.put(name, bytes)
        } else if word == "delete" {
            self.served.delete(name)
        } else if word == "rename" {
            self.served.rename(name, text.as_bytes())
        } else {
            Err(Refusal::BadCommand)
        };
        match given(edited)? {
            Some(()) => Ok(Done::Edited),
            None => Ok(Done::Refused),
        }
    }

    /// Builds a main unit.
    fn build(&mut self, main: &str) -> Result<Done, NoMemory> {
        let before = self.engine().checks();
        self.served.build(main.as_bytes())?;
        Ok(Done::Built(self.engine().checks().saturating_sub(before)))
    }

    /// Serves a session over the library, and gives its replies and how it ended.
    ///
    /// # Errors
    /// `NoMemory` if the allocator refuses memory.
    pub fn serve(&mut self, words: &str) -> Result<String, NoMemory> {
        let replies = serve(self.alloc, &mut self.served, words)?;
        self.text(replies.as_slice())
    }

    /// Prints what was done. Nothing is changed, so it may be printed again.
    ///
    /// # Errors
    /// `NoMemory` if the allocator refuses memory.
    pub fn tell(&self, done: Done) -> Result<String, NoMemory> {
        match done {
            Done::Edited => self.text(b""),
            Done::Refused => self.text(b"refused\n"),
            Done::Built(more) => self.print_build(more),
            Done::Obsolete => self.print_obsolete(),
            Done::Told => self.print_told(),
            Done::Run(events) => self.print_run(events),
        }
    }

    fn text(&self, bytes: &[u8]) -> Result<String, NoMemory> {
        let text = String::from_utf8_lossy(self.alloc, bytes)?;
        Ok(text)
    }

    /// Prints the result of the last build, the units that it checked, by how much the count of checks rose, and how many stored answers it
    /// compared.
    fn print_build(&self, more: u64) -> Result<String, NoMemory> {
        let mut text = Vec::new(self.alloc);
        if let Some((main, compiled)) = self.engine().last() {
            push_gave(self.alloc, &mut text, main, compiled)?;
        }
        text.extend_from_slice(b"checked")?;
        push_keys(&mut text, self.engine().last_checked())?;
        push_counts(self.alloc, &mut text, more, self.engine().compared())?;
        self.text(text.as_slice())
    }

    /// Prints the units that are obsolete since the last build.
    fn print_obsolete(&self) -> Result<String, NoMemory> {
        match given(self.engine().obsolete())? {
            Some(units) => self.print_units(units.as_slice()),
            None => self.text(b"not built\n"),
        }
    }

    /// Prints what the library holds of its last build.
    fn print_told(&self) -> Result<String, NoMemory> {
        let engine = self.engine();
        let checks = (engine.last_checked().len(), engine.checks());
        let mut text = Vec::new(self.alloc);
        match (engine.diagnostics(), engine.image()) {
            (Ok(found), Ok(program)) => push_told(
                self.alloc,
                &mut text,
                checks,
                found.len(),
                program.bytes().len(),
            )?,
            _ => text.extend_from_slice(b"no image\n")?,
        }
        self.text(text.as_slice())
    }

    fn print_units(&self, units: &[UnitKey]) -> Result<String, NoMemory> {
        let mut text = Vec::new(self.alloc);
        text.extend_from_slice(b"obsolete")?;
        push_keys(&mut text, units)?;
        text.push(b'\n')?;
        self.text(text.as_slice())
    }

    /// Prints a run of the last build's image, if there is one.
    fn print_run(&self, events: u64) -> Result<String, NoMemory> {
        match given(self.engine().run(100, events))? {
            Some(ran) => self.print_ran(&ran),
            None => self.text(b"no image\n"),
        }
    }

    fn print_ran(&self, ran: &RunReport) -> Result<String, NoMemory> {
        let mut text = Vec::new(self.alloc);
        push_ran(self.alloc, &mut text, ran)?;
        self.text(text.as_slice())
    }
}
