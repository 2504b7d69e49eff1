// The library.
ghost use Rattle.std.specs.Prelude.{◌≡◌, ℕ, List, [], None, Some, Ok, Err, IfOk, IfSome, IsTrue, MatchResult, OnOk, OnErr, length, map, option_map};
ghost use Rattle.al_base.specs.Batch.{key_of};
ghost use Rattle.al_base.specs.Files.{with_file, without_file, with_renamed, put_refusal, delete_refusal, rename_refusal, AnswersRefusal, AnswersFirst};
ghost use Rattle.al_unit_faults.specs.Units.{unit_model, units_of};
ghost use Rattle.al_query_store.specs.Keyed.{SameStates, now_at, settled_at};
ghost use Rattle.al_engine_refresh.specs.EntryLaw.{AllKeepLaw};
ghost use Rattle.al_engine_refresh.specs.Settings.{ArePredefined};
ghost use Rattle.al_engine.specs.Answers.{answer_of};
ghost use Rattle.al_engine.specs.Gave.{order_of, program_of};
ghost use Rattle.al_engine.specs.States.{AreReadFor, IsBuiltRight, IsOfNow, compared_last, last_checked, last_reasons, patched_last};
ghost use Rattle.al_engine.specs.Builds.{IsBuild};
ghost use Rattle.al_engine.specs.Reports.{found_last, gave_last, obsolete_refusal, obsolete_since, reported};
ghost use Rattle.al_engine.specs.Runs.{AnswersRun};

mod present;

use crate::building::{build_or_cancel, obsolete_since};
use crate::last_build::LastBuild;
use crate::read_files::ReadFiles;
use crate::reading::{alone_now, read, read_now, read_twice};
use crate::{
    BuildAnswer, Compiled, Program, Reason, Rebuilt, UnitCache, answer_of, diagnostics_of,
    order_of, program_of,
};
use al_base::{Diagnostic, Files, Name, NoMemory, Refusal, UnitKey};
use al_query::Answers;
use al_query_outcome::UnitCheck;
use al_tasks::{RunReport, run};
use al_unit_faults::units;
use al_view::Seq;
use std::alloc::Global;
use std::marker::Model;

/// A library of compilation units: its files, the entries of its units, and its last build.
pub struct Engine<R: ReadFiles, C: UnitCheck, P: Answers> {
    alloc: Global,
    cache: UnitCache<C>,
    predefined: P,
    files: Files,
    last: Option<LastBuild<R>>,
    /// The result of the last build.
    gave: Rebuilt,
    /// Whether a file was edited since the last build.
    is_edited: bool,
    /// The only file that was edited since the last build, if that is known.
    alone: Option<Name>,
    /// A second copy of what the last build read of the files.
    spare: Option<R>,
}

impl<R: ReadFiles, C: UnitCheck + Drop, P: Answers + Drop> Drop for Engine<R, C, P> {
    fn drop(self) {
        let Engine {
            alloc: _,
            cache: _,
            predefined: _,
            files: _,
            last: _,
            gave: _,
            is_edited: _,
            alone: _,
            spare: _,
        } = self;
    }
}

impl<R: ReadFiles, C: UnitCheck, P: Answers> Model for Engine<R, C, P> {
    ghost use Rattle.std.specs.Prelude.{map};
    ghost use Rattle.std.specs.Option.{option_map};
    ghost use Rattle.std.specs.Coded.{codes};
    ghost use Rattle.al_view_typed.specs.contracts.expression.Typed as expression;
    ghost use Rattle.al_view_typed.specs.contracts.statement.TypedStatement as statement;
    ghost use Rattle.al_engine.specs.Readings.{IsReadTwice};
    ghost use Rattle.al_engine.specs.States.{Held, IsRight};

    ghost Value = { Held C P };

    ghost coded = { Prim.hlevel (codes, expression.the_row.coded, statement.the_row.coded) };

    ghost view = { λ e. record { cache = e.cache; predefined = e.predefined; files = e.files; built = option_map (λ b. record { files = R.files b.read; main = b.main; gave = e.gave }) e.last } };

    ghost invariant = { λ e. IsRight C.meaning C.Text.header (P.table e.predefined) R.library e.files e.cache.store e.is_edited (option_map (λ b. (R.files b.read, b.graph.value, map (λ o. o.value) b.orders.items)) e.last) (option_map (λ b. record { files = R.files b.read; main = b.main; gave = e.gave }) e.last) e.gave.compiled × IsReadTwice e.files (option_map (λ b. R.files b.read) e.last) (option_map R.files e.spare) e.alone };
}

impl<R: ReadFiles, C: UnitCheck, P: Answers> Engine<R, C, P> {
    /// A library without files and builds. It takes no memory.
    pub fn new(alloc: Global, checker: C, predefined: P) -> Self
        requires reading { AreReadFor C.Text.header R.library }
        requires predefined { ArePredefined (P.table predefined) }
        ensures checker { (result.cache.checker ≡ checker) × (result.predefined ≡ predefined) }
        ensures nothing { (result.cache.store ≡ []) × (result.files ≡ []) × (result.built ≡ None) }
    {
        Engine {
            alloc,
            cache: UnitCache::new(alloc, checker),
            predefined,
            files: Files::new(alloc),
            last: None,
            gave: Rebuilt::nothing(alloc),
            is_edited: false,
            alone: None,
            spare: None,
        }
    }

    /// Recalls what holds of every library, whatever happened before: each entry keeps the reads law, and the last build is what compiling its files
    /// from nothing gives.
    pub fn keeps(&self)
        ensures law { AllKeepLaw C.meaning C.Text.header (settled_at self.now.cache.store) }
        ensures built { IsBuiltRight C.meaning C.Text.header (P.table self.now.predefined) R.library self.now.built }
    {
        let _last = &self.last;
        self.cache.keep_the_law();
    }

    /// Whether [`Self::put`] would refuse a source of `len` bytes under this name.
    ///
    /// # Errors
    ///
    /// The refusal.
    pub fn check_put(&self, name: &[u8], len: usize) -> Result<(), Refusal>
        ensures { AnswersRefusal result (put_refusal self.now.files name.now len) }
    {
        self.files.check_put(name, len)
    }

    /// Sets the source of a file, which is created if it isn't there.
    ///
    /// # Errors
    ///
    /// A refusal if the name or the length isn't allowed, there would be too many files, or the allocator refuses memory. The library is then as
    /// before.
    pub fn put(&mut self, name: &[u8], text: Vec<u8>) -> Result<(), Refusal>
        ensures answer { AnswersFirst result (put_refusal self.old.files name.now (length text.items)) }
        ensures ok { OnOk result (self.new ≡ record self.old { files = with_file self.old.files name.now text.items }) }
        ensures err { OnErr result (self.new ≡ self.old) }
    {
        let alone = alone_now(self.alloc, self.is_edited, &self.files, name);
        match self.files.put(name, text) {
            Ok(()) => {
                self.is_edited = true;
                self.alone = alone;
                Ok(())
            }
            Err(refusal) => Err(refusal),
        }
    }

    /// Removes a file. It takes no memory.
    ///
    /// # Errors
    ///
    /// A refusal if there is no such file. The library is then as before.
    pub fn delete(&mut self, name: &[u8]) -> Result<(), Refusal>
        ensures answer { AnswersRefusal result (delete_refusal self.old.files name.now) }
        ensures ok { OnOk result (self.new ≡ record self.old { files = without_file self.old.files name.now }) }
        ensures err { OnErr result (self.new ≡ self.old) }
    {
        match self.files.delete(name) {
            Ok(()) => {
                self.is_edited = true;
                self.alone = None;
                Ok(())
            }
            Err(refusal) => Err(refusal),
        }
    }

    /// Gives a file another name, which no file has.
    ///
    /// # Errors
    ///
    /// A refusal if there is no such file, the new name is taken or isn't allowed, or the allocator refuses memory. The library is then as before.
    pub fn rename(&mut self, old: &[u8], new: &[u8]) -> Result<(), Refusal>
        ensures answer { AnswersFirst result (rename_refusal self.old.files old.now new.now) }
        ensures ok { OnOk result (self.new ≡ record self.old { files = with_renamed self.old.files old.now new.now }) }
        ensures err { OnErr result (self.new ≡ self.old) }
    {
        match self.files.rename(old, new) {
            Ok(()) => {
                self.is_edited = true;
                self.alone = None;
                Ok(())
            }
            Err(refusal) => Err(refusal),
        }
    }

    /// Whether no file was edited since the last build, which was of this main unit.
    fn is_built(&self, main: &[u8]) -> bool
        ensures { IsTrue result → IsOfNow self.now.files main.now self.now.built }
    {
        if self.is_edited {
            return false;
        }
        match &self.last {
            Some(last) => last.main.as_slice() == main,
            None => false,
        }
    }

    /// Repeats the last build, if no file was edited since: no unit is checked, and the result is unchanged. It takes no memory.
    fn repeat(&mut self)
        ensures files { (self.new.files ≡ self.old.files) × (self.new.predefined ≡ self.old.predefined) }
        ensures built { (main : List ℕ) → IsOfNow self.old.files main self.old.built → IsBuild C.meaning C.Text.header C.count (P.table self.old.predefined) R.library main self.old self.new }
    {
        let _before = self.cache.checks();
        self.gave.checked = Seq::empty(self.alloc);
        self.gave.reasons = Seq::empty(self.alloc);
        self.gave.compared = 0;
        self.gave.patched = 0;
    }

    /// The answer of the last build; no errors before the first build. It takes no memory.
    fn answer(&self) -> BuildAnswer
        ensures { IfSome self.now.built (λ b. result ≡ answer_of b.gave.compiled) }
    {
        match &self.last {
            Some(_) => answer_of(&self.gave.compiled),
            None => BuildAnswer::Faults(0),
        }
    }

    /// Compiles the files with this main unit, whose name is in lower case, and checks again what an edit reached. It is then the last build, whether
    /// the files have errors or not. Gives its answer in short. If no file was edited since the last build of the same main unit, no file and no unit
    /// is looked at.
    ///
    /// # Errors
    ///
    /// `NoMemory` if the allocator refuses memory: the files, the last build and all entries are then as before.
    pub fn build(&mut self, main: &[u8]) -> Result<BuildAnswer, NoMemory>
        ensures files { (self.new.files ≡ self.old.files) × (self.new.predefined ≡ self.old.predefined) }
        ensures ok { OnOk result (IsBuild C.meaning C.Text.header C.count (P.table self.old.predefined) R.library main.now self.old self.new) }
        ensures answer { IfOk result (λ answer. IfSome self.new.built (λ b. answer ≡ answer_of b.gave.compiled)) }
        ensures err { OnErr result (SameStates self.old.cache.store self.new.cache.store × (self.new.built ≡ self.old.built)) }
    {
        if self.is_built(main) {
            self.repeat();
            return Ok(self.answer());
        }
        let spare = self.spare.take();
        let again = read(self.alloc, &self.files, &self.last, spare, &self.alone)?;
        let (read, edited) = again;
        let last = build_or_cancel(
            self.alloc,
            &mut self.cache,
            &self.predefined,
            &self.last,
            &mut self.gave,
            read,
            edited,
            main,
        )?;
        let before = std::mem::replace(&mut self.last, None);
        self.spare = read_twice(self.alloc, &self.files, before, &self.alone, &last.read);
        self.is_edited = false;
        self.alone = None;
        self.last = Some(last);
        Ok(self.answer())
    }

    /// The last build, if there was one: its main unit, and the result of compiling. It takes no memory.
    pub fn last(&self) -> Option<(&[u8], &Compiled)>
        ensures { option_map (λ b. (b.0.now, b.1.now)) result ≡ option_map gave_last self.now.built }
    {
        match &self.last {
            Some(last) => Some((last.main.as_slice(), &self.gave.compiled)),
            None => None,
        }
    }

    /// The units that the last build checked, by unit and kind; none before the first build. It takes no memory.
    pub fn last_checked(&self) -> &[UnitKey]
        ensures { result.now ≡ last_checked self.now.built }
    {
        match &self.last {
            Some(_) => self.gave.checked.as_slice(),
            None => &[],
        }
    }

    /// Why the last build checked each of these units, in their order. It takes no memory.
    pub fn last_reasons(&self) -> &[Reason]
        ensures { result.now ≡ last_reasons self.now.built }
    {
        match &self.last {
            Some(_) => self.gave.reasons.as_slice(),
            None => &[],
        }
    }

    /// How many answers are stored of a unit that the last build reached: it asked for so much of other units when it was checked. It takes no memory.
    pub fn look_ups(&self, unit: &UnitKey) -> Option<usize>
        ensures { result ≡ option_map (λ e. length e.log) (now_at self.now.cache.store unit.now) }
    {
        let entry = self.cache.entries().get(unit)?;
        Some(entry.log().len())
    }

    /// How many stored answers the last build compared with those of now, to 2^64-1; 0 before the first build. It takes no memory.
    pub fn compared(&self) -> usize
        ensures { result ≡ compared_last self.now.built }
    {
        match &self.last {
            Some(_) => self.gave.compared,
            None => 0,
        }
    }

    /// The number of units whose code the last build wrote into the image. If the build before had an image with the same main subprogram, and the
    /// same units by their lengths, counts, symbols and lines, these are the units whose code differed; else all. 0 if there was no image before or
    /// is none now, or if nothing was edited. It takes no memory.
    pub fn patched(&self) -> usize
        ensures { result ≡ patched_last self.now.built }
    {
        match &self.last {
            Some(_) => self.gave.patched,
            None => 0,
        }
    }

    /// How many checks were made, to 2^64-1.
    pub fn checks(&self) -> u64
        ensures { result ≡ C.count self.now.cache.checker }
    {
        self.cache.checks()
    }

    /// The errors that the last build found, by file, place and number. It takes no memory.
    ///
    /// # Errors
    ///
    /// `NotBuilt` if there was no build.
    pub fn diagnostics(&self) -> Result<&[Diagnostic], Refusal>
        ensures { MatchResult result (λ found. found_last self.now.built ≡ Ok found.now) (λ e. found_last self.now.built ≡ Err e) }
    {
        match &self.last {
            Some(_) => Ok(diagnostics_of(&self.gave.compiled)),
            None => Err(Refusal::NotBuilt),
        }
    }

    /// The order in which the last build's partition is elaborated. It takes no memory.
    ///
    /// # Errors
    ///
    /// `NotBuilt` if there was no build; `NoImage` if it gave no order.
    pub fn order(&self) -> Result<&[UnitKey], Refusal>
        ensures { MatchResult result (λ order. reported order_of self.now.built ≡ Ok order.now) (λ e. reported order_of self.now.built ≡ Err e) }
    {
        let Some(_build) = &self.last else {
            return Err(Refusal::NotBuilt);
        };
        match order_of(&self.gave.compiled) {
            Some(order) => Ok(order),
            None => Err(Refusal::NoImage),
        }
    }

    /// The program of the last build: its order, its image and the image's bytes. It takes no memory.
    ///
    /// # Errors
    ///
    /// `NotBuilt` if there was no build; `NoImage` if it gave no image.
    pub fn image(&self) -> Result<&Program, Refusal>
        ensures { MatchResult result (λ program. reported program_of self.now.built ≡ Ok program.now) (λ e. reported program_of self.now.built ≡ Err e) }
    {
        let Some(_) = &self.last else {
            return Err(Refusal::NotBuilt);
        };
        match program_of(&self.gave.compiled) {
            Some(program) => Ok(program),
            None => Err(Refusal::NoImage),
        }
    }

    /// Runs the image of the last build from its start, for at most `steps` events, with a tick of the clock after every `tick` instructions.
    ///
    /// # Errors
    ///
    /// `NotBuilt` if there was no build; `NoImage` if it gave no image; else `NoMemory` if the allocator refuses memory.
    pub fn run(&self, tick: u32, steps: u64) -> Result<RunReport, Refusal>
        ensures { AnswersRun result self.now.built tick steps }
    {
        let _last = &self.last;
        let alloc = self.alloc;
        match self.image() {
            Ok(program) => match run(alloc, program.image(), tick, steps) {
                Ok(ran) => Ok(ran),
                Err(NoMemory) => Err(Refusal::NoMemory),
            },
            Err(refusal) => Err(refusal),
        }
    }

    /// The present files by name, each with the unit in it, if that is sound (ARM 10.1).
    ///
    /// # Errors
    ///
    /// `NoMemory` if the allocator refuses memory.
    pub fn units(&self) -> Result<Vec<(Name, Option<UnitKey>)>, NoMemory>
        ensures { IfOk result (λ files. map unit_model files.items ≡ units_of (R.library self.now.files)) }
    {
        let read = read_now(self.alloc, &self.files, &self.last)?;
        let list = units(self.alloc, read.sources())?;
        Ok(list)
    }

    /// The units that are obsolete since the last build (ARM 10.1.4), by name and kind.
    ///
    /// # Errors
    ///
    /// `NotBuilt` if there was no build; else `NoMemory` if the allocator refuses memory.
    pub fn obsolete(&self) -> Result<Vec<UnitKey>, Refusal>
        ensures answer { AnswersFirst result (obsolete_refusal self.now.built) }
        ensures ok { IfOk result (λ units. Some (map key_of units.items) ≡ obsolete_since R.library self.now.built self.now.files) }
    {
        let Some(last) = &self.last else {
            return Err(Refusal::NotBuilt);
        };
        match obsolete_since(self.alloc, last, &self.gave.compiled, &self.files) {
            Ok(units) => Ok(units),
            Err(NoMemory) => Err(Refusal::NoMemory),
        }
    }
}
