// The interface of a library, as a session needs it.
ghost use Rattle.std.specs.Prelude.{◌≡◌, ◌≤◌, Some, OnOk, OnErr, IfOk, length, map, option_map};
ghost use Rattle.al_base.specs.Files.{with_file, without_file, with_renamed, put_refusal, delete_refusal, rename_refusal, AnswersRefusal, AnswersFirst};
ghost use Rattle.al_base.specs.Batch.{finding_of, key_of};
ghost use Rattle.al_session_served.specs.Library.{State, LibraryMeaning, IsBuilt, IsSettled, with_now, last_gave, obsolete_refusal, obsolete_now, file_unit_of};
ghost use Rattle.al_session_served.specs.Builds.{findings_of, order_of, image_of};
ghost use Rattle.al_session_served.specs.Outcomes.{built_model, outcome_model};
ghost use Rattle.al_session_served.specs.RunReport.{AnswersRun};

use crate::run::RunReport;
use al_base::{Diagnostic, Name, NoMemory, Refusal, UnitKey};
use al_bind::Line;

/// The result of the last build.
#[derive(Clone, Copy)]
pub enum Outcome<'a> {
    /// Diagnostics, by file, place and code.
    Faulty(&'a [Diagnostic]),
    /// No parameterless procedure of the library has the name of the main unit.
    NoMain,
    /// The body of the needed declaration with this name is missing.
    NoBody(&'a [u8]),
    /// The needed subunit with this name is missing.
    NoSubunit(&'a [u8]),
    /// The lines of a cycle, which shows that there is no elaboration order.
    Cycle(&'a [Line]),
    /// An elaboration order whose image would pass a limit.
    TooLarge(&'a [UnitKey]),
    /// An elaboration order, and the bytes of the image.
    Made(&'a [UnitKey], &'a [u8]),
}

impl<'a> Outcome<'a> {
    /// The errors in the files; none if the build got further.
    pub fn findings(&self) -> &'a [Diagnostic]
        ensures { map finding_of result.now ≡ findings_of (outcome_model self.now) }
    {
        match self {
            Outcome::Faulty(diagnostics) => diagnostics,
            Outcome::NoMain => &[],
            Outcome::NoBody(_) => &[],
            Outcome::NoSubunit(_) => &[],
            Outcome::Cycle(_) => &[],
            Outcome::TooLarge(_) => &[],
            Outcome::Made(_, _) => &[],
        }
    }

    /// The elaboration order, if there is one.
    pub fn order(&self) -> Option<&'a [UnitKey]>
        ensures { option_map (λ order. map key_of order.now) result ≡ order_of (outcome_model self.now) }
    {
        match self {
            Outcome::Faulty(_) => None,
            Outcome::NoMain => None,
            Outcome::NoBody(_) => None,
            Outcome::NoSubunit(_) => None,
            Outcome::Cycle(_) => None,
            Outcome::TooLarge(order) => Some(order),
            Outcome::Made(order, _) => Some(order),
        }
    }

    /// The bytes of the image, if there is one.
    pub fn image(&self) -> Option<&'a [u8]>
        ensures { option_map (λ image. image.now) result ≡ image_of (outcome_model self.now) }
    {
        match self {
            Outcome::Faulty(_) => None,
            Outcome::NoMain => None,
            Outcome::NoBody(_) => None,
            Outcome::NoSubunit(_) => None,
            Outcome::Cycle(_) => None,
            Outcome::TooLarge(_) => None,
            Outcome::Made(_, image) => Some(image),
        }
    }
}

/// The last build.
#[derive(Clone, Copy)]
pub struct Built<'a> {
    /// Its main unit, in lower case.
    pub main: &'a [u8],
    /// Its result.
    pub outcome: Outcome<'a>,
}

/// A library of compilation units that is edited, built and run.
pub trait UnitLibrary {
    /// The meaning of its files: what they are compiled to, what their image prints, which units they hold, and which of these are obsolete. The
    /// result of compiling is unique, and so is the output of a run.
    ghost meaning: { LibraryMeaning };

    /// The files, and the last build.
    ghost state: { Self → State };

    /// Checks whether a put of so many bytes under the name would be refused.
    ///
    /// # Errors
    /// The refusal that the put would meet.
    fn check_put(&self, name: &[u8], len: usize) -> Result<(), Refusal>
        ensures { AnswersRefusal result (put_refusal (state self.now).now name.now len) };

    /// Sets the contents of a file, or adds the file.
    ///
    /// # Errors
    /// The refusal of a put of so many bytes under the name, if there is one; else `NoMemory` if the allocator refuses memory. Nothing changes then.
    fn put(&mut self, name: &[u8], text: Vec<u8>) -> Result<(), Refusal>
        ensures answer { AnswersFirst result (put_refusal (state self.old).now name.now (length text.items)) }
        ensures ok { OnOk result (state self.new ≡ with_now (state self.old) (with_file (state self.old).now name.now text.items)) }
        ensures err { OnErr result (state self.new ≡ state self.old) };

    /// Deletes a file. It takes no memory.
    ///
    /// # Errors
    /// The refusal of the delete, if there is one; nothing changes then.
    fn delete(&mut self, name: &[u8]) -> Result<(), Refusal>
        ensures answer { AnswersRefusal result (delete_refusal (state self.old).now name.now) }
        ensures ok { OnOk result (state self.new ≡ with_now (state self.old) (without_file (state self.old).now name.now)) }
        ensures err { OnErr result (state self.new ≡ state self.old) };

    /// Gives a file another name, which no file has.
    ///
    /// # Errors
    /// The refusal of the rename, if there is one; else `NoMemory` if the allocator refuses memory. Nothing changes then.
    fn rename(&mut self, old: &[u8], new: &[u8]) -> Result<(), Refusal>
        ensures answer { AnswersFirst result (rename_refusal (state self.old).now old.now new.now) }
        ensures ok { OnOk result (state self.new ≡ with_now (state self.old) (with_renamed (state self.old).now old.now new.now)) }
        ensures err { OnErr result (state self.new ≡ state self.old) };

    /// Compiles the files, with this main unit in lower case.
    ///
    /// # Errors
    /// `NoMemory` if the allocator refuses memory; the last build is then as before.
    fn build(&mut self, unit: &[u8]) -> Result<(), NoMemory>
        ensures ok { OnOk result (IsBuilt meaning unit.now (state self.old) (state self.new)) }
        ensures err { OnErr result (state self.new ≡ state self.old) };

    /// The last build, if there was one. It takes no memory.
    fn last(&self) -> Option<Built<'_>>
        ensures { option_map built_model result ≡ option_map last_gave (state self.now).built };

    /// Runs the image of the last build from its start, for at most so many events, with a tick of the clock after each `tick` instructions.
    ///
    /// # Errors
    /// `NotBuilt` if there was no build, `NoImage` if it gave no image; else `NoMemory` if the allocator refuses memory.
    fn run(&self, tick: u32, steps: u64) -> Result<RunReport, Refusal>
        requires some { 1 ≤ tick }
        requires few { tick ≤ 10000 }
        requires steps { steps ≤ 1000000000 }
        ensures { AnswersRun result meaning.runs tick steps (state self.now).built };

    /// The files as they are, by name, each with its unit if that is without errors (ARM 10.1).
    ///
    /// # Errors
    ///
    /// `NoMemory` if the allocator refuses memory.
    fn units(&self) -> Result<Vec<(Name, Option<UnitKey>)>, NoMemory>
        ensures { IfOk result (λ files. map file_unit_of files.items ≡ meaning.units_of (state self.now).now) };

    /// The units that are obsolete since the last build (ARM 10.1.4), by name and kind.
    ///
    /// # Errors
    ///
    /// `NotBuilt` if there was no build; else `NoMemory` if the allocator refuses memory.
    fn obsolete(&self) -> Result<Vec<UnitKey>, Refusal>
        ensures answer { AnswersFirst result (obsolete_refusal (state self.now).built) }
        ensures ok { IfOk result (λ units. Some (map key_of units.items) ≡ obsolete_now meaning (state self.now)) };

    // The result of compiling is unique, and so is that of a run.
    ghost settled: { IsSettled meaning };
}
