// The library of Ada units, with which folders are built.
ghost use Rattle.std.specs.Prelude.{◌≡◌, IfOk};
ghost use Rattle.al_session_served.specs.Library.{empty};
ghost use Rattle.al_session.specs.Meanings.{library_meaning};

use crate::why::{Of, is_among, reason_among, why_words};
use al_base::{Files, Name, NoMemory, Refusal, UnitKey};
use al_engine::ReadFiles;
use al_engine_files::AdaFiles;
use al_folder_served::{FolderLibrary, Reasons, reasons_of_items};
use al_link_image::Image;
use al_query_outcome::UnitCheck;
use al_session::{Engine, new_engine};
use al_session_served::{Built, RunReport, UnitLibrary};
use al_unit::AdaText;
use std::alloc::Global;

/// A library of Ada units, with a checker.
pub struct AdaLibrary<C: UnitCheck> {
    engine: Engine<C>,
}

/// A library without files and builds.
///
/// # Errors
///
/// `NoMemory` if the allocator refuses memory.
pub fn new_library<C: UnitCheck<Text = AdaText> + Drop>(
    alloc: Global,
    checker: C,
) -> Result<AdaLibrary<C>, NoMemory>
    ensures { IfOk result (λ library. library.engine ≡ empty) }
{
    let engine = new_engine(alloc, checker)?;
    Ok(AdaLibrary { engine })
}

impl<C: UnitCheck + Drop> AdaLibrary<C> {
    /// Ends the use of the library without freeing its memory: the system takes it back at the end of the process, and freeing it would only take
    /// time.
    pub fn leave(self) {
        let AdaLibrary { engine } = self;
        std::mem::forget(engine);
    }
}

impl<C: UnitCheck> UnitLibrary for AdaLibrary<C> {
    ghost use Rattle.al_session.specs.Settled.{is_settled};

    ghost meaning = { library_meaning C.meaning C.Text.header };

    ghost state = { λ l. l.engine };

    fn check_put(&self, name: &[u8], len: usize) -> Result<(), Refusal> {
        self.engine.check_put(name, len)
    }

    fn put(&mut self, name: &[u8], text: Vec<u8>) -> Result<(), Refusal> {
        self.engine.put(name, text)
    }

    fn delete(&mut self, name: &[u8]) -> Result<(), Refusal> {
        self.engine.delete(name)
    }

    fn rename(&mut self, old: &[u8], new: &[u8]) -> Result<(), Refusal> {
        self.engine.rename(old, new)
    }

    fn build(&mut self, unit: &[u8]) -> Result<(), NoMemory> {
        self.engine.build(unit)
    }

    fn last(&self) -> Option<Built<'_>> {
        self.engine.last()
    }

    fn run(&self, tick: u32, steps: u64) -> Result<RunReport, Refusal> {
        self.engine.run(tick, steps)
    }

    fn units(&self) -> Result<Vec<(Name, Option<UnitKey>)>, NoMemory> {
        self.engine.units()
    }

    fn obsolete(&self) -> Result<Vec<UnitKey>, Refusal> {
        self.engine.obsolete()
    }

    ghost settled = { is_settled C.meaning C.Text.header _ _ };
}

impl<C: UnitCheck> FolderLibrary for AdaLibrary<C> {
    ghost use Rattle.al_unit.specs.Libraries.{library_of};
    ghost use Rattle.al_session.specs.EngineMeanings.{state_of};
    ghost use Rattle.std.specs.Prelude.{Option};
    ghost use Rattle.al_base.specs.Files.{Texts};
    ghost use Rattle.al_engine.specs.States.{Built, Held, last_checked};
    ghost use Rattle.al_engine_files.specs.declared.units.PredefinedUnits.{PredefinedUnits};
    ghost use Rattle.al_session.specs.Meanings.{library_meaning};
    ghost use Rattle.adabuild.specs.Why.{IsWhy};
    ghost use Rattle.al_folder_served.specs.Reasons.{AreReasonsOf};

    ghost are_checked = { λ l units. (files : Texts) × (built : Option Built) × (state_of files built ≡ l.engine) × (units ≡ last_checked built) };

    ghost is_why = { λ l unit told. (held : Held C PredefinedUnits) × IsWhy (library_meaning C.meaning C.Text.header).units_of l.engine held unit told };

    ghost are_reasons = { λ texts items reasons. AreReasonsOf (library_of texts) items reasons };

    fn last_checked(&self) -> &[UnitKey] {
        self.engine.engine().last_checked()
    }

    fn why(&self, alloc: Global, unit: &UnitKey) -> Result<Option<Vec<u8>>, NoMemory> {
        let engine = self.engine.engine();
        let of = Of {
            reason: reason_among(engine.last_checked(), engine.last_reasons(), unit),
            look_ups: engine.look_ups(unit),
            is_there: is_among(&self.engine.units()?, unit),
        };
        why_words(alloc, of)
    }

    fn patched(&self) -> usize {
        self.engine.engine().patched()
    }

    fn image(&self) -> Option<&Image> {
        match self.engine.engine().image() {
            Ok(program) => Some(program.image()),
            Err(_) => None,
        }
    }

    fn reasons(
        &self,
        alloc: Global,
        texts: &Files,
        items: &[UnitKey],
    ) -> Result<Vec<Reasons>, NoMemory> {
        let read = AdaFiles::of(alloc, texts)?;
        let reasons = reasons_of_items(alloc, read.sources(), items);
        drop(read);
        reasons
    }
}
