// The library of Ada units, as a language server has it.
ghost use Rattle.std.specs.Prelude.{◌≡◌, IfOk};
ghost use Rattle.al_session_served.specs.Library.{empty};

use al_base::{Diagnostic, NoMemory, Refusal};
use al_lsp_served::DiagnosedLibrary;
use al_query_outcome::UnitCheck;
use al_session::{Engine, new_engine};
use al_session_served::UnitLibrary;
use al_unit::AdaText;
use std::alloc::Global;

/// A library of Ada units over a checker.
pub struct AdaLibrary<C: UnitCheck> {
    pub(crate) engine: Engine<C>,
}

impl<C: UnitCheck + Drop> Drop for AdaLibrary<C> {
    fn drop(self) {
        let AdaLibrary { engine: _ } = self;
    }
}

/// A library with no file and no build.
pub fn new_library<C: UnitCheck<Text = AdaText> + Drop>(
    alloc: Global,
    checker: C,
) -> Result<AdaLibrary<C>, NoMemory>
    ensures { IfOk result (λ library. library.engine ≡ empty) }
{
    let engine = new_engine(alloc, checker)?;
    Ok(AdaLibrary { engine })
}

impl<C: UnitCheck> DiagnosedLibrary for AdaLibrary<C> {
    ghost use Rattle.al_session.specs.Meanings.{library_meaning};
    ghost use Rattle.adals.specs.Found.{FindsBy, found_by};

    ghost finds = { FindsBy (library_meaning C.meaning C.Text.header) };

    ghost files = { λ l. l.engine.now };

    ghost found = { λ l. found_by l.engine.built };

    fn put(&mut self, name: &[u8], text: Vec<u8>) -> Result<(), Refusal> {
        self.engine.put(name, text)
    }

    fn delete(&mut self, name: &[u8]) -> Result<(), Refusal> {
        self.engine.delete(name)
    }

    // A build without a main unit finds all that is wrong with the files, and makes nothing.
    fn check(&mut self) -> Result<(), NoMemory> {
        self.engine.build(&[])
    }

    fn diagnostics(&self) -> &[Diagnostic] {
        match self.engine.last() {
            Some(built) => built.outcome.findings(),
            None => &[],
        }
    }
}
