// The engine as a library for sessions.
ghost use Rattle.std.specs.Prelude.{◌≡◌};
ghost use Rattle.al_engine_refresh.specs.Settings.{ArePredefined};
ghost use Rattle.al_engine.specs.States.{AreReadFor};
ghost use Rattle.al_session_served.specs.Library.{empty};
ghost use Rattle.al_session.specs.EngineMeanings.{meaning_of, state_of};
ghost use Rattle.al_session.specs.Settled.{is_settled};

use crate::outcomes::{end_of, outcome_of};
use al_base::{Name, NoMemory, Refusal, UnitKey};
use al_engine::{Engine, ReadFiles};
use al_engine_files::FixedAnswers;
use al_query_outcome::UnitCheck;
use al_session_served::{Built, RunReport, UnitLibrary};
use std::alloc::Global;
use std::marker::Model;

/// A library that checks again only what an edit affects: its files, what is kept of its units, and its last build.
#[derive(Drop)]
pub struct Served<R: ReadFiles, C: UnitCheck, P: FixedAnswers> {
    engine: Engine<R, C, P>,
}

impl<R: ReadFiles, C: UnitCheck, P: FixedAnswers> Model for Served<R, C, P> {
    ghost use Rattle.al_session_served.specs.Library.{State};
    ghost use Rattle.al_session.specs.EngineMeanings.{IsLastOnly, state_of};

    ghost Value = { State };

    ghost view = { λ s. state_of s.engine.files s.engine.built };

    ghost invariant = { λ s. IsLastOnly C.meaning C.Text.header P.answers R.library s.engine.built };
}

impl<R: ReadFiles, C: UnitCheck, P: FixedAnswers> Served<R, C, P> {
    /// A library without files and builds. It takes no memory.
    pub fn new(alloc: Global, checker: C, predefined: P) -> Self
        requires reading { AreReadFor C.Text.header R.library }
        requires predefined { ArePredefined P.answers }
        ensures { result ≡ empty }
    {
        Served {
            engine: Engine::new(alloc, checker, predefined),
        }
    }

    /// The engine itself. It has what no reply shows: the units that the last build checked, the number of checks made, and the image as it is held.
    /// It takes no memory.
    pub fn engine(&self) -> &Engine<R, C, P>
        ensures { state_of result.now.files result.now.built ≡ self.now }
    {
        &self.engine
    }
}

impl<R: ReadFiles, C: UnitCheck, P: FixedAnswers> UnitLibrary for Served<R, C, P> {
    ghost meaning = { meaning_of C.meaning C.Text.header P.answers R.library };

    ghost state = { λ s. s };

    fn check_put(&self, name: &[u8], len: usize) -> Result<(), Refusal> {
        self.engine.check_put(name, len)
    }

    fn put(&mut self, name: &[u8], text: Vec<u8>) -> Result<(), Refusal> {
        self.engine.put(name, text)
    }

    fn delete(&mut self, name: &[u8]) -> Result<(), Refusal> {
        self.engine.delete(name)
    }

    fn rename(&mut self, old: &[u8], new: &[u8]) -> Result<(), Refusal> {
        self.engine.rename(old, new)
    }

    fn build(&mut self, unit: &[u8]) -> Result<(), NoMemory> {
        self.engine.build(unit)?;
        Ok(())
    }

    fn last(&self) -> Option<Built<'_>> {
        let (main, compiled) = self.engine.last()?;
        Some(Built {
            main,
            outcome: outcome_of(compiled),
        })
    }

    fn run(&self, tick: u32, steps: u64) -> Result<RunReport, Refusal> {
        match self.engine.run(tick, steps) {
            Ok(ran) => Ok(RunReport {
                output: ran.output,
                ended: end_of(ran.ended),
            }),
            Err(refusal) => Err(refusal),
        }
    }

    fn units(&self) -> Result<Vec<(Name, Option<UnitKey>)>, NoMemory> {
        self.engine.units()
    }

    fn obsolete(&self) -> Result<Vec<UnitKey>, Refusal> {
        self.engine.obsolete()
    }

    ghost settled = { is_settled C.meaning C.Text.header P.answers R.library };
}
