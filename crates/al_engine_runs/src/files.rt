// Files of the small language, as a library reads them.
ghost use Rattle.al_engine.specs.States.{AreReadFor};
ghost use Rattle.al_engine_toy.specs.Toys.{header_in, toy_library};

use al_base::{Files, NoMemory};
use al_engine::{Edited, ReadFiles, edited_between};
use al_engine_toy::{sources_after, sources_of, toys_are_read};
use al_unit_graph::Sources;
use std::alloc::Global;
use std::marker::Model;

/// Files with the units that are read from them.
#[derive(Drop)]
pub(crate) struct ToyFiles {
    sources: Sources,
}

impl Model for ToyFiles {
    ghost use Rattle.al_base.specs.Files.{Texts};
    ghost use Rattle.al_engine_toy.specs.Toys.{AreToys, texts_of};

    ghost Value = { Texts };

    ghost view = { λ f. texts_of f.sources };

    ghost invariant = { λ f. AreToys f.sources };
}

impl ToyFiles {
    /// What a library requires of the way its files are read. It does nothing: its contract is the law.
    pub fn are_read()
        ensures { AreReadFor header_in toy_library }
    {
        toys_are_read();
    }
}

impl ReadFiles for ToyFiles {
    ghost library = { toy_library };

    ghost files = { λ f. f };

    fn of(alloc: Global, now: &Files) -> Result<Self, NoMemory> {
        let sources = sources_of(alloc, now)?;
        Ok(ToyFiles { sources })
    }

    fn after(alloc: Global, now: &Files, before: &Self) -> Result<Self, NoMemory> {
        let sources = sources_after(alloc, now, &before.sources)?;
        Ok(ToyFiles { sources })
    }

    fn again(
        alloc: Global,
        now: &Files,
        before: &Self,
    ) -> Result<(Self, Option<Edited>), NoMemory> {
        let sources = sources_after(alloc, now, &before.sources)?;
        let edited = edited_between(alloc, &before.sources, &sources)?;
        Ok((ToyFiles { sources }, edited))
    }

    fn renew(
        self,
        alloc: Global,
        now: &Files,
        name: &[u8],
        other: &Self,
    ) -> Result<(Self, Option<Edited>), NoMemory> {
        let _name = name;
        let _other = other;
        let sources = sources_after(alloc, now, &self.sources)?;
        let edited = edited_between(alloc, &self.sources, &sources)?;
        Ok((ToyFiles { sources }, edited))
    }

    fn sources(&self) -> &Sources {
        &self.sources
    }
}
