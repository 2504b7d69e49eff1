// Ada files with what is read in them.
ghost use Rattle.al_unit.specs.Libraries.{library_of};
ghost use Rattle.al_engine_files.specs.AdaFiles.{FilesAreRead};

use crate::laws::texts_are_headed;
use crate::renewing::sources_renewed;
use crate::sources::{sources_after, sources_again};
use al_base::{Files, NoMemory};
use al_engine::{Edited, ReadFiles};
use al_unit::texts_are_read_alike;
use al_unit_graph::Sources;
use std::alloc::Global;
use std::marker::Model;

/// Ada files with what the graph of units needs of them. It implements [`ReadFiles`].
pub struct AdaFiles {
    sources: Sources,
}

impl Drop for AdaFiles {
    fn drop(self) {
        let AdaFiles { sources: _ } = self;
    }
}

impl Model for AdaFiles {
    ghost use Rattle.al_base.specs.Files.{Texts};
    ghost use Rattle.al_unit.specs.Libraries.{texts_of};
    ghost use Rattle.al_engine_files.specs.AdaFiles.{AreOfTexts};

    ghost Value = { Texts };

    ghost view = { λ f. texts_of f.sources };

    ghost invariant = { λ f. AreOfTexts f.sources };
}

impl AdaFiles {
    /// Recalls that Ada files are read for every checker that takes as a source's header what is read in it.
    pub fn are_read()
        ensures { FilesAreRead }
    {
        texts_are_headed();
        texts_are_read_alike();
    }
}

impl ReadFiles for AdaFiles {
    ghost library = { library_of };

    ghost files = { λ f. f };

    fn of(alloc: Global, now: &Files) -> Result<Self, NoMemory> {
        let none = Sources::new(alloc);
        let sources = sources_after(alloc, now, &none)?;
        Ok(AdaFiles { sources })
    }

    fn after(alloc: Global, now: &Files, before: &Self) -> Result<Self, NoMemory> {
        let sources = sources_after(alloc, now, &before.sources)?;
        Ok(AdaFiles { sources })
    }

    fn again(
        alloc: Global,
        now: &Files,
        before: &Self,
    ) -> Result<(Self, Option<Edited>), NoMemory> {
        let again = sources_again(alloc, now, &before.sources)?;
        let (sources, edited) = again;
        Ok((AdaFiles { sources }, edited))
    }

    fn renew(
        self,
        alloc: Global,
        now: &Files,
        name: &[u8],
        other: &Self,
    ) -> Result<(Self, Option<Edited>), NoMemory> {
        let AdaFiles { sources } = self;
        let renewed = sources_renewed(alloc, now, name, &other.sources, sources)?;
        let (sources, edited) = renewed;
        Ok((AdaFiles { sources }, edited))
    }

    fn sources(&self) -> &Sources {
        &self.sources
    }
}
