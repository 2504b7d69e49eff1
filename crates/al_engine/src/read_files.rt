// Files with what a build reads in them.
ghost use Rattle.std.specs.Prelude.{◌≡◌, IfOk, IfSome};
ghost use Rattle.al_engine.specs.GraphGraphs.{HaveSameHeaders};
ghost use Rattle.al_engine.specs.Texts.{HaveTextsBut};
ghost use Rattle.al_engine.specs.Readings.{IsEditedAt};

use crate::Edited;
use al_base::{Files, NoMemory};
use al_unit_graph::Sources;
use std::alloc::Global;

/// The files of a library, with what a build reads in them.
pub trait ReadFiles: Drop {
    ghost use Rattle.al_base.specs.Files.{Texts};
    ghost use Rattle.al_unit_graph.specs.Headers.{Library};

    /// The library that files are read as.
    ghost library: { Texts → Library };

    /// The files that were read.
    ghost files: { Self → Texts };

    /// Reads files.
    ///
    /// # Errors
    ///
    /// `NoMemory` if the allocator refuses memory. Errors in the files are a result.
    fn of(alloc: Global, now: &Files) -> Result<Self, NoMemory>
        ensures { IfOk result (λ read. files read ≡ now.now) };

    /// Reads files again. What `before` holds for the same sources can be shared.
    ///
    /// # Errors
    ///
    /// `NoMemory` if the allocator refuses memory.
    fn after(alloc: Global, now: &Files, before: &Self) -> Result<Self, NoMemory>
        ensures { IfOk result (λ read. files read ≡ now.now) };

    /// Reads files again, as [`Self::after`] does. If the files have the same names, and each has the same header as before or the same error, the
    /// second result can say which files may have other sources. If it says nothing, the build does more than it needs to.
    ///
    /// # Errors
    ///
    /// `NoMemory` if the allocator refuses memory. Errors in the files are a result.
    fn again(alloc: Global, now: &Files, before: &Self) -> Result<(Self, Option<Edited>), NoMemory>
        ensures files { IfOk result (λ r. files r.0 ≡ now.now) }
        ensures edited { IfOk result (λ r. IfSome r.1 (λ edited. HaveSameHeaders (library (files before.now)) (library (files r.0)) × HaveTextsBut (library (files before.now)) (library (files r.0)) edited)) };

    /// Reads one file again, which was there when these were read and is the only one that was edited since. What is held of it can be shared with
    /// `other`, if it has the same source there. If its header is the same, or its error, the second result can say that no other source differs.
    ///
    /// # Errors
    ///
    /// `NoMemory` if the allocator refuses memory.
    fn renew(
        self,
        alloc: Global,
        now: &Files,
        name: &[u8],
        other: &Self,
    ) -> Result<(Self, Option<Edited>), NoMemory>
        requires { IsEditedAt (files self) name.now now.now }
        ensures files { IfOk result (λ r. files r.0 ≡ now.now) }
        ensures edited { IfOk result (λ r. IfSome r.1 (λ edited. HaveSameHeaders (library (files self)) (library (files r.0)) × HaveTextsBut (library (files self)) (library (files r.0)) edited)) };

    /// The files, in the form that the graph of units takes.
    fn sources(&self) -> &Sources
        ensures { result.now ≡ library (files self.now) };
}
