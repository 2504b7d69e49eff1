// Diagnostics with their notes.
ghost use Rattle.std.specs.Prelude.{◌≡◌, ◌↔◌, IfOk, IsTrue, map};
ghost use Rattle.al_report.specs.Shown.{waits_for_others, shown};

use al_base::{Diagnostic, Files};
use al_notes::Notes;
use std::alloc::{AllocError, Global};

/// A diagnostic that is printed, with its notes, a line each.
pub struct Noted<'a> {
    pub diagnostic: &'a Diagnostic,
    pub notes: Vec<Vec<u8>>,
}

impl<'a> Drop for Noted<'a> {
    fn drop(self) {
        let Noted {
            diagnostic: _,
            notes: _,
        } = self;
    }
}

/// Whether a diagnostic only says that others are to be mended first.
pub(crate) fn is_dependent(diagnostic: &Diagnostic) -> bool
    ensures { result ≡ waits_for_others diagnostic.now }
{
    diagnostic.code == 208
}

/// The diagnostics that are printed, in their order: all of them, or those that don't only say that others are to be mended first.
/// Notes on them are made from the files' sources, where they are wanted.
///
/// # Errors
///
/// If out of memory.
pub fn noted_of<'a>(
    alloc: Global,
    texts: &Files,
    found: &'a [Diagnostic],
    lists_all: bool,
    has_notes: bool,
) -> Result<Vec<Noted<'a>>, AllocError>
    ensures { IfOk result (λ told. map (λ one. one.diagnostic.now) told.items ≡ shown lists_all found.now) }
{
    let mut told = Vec::new(alloc);
    let mut notes = Notes::over(alloc, texts);
    for diagnostic in found {
        if !lists_all && is_dependent(diagnostic) {
            continue;
        }
        let lines = if has_notes {
            notes.of(diagnostic)?
        } else {
            Vec::new(alloc)
        };
        told.push(Noted {
            diagnostic,
            notes: lines,
        })?;
    }
    Ok(told)
}
