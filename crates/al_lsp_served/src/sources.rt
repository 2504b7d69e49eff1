// The texts that a library has, and the folders that they come from.
ghost use Rattle.std.specs.Prelude.{◌≡◌, ◌≤◌, ℕ, true, false, List, OnOk, Option, Some, None, IfOk, is_ok, length};
ghost use Rattle.std.specs.Option.{is_none};
ghost use Rattle.std.specs.Str.{bytes_eq};
ghost use Rattle.al_base.specs.FileLaws.{Ascend};
ghost use Rattle.al_base.specs.Files.{text_of, with_file, put_refusal, AnswersFirst};
ghost use Rattle.al_base.specs.Names.{is_file_name};
ghost use Rattle.al_base.specs.declared.refusal.Refusal.{Refusal};
ghost use Rattle.al_lsp_served.specs.Steps.{KeepsStep};

use crate::library::DiagnosedLibrary;
use al_base::{Files, NoMemory, Refusal};
use std::alloc::Global;

/// A library with the texts of its files, and the folder of each file that was read.
pub struct Sources<L: DiagnosedLibrary> {
    pub alloc: Global,
    pub library: L,
    pub texts: Files,
    pub places: Files,
}

impl<L: DiagnosedLibrary + Drop> Drop for Sources<L> {
    fn drop(self) {
        let Sources {
            alloc: _,
            library: _,
            texts: _,
            places: _,
        } = self;
    }
}

/// Whether a file was taken.
fn taken(answer: Result<(), Refusal>) -> Result<bool, NoMemory>
    ensures is_ok { IfOk result (λ taken. taken ≡ is_ok answer) }
    ensures first { (first : Option Refusal) → AnswersFirst answer first → IfOk result (λ taken. taken ≡ is_none first) }
{
    match answer {
        Ok(()) => Ok(true),
        Err(Refusal::NoMemory) => Err(NoMemory),
        Err(_) => Ok(false),
    }
}

// Sets the text of a file that a library has taken.
fn keep(alloc: Global, texts: &mut Files, name: &[u8], text: &[u8]) -> Result<(), NoMemory>
    ensures { OnOk result (texts.new ≡ with_file texts.old name.now text.now) }
{
    let copy = Vec::from_slice(alloc, text)?;
    match texts.put(name, copy) {
        Ok(()) => Ok(()),
        Err(_) => Err(NoMemory),
    }
}

impl<L: DiagnosedLibrary> Sources<L> {
    /// Sets the text of a file; whether the library takes it. Where it doesn't, all is as it was.
    ///
    /// # Errors
    ///
    /// `NoMemory` where memory was wanted and not given.
    #[tactic(auto, using(crate::proofs::Overs::text_put, crate::proofs::Overs::text_after_put, crate::proofs::Overlaid::no_fewer))]
    pub fn put(&mut self, name: &[u8], text: &[u8]) -> Result<bool, NoMemory>
        ensures step { OnOk result (KeepsStep L.files self.old.library self.old.texts self.new.library self.new.texts) }
        ensures taken { IfOk result (λ is_taken. is_taken ≡ true → self.new.texts ≡ with_file self.old.texts name.now text.now) }
        ensures refused { IfOk result (λ is_taken. is_taken ≡ false → self.new.texts ≡ self.old.texts) }
        ensures there { IfOk result (λ is_taken. is_taken ≡ true → text_of self.new.texts name.now ≡ Some text.now) }
        ensures others { OnOk result ((other : List ℕ) → bytes_eq name.now other ≡ false → text_of self.new.texts other ≡ text_of self.old.texts other) }
        ensures more { OnOk result (length self.old.texts ≤ length self.new.texts) }
        ensures refusal { IfOk result (λ is_taken. is_taken ≡ is_none (put_refusal (L.files self.old.library) name.now (length text.now))) }
    {
        let copy = Vec::from_slice(self.alloc, text)?;
        if !taken(self.library.put(name, copy))? {
            return Ok(false);
        }
        keep(self.alloc, &mut self.texts, name, text)?;
        Ok(true)
    }

    /// Takes a file away, if it is there.
    #[tactic(auto, using(crate::proofs::Overs::text_after_delete, crate::proofs::Overlaid::ascends, crate::proofs::Overlaid::deleted, crate::proofs::Overlaid::not_there))]
    pub fn delete(&mut self, name: &[u8])
        ensures step { KeepsStep L.files self.old.library self.old.texts self.new.library self.new.texts }
        ensures others { (other : List ℕ) → bytes_eq name.now other ≡ false → text_of self.new.texts other ≡ text_of self.old.texts other }
        ensures ascend { Ascend self.old.texts → Ascend self.new.texts }
        ensures gone { Ascend self.old.texts → is_file_name name.now ≡ true → text_of self.new.texts name.now ≡ None }
    {
        let _ = self.texts.delete(name);
        let _ = self.library.delete(name);
    }
}
