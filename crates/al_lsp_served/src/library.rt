// What a language server needs of a library.
ghost use Rattle.std.specs.Prelude.{◌≡◌, ℕ, List, OnOk, OnErr, length, map};
ghost use Rattle.al_base.specs.Batch.{Finding, finding_of};
ghost use Rattle.al_base.specs.Files.{Texts, with_file, without_file, put_refusal, delete_refusal, AnswersRefusal, AnswersFirst};

use crate::points::Points;
use al_base::{Diagnostic, NoMemory, Refusal};

/// A library of files that are put and deleted, and that says what is wrong with them.
pub trait DiagnosedLibrary: Points {
    /// What is wrong with files.
    ghost finds: { Texts → List Finding → Type 0 };

    /// The files.
    ghost files: { Self → Texts };

    /// What the last check found.
    ghost found: { Self → List Finding };

    /// Sets the text of a file, a new one too.
    fn put(&mut self, name: &[u8], text: Vec<u8>) -> Result<(), Refusal>
        ensures answer { AnswersFirst result (put_refusal (files self.old) name.now (length text.items)) }
        ensures ok { OnOk result (files self.new ≡ with_file (files self.old) name.now text.items) }
        ensures err { OnErr result (files self.new ≡ files self.old) };

    /// Takes a file away. It takes no memory.
    fn delete(&mut self, name: &[u8]) -> Result<(), Refusal>
        ensures answer { AnswersRefusal result (delete_refusal (files self.old) name.now) }
        ensures ok { OnOk result (files self.new ≡ without_file (files self.old) name.now) }
        ensures err { OnErr result (files self.new ≡ files self.old) };

    /// Checks all files.
    fn check(&mut self) -> Result<(), NoMemory>
        ensures files { files self.new ≡ files self.old }
        ensures found { OnOk result (finds (files self.new) (found self.new)) };

    /// What the last check found, by file, place and code; nothing before the first one.
    fn diagnostics(&self) -> &[Diagnostic]
        ensures { map finding_of result.now ≡ found self.now };
}
