// Files that aren't open follow what was read.
ghost use Rattle.std.specs.Prelude.{◌≡◌, ◌<◌, ◌≤◌, ◌||◌, ℕ, List, true, false, Some, None, OnOk, is_some, length};
ghost use Rattle.std.specs.Str.{bytes_eq};
ghost use Rattle.al_base.specs.FileLaws.{Ascend};
ghost use Rattle.al_base.specs.Files.{IsFile, text_of};
ghost use Rattle.al_base.specs.Names.{is_file_name};
ghost use Rattle.al_lsp_served.specs.Documents.{KeepsOver};
ghost use Rattle.al_lsp_served.specs.Named.{held};
ghost use Rattle.al_lsp_served.specs.Overlays.{is_open, IsOverlaid};
ghost use Rattle.al_lsp_served.specs.Steps.{KeepsStep};

use crate::document::Documents;
use crate::library::DiagnosedLibrary;
use crate::sources::Sources;
use al_base::{Files, NoMemory};

// Whether a file is open, or was read.
fn is_kept(open: &Documents, now: &Files, name: &[u8]) -> bool
    ensures { result ≡ (is_some (held open.now name.now) || is_some (text_of now.now name.now)) }
{
    open.contains_key(name) || now.get(name).is_some()
}

impl<L: DiagnosedLibrary> Sources<L> {
    // Takes a file away that wasn't read and isn't open.
    fn delete_gone(&mut self, open: &Documents, now: &Files, name: &[u8])
        requires { is_file_name name.now ≡ true }
        ensures step { KeepsStep L.files self.old.library self.old.texts self.new.library self.new.texts }
        ensures over { KeepsOver open.now self.old.texts open.now self.new.texts }
        ensures ascend { Ascend self.old.texts → Ascend self.new.texts }
        ensures others { (other : List ℕ) → bytes_eq name.now other ≡ false → text_of self.new.texts other ≡ text_of self.old.texts other }
        ensures gone { Ascend self.old.texts → held open.now name.now ≡ None → text_of now.now name.now ≡ None → text_of self.new.texts name.now ≡ None }
    {
        if is_kept(open, now, name) {
            return;
        }
        self.delete(name);
    }

    // Takes all files away that weren't read and aren't open.
    fn delete_all(&mut self, open: &Documents, now: &Files) -> Result<(), NoMemory>
        ensures step { OnOk result (KeepsStep L.files self.old.library self.old.texts self.new.library self.new.texts) }
        ensures over { OnOk result (KeepsOver open.now self.old.texts open.now self.new.texts) }
        ensures gone { OnOk result ((name : List ℕ) → held open.now name ≡ None → text_of now.now name ≡ None → text_of self.new.texts name ≡ None) }
    {
        let before = self.texts.copy()?;
        for (name, _text) in before.shared()?.as_slice() {
            self.delete_gone(open, now, name);
        }
        Ok(())
    }

    // Whether the library has just this text of a file.
    fn has_text(&self, name: &[u8], text: &[u8]) -> bool
        ensures { result ≡ true → text_of self.now.texts name.now ≡ Some text.now }
    {
        match self.texts.get(name) {
            Some(before) => before == text,
            None => false,
        }
    }

    // Whether a file is open, or the library has just this text of it.
    #[tactic(auto, using(crate::proofs::Results::none_of))]
    fn is_known(&self, open: &Documents, name: &[u8], text: &[u8]) -> bool
        ensures open { result ≡ false → held open.now name.now ≡ None }
        ensures there { result ≡ true → held open.now name.now ≡ None → text_of self.now.texts name.now ≡ Some text.now }
    {
        open.contains_key(name) || self.has_text(name, text)
    }

    // Puts the text of a file that isn't open, unless the library has it.
    fn put_read(&mut self, open: &Documents, name: &[u8], text: &[u8]) -> Result<(), NoMemory>
        ensures step { OnOk result (KeepsStep L.files self.old.library self.old.texts self.new.library self.new.texts) }
        ensures over { OnOk result (KeepsOver open.now self.old.texts open.now self.new.texts) }
        ensures more { OnOk result (length self.old.texts ≤ length self.new.texts) }
        ensures others { OnOk result ((other : List ℕ) → bytes_eq name.now other ≡ false → text_of self.new.texts other ≡ text_of self.old.texts other) }
        ensures there { OnOk result (L.files self.old.library ≡ self.old.texts → IsFile (name.now, text.now) → held open.now name.now ≡ None
            → length self.new.texts < 4096 → text_of self.new.texts name.now ≡ Some text.now) }
    {
        if self.is_known(open, name, text) {
            return Ok(());
        }
        self.put(name, text)?;
        Ok(())
    }

    // Puts the texts of all files that were read and aren't open.
    fn put_all(&mut self, open: &Documents, now: &Files) -> Result<(), NoMemory>
        ensures step { OnOk result (KeepsStep L.files self.old.library self.old.texts self.new.library self.new.texts) }
        ensures over { OnOk result (KeepsOver open.now self.old.texts open.now self.new.texts) }
        ensures overlaid { OnOk result (L.files self.old.library ≡ self.old.texts
            → ((name : List ℕ) → held open.now name ≡ None → text_of now.now name ≡ None → text_of self.old.texts name ≡ None)
            → IsOverlaid (is_open open.now) now.now self.new.texts) }
    {
        for (name, text) in now.shared()?.as_slice() {
            self.put_read(open, name, text.as_slice())?;
        }
        Ok(())
    }

    /// Brings the files that aren't open to what was read.
    ///
    /// # Errors
    ///
    /// `NoMemory` where memory was wanted and not given.
    pub fn bring(&mut self, open: &Documents, now: &Files) -> Result<(), NoMemory>
        ensures step { OnOk result (KeepsStep L.files self.old.library self.old.texts self.new.library self.new.texts) }
        ensures over { OnOk result (KeepsOver open.now self.old.texts open.now self.new.texts) }
        ensures overlaid { OnOk result (L.files self.old.library ≡ self.old.texts → IsOverlaid (is_open open.now) now.now self.new.texts) }
    {
        self.delete_all(open, now)?;
        self.put_all(open, now)
    }
}
