// Messages that tell a client of files what it doesn't know.
ghost use Rattle.std.specs.Prelude.{◌≡◌, ◌⊎◌, ℕ, List, [], ◌&&◌, not, Some, None, IfOk, OnOk, option_map, is_some, if◌then◌else◌};
ghost use Rattle.std.specs.Str.{bytes_eq};
ghost use Rattle.serde_json.specs.Data.{Data};
ghost use Rattle.serde_json.specs.View.{view};
ghost use Rattle.al_lsp_served.specs.Named.{held};
ghost use Rattle.al_lsp_served.specs.Told.{list_data, told_of, IsTold};
ghost use Rattle.al_lsp_served.specs.Answers.{AddsNone};
ghost use Rattle.al_lsp_served.specs.Pictures.{after_messages, KeepsPicture};
ghost use Rattle.al_lsp_served.specs.Steps.{KeepsStep};

use crate::library::DiagnosedLibrary;
use crate::named::names_of;
use crate::server::Server;
use crate::telling::{Picture, Placed, list_in, list_value, same_list};
use al_base::NoMemory;
use al_lsp_messages::{Outgoing, Published};

impl<L: DiagnosedLibrary> Server<L> {
    // The version of the text that a client has open of a file.
    fn version_of(&self, name: &[u8]) -> Option<i64>
        ensures { result ≡ option_map (λ document. document.version) (held self.now.space.open name.now) }
    {
        let document = self.space.open.get(name)?;
        Some(document.version)
    }

    // What is published for a file.
    fn published(&self, name: &[u8], list: &[Placed]) -> Result<Published, NoMemory>
        ensures file { IfOk result (λ told. told.file.items ≡ name.now) }
        ensures version { IfOk result (λ told. told.version ≡ option_map (λ document. document.version) (held self.now.space.open name.now)) }
        ensures found { IfOk result (λ told. view told.found ≡ list_data list.now) }
    {
        let file = Vec::from_slice(self.space.alloc, name)?;
        let uri = self.space.uri_for(&self.told, name)?;
        let found = list_value(self.space.alloc, list)?;
        Ok(Published {
            file,
            uri,
            version: self.version_of(name),
            found,
        })
    }

    #[tactic(auto, using(crate::proofs::Answered::answered_push_other, crate::proofs::Pictured::after_push))]
    fn publish(&self, name: &[u8], list: &[Placed], out: &mut Vec<Outgoing>) -> Result<(), NoMemory>
        ensures answers { OnOk result (AddsNone out.old.items out.new.items) }
        ensures picture { OnOk result ((other : List ℕ) (had : Data) → after_messages other had out.new.items
            ≡ (if bytes_eq name.now other then list_data list.now else after_messages other had out.old.items)) }
    {
        let told = self.published(name, list)?;
        out.push(Outgoing::Publish(told))?;
        Ok(())
    }

    // Tells a client of a file, unless it knows that.
    fn tell_file(
        &self,
        name: &&[u8],
        picture: &Picture,
        out: &mut Vec<Outgoing>,
    ) -> Result<(), NoMemory>
        ensures answers { OnOk result (AddsNone out.old.items out.new.items) }
        ensures picture { OnOk result ((other : List ℕ) (had : Data)
            → (after_messages other had out.old.items ≡ list_data (told_of self.now.told other)) ⊎ (after_messages other had out.old.items ≡ list_data (told_of picture.now other))
            → after_messages other had out.new.items ≡ (if bytes_eq name.now.now other then list_data (told_of picture.now other) else after_messages other had out.old.items)) }
    {
        let list = list_in(picture, *name);
        if same_list(list_in(&self.told, *name), list) {
            return Ok(());
        }
        self.publish(*name, list, out)
    }

    // Tells a client of the files of a picture what it doesn't know.
    fn tell_all(&self, picture: &Picture, out: &mut Vec<Outgoing>) -> Result<(), NoMemory>
        ensures answers { OnOk result (AddsNone out.old.items out.new.items) }
        ensures picture { OnOk result ((name : List ℕ) (had : Data)
            → after_messages name had out.old.items ≡ list_data (told_of self.now.told name)
            → after_messages name had out.new.items ≡ (if is_some (held picture.now name) then list_data (told_of picture.now name) else list_data (told_of self.now.told name))) }
    {
        for name in names_of(self.space.alloc, picture)?.as_slice() {
            self.tell_file(name, picture, out)?;
        }
        Ok(())
    }

    // Tells a client that nothing is wrong any more with a file, if the picture lacks it.
    fn clear_file(
        &self,
        name: &&[u8],
        picture: &Picture,
        out: &mut Vec<Outgoing>,
    ) -> Result<(), NoMemory>
        ensures answers { OnOk result (AddsNone out.old.items out.new.items) }
        ensures picture { OnOk result ((other : List ℕ) (had : Data) → after_messages other had out.new.items
            ≡ (if bytes_eq name.now.now other && not (is_some (held picture.now other)) then list_data [] else after_messages other had out.old.items)) }
    {
        if picture.contains_key(*name) {
            return Ok(());
        }
        self.publish(*name, &[], out)
    }

    // Tells a client that nothing is wrong any more with the files that a picture lacks.
    fn clear_all(&self, picture: &Picture, out: &mut Vec<Outgoing>) -> Result<(), NoMemory>
        ensures answers { OnOk result (AddsNone out.old.items out.new.items) }
        ensures picture { OnOk result ((name : List ℕ) (had : Data) → after_messages name had out.new.items
            ≡ (if is_some (held self.now.told name) && not (is_some (held picture.now name)) then list_data [] else after_messages name had out.old.items)) }
    {
        for name in names_of(self.space.alloc, &self.told)?.as_slice() {
            self.clear_file(name, picture, out)?;
        }
        Ok(())
    }

    fn tell_picture(&mut self, picture: Picture, out: &mut Vec<Outgoing>) -> Result<(), NoMemory>
        ensures answers { OnOk result (AddsNone out.old.items out.new.items) }
        ensures picture { OnOk result (KeepsPicture out.old.items (told_of self.old.told) out.new.items (told_of self.new.told)) }
        ensures told { OnOk result (self.new.told ≡ picture) }
        ensures space { self.new.space ≡ self.old.space }
    {
        self.tell_all(&picture, out)?;
        self.clear_all(&picture, out)?;
        self.told = picture;
        Ok(())
    }

    /// Checks all files, and tells a client of each of which it knows something else what is found in it.
    ///
    /// # Errors
    ///
    /// `NoMemory` where memory was wanted and not given.
    pub fn tell(&mut self, out: &mut Vec<Outgoing>) -> Result<(), NoMemory>
        ensures answers { OnOk result (AddsNone out.old.items out.new.items) }
        ensures step { OnOk result (KeepsStep L.files self.old.space.sources.library self.old.space.sources.texts self.new.space.sources.library self.new.space.sources.texts) }
        ensures rest { (self.new.space.open ≡ self.old.space.open) × (self.new.space.sources.texts ≡ self.old.space.sources.texts) }
        ensures picture { OnOk result (KeepsPicture out.old.items (told_of self.old.told) out.new.items (told_of self.new.told)) }
        ensures found { OnOk result (L.finds (L.files self.new.space.sources.library) (L.found self.new.space.sources.library)) }
        ensures told { OnOk result (IsTold self.new.space.counting self.new.space.sources.texts (λ name. is_some (held self.new.space.open name)) (told_of self.new.told) (L.found self.new.space.sources.library)) }
    {
        self.space.sources.library.check()?;
        let picture = self.space.picture(&self.told)?;
        self.tell_picture(picture, out)
    }
}
