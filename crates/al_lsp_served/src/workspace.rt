// The documents and the files of a client.
ghost use Rattle.std.specs.Prelude.{◌≡◌, ◌⊎◌, ℕ, Bool, false, List, Some, None, IfOk, OnOk, option_map};
ghost use Rattle.std.specs.Str.{bytes_eq};
ghost use Rattle.al_lsp_served.specs.Answers.{AddsNone};
ghost use Rattle.al_lsp_served.specs.Documents.{after_changes, text_at, KeepsOver};
ghost use Rattle.al_lsp_served.specs.Named.{with_held};
ghost use Rattle.al_lsp_served.specs.Overlays.{is_open, FollowsDisk, FollowsNotice, Keeps, KeepsRead};
ghost use Rattle.al_lsp_served.specs.Pictures.{TellsNothing};
ghost use Rattle.al_lsp_served.specs.Steps.{KeepsStep};

use crate::disk::Folders;
use crate::document::{Document, Documents, changed, document_of};
use crate::library::DiagnosedLibrary;
use crate::locating::name_in;
use crate::named::put_held;
use crate::reading::read_all;
use crate::sources::Sources;
use crate::starting::{can_watch, counting_in, folders_in};
use al_base::{Files, NoMemory};
use al_lsp::Counting;
use al_lsp_messages::params::{Opened, changes_in, opened_in, uri_in, version_in};
use al_lsp_messages::{NoticeMethod, Outgoing, message_params, watch_params};
use serde_json::Value;
use std::alloc::Global;
use std::collections::BTreeMap;

/// The documents and the files of a client.
pub struct Workspace<L: DiagnosedLibrary> {
    pub alloc: Global,
    pub sources: Sources<L>,
    pub counting: Counting,
    pub folders: Vec<String>,
    pub can_watch: bool,
    /// The documents that are open, by the names of their files.
    pub open: Documents,
}

impl<L: DiagnosedLibrary + Drop> Drop for Workspace<L> {
    fn drop(self) {
        let Workspace {
            alloc: _,
            sources: _,
            counting: _,
            folders: _,
            can_watch: _,
            open: _,
        } = self;
    }
}

// Asks a client to tell what changes in the files of sources.
#[tactic(auto, using(crate::proofs::Answered::answered_push_other, crate::proofs::Pictured::after_push))]
fn ask_to_watch(alloc: Global, out: &mut Vec<Outgoing>) -> Result<(), NoMemory>
    ensures answers { OnOk result (AddsNone out.old.items out.new.items) }
    ensures silent { OnOk result (TellsNothing out.old.items out.new.items) }
{
    let params = watch_params(alloc)?;
    let asked = Outgoing::Request("watch", "client/registerCapability", params);
    out.push(asked)?;
    Ok(())
}

// Shows a client what was left out.
#[tactic(auto, using(crate::proofs::Answered::answered_push_other, crate::proofs::Pictured::after_push))]
fn show(alloc: Global, fault: &str, out: &mut Vec<Outgoing>) -> Result<(), NoMemory>
    ensures answers { OnOk result (AddsNone out.old.items out.new.items) }
    ensures silent { OnOk result (TellsNothing out.old.items out.new.items) }
{
    let params = message_params(alloc, 2, fault)?;
    out.push(Outgoing::Notice("window/showMessage", params))?;
    Ok(())
}

fn show_all(alloc: Global, faults: &[String], out: &mut Vec<Outgoing>) -> Result<(), NoMemory>
    ensures answers { OnOk result (AddsNone out.old.items out.new.items) }
    ensures silent { OnOk result (TellsNothing out.old.items out.new.items) }
{
    for fault in faults {
        show(alloc, fault.as_str(), out)?;
    }
    Ok(())
}

impl<L: DiagnosedLibrary> Workspace<L> {
    /// No documents, over a library; of these folders, where the client names none.
    pub fn new(alloc: Global, library: L, folders: Vec<String>) -> Workspace<L> {
        Workspace {
            alloc,
            sources: Sources {
                alloc,
                library,
                texts: Files::new(alloc),
                places: Files::new(alloc),
            },
            counting: Counting::Utf16,
            folders,
            can_watch: false,
            open: BTreeMap::new(alloc),
        }
    }

    /// Takes what a client says as it starts.
    ///
    /// # Errors
    ///
    /// `NoMemory` where memory was wanted and not given.
    pub fn start(&mut self, params: &Value) -> Result<(), NoMemory>
        ensures step { OnOk result (KeepsStep L.files self.old.sources.library self.old.sources.texts self.new.sources.library self.new.sources.texts) }
        ensures over { OnOk result (KeepsOver self.old.open self.old.sources.texts self.new.open self.new.sources.texts) }
    {
        self.counting = counting_in(params);
        self.can_watch = can_watch(params);
        let folders = folders_in(self.alloc, params)?;
        if !folders.is_empty() {
            self.folders = folders;
        }
        Ok(())
    }

    /// Brings documents and files to what a notice tells, and adds to `out` what is said of that.
    ///
    /// # Errors
    ///
    /// `NoMemory` where memory was wanted and not given.
    pub fn follow<D: Folders>(
        &mut self,
        disk: &D,
        method: NoticeMethod,
        params: Option<&Value>,
        out: &mut Vec<Outgoing>,
    ) -> Result<(), NoMemory>
        ensures answers { OnOk result (AddsNone out.old.items out.new.items) }
        ensures silent { OnOk result (TellsNothing out.old.items out.new.items) }
        ensures step { OnOk result (KeepsStep L.files self.old.sources.library self.old.sources.texts self.new.sources.library self.new.sources.texts) }
        ensures over { OnOk result (KeepsOver self.old.open self.old.sources.texts self.new.open self.new.sources.texts) }
        ensures follows { OnOk result (L.files self.old.sources.library ≡ self.old.sources.texts → FollowsNotice method
            (FollowsDisk (D.has disk.now) self.new.folders.items self.new.open self.new.sources.texts)
            (KeepsRead self.old.open self.old.sources.texts self.new.open self.new.sources.texts)) }
    {
        match method {
            NoticeMethod::Initialized => self.begin(disk, out),
            NoticeMethod::DidSave | NoticeMethod::DidChangeWatchedFiles => self.reread(disk, out),
            NoticeMethod::DidOpen => self.opened(params),
            NoticeMethod::DidChange => self.changed(params),
            NoticeMethod::DidClose => self.closed(disk, params, out),
            NoticeMethod::Exit | NoticeMethod::Unknown => Ok(()),
        }
    }

    fn begin<D: Folders>(&mut self, disk: &D, out: &mut Vec<Outgoing>) -> Result<(), NoMemory>
        ensures answers { OnOk result (AddsNone out.old.items out.new.items) }
        ensures silent { OnOk result (TellsNothing out.old.items out.new.items) }
        ensures step { OnOk result (KeepsStep L.files self.old.sources.library self.old.sources.texts self.new.sources.library self.new.sources.texts) }
        ensures over { OnOk result (KeepsOver self.old.open self.old.sources.texts self.new.open self.new.sources.texts) }
        ensures follows { OnOk result (L.files self.old.sources.library ≡ self.old.sources.texts
            → FollowsDisk (D.has disk.now) self.new.folders.items self.new.open self.new.sources.texts) }
    {
        if self.can_watch {
            ask_to_watch(self.alloc, out)?;
        }
        self.reread(disk, out)
    }

    // Reads the folders, and brings the files that aren't open to what is there.
    fn read_folders<D: Folders>(
        &mut self,
        disk: &D,
        faults: &mut Vec<String>,
    ) -> Result<(), NoMemory>
        ensures step { OnOk result (KeepsStep L.files self.old.sources.library self.old.sources.texts self.new.sources.library self.new.sources.texts) }
        ensures over { OnOk result (KeepsOver self.old.open self.old.sources.texts self.new.open self.new.sources.texts) }
        ensures follows { OnOk result (L.files self.old.sources.library ≡ self.old.sources.texts
            → FollowsDisk (D.has disk.now) self.new.folders.items self.new.open self.new.sources.texts) }
    {
        let (texts, places) = read_all(
            self.alloc,
            disk,
            self.folders.as_slice(),
            faults,
        )?.into_parts();
        self.sources.places = places;
        self.sources.bring(&self.open, &texts)
    }

    // Reads the folders again.
    fn reread<D: Folders>(&mut self, disk: &D, out: &mut Vec<Outgoing>) -> Result<(), NoMemory>
        ensures answers { OnOk result (AddsNone out.old.items out.new.items) }
        ensures silent { OnOk result (TellsNothing out.old.items out.new.items) }
        ensures step { OnOk result (KeepsStep L.files self.old.sources.library self.old.sources.texts self.new.sources.library self.new.sources.texts) }
        ensures over { OnOk result (KeepsOver self.old.open self.old.sources.texts self.new.open self.new.sources.texts) }
        ensures follows { OnOk result (L.files self.old.sources.library ≡ self.old.sources.texts
            → FollowsDisk (D.has disk.now) self.new.folders.items self.new.open self.new.sources.texts) }
    {
        let mut faults = Vec::new(self.alloc);
        self.read_folders(disk, &mut faults)?;
        show_all(self.alloc, faults.as_slice(), out)
    }

    fn opened(&mut self, params: Option<&Value>) -> Result<(), NoMemory>
        ensures step { OnOk result (KeepsStep L.files self.old.sources.library self.old.sources.texts self.new.sources.library self.new.sources.texts) }
        ensures over { OnOk result (KeepsOver self.old.open self.old.sources.texts self.new.open self.new.sources.texts) }
        ensures keeps { OnOk result (KeepsRead self.old.open self.old.sources.texts self.new.open self.new.sources.texts) }
    {
        let Some(params) = params else {
            return Ok(());
        };
        let Some(opened) = opened_in(params) else {
            return Ok(());
        };
        let Some(name) = name_in(self.alloc, self.folders.as_slice(), opened.uri)? else {
            return Ok(());
        };
        self.open_file(name.as_slice(), &opened)
    }

    // The document is the file of this name from now on.
    fn open_file(&mut self, name: &[u8], opened: &Opened<'_>) -> Result<(), NoMemory>
        ensures step { OnOk result (KeepsStep L.files self.old.sources.library self.old.sources.texts self.new.sources.library self.new.sources.texts) }
        ensures over { OnOk result (KeepsOver self.old.open self.old.sources.texts self.new.open self.new.sources.texts) }
        ensures keeps { OnOk result (KeepsRead self.old.open self.old.sources.texts self.new.open self.new.sources.texts) }
        ensures text { OnOk result ((other : List ℕ) → text_at self.new.open other ≡ with_held (text_at self.old.open) name.now (Some opened.now.text.now) other) }
    {
        let document = document_of(self.alloc, opened)?;
        self.keep(name, document)
    }

    fn changed(&mut self, params: Option<&Value>) -> Result<(), NoMemory>
        ensures step { OnOk result (KeepsStep L.files self.old.sources.library self.old.sources.texts self.new.sources.library self.new.sources.texts) }
        ensures over { OnOk result (KeepsOver self.old.open self.old.sources.texts self.new.open self.new.sources.texts) }
        ensures keeps { OnOk result (KeepsRead self.old.open self.old.sources.texts self.new.open self.new.sources.texts) }
    {
        let Some(params) = params else {
            return Ok(());
        };
        let Some(uri) = uri_in(params) else {
            return Ok(());
        };
        let Some(name) = name_in(self.alloc, self.folders.as_slice(), uri)? else {
            return Ok(());
        };
        match changes_in(params) {
            Some(changes) => self.change_file(
                name.as_slice(),
                changes.as_slice(),
                version_in(params),
            ),
            None => Ok(()),
        }
    }

    // Makes the changes in the document of this name, if it is open.
    fn change_file(&mut self, name: &[u8], changes: &[Value], version: i64) -> Result<(), NoMemory>
        ensures step { OnOk result (KeepsStep L.files self.old.sources.library self.old.sources.texts self.new.sources.library self.new.sources.texts) }
        ensures over { OnOk result (KeepsOver self.old.open self.old.sources.texts self.new.open self.new.sources.texts) }
        ensures keeps { OnOk result (KeepsRead self.old.open self.old.sources.texts self.new.open self.new.sources.texts) }
        ensures text { OnOk result ((other : List ℕ) → text_at self.new.open other
            ≡ with_held (text_at self.old.open) name.now (option_map (λ text. after_changes self.old.counting text changes.now) (text_at self.old.open name.now)) other) }
    {
        let Some(document) = self.open.remove(name) else {
            return Ok(());
        };
        let document = changed(self.alloc, self.counting, document, changes, version)?;
        self.keep(name, document)
    }

    // Keeps a document, and puts its text as that of its file, if the library takes it.
    fn keep(&mut self, name: &[u8], document: Document) -> Result<(), NoMemory>
        ensures step { OnOk result (KeepsStep L.files self.old.sources.library self.old.sources.texts self.new.sources.library self.new.sources.texts) }
        ensures over { OnOk result (KeepsOver self.old.open self.old.sources.texts self.new.open self.new.sources.texts) }
        ensures keeps { OnOk result ((was_open : List ℕ → Bool) → ((other : List ℕ) → bytes_eq name.now other ≡ false → was_open other ≡ is_open self.old.open other)
            → Keeps was_open self.old.sources.texts (is_open self.new.open) self.new.sources.texts) }
        ensures text { OnOk result ((other : List ℕ) → text_at self.new.open other ≡ with_held (text_at self.old.open) name.now (Some document.text.items) other) }
    {
        let mut document = document;
        document.is_taken = self.sources.put(name, document.text.as_slice())?;
        put_held(self.alloc, &mut self.open, name, document)
    }

    // The document isn't the file of this name any more.
    fn close_file(&mut self, name: &[u8])
        ensures step { KeepsStep L.files self.old.sources.library self.old.sources.texts self.new.sources.library self.new.sources.texts }
        ensures over { KeepsOver self.old.open self.old.sources.texts self.new.open self.new.sources.texts }
        ensures text { (other : List ℕ) → text_at self.new.open other ≡ with_held (text_at self.old.open) name.now None other }
    {
        let _document = self.open.remove(name);
    }

    fn closed<D: Folders>(
        &mut self,
        disk: &D,
        params: Option<&Value>,
        out: &mut Vec<Outgoing>,
    ) -> Result<(), NoMemory>
        ensures answers { OnOk result (AddsNone out.old.items out.new.items) }
        ensures silent { OnOk result (TellsNothing out.old.items out.new.items) }
        ensures step { OnOk result (KeepsStep L.files self.old.sources.library self.old.sources.texts self.new.sources.library self.new.sources.texts) }
        ensures over { OnOk result (KeepsOver self.old.open self.old.sources.texts self.new.open self.new.sources.texts) }
        ensures follows { OnOk result (L.files self.old.sources.library ≡ self.old.sources.texts
            → FollowsDisk (D.has disk.now) self.new.folders.items self.new.open self.new.sources.texts
            ⊎ KeepsRead self.old.open self.old.sources.texts self.new.open self.new.sources.texts) }
    {
        let Some(params) = params else {
            return Ok(());
        };
        let Some(uri) = uri_in(params) else {
            return Ok(());
        };
        let Some(name) = name_in(self.alloc, self.folders.as_slice(), uri)? else {
            return Ok(());
        };
        self.close_file(name.as_slice());
        self.reread(disk, out)
    }
}
