// The files that a unit asks for, and whether one that it meets differs between two libraries (ARM 10.1.4(5, 7)).
ghost use Rattle.std.specs.Prelude.{◌≡◌, ◌++◌, map, IfOk, OnOk};
ghost use Rattle.std.specs.Option.{option_map};
ghost use Rattle.std.specs.List.{flat_map};
ghost use Rattle.al_base.specs.FileNames.{file_name_of};
ghost use Rattle.al_unit_graph.specs.Traces.{text_at, has_no_file, declaration_files, body_files, own_files, parent_files, mention_files, wanted_files};
ghost use Rattle.al_unit_graph.specs.Views.{mention_model, header_model};

use crate::dependence::is_library_body;
use crate::header::{Header, Mention};
use crate::names::{is_without_file, lineage, parent_of};
use crate::source::Sources;
use al_base::{Name, NoMemory, UnitKey, UnitKind, file_name_of};
use std::alloc::Global;

/// The name of the file that holds this part of the unit of the name.
pub(crate) fn file_of(alloc: Global, name: &[u8], kind: UnitKind) -> Result<Name, NoMemory>
    ensures { IfOk result (λ file. file ≡ file_name_of (name.now, kind)) }
{
    let name = Name::from_slice(alloc, name)?;
    file_name_of(alloc, &UnitKey { name, kind })
}

/// Whether no file declares the unit, or its name is longer than that of a file can be.
fn has_no_file(name: &[u8]) -> bool
    ensures { result ≡ has_no_file name.now }
{
    is_without_file(name) || name.len() > 251
}

impl Sources {
    /// The source in a file.
    pub fn text_at(&self, file: &[u8]) -> Option<&[u8]>
        ensures { option_map (λ text. text.now) result ≡ text_at self.now file.now }
    {
        match self.source_at(file) {
            Some(source) => Some(source.text.as_slice()),
            None => None,
        }
    }

    /// Adds the files in which the declaration of a unit is looked for.
    fn add_declaration_files(&self, name: &[u8], files: &mut Vec<Name>) -> Result<(), NoMemory>
        ensures { OnOk result (files.new.items ≡ files.old.items ++ declaration_files self.now name.now) }
    {
        if has_no_file(name) {
            return Ok(());
        }
        let declaration = file_of(self.alloc, name, UnitKind::Decl)?;
        let is_there = self.source_at(declaration.as_slice()).is_some();
        files.push(declaration)?;
        if !is_there {
            files.push(file_of(self.alloc, name, UnitKind::Body)?)?;
        }
        Ok(())
    }

    /// Adds the file in which a parent body is looked for.
    fn add_body_file(&self, name: &[u8], files: &mut Vec<Name>) -> Result<(), NoMemory>
        ensures { OnOk result (files.new.items ≡ files.old.items ++ body_files name.now) }
    {
        if has_no_file(name) {
            return Ok(());
        }
        files.push(file_of(self.alloc, name, UnitKind::Body)?)?;
        Ok(())
    }

    /// Adds the files of a body's declaration.
    fn add_own_files(&self, header: &Header, files: &mut Vec<Name>) -> Result<(), NoMemory>
        ensures { OnOk result (files.new.items ≡ files.old.items ++ own_files self.now (header_model header.now)) }
    {
        if is_library_body(header.form) {
            self.add_declaration_files(header.name.as_slice(), files)
        } else {
            Ok(())
        }
    }

    /// Adds the files of the parent's declaration and of a body's own, or of the parent body.
    fn add_parent_files(&self, header: &Header, files: &mut Vec<Name>) -> Result<(), NoMemory>
        ensures { OnOk result (files.new.items ≡ files.old.items ++ parent_files self.now (header_model header.now) (option_map mention_model header.now.parent_body)) }
    {
        if let Some(parent) = &header.parent_body {
            return self.add_body_file(parent.name.as_slice(), files);
        }
        if let Some(parent) = parent_of(header.name.as_slice()) {
            self.add_declaration_files(parent, files)?;
        }
        self.add_own_files(header, files)
    }

    /// Adds the files of the declarations of these units.
    fn add_files_of(&self, names: &[&[u8]], files: &mut Vec<Name>) -> Result<(), NoMemory>
        ensures { OnOk result (files.new.items ≡ files.old.items ++ flat_map (declaration_files self.now) (map (λ n. n.now) names.now)) }
    {
        for name in names {
            self.add_declaration_files(name, files)?;
        }
        Ok(())
    }

    /// Adds the files of the declarations of a mentioned unit and of its ancestors.
    fn add_mention_files(&self, mention: &Mention, files: &mut Vec<Name>) -> Result<(), NoMemory>
        ensures { OnOk result (files.new.items ≡ files.old.items ++ mention_files self.now (mention_model mention.now)) }
    {
        let names = lineage(self.alloc, mention.name.as_slice())?;
        self.add_files_of(names.as_slice(), files)
    }

    /// Adds the files of the units that the context clause mentions.
    fn add_context_files(&self, mentions: &[Mention], files: &mut Vec<Name>) -> Result<(), NoMemory>
        ensures { OnOk result (files.new.items ≡ files.old.items ++ flat_map (mention_files self.now) (map mention_model mentions.now)) }
    {
        for mention in mentions {
            self.add_mention_files(mention, files)?;
        }
        Ok(())
    }

    /// The files that a unit asks for, which may not be there.
    ///
    /// # Errors
    ///
    /// `NoMemory` if the allocator refuses memory.
    #[tactic(auto, unfolding(crate::specs::Traces::wanted_files))]
    pub fn wanted_files(&self, header: &Header) -> Result<Vec<Name>, NoMemory>
        ensures { IfOk result (λ files. files.items ≡ wanted_files self.now (header_model header.now)) }
    {
        let mut files = Vec::new(self.alloc);
        self.add_parent_files(header, &mut files)?;
        self.add_context_files(header.mentions.as_slice(), &mut files)?;
        Ok(files)
    }
}
