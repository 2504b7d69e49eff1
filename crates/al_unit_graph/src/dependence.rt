// Semantic dependence (ARM 10.1.1(26)).
ghost use Rattle.std.specs.Prelude.{◌≡◌, ◌++◌, map, IfOk, OnOk};
ghost use Rattle.std.specs.Option.{option_map};
ghost use Rattle.std.specs.List.{flat_map};
ghost use Rattle.al_base.specs.Batch.{key_of};
ghost use Rattle.al_unit_graph.specs.Headers.{is_library_body, is_subprogram_body};
ghost use Rattle.al_unit_graph.specs.Names.{lineage, parent_of};
ghost use Rattle.al_unit_graph.specs.Library.{declaration_of, parent_body_of};
ghost use Rattle.al_unit_graph.specs.Dependence.{listed, declared, parent_declaration, own_declaration, parent_dependences, mention_dependences, dependences};
ghost use Rattle.al_unit_graph.specs.Views.{mention_model, header_model};

use crate::header::{Header, Mention, UnitForm};
use crate::names::{lineage, parent_of};
use crate::source::Sources;
use al_base::{Name, NoMemory, UnitKey, UnitKind};
use std::alloc::Global;

/// Whether this form is the body of a library unit.
pub(crate) fn is_library_body(form: UnitForm) -> bool
    ensures { result ≡ is_library_body form }
{
    matches!(form, UnitForm::PackageBody | UnitForm::SubprogramBody)
}

/// Whether this form is a subprogram's body as a library item.
pub fn is_subprogram_body(form: UnitForm) -> bool
    ensures { result ≡ is_subprogram_body form }
{
    matches!(form, UnitForm::SubprogramBody)
}

/// Adds the key of this name, if there is a kind.
fn add_key(
    alloc: Global,
    name: &[u8],
    kind: Option<UnitKind>,
    keys: &mut Vec<UnitKey>,
) -> Result<(), NoMemory>
    ensures { OnOk result (map key_of keys.new.items ≡ map key_of keys.old.items ++ listed (option_map (λ k. (name.now, k)) kind)) }
{
    if let Some(kind) = kind {
        let name = Name::from_slice(alloc, name)?;
        keys.push(UnitKey { name, kind })?;
    }
    Ok(())
}

impl Sources {
    /// Which part of the unit declares it, in a file that may not be sound.
    #[tactic(auto, unfolding(crate::specs::Library::declaration_of))]
    pub fn declaration_of(&self, name: &[u8]) -> Option<UnitKind>
        ensures { option_map (λ k. (name.now, k)) result ≡ declaration_of self.now name.now }
    {
        if self.has_declaration_file(name) {
            return Some(UnitKind::Decl);
        }
        match self.unit_at(name, UnitKind::Body) {
            Some(header) if is_subprogram_body(header.form) => Some(UnitKind::Body),
            _ => None,
        }
    }

    /// Whether the parent body of this name is a library unit's body or a subunit, in a file that may not be sound.
    #[tactic(auto, unfolding(crate::specs::Library::parent_body_of))]
    pub fn parent_body_of(&self, name: &[u8]) -> Option<UnitKind>
        ensures { option_map (λ k. (name.now, k)) result ≡ parent_body_of self.now name.now }
    {
        if !self.has_body_file(name) {
            return None;
        }
        match self.unit_at(name, UnitKind::Sub) {
            Some(_) => Some(UnitKind::Sub),
            None => Some(UnitKind::Body),
        }
    }

    /// Adds the declaration of the parent.
    fn add_parent(&self, name: &[u8], keys: &mut Vec<UnitKey>) -> Result<(), NoMemory>
        ensures { OnOk result (map key_of keys.new.items ≡ map key_of keys.old.items ++ parent_declaration self.now name.now) }
    {
        match parent_of(name) {
            Some(parent) => self.add_declaration(parent, keys),
            None => Ok(()),
        }
    }

    /// Adds the declaration that a body completes, if that is another file's.
    fn add_own(&self, header: &Header, keys: &mut Vec<UnitKey>) -> Result<(), NoMemory>
        ensures { OnOk result (map key_of keys.new.items ≡ map key_of keys.old.items ++ own_declaration self.now (header_model header.now)) }
    {
        let name = header.name.as_slice();
        if is_library_body(header.form) && self.has_declaration_file(name) {
            add_key(self.alloc, name, Some(UnitKind::Decl), keys)
        } else {
            Ok(())
        }
    }

    /// Adds what the unit depends on for what it is.
    fn add_parents(&self, header: &Header, keys: &mut Vec<UnitKey>) -> Result<(), NoMemory>
        ensures { OnOk result (map key_of keys.new.items ≡ map key_of keys.old.items ++ parent_dependences self.now (header_model header.now) (option_map mention_model header.now.parent_body)) }
    {
        match &header.parent_body {
            Some(parent) => {
                let name = parent.name.as_slice();
                let kind = self.parent_body_of(name);
                add_key(self.alloc, name, kind, keys)
            }
            None => {
                self.add_parent(header.name.as_slice(), keys)?;
                self.add_own(header, keys)
            }
        }
    }

    /// Adds the declaration of the unit.
    pub(crate) fn add_declaration(
        &self,
        name: &[u8],
        keys: &mut Vec<UnitKey>,
    ) -> Result<(), NoMemory>
        ensures { OnOk result (map key_of keys.new.items ≡ map key_of keys.old.items ++ declared self.now name.now) }
    {
        let kind = self.declaration_of(name);
        add_key(self.alloc, name, kind, keys)
    }

    /// Adds the declarations of these units.
    fn add_declarations(&self, names: &[&[u8]], keys: &mut Vec<UnitKey>) -> Result<(), NoMemory>
        ensures { OnOk result (map key_of keys.new.items ≡ map key_of keys.old.items ++ flat_map (declared self.now) (map (λ n. n.now) names.now)) }
    {
        for name in names {
            self.add_declaration(name, keys)?;
        }
        Ok(())
    }

    /// Adds the declarations of a mentioned unit and of its ancestors.
    fn add_mentioned(&self, mention: &Mention, keys: &mut Vec<UnitKey>) -> Result<(), NoMemory>
        ensures { OnOk result (map key_of keys.new.items ≡ map key_of keys.old.items ++ mention_dependences self.now (mention_model mention.now)) }
    {
        let names = lineage(self.alloc, mention.name.as_slice())?;
        self.add_declarations(names.as_slice(), keys)
    }

    /// Adds the declarations of the units that the context clause mentions, and of their ancestors.
    fn add_context(&self, mentions: &[Mention], keys: &mut Vec<UnitKey>) -> Result<(), NoMemory>
        ensures { OnOk result (map key_of keys.new.items ≡ map key_of keys.old.items ++ flat_map (mention_dependences self.now) (map mention_model mentions.now)) }
    {
        for mention in mentions {
            self.add_mentioned(mention, keys)?;
        }
        Ok(())
    }

    /// What a unit depends on by itself: its parent's declaration and its own, or its parent body, and the declarations of the
    /// units that it mentions and of their ancestors.
    ///
    /// # Errors
    ///
    /// `NoMemory` if the allocator refuses memory.
    #[tactic(auto, unfolding(crate::specs::Dependence::dependences))]
    pub fn dependences(&self, header: &Header) -> Result<Vec<UnitKey>, NoMemory>
        ensures { IfOk result (λ keys. map key_of keys.items ≡ dependences self.now (header_model header.now)) }
    {
        let mut keys = Vec::new(self.alloc);
        self.add_parents(header, &mut keys)?;
        self.add_context(header.mentions.as_slice(), &mut keys)?;
        Ok(keys)
    }
}
