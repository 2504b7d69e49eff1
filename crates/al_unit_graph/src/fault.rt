// What is wrong with a unit by itself and with what it names.
ghost use Rattle.std.specs.Prelude.{◌≡◌, ◌++◌, ◌∷◌, [], map, IfOk, OnOk, is_ok};
ghost use Rattle.std.specs.Option.{option_map, option_map_or};
ghost use Rattle.std.specs.List.{flat_map, list_any};
ghost use Rattle.std.specs.Str.{bytes_eq};
ghost use Rattle.al_base.specs.Batch.{finding_of};
ghost use Rattle.al_base_shortage.specs.Counts.{counted};
ghost use Rattle.al_unit_graph.specs.Headers.{is_package, is_package_body};
ghost use Rattle.al_unit_graph.specs.Names.{parent_of};
ghost use Rattle.al_unit_graph.specs.FaultLists.{finding_if, name_faults, is_missing, mention_faults, is_no_parent, has_no_parent, has_no_stub, parent_faults, fits, is_misfit, declaration_faults, own_faults};
ghost use Rattle.al_unit_graph.specs.Views.{mention_model, header_model};

use crate::dependence::is_library_body;
use crate::header::{Header, Mention, UnitForm};
use crate::names::{is_predefined, is_reserved, parent_of};
use crate::source::Sources;
use crate::units::kind_of;
use crate::wanted::file_of;
use al_base::{Diagnostic, Name, NoMemory, Place, UnitKind};
use al_base_shortage::AllocFailures;
use std::alloc::Global;

/// Adds a finding.
fn add(found: &mut Vec<Diagnostic>, finding: Diagnostic) -> Result<(), NoMemory>
    ensures { OnOk result (found.new.items ≡ found.old.items ++ finding ∷ []) }
{
    found.push(finding)?;
    Ok(())
}

/// Adds a finding at a place, if it is so.
fn add_if(
    alloc: Global,
    is_so: bool,
    file: &[u8],
    place: Place,
    code: u16,
    found: &mut Vec<Diagnostic>,
    failures: &mut AllocFailures,
) -> Result<(), NoMemory>
    ensures found { OnOk result (map finding_of found.new.items ≡ map finding_of found.old.items ++ finding_if is_so file.now place code) }
    ensures failures { failures.new ≡ counted (is_ok result) failures.old }
{
    if !is_so {
        return Ok(());
    }
    let file = failures.of(Name::from_slice(alloc, file))?;
    failures.of(add(found, Diagnostic { file, place, code }))
}

/// Adds what is wrong with the name of a file's unit.
#[tactic(auto, unfolding(crate::specs::FaultLists::name_faults))]
fn add_name_faults(
    alloc: Global,
    file: &[u8],
    header: &Header,
    found: &mut Vec<Diagnostic>,
    failures: &mut AllocFailures,
) -> Result<(), NoMemory>
    ensures found { OnOk result (map finding_of found.new.items ≡ map finding_of found.old.items ++ name_faults file.now (header_model header.now)) }
    ensures failures { failures.new ≡ counted (is_ok result) failures.old }
{
    let name = header.name.as_slice();
    let wanted = failures.of(file_of(alloc, name, kind_of(header.form)))?;
    let differs = file != wanted.as_slice();
    add_if(alloc, differs, file, header.place, 201, found, failures)?;
    let is_taken = is_reserved(name);
    add_if(alloc, is_taken, file, header.place, 207, found, failures)
}

/// What is wrong with the name of a file's unit: it asks for another file, or is the implementation's.
///
/// # Errors
///
/// `NoMemory` if the allocator refuses memory. `failures` is then one higher, and is unchanged otherwise.
pub fn name_faults(
    alloc: Global,
    file: &[u8],
    header: &Header,
    failures: &mut AllocFailures,
) -> Result<Vec<Diagnostic>, NoMemory>
    ensures found { IfOk result (λ found. map finding_of found.items ≡ name_faults file.now (header_model header.now)) }
    ensures failures { failures.new ≡ counted (is_ok result) failures.old }
{
    let mut found = Vec::new(alloc);
    add_name_faults(alloc, file, header, &mut found, failures)?;
    Ok(found)
}

/// Whether this form is a package's declaration.
fn is_package(form: UnitForm) -> bool
    ensures { result ≡ is_package form }
{
    matches!(form, UnitForm::PackageDeclaration)
}

/// Whether this form is a package's body as a library item.
fn is_package_body(form: UnitForm) -> bool
    ensures { result ≡ is_package_body form }
{
    matches!(form, UnitForm::PackageBody)
}

/// Whether the name is one of these.
fn contains_name(names: &[Name], name: &[u8]) -> bool
    ensures { result ≡ list_any (λ n. bytes_eq n name.now) names.now }
{
    for n in names {
        if n.as_slice() == name {
            return true;
        }
    }
    false
}

/// Whether a body fits its declaration.
fn fits(body: &Header, declaration: &Header) -> bool
    ensures { result ≡ fits (header_model body.now) (header_model declaration.now) }
{
    declaration.needs_body && is_package(declaration.form) == is_package_body(body.form)
}

impl Sources {
    /// Whether a unit that is named has no declaration, and isn't there without one.
    fn is_missing(&self, name: &[u8]) -> bool
        ensures { result ≡ is_missing self.now name.now }
    {
        !is_predefined(name) && self.declaration_of(name).is_none()
    }

    /// Adds a unit that is mentioned and has no declaration.
    fn add_mention_faults(
        &self,
        file: &[u8],
        mention: &Mention,
        found: &mut Vec<Diagnostic>,
        failures: &mut AllocFailures,
    ) -> Result<(), NoMemory>
        ensures found { OnOk result (map finding_of found.new.items ≡ map finding_of found.old.items ++ mention_faults self.now file.now (mention_model mention.now)) }
        ensures failures { failures.new ≡ counted (is_ok result) failures.old }
    {
        let is_missing = self.is_missing(mention.name.as_slice());
        add_if(
            self.alloc,
            is_missing,
            file,
            mention.place,
            202,
            found,
            failures,
        )
    }

    /// Adds the units that are mentioned and have no declaration.
    fn add_context_faults(
        &self,
        file: &[u8],
        mentions: &[Mention],
        found: &mut Vec<Diagnostic>,
        failures: &mut AllocFailures,
    ) -> Result<(), NoMemory>
        ensures found { OnOk result (map finding_of found.new.items ≡ map finding_of found.old.items ++ flat_map (mention_faults self.now file.now) (map mention_model mentions.now)) }
        ensures failures { failures.new ≡ counted (is_ok result) failures.old }
    {
        for mention in mentions {
            self.add_mention_faults(file, mention, found, failures)?;
        }
        Ok(())
    }

    /// Whether there is no declaration of a package of this name, sound or not.
    fn is_no_parent(&self, parent: &[u8]) -> bool
        ensures { result ≡ is_no_parent self.now parent.now }
    {
        let Some(kind) = self.declaration_of(parent) else {
            return true;
        };
        match self.unit_at(parent, kind) {
            Some(declaration) => !is_package(declaration.form),
            None => false,
        }
    }

    /// Whether a child's parent is no package.
    fn has_no_parent(&self, name: &[u8]) -> bool
        ensures { result ≡ has_no_parent self.now (parent_of name.now) }
    {
        match parent_of(name) {
            Some(parent) => self.is_no_parent(parent),
            None => false,
        }
    }

    /// Whether the parent body is sound and has no such stub.
    fn has_no_stub(&self, parent: &[u8], stub: &[u8]) -> bool
        ensures { result ≡ has_no_stub self.now parent.now stub.now }
    {
        let Some(kind) = self.parent_body_of(parent) else {
            return false;
        };
        match self.unit_at(parent, kind) {
            Some(body) => !contains_name(body.stubs.as_slice(), stub),
            None => false,
        }
    }

    /// Adds what is wrong with the parent body of a subunit, or with the parent of another unit.
    fn add_parent_faults(
        &self,
        file: &[u8],
        header: &Header,
        found: &mut Vec<Diagnostic>,
        failures: &mut AllocFailures,
    ) -> Result<(), NoMemory>
        ensures found { OnOk result (map finding_of found.new.items ≡ map finding_of found.old.items ++ parent_faults self.now file.now (header_model header.now) (option_map mention_model header.now.parent_body)) }
        ensures failures { failures.new ≡ counted (is_ok result) failures.old }
    {
        match &header.parent_body {
            None => {
                let is_so = self.has_no_parent(header.name.as_slice());
                add_if(self.alloc, is_so, file, header.place, 205, found, failures)
            }
            Some(parent) => {
                let name = parent.name.as_slice();
                let is_missing = !self.has_body_file(name);
                add_if(
                    self.alloc,
                    is_missing,
                    file,
                    parent.place,
                    202,
                    found,
                    failures,
                )?;
                let is_so = self.has_no_stub(name, header.designator.as_slice());
                add_if(self.alloc, is_so, file, header.place, 206, found, failures)
            }
        }
    }

    /// Whether a body's declaration is sound and the body doesn't fit it.
    fn is_misfit(&self, header: &Header) -> bool
        ensures { result ≡ is_misfit self.now (header_model header.now) }
    {
        if !is_library_body(header.form) {
            return false;
        }
        match self.unit_at(header.name.as_slice(), UnitKind::Decl) {
            Some(declaration) => !fits(header, declaration),
            None => false,
        }
    }

    /// Adds what is wrong with the declaration of a body.
    fn add_declaration_faults(
        &self,
        file: &[u8],
        header: &Header,
        found: &mut Vec<Diagnostic>,
        failures: &mut AllocFailures,
    ) -> Result<(), NoMemory>
        ensures found { OnOk result (map finding_of found.new.items ≡ map finding_of found.old.items ++ declaration_faults self.now file.now (header_model header.now)) }
        ensures failures { failures.new ≡ counted (is_ok result) failures.old }
    {
        let has_file = self.has_declaration_file(header.name.as_slice());
        let is_missing = is_package_body(header.form) && !has_file;
        add_if(
            self.alloc,
            is_missing,
            file,
            header.place,
            202,
            found,
            failures,
        )?;
        let is_misfit = self.is_misfit(header);
        add_if(
            self.alloc,
            is_misfit,
            file,
            header.place,
            209,
            found,
            failures,
        )
    }

    /// Adds what is wrong with a unit by itself and with what it names.
    #[tactic(auto, unfolding(crate::specs::FaultLists::own_faults))]
    fn add_own_faults(
        &self,
        file: &[u8],
        header: &Header,
        found: &mut Vec<Diagnostic>,
        failures: &mut AllocFailures,
    ) -> Result<(), NoMemory>
        ensures found { OnOk result (map finding_of found.new.items ≡ map finding_of found.old.items ++ own_faults self.now file.now (header_model header.now)) }
        ensures failures { failures.new ≡ counted (is_ok result) failures.old }
    {
        self.add_context_faults(file, header.mentions.as_slice(), found, failures)?;
        self.add_parent_faults(file, header, found, failures)?;
        self.add_declaration_faults(file, header, found, failures)
    }

    /// What is wrong with a unit of the library by itself and with what it names: units that aren't there, a parent that is no
    /// package, a stub that isn't there, a body that doesn't fit.
    ///
    /// # Errors
    ///
    /// `NoMemory` if the allocator refuses memory. `failures` is then one higher, and is unchanged otherwise.
    pub fn own_faults(
        &self,
        file: &[u8],
        header: &Header,
        failures: &mut AllocFailures,
    ) -> Result<Vec<Diagnostic>, NoMemory>
        ensures found { IfOk result (λ found. map finding_of found.items ≡ own_faults self.now file.now (header_model header.now)) }
        ensures failures { failures.new ≡ counted (is_ok result) failures.old }
    {
        let mut found = Vec::new(self.alloc);
        self.add_own_faults(file, header, &mut found, failures)?;
        Ok(found)
    }
}
