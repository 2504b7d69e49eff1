// Which files hold which units. Nothing here takes memory.
ghost use Rattle.std.specs.Prelude.{◌≡◌, ◌≤◌, length};
ghost use Rattle.std.specs.Option.{option_map};
ghost use Rattle.al_base.specs.Batch.{key_of};
ghost use Rattle.al_unit_graph.specs.Headers.{kind_of};
ghost use Rattle.al_unit_graph.specs.Library.{is_rightly_named, held, headed_as, unit_in, unit_at, is_unit, has_declaration_file, has_body_file};
ghost use Rattle.al_unit_graph.specs.Views.{header_model, contents_model};

use crate::header::{Header, UnitForm};
use crate::names::{is_reserved, is_without_file};
use crate::source::{Contents, Sources};
use al_base::{FileKey, UnitKey, UnitKind};

/// Which part of a program unit it is.
pub fn kind_of(form: UnitForm) -> UnitKind
    ensures { result ≡ kind_of form }
{
    match form {
        UnitForm::PackageDeclaration | UnitForm::SubprogramDeclaration => UnitKind::Decl,
        UnitForm::PackageBody | UnitForm::SubprogramBody => UnitKind::Body,
        UnitForm::SubunitBody => UnitKind::Sub,
    }
}

/// Whether the unit is in the file that its name asks for, and its name isn't the implementation's.
fn is_rightly_named(file: &[u8], header: &Header) -> bool
    requires { length file.now ≤ 255 }
    ensures { result ≡ is_rightly_named file.now (header_model header.now) }
{
    let name = header.name.as_slice();
    match FileKey::of(name, kind_of(header.form)) {
        Some(wanted) => file == wanted.as_slice() && !is_reserved(name),
        None => false,
    }
}

/// The unit that a file of this name holds, if it is sound.
fn held<'a>(file: &[u8], contents: &'a Contents) -> Option<&'a Header>
    requires { length file.now ≤ 255 }
    ensures { option_map (λ h. header_model h.now) result ≡ held file.now (contents_model contents.now) }
{
    match contents {
        Contents::Headed(header) => {
            if is_rightly_named(file, header) {
                Some(header)
            } else {
                None
            }
        }
        Contents::Unread(_, _) => None,
    }
}

/// The unit of this name and kind that its own file holds.
fn headed_as<'a>(contents: &'a Contents, name: &[u8], kind: UnitKind) -> Option<&'a Header>
    ensures { option_map (λ h. header_model h.now) result ≡ headed_as (contents_model contents.now) (name.now, kind) }
{
    match contents {
        Contents::Headed(header) => {
            let is_it = header.name.as_slice() == name && kind_of(header.form) == kind;
            if is_it && !is_reserved(name) {
                Some(header)
            } else {
                None
            }
        }
        Contents::Unread(_, _) => None,
    }
}

impl Sources {
    /// The unit that the file of this name holds.
    pub fn unit_in(&self, file: &[u8]) -> Option<&Header>
        ensures { option_map (λ h. header_model h.now) result ≡ unit_in self.now file.now }
    {
        match self.source_at(file) {
            Some(source) => held(file, &source.contents),
            None => None,
        }
    }

    /// The unit of the library with this name and kind.
    #[tactic(auto, using(crate::proofs::UnitLemmas::unit_at_headed))]
    pub fn unit_at(&self, name: &[u8], kind: UnitKind) -> Option<&Header>
        ensures { option_map (λ h. header_model h.now) result ≡ unit_at self.now (name.now, kind) }
    {
        match self.source_of(name, kind) {
            Some(source) => headed_as(&source.contents, name, kind),
            None => None,
        }
    }

    /// The unit of the library with this key.
    pub fn unit(&self, key: &UnitKey) -> Option<&Header>
        ensures { option_map (λ h. header_model h.now) result ≡ unit_at self.now (key_of key.now) }
    {
        self.unit_at(key.name.as_slice(), key.kind)
    }

    /// Whether the library has the unit.
    pub fn has_unit(&self, key: &UnitKey) -> bool
        ensures { result ≡ is_unit self.now (key_of key.now) }
    {
        self.unit(key).is_some()
    }

    /// Whether there is a file for the declaration, sound or not.
    pub fn has_declaration_file(&self, name: &[u8]) -> bool
        ensures { result ≡ has_declaration_file self.now name.now }
    {
        !is_without_file(name) && self.source_of(name, UnitKind::Decl).is_some()
    }

    /// Whether there is a file for the body, sound or not.
    pub fn has_body_file(&self, name: &[u8]) -> bool
        ensures { result ≡ has_body_file self.now name.now }
    {
        !is_without_file(name) && self.source_of(name, UnitKind::Body).is_some()
    }
}
