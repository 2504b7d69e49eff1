// What the graph of units needs to know of a unit.
use al_base::{Name, Place};

/// What a compilation unit is (ARM 10.1.1, 10.1.3).
#[derive(Clone, Copy)]
pub enum UnitForm {
    /// A library package's declaration.
    PackageDeclaration,
    /// A library subprogram's declaration.
    SubprogramDeclaration,
    /// A library package's body.
    PackageBody,
    /// A library subprogram's body.
    SubprogramBody,
    /// A subunit.
    SubunitBody,
}

/// The name of a unit in lower case, and its place: that of its first identifier.
pub struct Mention {
    /// The name in lower case.
    pub name: Name,
    /// The place of its first identifier.
    pub place: Place,
}

impl Drop for Mention {
    fn drop(self) {
        let Mention { name: _, place: _ } = self;
    }
}

/// What a compilation unit says of itself.
pub struct Header {
    /// The full name in lower case; for a subunit with that of its parent body before it (ARM 10.1.3(8)).
    pub name: Name,
    /// The place of the name; for a subunit that of the name of its body.
    pub place: Place,
    /// What kind of compilation unit it is.
    pub form: UnitForm,
    /// Whether it is declared with the word private (ARM 10.1.1(12)).
    pub is_private: bool,
    /// Whether it is a declaration that a body completes (ARM 6.1(20), 7.2(4)).
    pub needs_body: bool,
    /// The name of the parent body of a subunit (ARM 10.1.3(8)).
    pub parent_body: Option<Mention>,
    /// The name as it is written in the declaration or the body; for a subunit without that of its parent body.
    pub designator: Name,
    /// The names in the with clauses (ARM 10.1.2(4)).
    pub mentions: Vec<Mention>,
    /// The names of the stubs that are immediately in a body's declarative part (ARM 10.1.3(2)).
    pub stubs: Vec<Name>,
    /// The names in the pragmas Elaborate of the context clause (ARM 10.2.1(20)).
    pub elaborate: Vec<Name>,
    /// The names in the pragmas Elaborate_All of the context clause (ARM 10.2.1(20)).
    pub elaborate_all: Vec<Name>,
    /// Whether it is a package's declaration with the pragma Elaborate_Body in its place (ARM 10.2.1(20)).
    pub has_elaborate_body: bool,
    /// Whether it is a procedure without parameters, which alone can be the main unit (ARM 10.2(7)).
    pub is_parameterless_procedure: bool,
}

impl Drop for Header {
    fn drop(self) {
        let Header {
            name: _,
            place: _,
            form: _,
            is_private: _,
            needs_body: _,
            parent_body: _,
            designator: _,
            mentions: _,
            stubs: _,
            elaborate: _,
            elaborate_all: _,
            has_elaborate_body: _,
            is_parameterless_procedure: _,
        } = self;
    }
}
