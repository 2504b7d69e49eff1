// A region: what is declared in it so far, what is begun, and what its use clauses name.
ghost use Rattle.std.specs.Prelude.{◌≡◌, [], None, is_ok, if◌then◌else◌};
ghost use Rattle.al_scope.specs.Expanded.{tells};
ghost use Rattle.al_scope.specs.Places.{is_region_of, is_within, with_begun, with_declared, with_uses};
ghost use Rattle.al_scope.specs.UseClauses.{with_package, with_type, with_type_view};

use crate::clauses::has_name;
use crate::names::NameSet;
use crate::uses::UseClauses;
use al_base::{Name, NoMemory, UnitKey};
use al_view::{Interface, Part, Seq, Symbol, Types, View, is_unit};
use std::alloc::Global;

/// A part of a unit.
pub struct UnitPart {
    /// The unit.
    pub unit: UnitKey,
    /// Which part of the unit.
    pub part: Part,
}

impl Drop for UnitPart {
    fn drop(self) {
        let UnitPart { unit: _, part: _ } = self;
    }
}

/// A declarative region up to a place in it (ARM 8.1).
pub struct Region {
    /// The package, subprogram, task, protected object or entry that has the region. A block, a loop or a record has none.
    pub construct: Option<Symbol>,
    /// The parts of units that it continues.
    pub parts: Seq<UnitPart>,
    /// What is declared in it so far.
    pub declared: Interface,
    /// The names whose declarations were begun.
    pub begun: NameSet,
    /// The use clauses that hold in it so far, including those of the regions round it.
    pub uses: UseClauses,
    /// The private types that the contexts of the units of its parts name.
    pub private_types: Seq<Name>,
}

impl Drop for Region {
    fn drop(self) {
        let Region {
            construct: _,
            parts: _,
            declared: _,
            begun: _,
            uses: _,
            private_types: _,
        } = self;
    }
}

impl Region {
    /// A region of no construct that continues these parts, with these use clauses and nothing of its own yet. It takes no memory.
    pub fn new(alloc: Global, parts: Seq<UnitPart>, uses: UseClauses) -> Self
        ensures { result ≡ (record { construct = None; parts = parts; declared = []; begun = []; uses = uses; private_types = [] }) }
    {
        Region {
            construct: None,
            parts,
            declared: Interface::new(alloc),
            begun: NameSet::new(alloc),
            uses,
            private_types: Seq::empty(alloc),
        }
    }

    /// Whether it is the region of that construct.
    pub fn is_of(&self, construct: &Symbol) -> bool
        ensures { result ≡ is_region_of construct.now self.now }
    {
        match &self.construct {
            Some(own) => construct.is(own),
            None => false,
        }
    }

    /// Whether it is the region of the unit itself or of a construct in it.
    pub fn is_in(&self, unit: &UnitKey) -> bool
        ensures { result ≡ is_within unit.now self.now }
    {
        match &self.construct {
            Some(own) => is_unit(unit, &own.unit),
            None => false,
        }
    }

    /// Whether a private type of that name may be one of the region's: if it continues parts, their units say which private types they
    /// declare.
    pub fn tells(&self, name: &[u8]) -> bool
        ensures { result ≡ tells name.now self.now }
    {
        match self.parts.as_slice() {
            [] => true,
            [_, ..] => has_name(self.private_types.as_slice(), name),
        }
    }

    /// Declares a view under a name.
    /// # Errors
    /// `NoMemory` if the allocator refuses memory; the region is unchanged then.
    pub fn declare(&mut self, name: &[u8], view: View) -> Result<(), NoMemory>
        ensures { self.new ≡ (if is_ok result then with_declared name.now view self.old else self.old) }
    {
        self.declared.declare(name, view)?;
        Ok(())
    }

    /// Begins the declaration of a name.
    /// # Errors
    /// `NoMemory` if the allocator refuses memory; the region is unchanged then.
    pub fn start(&mut self, name: &[u8]) -> Result<(), NoMemory>
        ensures { self.new ≡ (if is_ok result then with_begun name.now self.old else self.old) }
    {
        self.begun.insert(name)?;
        Ok(())
    }

    /// Adds a use clause that names a package (ARM 8.4(3)).
    /// # Errors
    /// `NoMemory` if the allocator refuses memory; the region is unchanged then.
    pub fn use_package(&mut self, package_name: &[u8]) -> Result<(), NoMemory>
        ensures { self.new ≡ (if is_ok result then with_uses (with_package package_name.now) self.old else self.old) }
    {
        self.uses.use_package(package_name)?;
        Ok(())
    }

    /// Adds a use type clause that names a type whose package is mentioned (ARM 8.4(4)).
    /// # Errors
    /// `NoMemory` if the allocator refuses memory; the region is unchanged then.
    pub fn use_type(&mut self, symbol: Symbol) -> Result<(), NoMemory>
        ensures { self.new ≡ (if is_ok result then with_uses (with_type symbol) self.old else self.old) }
    {
        self.uses.use_type(symbol)?;
        Ok(())
    }

    /// Adds a use type clause that names a type whose package isn't mentioned, with the types that its view has.
    /// # Errors
    /// `NoMemory` if the allocator refuses memory; the region is unchanged then.
    pub fn use_type_view(&mut self, symbol: &Symbol, types: &Types) -> Result<(), NoMemory>
        ensures { self.new ≡ (if is_ok result then with_uses (with_type_view symbol.now types.now) self.old else self.old) }
    {
        self.uses.use_type_view(symbol, types)?;
        Ok(())
    }
}
