// One predefined package.
ghost use Rattle.std.specs.Prelude.{◌≡◌, [], ◌++◌, ◌∷◌, IfOk, OnOk};
ghost use Rattle.al_query.specs.Answers.{declaration};
ghost use Rattle.al_query_outcome.specs.Tables.{interface_of};
ghost use Rattle.al_view.specs.declared.view.ViewKind.TheVariants.{OfPackage};
ghost use Rattle.al_engine_files.specs.PredefinedUnits.{declared_by, package_of, package_properties, package_symbol, visible_alone};

use al_base::{Name, NoMemory, UnitKey, UnitKind};
use al_query::ContextView;
use al_query_outcome::{Parts, Properties, UnitInterface};
use al_view::{Interface, Seq, Symbol, View, ViewKind};
use al_view_predefined::predefined_package;
use std::alloc::Global;

/// A predefined package, and its answers to look-ups.
pub(crate) struct Package {
    pub unit: UnitKey,
    pub interface: UnitInterface,
}

impl Drop for Package {
    fn drop(self) {
        let Package {
            unit: _,
            interface: _,
        } = self;
    }
}

/// The declaration of this name.
///
/// # Errors
///
/// `NoMemory` if the allocator refuses memory.
pub(crate) fn declaration(alloc: Global, name: &[u8]) -> Result<UnitKey, NoMemory>
    ensures { IfOk result (λ unit. unit ≡ declaration name.now) }
{
    let name = Name::from_slice(alloc, name)?;
    Ok(UnitKey {
        name,
        kind: UnitKind::Decl,
    })
}

/// The symbol of a package.
fn package_symbol(alloc: Global, name: &[u8], identifier: &[u8]) -> Result<Symbol, NoMemory>
    ensures { IfOk result (λ symbol. symbol ≡ package_symbol name.now identifier.now) }
{
    let unit = declaration(alloc, name)?;
    let name = Name::from_slice(alloc, identifier)?;
    Ok(Symbol {
        unit,
        name,
        number: 0,
    })
}

// The view of a package.
fn package_view(alloc: Global, name: &[u8], identifier: &[u8]) -> Result<View, NoMemory>
    ensures { IfOk result (λ view. view ≡ OfPackage (package_symbol name.now identifier.now)) }
{
    let symbol = package_symbol(alloc, name, identifier)?;
    let view = View::new(alloc, ViewKind::OfPackage(symbol))?;
    Ok(view)
}

/// The properties of a package.
fn package_properties(
    alloc: Global,
    name: &[u8],
    identifier: &[u8],
    parent: Option<UnitKey>,
) -> Result<Properties, NoMemory>
    ensures { IfOk result (λ p. p ≡ package_properties name.now identifier.now parent) }
{
    let kind = package_view(alloc, name, identifier)?;
    let context = ContextView {
        withs: Seq::empty(alloc),
        uses: Seq::empty(alloc),
        uses_inside: Seq::empty(alloc),
        private_types: Seq::empty(alloc),
    };
    Ok(Properties {
        kind,
        parent,
        is_private: false,
        context,
        needs_body: false,
        completions: Seq::empty(alloc),
    })
}

/// The declarations of the predefined package of this name.
#[tactic(auto, unfolding(crate::specs::PredefinedUnits::declared_by))]
fn declared_by(alloc: Global, name: &[u8]) -> Result<Interface, NoMemory>
    ensures { IfOk result (λ declared. declared ≡ declared_by name.now) }
{
    match predefined_package(alloc, name)? {
        Some(declared) => Ok(declared),
        None => Ok(Interface::new(alloc)),
    }
}

/// The parts of a package that has declarations only in its visible part.
fn visible_alone(alloc: Global, visible: Interface) -> Parts
    ensures { result ≡ visible_alone visible }
{
    Parts {
        visible,
        private_part: Interface::new(alloc),
        body: Interface::new(alloc),
        stubs: Seq::empty(alloc),
    }
}

/// The interface of a package with these properties.
fn interface_of(
    alloc: Global,
    name: &[u8],
    properties: Properties,
) -> Result<UnitInterface, NoMemory>
    ensures { IfOk result (λ interface. interface ≡ interface_of properties (visible_alone (declared_by name.now))) }
{
    match declared_by(alloc, name) {
        Ok(declared) => UnitInterface::new(alloc, properties, visible_alone(alloc, declared)),
        Err(NoMemory) => {
            drop(properties);
            Err(NoMemory)
        }
    }
}

/// Adds a package.
fn push_package(
    alloc: Global,
    all: &mut Seq<Package>,
    name: &[u8],
    interface: UnitInterface,
) -> Result<(), NoMemory>
    ensures { OnOk result (all.new ≡ all.old ++ record { unit = declaration name.now; interface = interface } ∷ []) }
{
    match declaration(alloc, name) {
        Ok(unit) => {
            all.push(Package { unit, interface })?;
            Ok(())
        }
        Err(NoMemory) => {
            drop(interface);
            Err(NoMemory)
        }
    }
}

/// Adds a predefined package.
///
/// # Errors
///
/// `NoMemory` if the allocator refuses memory.
#[tactic(auto, unfolding(crate::specs::PredefinedUnits::package_of))]
pub(crate) fn add_package(
    alloc: Global,
    all: &mut Seq<Package>,
    name: &[u8],
    identifier: &[u8],
    parent: Option<UnitKey>,
) -> Result<(), NoMemory>
    ensures { OnOk result (all.new ≡ all.old ++ package_of name.now identifier.now parent ∷ []) }
{
    let properties = package_properties(alloc, name, identifier, parent)?;
    let interface = interface_of(alloc, name, properties)?;
    push_package(alloc, all, name, interface)
}
