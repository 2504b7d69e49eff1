// The place at the start of a unit's source.
ghost use Rattle.std.specs.Prelude.{◌≡◌, ◌+◌, ◌<◌, [], ◌∷◌, ◌++◌, ◌||◌, IfOk, None, OnOk, Some, drop, is_ok, length, true};
ghost use Rattle.std.specs.Option.{option_copied};
ghost use Rattle.std.specs.List.{flat_map};
ghost use Rattle.al_query.specs.Asked.{AsksOf, by_property};
ghost use Rattle.al_query.specs.Reads.{FromAnswers};
ghost use Rattle.al_scope.specs.UseClauses.{package_unit};
ghost use Rattle.al_scope.specs.UnitPlaces.{ancestor_units, asked_units, at_stub, at_stubs, continued, declaration_parts, entered_as, inward, is_package_view, library_name, outermost, own_declaration, own_parts, own_uses, sees_all, sees_at, some_private, standard_parts, standard_symbol, stub_units, symbol_at, unit_regions, view_at, view_symbol};

use crate::clauses::use_each;
use crate::own::OwnText;
use crate::parts::{continue_parts, copied_part, enter_as, property_of};
use crate::{Scope, UnitPart};
use al_base::{Name, NoMemory, UnitKey, UnitKind};
use al_query::{Answers, Property, Recorder};
use al_unit_graph::{ancestors, parent_of};
use al_view::{Part, Seq, Symbol, View, ViewKind, copied_unit};
use std::alloc::Global;

/// The declaration of that name.
/// # Errors
/// `NoMemory` if the allocator refuses memory.
pub fn declaration_of(alloc: Global, name: &[u8]) -> Result<UnitKey, NoMemory>
    ensures { IfOk result (λ unit. unit ≡ package_unit name.now) }
{
    let name = Name::from_slice(alloc, name)?;
    Ok(UnitKey {
        name,
        kind: UnitKind::Decl,
    })
}

/// The declarations of the ancestors, the farthest first. If there are none, it takes no memory.
/// # Errors
/// `NoMemory` if the allocator refuses memory.
pub fn ancestors_of(alloc: Global, name: &[u8]) -> Result<Vec<UnitKey>, NoMemory>
    ensures is { IfOk result (λ units. units.items ≡ ancestor_units name.now) }
    ensures takes_none { ancestor_units name.now ≡ [] → is_ok result ≡ true }
{
    if parent_of(name).is_none() {
        return Ok(Vec::new(alloc));
    }
    let names = ancestors(alloc, name)?;
    let mut units = Vec::new(alloc);
    for ancestor in names.as_slice() {
        let unit = declaration_of(alloc, ancestor)?;
        units.push(unit)?;
    }
    Ok(units)
}

/// Whether some of the units is private. It asks up to the first that is. Of no units it takes no memory.
fn some_are_private<A: Answers>(
    alloc: Global,
    units: &[UnitKey],
    recorder: &mut Recorder<A>,
) -> Result<bool, NoMemory>
    ensures asked { recorder.new.asked ≡ recorder.old.asked }
    ensures answered { IfOk result (λ are. FromAnswers recorder.old.log recorder.new.log (λ t. are ≡ some_private t units.now)) }
    ensures asks { IfOk result (λ _. AsksOf units.now by_property recorder.old.log recorder.new.log) }
    ensures takes_none { units.now ≡ [] → is_ok result ≡ true }
{
    for unit in units {
        let query = property_of(alloc, unit, Property::IsPrivate)?;
        let answer = recorder.ask(&query)?;
        if answer.is_private() {
            return Ok(true);
        }
    }
    Ok(false)
}

/// The parts of a declaration that are seen.
fn parts_of(alloc: Global, unit: &UnitKey, sees_private: bool) -> Result<Seq<UnitPart>, NoMemory>
    ensures { IfOk result (λ parts. parts ≡ declaration_parts unit.now sees_private) }
{
    let mut parts = Seq::empty(alloc);
    let visible = UnitPart {
        unit: copied_unit(alloc, unit)?,
        part: Part::Visible,
    };
    parts.push(visible)?;
    if !sees_private {
        return Ok(parts);
    }
    let private = UnitPart {
        unit: copied_unit(alloc, unit)?,
        part: Part::Private,
    };
    parts.push(private)?;
    Ok(parts)
}

/// Whether the private part of the unit that encloses these is seen: if it is seen anyway, or if one of them is private. If it is seen
/// anyway, or there are no such units, it takes no memory.
/// # Errors
/// `NoMemory` if the allocator refuses memory.
pub fn sees_private_part<A: Answers>(
    alloc: Global,
    sees: bool,
    nearer: &[UnitKey],
    recorder: &mut Recorder<A>,
) -> Result<bool, NoMemory>
    ensures asked { recorder.new.asked ≡ recorder.old.asked }
    ensures answered { IfOk result (λ does. FromAnswers recorder.old.log recorder.new.log (λ t. does ≡ (sees || some_private t nearer.now))) }
    ensures asks { IfOk result (λ _. AsksOf nearer.now by_property recorder.old.log recorder.new.log) }
    ensures seen { sees ≡ true → IfOk result (λ does. does ≡ true) }
    ensures takes_none { sees ≡ true → is_ok result ≡ true }
    ensures takes_none_of_none { nearer.now ≡ [] → is_ok result ≡ true }
{
    if sees {
        return Ok(true);
    }
    let are = some_are_private(alloc, nearer, recorder)?;
    Ok(are)
}

/// The symbol of the package or subprogram with that view. If there is no view, it takes no memory.
fn symbol_of(alloc: Global, view: Option<&View>) -> Result<Option<Symbol>, NoMemory>
    ensures is { IfOk result (λ symbol. symbol ≡ view_symbol (option_copied view.entry)) }
    ensures takes_none { view_symbol (option_copied view.entry) ≡ None → is_ok result ≡ true }
{
    match view {
        Some(view) => match view.kind() {
            ViewKind::OfPackage(symbol) => Ok(Some(symbol.copy(alloc)?)),
            ViewKind::OfSubprogram(subprogram) => Ok(Some(subprogram.symbol.copy(alloc)?)),
            _ => Ok(None),
        },
        None => Ok(None),
    }
}

/// Whether it is the view of a package.
fn is_package(view: Option<&View>) -> bool
    ensures { result ≡ is_package_view (option_copied view.entry) }
{
    match view {
        Some(view) => matches!(view.kind(), ViewKind::OfPackage(_)),
        None => false,
    }
}

/// The symbol of the unit, by its own view.
/// # Errors
/// `NoMemory` if the allocator refuses memory.
pub fn symbol_from<A: Answers>(
    alloc: Global,
    unit: &UnitKey,
    recorder: &mut Recorder<A>,
) -> Result<Option<Symbol>, NoMemory>
    ensures asked { recorder.new.asked ≡ recorder.old.asked }
    ensures answered { IfOk result (λ symbol. FromAnswers recorder.old.log recorder.new.log (λ t. symbol ≡ symbol_at t unit.now)) }
    ensures asks { IfOk result (λ _. AsksOf (unit.now ∷ []) by_property recorder.old.log recorder.new.log) }
{
    let query = property_of(alloc, unit, Property::Kind)?;
    let answer = recorder.ask(&query)?;
    let symbol = symbol_of(alloc, answer.own_view())?;
    Ok(symbol)
}

/// Enters the region of an ancestor; these other ancestors are nearer to the unit.
fn enter_ancestor<A: Answers>(
    alloc: Global,
    scope: &mut Scope,
    unit: &UnitKey,
    sees: bool,
    nearer: &[UnitKey],
    recorder: &mut Recorder<A>,
) -> Result<(), NoMemory>
    ensures asked { recorder.new.asked ≡ recorder.old.asked }
    ensures answered { IfOk result (λ _. FromAnswers recorder.old.log recorder.new.log (λ t. scope.new.regions ≡ continued t (symbol_at t unit.now) (declaration_parts unit.now (sees || some_private t nearer.now)) (declaration_parts unit.now (sees || some_private t nearer.now)) scope.old.regions)) }
    ensures asks { IfOk result (λ _. AsksOf (unit.now ∷ nearer.now) by_property recorder.old.log recorder.new.log) }
    ensures mentioned { scope.new.mentioned ≡ scope.old.mentioned }
{
    let sees_private = sees_private_part(alloc, sees, nearer, recorder)?;
    let symbol = symbol_from(alloc, unit, recorder)?;
    let parts = parts_of(alloc, unit, sees_private)?;
    let parts = parts.as_slice();
    continue_parts(alloc, scope, symbol, parts, parts, recorder)?;
    Ok(())
}

/// The units after the i-th.
pub fn nearer_than(units: &[UnitKey], i: usize) -> &[UnitKey]
    requires { i < length units.now }
    ensures { result.now ≡ drop (i + 1) units.now }
{
    &units[i + 1..]
}

/// Enters the regions of the ancestors, the farthest first. Of no ancestors it takes no memory.
fn enter_ancestors<A: Answers>(
    alloc: Global,
    scope: &mut Scope,
    units: &[UnitKey],
    sees: bool,
    recorder: &mut Recorder<A>,
) -> Result<(), NoMemory>
    ensures asked { recorder.new.asked ≡ recorder.old.asked }
    ensures answered { IfOk result (λ _. FromAnswers recorder.old.log recorder.new.log (λ t. scope.new.regions ≡ inward t sees units.now scope.old.regions)) }
    ensures asks { IfOk result (λ _. AsksOf units.now by_property recorder.old.log recorder.new.log) }
    ensures mentioned { scope.new.mentioned ≡ scope.old.mentioned }
    ensures takes_none { units.now ≡ [] → is_ok result ≡ true }
{
    for i in 0..units.len() {
        let unit = &units[i];
        let nearer = nearer_than(units, i);
        enter_ancestor(alloc, scope, unit, sees, nearer, recorder)?;
    }
    Ok(())
}

/// Enters the region of Standard.
fn enter_standard(alloc: Global, scope: &mut Scope) -> Result<(), NoMemory>
    ensures regions { IfOk result (λ _. scope.new.regions ≡ scope.old.regions ++ entered_as (Some standard_symbol) standard_parts scope.old.regions ∷ []) }
    ensures mentioned { scope.new.mentioned ≡ scope.old.mentioned }
{
    let unit = declaration_of(alloc, b"standard".as_slice())?;
    let parts = parts_of(alloc, &unit, false)?;
    let name = Name::from_slice(alloc, b"standard")?;
    let symbol = Symbol {
        unit,
        name,
        number: 0,
    };
    enter_as(scope, Some(symbol), parts)?;
    Ok(())
}

/// The parts that the region of a unit continues. If there are none, it takes no memory.
fn own_parts_of(alloc: Global, unit: &UnitKey, is_package: bool) -> Result<Seq<UnitPart>, NoMemory>
    ensures is { IfOk result (λ parts. parts ≡ own_parts unit.now is_package) }
    ensures takes_none { own_parts unit.now is_package ≡ [] → is_ok result ≡ true }
{
    if !matches!(unit.kind, UnitKind::Body) || !is_package {
        return Ok(Seq::empty(alloc));
    }
    let declaration = declaration_of(alloc, unit.name.as_slice())?;
    let parts = parts_of(alloc, &declaration, true)?;
    Ok(parts)
}

/// The parts whose use clauses hold in the region of a unit. If there are none, it takes no memory.
fn own_uses_of(alloc: Global, unit: &UnitKey, is_package: bool) -> Result<Seq<UnitPart>, NoMemory>
    ensures is { IfOk result (λ parts. parts ≡ own_uses unit.now is_package) }
    ensures takes_none { own_uses unit.now is_package ≡ [] → is_ok result ≡ true }
{
    if !matches!(unit.kind, UnitKind::Body) {
        return Ok(Seq::empty(alloc));
    }
    let declaration = declaration_of(alloc, unit.name.as_slice())?;
    let parts = parts_of(alloc, &declaration, is_package)?;
    Ok(parts)
}

/// The parts that the region of the body at a stub continues: its own, and those at the stub.
fn stub_parts_of(
    alloc: Global,
    stub: &UnitPart,
    is_package: bool,
) -> Result<Seq<UnitPart>, NoMemory>
    ensures { IfOk result (λ parts. parts ≡ own_parts stub.now.unit is_package ++ stub.now ∷ []) }
{
    let mut parts = own_parts_of(alloc, &stub.unit, is_package)?;
    let continued = copied_part(alloc, stub)?;
    parts.push(continued)?;
    Ok(parts)
}

/// The parts whose use clauses hold in the region of the body at a stub.
fn stub_uses_of(alloc: Global, stub: &UnitPart, is_package: bool) -> Result<Seq<UnitPart>, NoMemory>
    ensures { IfOk result (λ parts. parts ≡ own_uses stub.now.unit is_package ++ stub.now ∷ []) }
{
    let mut used = own_uses_of(alloc, &stub.unit, is_package)?;
    let answered = copied_part(alloc, stub)?;
    used.push(answered)?;
    Ok(used)
}

/// Enters the region of a body at a stub. Its own view is given.
fn enter_at<A: Answers>(
    alloc: Global,
    scope: &mut Scope,
    stub: &UnitPart,
    view: Option<&View>,
    recorder: &mut Recorder<A>,
) -> Result<(), NoMemory>
    ensures asked { recorder.new.asked ≡ recorder.old.asked }
    ensures answered { IfOk result (λ _. FromAnswers recorder.old.log recorder.new.log (λ t. scope.new.regions ≡ at_stub t stub.now (option_copied view.entry) scope.old.regions)) }
    ensures asks { IfOk result (λ _. AsksOf (stub_units stub.now) by_property recorder.old.log recorder.new.log) }
    ensures mentioned { scope.new.mentioned ≡ scope.old.mentioned }
{
    let packaged = is_package(view);
    let symbol = symbol_of(alloc, view)?;
    let parts = stub_parts_of(alloc, stub, packaged)?;
    let used = stub_uses_of(alloc, stub, packaged)?;
    continue_parts(
        alloc,
        scope,
        symbol,
        parts.as_slice(),
        used.as_slice(),
        recorder,
    )?;
    Ok(())
}

/// Enters the region of a body at a stub.
fn enter_stub<A: Answers>(
    alloc: Global,
    scope: &mut Scope,
    stub: &UnitPart,
    recorder: &mut Recorder<A>,
) -> Result<(), NoMemory>
    ensures asked { recorder.new.asked ≡ recorder.old.asked }
    ensures answered { IfOk result (λ _. FromAnswers recorder.old.log recorder.new.log (λ t. scope.new.regions ≡ at_stub t stub.now (view_at t stub.now.unit) scope.old.regions)) }
    ensures asks { IfOk result (λ _. AsksOf (stub_units stub.now) by_property recorder.old.log recorder.new.log) }
    ensures mentioned { scope.new.mentioned ≡ scope.old.mentioned }
{
    let query = property_of(alloc, &stub.unit, Property::Kind)?;
    let answer = recorder.ask(&query)?;
    enter_at(alloc, scope, stub, answer.own_view(), recorder)?;
    Ok(())
}

/// Enters the regions of the bodies round a subunit at their stubs, outermost first. At no stubs it takes no memory.
fn enter_stubs<A: Answers>(
    alloc: Global,
    scope: &mut Scope,
    stubs: &[UnitPart],
    recorder: &mut Recorder<A>,
) -> Result<(), NoMemory>
    ensures asked { recorder.new.asked ≡ recorder.old.asked }
    ensures answered { IfOk result (λ _. FromAnswers recorder.old.log recorder.new.log (λ t. scope.new.regions ≡ at_stubs t stubs.now scope.old.regions)) }
    ensures asks { IfOk result (λ _. AsksOf (flat_map stub_units stubs.now) by_property recorder.old.log recorder.new.log) }
    ensures mentioned { scope.new.mentioned ≡ scope.old.mentioned }
    ensures takes_none { stubs.now ≡ [] → is_ok result ≡ true }
{
    for stub in stubs {
        enter_stub(alloc, scope, stub, recorder)?;
    }
    Ok(())
}

/// The name of the library unit whose body has the outermost stub. If there is no stub, this name.
fn outermost<'a>(name: &'a [u8], stubs: &'a [UnitPart]) -> &'a [u8]
    ensures { result.now ≡ outermost name.now stubs.now }
{
    match stubs {
        [stub, ..] => stub.unit.name.as_slice(),
        [] => name,
    }
}

/// The name of the library unit. For a subunit that is the unit whose body it is part of.
pub fn library_name_of(own: &OwnText) -> &[u8]
    ensures { result.now ≡ library_name own.now }
{
    outermost(own.unit.name.as_slice(), own.stubs.as_slice())
}

/// Whether the place sees the ancestors' private parts, whatever the ancestors are.
fn sees_all_parts(own: &OwnText) -> bool
    ensures { result ≡ sees_all own.now }
{
    own.is_private
        || matches!(own.unit.kind, UnitKind::Sub)
        || (matches!(own.unit.kind, UnitKind::Body)
            && (own.is_package || matches!(own.symbol.unit.kind, UnitKind::Decl)))
}

/// Adds the declaration of a library unit's body. For another unit it takes no memory.
/// # Errors
/// `NoMemory` if the allocator refuses memory.
pub fn add_declaration(
    alloc: Global,
    unit: &UnitKey,
    units: &mut Vec<UnitKey>,
) -> Result<(), NoMemory>
    ensures is { OnOk result (units.new.items ≡ units.old.items ++ own_declaration unit.now) }
    ensures takes_none { own_declaration unit.now ≡ [] → is_ok result ≡ true }
{
    if !matches!(unit.kind, UnitKind::Body) {
        return Ok(());
    }
    let declaration = declaration_of(alloc, unit.name.as_slice())?;
    units.push(declaration)?;
    Ok(())
}

/// Whether the place at the start of the source sees the ancestors' private parts. If the unit isn't a library unit's body, it takes no
/// memory.
/// # Errors
/// `NoMemory` if the allocator refuses memory.
pub fn sees_private_parts<A: Answers>(
    alloc: Global,
    own: &OwnText,
    recorder: &mut Recorder<A>,
) -> Result<bool, NoMemory>
    ensures asked { recorder.new.asked ≡ recorder.old.asked }
    ensures answered { IfOk result (λ sees. FromAnswers recorder.old.log recorder.new.log (λ t. sees ≡ sees_at t own.now)) }
    ensures asks { IfOk result (λ _. AsksOf (own_declaration own.now.unit) by_property recorder.old.log recorder.new.log) }
    ensures takes_none { own_declaration own.now.unit ≡ [] → is_ok result ≡ true }
{
    let mut units = Vec::new(alloc);
    add_declaration(alloc, &own.unit, &mut units)?;
    let sees = sees_private_part(alloc, sees_all_parts(own), units.as_slice(), recorder)?;
    Ok(sees)
}

/// Enters the unit's own region.
fn enter_own<A: Answers>(
    alloc: Global,
    scope: &mut Scope,
    own: &OwnText,
    recorder: &mut Recorder<A>,
) -> Result<(), NoMemory>
    ensures asked { recorder.new.asked ≡ recorder.old.asked }
    ensures answered { IfOk result (λ _. FromAnswers recorder.old.log recorder.new.log (λ t. scope.new.regions ≡ continued t (Some own.now.symbol) (own_parts own.now.unit own.now.is_package) (own_uses own.now.unit own.now.is_package) scope.old.regions)) }
    ensures asks { IfOk result (λ _. AsksOf (own_declaration own.now.unit) by_property recorder.old.log recorder.new.log) }
    ensures depth { IfOk result (λ _. length scope.new.regions ≡ length scope.old.regions + 1) }
    ensures mentioned { scope.new.mentioned ≡ scope.old.mentioned }
{
    let symbol = own.symbol.copy(alloc)?;
    let parts = own_parts_of(alloc, &own.unit, own.is_package)?;
    let used = own_uses_of(alloc, &own.unit, own.is_package)?;
    continue_parts(
        alloc,
        scope,
        Some(symbol),
        parts.as_slice(),
        used.as_slice(),
        recorder,
    )?;
    Ok(())
}

/// Enters Standard's region and the ancestors'.
fn enter_round<A: Answers>(
    alloc: Global,
    scope: &mut Scope,
    own: &OwnText,
    recorder: &mut Recorder<A>,
) -> Result<(), NoMemory>
    ensures asked { recorder.new.asked ≡ recorder.old.asked }
    ensures answered { IfOk result (λ _. FromAnswers recorder.old.log recorder.new.log (λ t. scope.new.regions ≡ inward t (sees_at t own.now) (ancestor_units (library_name own.now)) (scope.old.regions ++ entered_as (Some standard_symbol) standard_parts scope.old.regions ∷ []))) }
    ensures asks { IfOk result (λ _. AsksOf (asked_units own.now) by_property recorder.old.log recorder.new.log) }
    ensures mentioned { scope.new.mentioned ≡ scope.old.mentioned }
{
    enter_standard(alloc, scope)?;
    let units = ancestors_of(alloc, library_name_of(own))?;
    let sees = sees_private_parts(alloc, own, recorder)?;
    enter_ancestors(alloc, scope, units.as_slice(), sees, recorder)?;
    Ok(())
}

/// Enters the regions round the start of a unit's source: Standard's, the ancestors', for a subunit those of the bodies round it at their
/// stubs, and its own (ARM 8.1, 10.1.1, 10.1.3(8)), with the use clauses that hold there (ARM 8.4(6, 7)). Only other units are asked: the
/// ancestors, the bodies round a subunit, and the declarations of bodies.
/// # Errors
/// `NoMemory` if the allocator refuses memory.
pub fn enter_unit<A: Answers>(
    alloc: Global,
    scope: &mut Scope,
    own: &OwnText,
    recorder: &mut Recorder<A>,
) -> Result<(), NoMemory>
    ensures asked { recorder.new.asked ≡ recorder.old.asked }
    ensures answered { IfOk result (λ _. FromAnswers recorder.old.log recorder.new.log (λ t. scope.new.regions ≡ unit_regions t own.now scope.old.regions)) }
    ensures asks { IfOk result (λ _. AsksOf (asked_units own.now) by_property recorder.old.log recorder.new.log) }
    ensures mentioned { scope.new.mentioned ≡ scope.old.mentioned }
{
    enter_round(alloc, scope, own, recorder)?;
    enter_stubs(alloc, scope, own.stubs.as_slice(), recorder)?;
    enter_own(alloc, scope, own, recorder)?;
    use_each(alloc, scope, own.uses.as_slice())?;
    Ok(())
}
