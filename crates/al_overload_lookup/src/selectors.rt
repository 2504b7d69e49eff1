// A name of several identifiers, looked up at its place as far as something is visible (ARM 4.1.3).
ghost use Rattle.std.specs.Prelude.{◌≡◌, ◌++◌, IfOk, OnOk, map};
ghost use Rattle.al_overload_lookup.specs.Keys.{dotted};
ghost use Rattle.al_overload_lookup.specs.Lookups.{asked_units, looked_up, looked_up_all, nothing_found};
ghost use Rattle.al_overload_lookup.specs.TextNames.{identifier_names};
ghost use Rattle.al_overload_lookup.specs.declared.name.TextName.TheVariants.{Simple, Selected};
ghost use Rattle.al_query.specs.Asked.{AsksOf, by_some_name};
ghost use Rattle.al_query.specs.Reads.{FromAnswers};
ghost use Rattle.al_tree.specs.Lexemes.{identifier_label};

use crate::lookup::look_up;
use crate::name::TextName;
use crate::{Names, is_none};
use al_base::{Name, NoMemory, UnitKey};
use al_query::{Answers, Recorder};
use al_scope::Scope;
use al_tree::Identifier;
use al_view::Interface;
use std::alloc::Global;

/// The state before anything is found.
pub(crate) fn nothing_found(alloc: Global) -> Names
    ensures { result ≡ nothing_found }
{
    Names {
        visible: Interface::new(alloc),
        prefixes: Interface::new(alloc),
    }
}

/// An identifier by itself.
fn simple_name(alloc: Global, identifier: &Identifier) -> Result<TextName, NoMemory>
    ensures { IfOk result (λ of. of ≡ Simple (identifier_label identifier.now).text) }
{
    let name = Name::from_slice(alloc, identifier.name.as_slice())?;
    Ok(TextName::Simple(name))
}

/// Looks up the first identifier, and begins the key of what is selected in it.
fn look_up_first<A: Answers>(
    alloc: Global,
    scope: &Scope,
    packages: &[UnitKey],
    names: &mut Names,
    key: &mut Vec<u8>,
    identifier: &Identifier,
    recorder: &mut Recorder<A>,
) -> Result<(), NoMemory>
    ensures asked { recorder.new.asked ≡ recorder.old.asked }
    ensures key { OnOk result (key.new.items ≡ key.old.items ++ (identifier_label identifier.now).text) }
    ensures answered { OnOk result (FromAnswers recorder.old.log recorder.new.log (λ t. names.new ≡ looked_up t scope.now packages.now names.old (Simple (identifier_label identifier.now).text))) }
    ensures asks { OnOk result (AsksOf (asked_units scope.now packages.now) by_some_name recorder.old.log recorder.new.log) }
{
    key.extend_from_slice(identifier.name.as_slice())?;
    let of = simple_name(alloc, identifier)?;
    look_up(alloc, scope, packages, names, &of, recorder)?;
    Ok(())
}

/// A selector after what the key names.
fn selected_name(alloc: Global, key: &[u8], identifier: &Identifier) -> Result<TextName, NoMemory>
    ensures { IfOk result (λ of. of ≡ Selected key.now (identifier_label identifier.now).text) }
{
    let prefix = Name::from_slice(alloc, key)?;
    let name = Name::from_slice(alloc, identifier.name.as_slice())?;
    Ok(TextName::Selected { prefix, name })
}

/// Makes the key longer by a selector.
fn add_to_key(key: &mut Vec<u8>, identifier: &Identifier) -> Result<(), NoMemory>
    ensures { OnOk result (key.new.items ≡ dotted key.old.items (identifier_label identifier.now).text) }
{
    key.push(b'.')?;
    key.extend_from_slice(identifier.name.as_slice())?;
    Ok(())
}

/// Looks up what is selected in what the key names, and makes the key longer by it.
fn look_up_selector<A: Answers>(
    alloc: Global,
    scope: &Scope,
    packages: &[UnitKey],
    names: &mut Names,
    key: &mut Vec<u8>,
    identifier: &Identifier,
    recorder: &mut Recorder<A>,
) -> Result<(), NoMemory>
    ensures asked { recorder.new.asked ≡ recorder.old.asked }
    ensures key { OnOk result (key.new.items ≡ dotted key.old.items (identifier_label identifier.now).text) }
    ensures answered { OnOk result (FromAnswers recorder.old.log recorder.new.log (λ t. names.new ≡ looked_up t scope.now packages.now names.old (Selected key.old.items (identifier_label identifier.now).text))) }
    ensures asks { OnOk result (AsksOf (asked_units scope.now packages.now) by_some_name recorder.old.log recorder.new.log) }
{
    let of = selected_name(alloc, key.as_slice(), identifier)?;
    add_to_key(key, identifier)?;
    look_up(alloc, scope, packages, names, &of, recorder)?;
    Ok(())
}

/// What the names in a name of these identifiers denote at a place. If nothing is visible under a prefix of it, nothing is selected after
/// that prefix, so that no longer prefix is looked up: each would be a copy of all before it.
/// # Errors
/// `NoMemory` if the allocator refuses memory.
pub fn look_up_selected<A: Answers>(
    alloc: Global,
    scope: &Scope,
    packages: &[UnitKey],
    first: &Identifier,
    selectors: &[Identifier],
    recorder: &mut Recorder<A>,
) -> Result<Names, NoMemory>
    ensures asked { recorder.new.asked ≡ recorder.old.asked }
    ensures answered { IfOk result (λ names. FromAnswers recorder.old.log recorder.new.log (λ t. names ≡ looked_up_all t scope.now packages.now (identifier_names (identifier_label first.now) (map identifier_label selectors.now)))) }
    ensures asks { IfOk result (λ _. AsksOf (asked_units scope.now packages.now) by_some_name recorder.old.log recorder.new.log) }
{
    let mut names = nothing_found(alloc);
    let mut key = Vec::new(alloc);
    look_up_first(
        alloc, scope, packages, &mut names, &mut key, first, recorder,
    )?;
    for selector in selectors {
        if is_none(names.visible.views(key.as_slice())) {
            return Ok(names);
        }
        look_up_selector(
            alloc, scope, packages, &mut names, &mut key, selector, recorder,
        )?;
    }
    Ok(names)
}
