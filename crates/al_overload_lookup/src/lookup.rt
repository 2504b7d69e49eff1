// The names in an expression, looked up at its place.
ghost use Rattle.std.specs.Prelude.{◌≡◌, IfOk, OnOk};
ghost use Rattle.al_overload_lookup.specs.Lookups.{asked_units, found, is_new, looked_up, names_at, with_prefixed, with_visible};
ghost use Rattle.al_query.specs.Asked.{AsksOf, by_some_name};
ghost use Rattle.al_query.specs.Reads.{FromAnswers};
ghost use Rattle.al_scope.specs.Places.{place_units};
ghost use Rattle.al_tree.specs.ExpressionViews.{expression_model};

use crate::name::TextName;
use crate::pieces::look_up_pieces;
use crate::select::{add_each, add_views};
use crate::text::pieces_in;
use crate::{Names, dotted, is_none};
use al_base::{NoMemory, UnitKey};
use al_query::{Answers, Recorder};
use al_scope::{Scope, all_seen_at};
use al_tree::Expression;
use al_view::Views;
use std::alloc::Global;

/// All that is visible under a name.
fn find_visible<A: Answers>(
    alloc: Global,
    scope: &Scope,
    names: &mut Names,
    name: &[u8],
    recorder: &mut Recorder<A>,
) -> Result<(), NoMemory>
    ensures asked { recorder.new.asked ≡ recorder.old.asked }
    ensures answered { OnOk result (FromAnswers recorder.old.log recorder.new.log (λ t. names.new ≡ with_visible t scope.now name.now names.old)) }
    ensures asks { OnOk result (AsksOf (place_units scope.now) by_some_name recorder.old.log recorder.new.log) }
{
    let found = scope.visible(name, recorder)?;
    let found = all_seen_at(alloc, scope, found.as_slice(), recorder)?;
    add_views(&mut names.visible, name, found.as_slice())?;
    Ok(())
}

/// What is selected after a name.
fn find_selected<A: Answers>(
    alloc: Global,
    scope: &Scope,
    packages: &[UnitKey],
    names: &mut Names,
    prefix: &[u8],
    name: &[u8],
    recorder: &mut Recorder<A>,
) -> Result<(), NoMemory>
    ensures asked { recorder.new.asked ≡ recorder.old.asked }
    ensures answered { OnOk result (FromAnswers recorder.old.log recorder.new.log (λ t. names.new ≡ with_prefixed t scope.now packages.now prefix.now name.now names.old)) }
    ensures asks { OnOk result (AsksOf (asked_units scope.now packages.now) by_some_name recorder.old.log recorder.new.log) }
{
    let key = dotted(alloc, prefix, name)?;
    let mut views = Views::new(alloc);
    views.append(names.visible.views(prefix))?;
    let (key, views) = (key.as_slice(), views.as_slice());
    add_each(alloc, scope, packages, names, key, name, views, recorder)?;
    Ok(())
}

/// Whether the name wasn't found yet.
fn is_new(alloc: Global, names: &Names, of: &TextName) -> Result<bool, NoMemory>
    ensures { IfOk result (λ new. new ≡ is_new names.now of.now) }
{
    match of {
        TextName::Simple(name) => Ok(is_none(names.visible.views(name.as_slice()))),
        TextName::Selected { prefix, name } => {
            let key = dotted(alloc, prefix.as_slice(), name.as_slice())?;
            Ok(is_none(names.prefixes.views(key.as_slice())))
        }
    }
}

/// Finds what a name denotes.
fn find<A: Answers>(
    alloc: Global,
    scope: &Scope,
    packages: &[UnitKey],
    names: &mut Names,
    of: &TextName,
    recorder: &mut Recorder<A>,
) -> Result<(), NoMemory>
    ensures asked { recorder.new.asked ≡ recorder.old.asked }
    ensures answered { OnOk result (FromAnswers recorder.old.log recorder.new.log (λ t. names.new ≡ found t scope.now packages.now names.old of.now)) }
    ensures asks { OnOk result (AsksOf (asked_units scope.now packages.now) by_some_name recorder.old.log recorder.new.log) }
{
    match of {
        TextName::Simple(name) => {
            find_visible(alloc, scope, names, name.as_slice(), recorder)?;
            Ok(())
        }
        TextName::Selected { prefix, name } => {
            let (prefix, name) = (prefix.as_slice(), name.as_slice());
            find_selected(alloc, scope, packages, names, prefix, name, recorder)?;
            Ok(())
        }
    }
}

/// Looks one name up, unless it was found already.
#[tactic(auto, unfolding(crate::specs::Lookups::looked_up))]
pub(crate) fn look_up<A: Answers>(
    alloc: Global,
    scope: &Scope,
    packages: &[UnitKey],
    names: &mut Names,
    of: &TextName,
    recorder: &mut Recorder<A>,
) -> Result<(), NoMemory>
    ensures asked { recorder.new.asked ≡ recorder.old.asked }
    ensures answered { OnOk result (FromAnswers recorder.old.log recorder.new.log (λ t. names.new ≡ looked_up t scope.now packages.now names.old of.now)) }
    ensures asks { OnOk result (AsksOf (asked_units scope.now packages.now) by_some_name recorder.old.log recorder.new.log) }
{
    if is_new(alloc, names, of)? {
        find(alloc, scope, packages, names, of, recorder)?;
        return Ok(());
    }
    Ok(())
}

/// What the names in an expression denote at its place, if these packages are mentioned.
/// # Errors
/// `NoMemory` if the allocator refuses memory.
pub fn names<A: Answers>(
    alloc: Global,
    scope: &Scope,
    packages: &[UnitKey],
    expression: &Expression,
    recorder: &mut Recorder<A>,
) -> Result<Names, NoMemory>
    ensures asked { recorder.new.asked ≡ recorder.old.asked }
    ensures answered { IfOk result (λ names. FromAnswers recorder.old.log recorder.new.log (λ t. names ≡ names_at t scope.now packages.now (expression_model expression.now))) }
    ensures asks { IfOk result (λ _. AsksOf (asked_units scope.now packages.now) by_some_name recorder.old.log recorder.new.log) }
{
    let pieces = pieces_in(alloc, expression)?;
    let names = look_up_pieces(alloc, scope, packages, &pieces, recorder)?;
    Ok(names)
}
