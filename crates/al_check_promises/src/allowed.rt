// The links that a unit may use.
ghost use Rattle.std.specs.Prelude.{◌≡◌, ◌++◌, map, IfOk, OnOk};
ghost use Rattle.std.specs.List.{flat_map};
ghost use Rattle.al_view.specs.ViewUses.{link, view_uses};
ghost use Rattle.al_view.specs.declared.link.LinkKind.TheVariants.{Code};
ghost use Rattle.al_view.specs.declared.link.LinkSymbol.{LinkSymbol};
ghost use Rattle.al_view_typed.specs.UnitTrees.{unit_model};
ghost use Rattle.al_view_typed.specs.Uses.{unit_defines};
ghost use Rattle.al_query_outcome.specs.Left.{is_of_body};
ghost use Rattle.al_query_outcome.specs.Tables.{interface_of};
ghost use Rattle.al_check_promises.specs.Links.{Gains, has_link, is_among};
ghost use Rattle.al_check_promises.specs.Rules.{permits};
ghost use Rattle.al_check_promises.specs.SelfChecks.{accounted, defined, is_allowed};

use crate::checked::SoundUnit;
use crate::{LinkRule, LinkSet, add_defines, add_shown};
use al_base::{NoMemory, UnitKey};
use al_query::Completion;
use al_query_outcome::{Parts, StubDeclarations};
use al_view::{LinkKind, View, copied_unit};
use al_view_typed::TypedUnit;
use std::alloc::Global;

/// Whether a link of this kind is defined by a body. Flags, words and protected objects are defined by the declaration.
pub(crate) fn is_of_body(kind: LinkKind) -> bool
    ensures { result ≡ is_of_body kind }
{
    match kind {
        LinkKind::Code => true,
        LinkKind::Gate => true,
        LinkKind::EntryBody => true,
        LinkKind::Flag => false,
        LinkKind::Data => false,
        LinkKind::Protected => false,
    }
}

/// Adds the links that these views show.
fn add_all_shown(set: &mut LinkSet, views: &[View]) -> Result<(), NoMemory>
    ensures { OnOk result (Gains set.old set.new (flat_map view_uses views.now)) }
{
    for view in views {
        add_shown(set, view)?;
    }
    Ok(())
}

/// Adds the links that these completions show.
fn add_completions(set: &mut LinkSet, completions: &[Completion]) -> Result<(), NoMemory>
    ensures { OnOk result (Gains set.old set.new (flat_map (λ c. view_uses c.view) completions.now)) }
{
    for completion in completions {
        add_shown(set, &completion.view)?;
    }
    Ok(())
}

/// Adds the code that these stubs stand for.
fn add_stubs(set: &mut LinkSet, stubs: &[StubDeclarations]) -> Result<(), NoMemory>
    ensures { OnOk result (Gains set.old set.new (map (λ s. link Code s.symbol) stubs.now)) }
{
    for stub in stubs {
        set.insert(LinkKind::Code, &stub.symbol)?;
    }
    Ok(())
}

/// Adds the links that a unit defines, and the code of its stubs.
#[tactic(auto, using(crate::proofs::Gained::gains_both))]
pub(crate) fn add_defined(
    set: &mut LinkSet,
    parts: &Parts,
    tree: &TypedUnit,
) -> Result<(), NoMemory>
    ensures { OnOk result (Gains set.old set.new (unit_defines (unit_model tree.now) ++ map (λ s. link Code s.symbol) parts.now.stubs)) }
{
    add_defines(set, tree)?;
    add_stubs(set, parts.stubs.as_slice())
}

/// Adds the links that a unit accounts for: it defines them, leaves them to its body, or has a stub for them.
#[tactic(auto, using(crate::proofs::Gained::gains_both))]
fn add_accounted(set: &mut LinkSet, sound: &SoundUnit) -> Result<(), NoMemory>
    ensures { OnOk result (Gains set.old set.new (accounted (interface_of sound.now.properties sound.now.parts) (unit_model sound.now.tree))) }
{
    add_defined(set, &sound.parts, &sound.tree)?;
    add_completions(set, sound.properties.completions.as_slice())
}

/// The links that a unit defines, and the code of its stubs.
pub(crate) fn defined_of(alloc: Global, sound: &SoundUnit) -> Result<LinkSet, NoMemory>
    ensures { IfOk result (λ own. (x : LinkSymbol) → has_link own x ≡ is_among (defined (interface_of sound.now.properties sound.now.parts) (unit_model sound.now.tree)) x) }
{
    let mut own = LinkSet::new(alloc);
    add_defined(&mut own, &sound.parts, &sound.tree)?;
    Ok(own)
}

/// The links that a unit accounts for: it defines them, leaves them to its body, or has a stub for them.
pub(crate) fn own_of(alloc: Global, sound: &SoundUnit) -> Result<LinkSet, NoMemory>
    ensures { IfOk result (λ own. (x : LinkSymbol) → has_link own x ≡ is_among (accounted (interface_of sound.now.properties sound.now.parts) (unit_model sound.now.tree)) x) }
{
    let mut own = LinkSet::new(alloc);
    add_accounted(&mut own, sound)?;
    Ok(own)
}

/// The links that these views show.
pub(crate) fn shown_of(alloc: Global, views: &[View]) -> Result<LinkSet, NoMemory>
    ensures { IfOk result (λ shown. (x : LinkSymbol) → has_link shown x ≡ is_among (flat_map view_uses views.now) x) }
{
    let mut shown = LinkSet::new(alloc);
    add_all_shown(&mut shown, views)?;
    Ok(shown)
}

/// The links that a unit may use if it was shown these views.
pub(crate) fn allowed_of(
    alloc: Global,
    unit: &UnitKey,
    shown: &[View],
    sound: &SoundUnit,
) -> Result<LinkRule, NoMemory>
    ensures { IfOk result (λ a. (x : LinkSymbol) → permits a x ≡ is_allowed unit.now (flat_map view_uses shown.now) (accounted (interface_of sound.now.properties sound.now.parts) (unit_model sound.now.tree)) x) }
{
    let own = own_of(alloc, sound)?;
    let others = shown_of(alloc, shown)?;
    let unit = copied_unit(alloc, unit)?;
    Ok(LinkRule { unit, own, others })
}
