// Whether a unit completes all that it must, and leaves to others only what it may.
ghost use Rattle.std.specs.Prelude.{◌≡◌, ◌&&◌, ◌||◌, not, IfOk, OnOk};
ghost use Rattle.std.specs.List.{flat_map, list_all};
ghost use Rattle.al_base.specs.declared.unit_key.UnitKind.TheVariants.{Decl};
ghost use Rattle.al_view.specs.Symbols.{same_kind};
ghost use Rattle.al_view.specs.ViewUses.{view_uses};
ghost use Rattle.al_view.specs.declared.link.LinkSymbol.{LinkSymbol};
ghost use Rattle.al_view_typed.specs.UnitTrees.{unit_model};
ghost use Rattle.al_unit_graph.specs.Views.{header_model};
ghost use Rattle.al_query_outcome.specs.Left.{is_of_body, own_code};
ghost use Rattle.al_query_outcome.specs.Tables.{interface_of};
ghost use Rattle.al_check_promises.specs.Links.{Gains, is_among};
ghost use Rattle.al_check_promises.specs.SelfChecks.{accounted, completing, has_main, is_complete, is_completed, leaves_rightly};
ghost use Rattle.al_check_promises.specs.Tests.{completes};

use crate::allowed::{add_defined, is_of_body, own_of};
use crate::checked::SoundUnit;
use crate::interfaces::{completions_pass, views_pass};
use crate::stubs::are_told;
use crate::{LinkSet, LinkTest, add_defines};
use al_base::{Name, NoMemory, UnitKey, UnitKind};
use al_query::Completion;
use al_query_outcome::last_of;
use al_unit_graph::Header;
use al_view::{LinkKind, Symbol, View, copied_unit};
use std::alloc::Global;

/// The links that count as completed.
struct Completing {
    links: LinkSet,
}

impl Drop for Completing {
    fn drop(self) {
        let Completing { links: _ } = self;
    }
}

impl LinkTest for Completing {
    ghost use Rattle.al_check_promises.specs.Tests.{completes};

    ghost passing = { completes };

    #[tactic(auto, unfolding(crate::specs::Tests::completes))]
    fn passes(&self, kind: LinkKind, symbol: &Symbol) -> bool {
        !is_of_body(kind) || self.links.contains(kind, symbol)
    }
}

/// Adds the links that a unit defines, and for a body the code of its stubs.
fn add_completing(set: &mut LinkSet, unit: &UnitKey, sound: &SoundUnit) -> Result<(), NoMemory>
    ensures { OnOk result (Gains set.old set.new (completing unit.now (interface_of sound.now.properties sound.now.parts) (unit_model sound.now.tree))) }
{
    match unit.kind {
        UnitKind::Body => add_defined(set, &sound.parts, &sound.tree),
        UnitKind::Decl => add_defines(set, &sound.tree),
        UnitKind::Sub => add_defines(set, &sound.tree),
    }
}

/// The links that a unit completes.
fn completing_of(alloc: Global, unit: &UnitKey, sound: &SoundUnit) -> Result<Completing, NoMemory>
    ensures { IfOk result (λ c. (x : LinkSymbol) → completes c x ≡ is_completed (completing unit.now (interface_of sound.now.properties sound.now.parts) (unit_model sound.now.tree)) x) }
{
    let mut links = LinkSet::new(alloc);
    add_completing(&mut links, unit, sound)?;
    Ok(Completing { links })
}

/// Whether a unit completes all links of bodies that these views show.
fn are_completed(
    alloc: Global,
    unit: &UnitKey,
    sound: &SoundUnit,
    views: &[View],
) -> Result<bool, NoMemory>
    ensures { IfOk result (λ b. b ≡ list_all (is_completed (completing unit.now (interface_of sound.now.properties sound.now.parts) (unit_model sound.now.tree))) (flat_map view_uses views.now)) }
{
    let completing = completing_of(alloc, unit, sound)?;
    Ok(views_pass(views, &completing))
}

/// Whether completions show no link that a body defines.
fn leave_nothing(alloc: Global, completions: &[Completion]) -> bool
    ensures { result ≡ list_all (λ x. not (is_of_body x.kind)) (flat_map (λ c. view_uses c.view) completions.now) }
{
    let nothing = Completing {
        links: LinkSet::new(alloc),
    };
    completions_pass(completions, &nothing)
}

/// Whether a unit is a declaration that needs a body.
fn may_leave(unit: &UnitKey, header: &Header) -> bool
    ensures { result ≡ (same_kind unit.now.kind Decl && (header_model header.now).needs_body) }
{
    matches!(unit.kind, UnitKind::Decl) && header.needs_body
}

/// Whether a unit leaves nothing to a body, unless it is a declaration that needs one.
fn leaves_rightly(alloc: Global, unit: &UnitKey, header: &Header, sound: &SoundUnit) -> bool
    ensures { result ≡ leaves_rightly unit.now (header_model header.now) (interface_of sound.now.properties sound.now.parts) }
{
    if may_leave(unit, header) {
        return true;
    }
    leave_nothing(alloc, sound.properties.completions.as_slice())
}

/// The symbol of a library unit that its own declaration declares.
fn own_symbol(alloc: Global, unit: &UnitKey) -> Result<Symbol, NoMemory>
    ensures { IfOk result (λ symbol. symbol ≡ (own_code unit.now).symbol) }
{
    let name = Name::from_slice(alloc, last_of(unit.name.as_slice()))?;
    let unit = copied_unit(alloc, unit)?;
    Ok(Symbol {
        unit,
        name,
        number: 0,
    })
}

/// Whether a unit accounts for its own code.
fn has_own_code(alloc: Global, unit: &UnitKey, sound: &SoundUnit) -> Result<bool, NoMemory>
    ensures { IfOk result (λ b. b ≡ is_among (accounted (interface_of sound.now.properties sound.now.parts) (unit_model sound.now.tree)) (own_code unit.now)) }
{
    let own = own_of(alloc, sound)?;
    let symbol = own_symbol(alloc, unit)?;
    Ok(own.contains(LinkKind::Code, &symbol))
}

/// Whether a procedure that can be the main one has its code, or leaves it to its body.
fn has_main(
    alloc: Global,
    unit: &UnitKey,
    header: &Header,
    declares: bool,
    sound: &SoundUnit,
) -> Result<bool, NoMemory>
    ensures { IfOk result (λ b. b ≡ has_main unit.now (header_model header.now) declares (interface_of sound.now.properties sound.now.parts) (unit_model sound.now.tree)) }
{
    if header.is_parameterless_procedure && declares {
        return has_own_code(alloc, unit, sound);
    }
    Ok(true)
}

/// Whether a unit with this header completes all that these views show of bodies, and leaves to its body and its subunits only what it may.
/// `declares` says whether the unit is a declaration, or a body that acts as one.
///
/// # Errors
/// `NoMemory` if the allocator refuses memory.
#[tactic(auto, unfolding(crate::specs::SelfChecks::is_complete))]
pub fn is_complete(
    alloc: Global,
    unit: &UnitKey,
    header: &Header,
    views: &[View],
    declares: bool,
    sound: &SoundUnit,
) -> Result<bool, NoMemory>
    ensures { IfOk result (λ b. b ≡ is_complete unit.now (header_model header.now) views.now declares (interface_of sound.now.properties sound.now.parts) (unit_model sound.now.tree)) }
{
    let left = leaves_rightly(alloc, unit, header, sound);
    let completed = are_completed(alloc, unit, sound, views)?;
    let answered = are_told(alloc, unit, header, sound)?;
    let main = has_main(alloc, unit, header, declares, sound)?;
    Ok(left && (completed && (answered && main)))
}
