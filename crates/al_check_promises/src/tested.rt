// The tests of a unit without errors.
ghost use Rattle.std.specs.Prelude.{◌≡◌, ◌&&◌, IfOk};
ghost use Rattle.std.specs.List.{list_all};
ghost use Rattle.al_view.specs.declared.link.LinkSymbol.{LinkSymbol};
ghost use Rattle.al_view_typed.specs.UnitTrees.{unit_model};
ghost use Rattle.al_view_typed.specs.Uses.{unit_uses};
ghost use Rattle.al_query_outcome.specs.Tables.{interface_of};
ghost use Rattle.al_check_promises.specs.Parts.{part_uses, property_uses};
ghost use Rattle.al_check_promises.specs.Rules.{permits};
ghost use Rattle.al_check_promises.specs.SelfChecks.{defined, is_declared, is_kept, left_shown};
ghost use Rattle.al_check_promises.specs.Tests.{declares};

use crate::allowed::{allowed_of, defined_of, is_of_body};
use crate::checked::SoundUnit;
use crate::code::has_code;
use crate::interfaces::{completions_pass, parts_pass, properties_pass};
use crate::{LinkRule, LinkSet, LinkTest, uses_pass};
use al_base::{NoMemory, UnitKey};
use al_view::{LinkKind, Symbol, View};
use std::alloc::Global;

/// Whether a unit uses and shows only links that are allowed.
fn links_allowed(allowed: &LinkRule, sound: &SoundUnit) -> bool
    ensures { result ≡ ((list_all (permits allowed.now) (unit_uses (unit_model sound.now.tree)) && list_all (permits allowed.now) (property_uses sound.now.properties)) && list_all (permits allowed.now) (part_uses sound.now.parts)) }
{
    uses_pass(&sound.tree, allowed)
        && properties_pass(&sound.properties, allowed)
        && parts_pass(&sound.parts, allowed)
}

/// The links that a unit itself defines.
struct Declared {
    links: LinkSet,
}

impl Drop for Declared {
    fn drop(self) {
        let Declared { links: _ } = self;
    }
}

impl LinkTest for Declared {
    ghost use Rattle.al_check_promises.specs.Tests.{declares};

    ghost passing = { declares };

    #[tactic(auto, unfolding(crate::specs::Tests::declares))]
    fn passes(&self, kind: LinkKind, symbol: &Symbol) -> bool {
        is_of_body(kind) || self.links.contains(kind, symbol)
    }
}

fn declared_of(alloc: Global, sound: &SoundUnit) -> Result<Declared, NoMemory>
    ensures { IfOk result (λ d. (x : LinkSymbol) → declares d x ≡ is_declared (defined (interface_of sound.now.properties sound.now.parts) (unit_model sound.now.tree)) x) }
{
    let links = defined_of(alloc, sound)?;
    Ok(Declared { links })
}

/// Whether a unit defines all that its completions show, except what bodies define.
fn declares_left(alloc: Global, sound: &SoundUnit) -> Result<bool, NoMemory>
    ensures { IfOk result (λ b. b ≡ list_all (is_declared (defined (interface_of sound.now.properties sound.now.parts) (unit_model sound.now.tree))) (left_shown (interface_of sound.now.properties sound.now.parts))) }
{
    let declared = declared_of(alloc, sound)?;
    Ok(completions_pass(sound.properties.completions.as_slice(), &declared))
}

fn all_hold(links: bool, declared: bool, code: bool) -> bool
    ensures { result ≡ (links && (declared && code)) }
{
    links && (declared && code)
}

/// Whether a unit without errors is what the check promises, if the check was shown these views.
///
/// # Errors
/// `NoMemory` if the allocator refuses memory.
pub fn is_kept(
    alloc: Global,
    unit: &UnitKey,
    shown: &[View],
    sound: &SoundUnit,
) -> Result<bool, NoMemory>
    ensures { IfOk result (λ b. b ≡ is_kept unit.now shown.now (interface_of sound.now.properties sound.now.parts) (unit_model sound.now.tree)) }
{
    let allowed = allowed_of(alloc, unit, shown, sound)?;
    let links = links_allowed(&allowed, sound);
    let declared = declares_left(alloc, sound)?;
    let code = has_code(unit, &sound.tree);
    Ok(all_hold(links, declared, code))
}
