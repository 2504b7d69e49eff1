// What follows a declaration with an error.
ghost use Rattle.std.specs.Prelude.{◌≡◌, option_map, IfOk, OnOk};
ghost use Rattle.al_decl.specs.Checking.{at_place};
ghost use Rattle.al_base_fault.specs.Judging.{map_ok};
ghost use Rattle.al_view_typed.specs.DeclarationTrees.{declaration_model};
ghost use Rattle.al_stmts.specs.Views.{effects_model};
ghost use Rattle.al_check_here.specs.Faulty.{effect_list, effect_settled, ended, nothing_taken, nowhere};

use crate::state::CheckState;
use al_base::{NoMemory, UnitKey};
use al_base_fault::CheckResult;
use al_decl::Environment;
use al_decl_judged::{Homonyms, Progress, Uncompleted, Words};
use al_scope::Scope;
use al_view::{Interface, Seq, copied_unit};
use al_view_typed::TypedDeclaration;
use std::alloc::Global;

/// The counters of a unit in which no word, object or flag is taken.
fn nothing_taken(alloc: Global, unit: &UnitKey) -> Result<Progress, NoMemory>
    ensures { IfOk result (λ progress. progress ≡ nothing_taken unit.now) }
{
    let unit = copied_unit(alloc, unit)?;
    Ok(Progress {
        unit,
        depth: 0,
        words: Words { frame: 3, data: 0 },
        homonyms: Homonyms::new(alloc),
        objects: Seq::empty(alloc),
        flags: Seq::empty(alloc),
        protected_objects: Seq::empty(alloc),
    })
}

/// The environment outside of all regions.
fn nowhere(alloc: Global, unit: &UnitKey) -> Result<Environment, NoMemory>
    ensures { IfOk result (λ env. env ≡ nowhere unit.now) }
{
    let progress = nothing_taken(alloc, unit)?;
    Ok(Environment {
        scope: Scope::new(alloc),
        progress,
        uncompleted: Uncompleted::new(alloc),
        declared: Interface::new(alloc),
    })
}

/// Ends the list of errors: the state's environment is left empty, as nothing looks at it any more.
///
/// # Errors
/// `NoMemory` if the allocator refuses memory.
pub fn end_list(alloc: Global, state: &mut CheckState) -> Result<(), NoMemory>
    ensures { OnOk result (state.new ≡ ended state.old) }
{
    state.env = nowhere(alloc, &state.unit.own.unit)?;
    Ok(())
}

/// The effect of a declaration as a list: one item, or none if the declaration does nothing at run time.
///
/// # Errors
/// `NoMemory` if the allocator refuses memory.
pub fn effect_list(
    alloc: Global,
    effect: Option<TypedDeclaration>,
) -> Result<Vec<TypedDeclaration>, NoMemory>
    ensures { IfOk result (λ effects. effects_model effects ≡ effect_list (option_map declaration_model effect)) }
{
    let mut effects = Vec::new(alloc);
    match effect {
        Some(effect) => {
            effects.push(effect)?;
            Ok(effects)
        }
        None => Ok(effects),
    }
}

/// Takes the result of a declaration that was judged: a right one gives its effects, and an error ends the list.
///
/// # Errors
/// `NoMemory` if the allocator refuses memory.
pub fn settle_effect(
    alloc: Global,
    state: &mut CheckState,
    checked: CheckResult<Option<TypedDeclaration>>,
) -> Result<CheckResult<Vec<TypedDeclaration>>, NoMemory>
    ensures { IfOk result (λ effects. (state.new, map_ok effects_model effects) ≡ effect_settled state.old (at_place state.old.env (map_ok (option_map declaration_model) checked))) }
{
    match checked {
        Ok(effect) => match effect_list(alloc, effect) {
            Ok(effects) => Ok(Ok(effects)),
            Err(none) => Err(none),
        },
        Err(fault) => {
            end_list(alloc, state)?;
            Ok(Err(fault))
        }
    }
}
