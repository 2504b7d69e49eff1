// The end of a declaration, at which its names become visible (ARM 8.3(16)).
ghost use Rattle.std.specs.Prelude.{◌≡◌, ◌<◌, length, option_map, IfOk, OnOk};
ghost use Rattle.al_decl.specs.Checking.{at_place, after, finished};
ghost use Rattle.al_decl_judged.specs.Declaring.{declared_model, joined};
ghost use Rattle.al_base_fault.specs.Judging.{map_ok};
ghost use Rattle.al_view_typed.specs.DeclarationTrees.{declaration_model};

use crate::Environment;
use crate::slots::take_slots;
use al_base::NoMemory;
use al_base_fault::CheckResult;
use al_decl_judged::Declared;
use al_view_typed::TypedDeclaration;

/// Makes what is declared visible, and gives the temporaries of what is done their words.
/// # Errors
/// `NoMemory` if the allocator refuses memory.
pub fn finish_right(
    env: &mut Environment,
    declared: Declared,
) -> Result<Option<TypedDeclaration>, NoMemory>
    requires { 0 < length env.old.scope.regions }
    ensures env { OnOk result (env.new ≡ (after env.old (env.old.progress, declared_model declared)).0) }
    ensures effect { IfOk result (λ effect. option_map declaration_model effect ≡ (after env.old (env.old.progress, declared_model declared)).1) }
    ensures depth { length env.new.scope.regions ≡ length env.old.scope.regions }
{
    let Declared {
        declarations,
        mut effect,
    } = declared;
    take_slots(&mut env.progress, &mut effect);
    match env.declare(declarations.as_slice()) {
        Ok(()) => Ok(effect),
        Err(none) => Err(none),
    }
}

/// The end of a declaration that was checked: if it is right, its names are visible from there on, and its value's temporaries have their
/// words.
/// # Errors
/// `NoMemory` if the allocator refuses memory. The inner error is the fault of the declaration.
pub fn finish(
    env: &mut Environment,
    declared: CheckResult<Declared>,
) -> Result<CheckResult<Option<TypedDeclaration>>, NoMemory>
    requires { 0 < length env.old.scope.regions }
    ensures made { IfOk result (λ checked. at_place env.new (map_ok (option_map declaration_model) checked) ≡ finished env.old (joined env.old.progress (map_ok declared_model declared))) }
    ensures depth { length env.new.scope.regions ≡ length env.old.scope.regions }
{
    match declared {
        Ok(declared) => {
            let effect = finish_right(env, declared)?;
            Ok(Ok(effect))
        }
        Err(fault) => Ok(Err(fault)),
    }
}
