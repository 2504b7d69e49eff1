// Declarations of tasks and protected objects are visible from their end on, and wait for their bodies.
ghost use Rattle.std.specs.Prelude.{◌≡◌, ◌<◌, ◌∷◌, [], length, option_map, IfOk, OnOk};
ghost use Rattle.al_decl_protected.specs.Placing.{declares_one, placed};
ghost use Rattle.al_decl_judged.specs.Declaring.{declared_model};
ghost use Rattle.al_view_typed.specs.DeclarationTrees.{declaration_model};

use al_base::{Name, NoMemory};
use al_decl::{Environment, finish_right};
use al_decl_judged::{Declaration, Declared};
use al_view::{Seq, View};
use al_view_typed::TypedDeclaration;
use std::alloc::Global;

fn declares_one(
    alloc: Global,
    name: &[u8],
    view: View,
    effect: TypedDeclaration,
) -> Result<Declared, NoMemory>
    ensures { IfOk result (λ declared. declared_model declared ≡ declares_one name.now view (declaration_model effect)) }
{
    let name = Name::from_slice(alloc, name)?;
    let mut declarations = Seq::empty(alloc);
    declarations.push(Declaration { name, view })?;
    Ok(Declared {
        declarations,
        effect: Some(effect),
    })
}

/// Makes what is declared visible from there on; it waits for its body. What is done has the words of its temporaries.
pub(crate) fn place(
    alloc: Global,
    env: &mut Environment,
    name: &[u8],
    view: View,
    effect: TypedDeclaration,
) -> Result<Option<TypedDeclaration>, NoMemory>
    requires { 0 < length env.old.scope.regions }
    ensures env { OnOk result (env.new ≡ (placed env.old name.now view (declaration_model effect)).0) }
    ensures effect { IfOk result (λ done. option_map declaration_model done ≡ (placed env.old name.now view (declaration_model effect)).1) }
    ensures depth { length env.new.scope.regions ≡ length env.old.scope.regions }
{
    env.uncompleted.declare(name, &view)?;
    let declared = declares_one(alloc, name, view, effect)?;
    finish_right(env, declared)
}
