// Private types (ARM 7.3).
ghost use Rattle.std.specs.Prelude.{◌≡◌, ◌<◌, Err, length, option_map, IfOk};
ghost use Rattle.al_base_fault.specs.Judging.{map_ok};
ghost use Rattle.al_decl.specs.Checking.{at_place};
ghost use Rattle.al_decl.specs.Items.{private_fault, private_item, refused};
ghost use Rattle.al_query.specs.Reads.{FromAnswers};
ghost use Rattle.al_view_typed.specs.DeclarationTrees.{declaration_model};

use crate::{Environment, check_private, fixed_duplicate};
use al_base::NoMemory;
use al_base_fault::{CheckResult, CheckRule, Fault};
use al_decl_judged::{DefiningName, TypeName};
use al_query::{Answers, Recorder};
use al_view_typed::TypedDeclaration;
use std::alloc::Global;

/// The fault of a name that may not be declared here: it is taken, or it isn't allowed.
fn refused(duplicate: Option<Fault>, name: &DefiningName) -> Fault
    ensures { result ≡ refused duplicate name.now }
{
    match duplicate {
        Some(fault) => fault,
        None => Fault {
            place: name.place,
            rule: CheckRule::NotAllowedHere,
        },
    }
}

/// `type name is private;` where no private type is allowed (ARM 7.3(4)).
fn refuse_private<A: Answers>(
    alloc: Global,
    env: &Environment,
    name: &DefiningName,
    recorder: &mut Recorder<A>,
) -> Result<CheckResult<Option<TypedDeclaration>>, NoMemory>
    requires { 0 < length env.now.scope.regions }
    ensures asked { recorder.new.asked ≡ recorder.old.asked }
    ensures answered { IfOk result (λ checked. FromAnswers recorder.old.log recorder.new.log (λ t. map_ok (option_map declaration_model) checked ≡ Err (private_fault t env.now name.now))) }
{
    let duplicate = fixed_duplicate(alloc, &env.scope, name, recorder)?;
    Ok(Err(refused(duplicate, name)))
}

/// `type name is private;`, with the words of its values if one is allowed.
pub(crate) fn check_private_item<A: Answers>(
    alloc: Global,
    env: &mut Environment,
    name: &TypeName,
    words: Option<u32>,
    recorder: &mut Recorder<A>,
) -> Result<CheckResult<Option<TypedDeclaration>>, NoMemory>
    requires { 0 < length env.old.scope.regions }
    ensures asked { recorder.new.asked ≡ recorder.old.asked }
    ensures answered { IfOk result (λ checked. FromAnswers recorder.old.log recorder.new.log (λ t. at_place env.new (map_ok (option_map declaration_model) checked) ≡ private_item t env.old name.now words)) }
    ensures depth { length env.new.scope.regions ≡ length env.old.scope.regions }
{
    match words {
        Some(words) => check_private(alloc, env, name, words, recorder),
        None => refuse_private(alloc, env, &name.defining, recorder),
    }
}
