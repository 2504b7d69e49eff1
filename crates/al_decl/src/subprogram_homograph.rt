// Homographs of subprograms (ARM 8.3(8, 26)).
ghost use Rattle.std.specs.Prelude.{◌≡◌, ◌<◌, length, is_ok, IfOk, None};
ghost use Rattle.std.specs.List.{list_all};
ghost use Rattle.al_decl.specs.Placing.{has_right_marks, head_duplicate, head_view, is_right_return};
ghost use Rattle.al_decl.specs.Declaring.{duplicate};
ghost use Rattle.al_query.specs.Reads.{FromAnswers};
ghost use Rattle.al_decl_judged.specs.Subprograms.{subprogram_view};
ghost use Rattle.al_view.specs.declared.symbol.Symbol.{Symbol};

use crate::{Environment, duplicate, overloaded_duplicate};
use al_base::{Name, NoMemory};
use al_base_fault::Fault;
use al_decl_judged::{FormalPart, Heading, Progress, ReturnedPart, subprogram_view};
use al_query::{Answers, Recorder};
use al_view::{Symbol, View, copied_unit};
use al_view_predefined::StandardTypes;
use std::alloc::Global;

fn has_right_formals(formals: &[FormalPart]) -> bool
    ensures { result ≡ list_all (λ f. is_ok f.of) formals.now }
{
    formals.iter().all(|formal| formal.of.is_ok())
}

fn is_right_return(returned: &ReturnedPart) -> bool
    ensures { result ≡ is_right_return returned.now }
{
    match returned {
        ReturnedPart::NoValue => true,
        ReturnedPart::Value(of) => of.is_ok(),
    }
}

/// Whether no mark has a fault, so that the types are known.
pub fn has_right_marks(heading: &Heading) -> bool
    ensures { result ≡ has_right_marks heading.now }
{
    has_right_formals(heading.formals.as_slice()) && is_right_return(&heading.returned)
}

/// A symbol of that unit, which no declaration has.
fn any_symbol(alloc: Global, progress: &Progress) -> Result<Symbol, NoMemory> {
    let unit = copied_unit(alloc, &progress.unit)?;
    let name = Name::from_slice(alloc, b"")?;
    Ok(Symbol {
        unit,
        name,
        number: 0,
    })
}

/// A view with the types of a specification, as far as it matters for homographs.
fn view_of_types(
    alloc: Global,
    standard: &StandardTypes,
    progress: &Progress,
    heading: &Heading,
) -> Result<View, NoMemory>
    ensures { IfOk result (λ view. (s : Symbol) × (view ≡ subprogram_view s 0 None heading.now)) }
{
    let symbol = any_symbol(alloc, progress)?;
    subprogram_view(alloc, standard, &symbol, 0, None, heading)
}

/// E301 at the name of a subprogram whose types are known, if the region has a homograph.
fn typed_duplicate<A: Answers>(
    alloc: Global,
    standard: &StandardTypes,
    env: &Environment,
    heading: &Heading,
    recorder: &mut Recorder<A>,
) -> Result<Option<Fault>, NoMemory>
    requires { 0 < length env.now.scope.regions }
    ensures asked { recorder.new.asked ≡ recorder.old.asked }
    ensures answered { IfOk result (λ fault. FromAnswers recorder.old.log recorder.new.log (λ t. fault ≡ duplicate t env.now.scope (head_view env.now heading.now) heading.now.name)) }
{
    let view = view_of_types(alloc, standard, &env.progress, heading)?;
    duplicate(&env.scope, &view, &heading.name, recorder)
}

/// E301 at the name of a subprogram whose region has a homograph. If a mark has a fault, its types aren't known: then what may not be
/// overloaded is a homograph.
/// # Errors
/// `NoMemory` if the allocator refuses memory.
pub fn head_duplicate<A: Answers>(
    alloc: Global,
    standard: &StandardTypes,
    env: &Environment,
    heading: &Heading,
    recorder: &mut Recorder<A>,
) -> Result<Option<Fault>, NoMemory>
    requires { 0 < length env.now.scope.regions }
    ensures asked { recorder.new.asked ≡ recorder.old.asked }
    ensures answered { IfOk result (λ fault. FromAnswers recorder.old.log recorder.new.log (λ t. fault ≡ head_duplicate t env.now heading.now)) }
{
    if has_right_marks(heading) {
        return typed_duplicate(alloc, standard, env, heading, recorder);
    }
    overloaded_duplicate(&env.scope, &heading.name, recorder)
}
