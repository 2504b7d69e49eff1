// Bodies of subprograms, and stubs of bodies (ARM 6.3, 10.1.3).
ghost use Rattle.std.specs.Prelude.{◌≡◌, ◌∷◌, [], IfOk, OnOk, None, option_map};
ghost use Rattle.al_decl_judged.specs.Declaring.{declares};
ghost use Rattle.al_decl_judged.specs.Progressing.{symbol_of, with_counted};
ghost use Rattle.al_decl_judged.specs.TypeDeclarations.{declared_as};
ghost use Rattle.al_base_fault.specs.Judging.{map_ok};
ghost use Rattle.al_view_typed.specs.DeclarationTrees.{Elaborated, declaration_model};
ghost use Rattle.al_decl_judged.specs.Bodies.{after_body, body_declared, completing_fault, IsWaiting, left_waiting, new_body_model, right_body};
ghost use Rattle.al_decl_judged.specs.Subprograms.{joined_waiting, subprogram_view};

use crate::heading::{Heading, heading_fault};
use crate::subprogram::{one_declaration, subprogram_view};
use crate::{Declared, Progress, Uncompleted};
use al_base::NoMemory;
use al_base_fault::{CheckResult, Fault, earlier};
use al_view::{ObjectPlace, Seq, Symbol};
use al_view_predefined::StandardTypes;
use al_view_typed::{DeclarationForm, TypedDeclaration};
use std::alloc::Global;

/// What a body or a stub is to the declarations before it.
pub enum Completing {
    /// It completes the declaration that waits at this index, with its symbol and its flag. The fault is E303 if it doesn't conform.
    Declared {
        at: usize,
        symbol: Symbol,
        flag: Option<ObjectPlace>,
        fault: Option<Fault>,
    },
    /// It completes none. The fault is E301 or E303 if it may not be alone; else it declares its subprogram.
    Alone(Option<Fault>),
}

impl Drop for Completing {
    fn drop(self) {
        match self {
            Completing::Declared {
                at: _,
                symbol: _,
                flag: _,
                fault: _,
            } => {}
            Completing::Alone(_) => {}
        }
    }
}

/// A body or stub that is right: what it declares and does at its place, and the symbol of its code.
#[derive(Drop)]
pub struct NewBody {
    /// What it declares and does.
    pub declared: Declared,
    /// The symbol of its code.
    pub symbol: Symbol,
}

fn completing_fault(completing: &Completing) -> Option<Fault>
    ensures { result ≡ completing_fault completing.now }
{
    match completing {
        Completing::Declared { fault, .. } => *fault,
        Completing::Alone(fault) => *fault,
    }
}

/// The effect that what has this flag is elaborated from here on.
fn elaborated(
    alloc: Global,
    line: usize,
    flag: &Option<ObjectPlace>,
) -> Result<Option<TypedDeclaration>, NoMemory>
    ensures { IfOk result (λ effect. option_map declaration_model effect ≡ option_map (λ f. record { line = line; form = Elaborated f }) flag.now) }
{
    match flag {
        Some(flag) => {
            let flag = flag.copy(alloc)?;
            let form = DeclarationForm::Elaborated(flag);
            Ok(Some(TypedDeclaration::new(line, form)))
        }
        None => Ok(None),
    }
}

/// A body that completes what has this symbol and this flag.
fn completion(
    alloc: Global,
    line: usize,
    symbol: &Symbol,
    flag: &Option<ObjectPlace>,
) -> Result<NewBody, NoMemory>
    ensures { IfOk result (λ body. new_body_model body ≡ (record { declarations = []; effect = option_map (λ f. record { line = line; form = Elaborated f }) flag.now }, symbol.now)) }
{
    let symbol = symbol.copy(alloc)?;
    let effect = elaborated(alloc, line, flag)?;
    let declared = Declared {
        declarations: Seq::empty(alloc),
        effect,
    };
    Ok(NewBody { declared, symbol })
}

/// A body that declares its subprogram.
fn lone_body(
    alloc: Global,
    standard: &StandardTypes,
    progress: &mut Progress,
    heading: &Heading,
) -> Result<NewBody, NoMemory>
    ensures counted { OnOk result (progress.new ≡ with_counted progress.old heading.now.name.name) }
    ensures body { IfOk result (λ body. new_body_model body ≡ (declares (declared_as heading.now.name.name (subprogram_view (symbol_of progress.old heading.now.name.name) progress.old.depth None heading.now) ∷ []), symbol_of progress.old heading.now.name.name)) }
{
    let depth = progress.depth;
    let name = heading.name.name.as_slice();
    let symbol = progress.next_symbol(alloc, name)?;
    let view = subprogram_view(alloc, standard, &symbol, depth, None, heading)?;
    let declarations = one_declaration(alloc, name, view)?;
    let declared = Declared {
        declarations,
        effect: None,
    };
    Ok(NewBody { declared, symbol })
}

fn right_body(
    alloc: Global,
    standard: &StandardTypes,
    progress: &mut Progress,
    uncompleted: &mut Uncompleted,
    line: usize,
    heading: &Heading,
    completing: &Completing,
) -> Result<NewBody, NoMemory>
    requires { IsWaiting uncompleted.old completing.now }
    ensures progress { OnOk result (progress.new ≡ after_body progress.old heading.now completing.now) }
    ensures uncompleted { OnOk result (uncompleted.new ≡ left_waiting uncompleted.old completing.now) }
    ensures body { IfOk result (λ body. new_body_model body ≡ (right_body progress.old uncompleted.old line heading.now completing.now).1) }
{
    match completing {
        Completing::Declared {
            at,
            symbol,
            flag,
            ..
        } => {
            uncompleted.complete(*at);
            completion(alloc, line, symbol, flag)
        }
        Completing::Alone(_) => lone_body(alloc, standard, progress, heading),
    }
}

/// A body or a stub whose first token is on that line. `stub` is the fault of a stub that isn't allowed there; `completing` is what it is
/// to the declarations that wait.
/// # Errors
/// `NoMemory` if the allocator refuses memory. The inner error is the first of `stub`, the faults of its heading and that of `completing`.
pub fn declare_body(
    alloc: Global,
    standard: &StandardTypes,
    progress: &mut Progress,
    uncompleted: &mut Uncompleted,
    line: usize,
    stub: Option<Fault>,
    heading: &Heading,
    completing: &Completing,
) -> Result<CheckResult<NewBody>, NoMemory>
    requires { IsWaiting uncompleted.old completing.now }
    ensures { IfOk result (λ checked. joined_waiting progress.new uncompleted.new (map_ok new_body_model checked) ≡ body_declared progress.old uncompleted.old line stub heading.now completing.now) }
{
    let wrong = earlier(heading_fault(alloc, heading)?, completing_fault(completing));
    if let Some(fault) = earlier(stub, wrong) {
        return Ok(Err(fault));
    }
    let body = right_body(
        alloc,
        standard,
        progress,
        uncompleted,
        line,
        heading,
        completing,
    )?;
    Ok(Ok(body))
}
