// Declarations of subprograms (ARM 6.1).
ghost use Rattle.std.specs.Prelude.{◌≡◌, ◌∷◌, [], IfOk, OnOk, Some};
ghost use Rattle.al_decl_judged.specs.Uncompleted.{with_declared};
ghost use Rattle.al_decl_judged.specs.TypeDeclarations.{declared_as};
ghost use Rattle.al_decl_judged.specs.Declaring.{declared_model};
ghost use Rattle.al_base_fault.specs.Judging.{map_ok};
ghost use Rattle.al_decl_judged.specs.Subprograms.{flagged_view, flag_of, joined_waiting, right_subprogram, subprogram_declared, subprogram_view, with_subprogram};

use crate::heading::{Heading, heading_fault};
use crate::profile::{profile_of, profile_types};
use crate::{Declaration, Declared, Progress, Uncompleted};
use al_base::{Name, NoMemory};
use al_base_fault::{CheckResult, Fault, earlier};
use al_view::{CallKind, ObjectPlace, Seq, SubprogramView, Symbol, View, ViewKind};
use al_view_predefined::StandardTypes;
use al_view_typed::{DeclarationForm, TypedDeclaration};
use std::alloc::Global;

/// A subprogram that is declared at this depth of nesting, with its flag if it has a declaration of its own. Its marks are right.
/// # Errors
/// `NoMemory` if the allocator refuses memory.
pub fn subprogram_view(
    alloc: Global,
    standard: &StandardTypes,
    symbol: &Symbol,
    depth: u32,
    flag: Option<ObjectPlace>,
    heading: &Heading,
) -> Result<View, NoMemory>
    ensures { IfOk result (λ view. view ≡ subprogram_view symbol.now depth flag heading.now) }
{
    let symbol = symbol.copy(alloc)?;
    let profile = profile_of(alloc, heading)?;
    let types = profile_types(alloc, standard, heading)?;
    let view = View::new(
        alloc,
        ViewKind::OfSubprogram(SubprogramView {
            symbol,
            profile,
            types,
            call: CallKind::Subprogram { depth },
            flag,
        }),
    )?;
    Ok(view)
}

/// A list of one declaration.
pub(crate) fn one_declaration(
    alloc: Global,
    name: &[u8],
    view: View,
) -> Result<Seq<Declaration>, NoMemory>
    ensures { IfOk result (λ declarations. declarations ≡ declared_as name.now view ∷ []) }
{
    let name = Name::from_slice(alloc, name)?;
    let mut declarations = Seq::empty(alloc);
    declarations.push(Declaration { name, view })?;
    Ok(declarations)
}

/// The first step of a subprogram's declaration: its view and its flag, with its name counted and its flag's word taken.
fn flagged(
    alloc: Global,
    standard: &StandardTypes,
    progress: &mut Progress,
    heading: &Heading,
) -> Result<(View, ObjectPlace), NoMemory>
    ensures taken { OnOk result (progress.new ≡ with_subprogram progress.old heading.now) }
    ensures view { IfOk result (λ made. made.0 ≡ flagged_view progress.old heading.now) }
    ensures flag { IfOk result (λ made. made.1 ≡ flag_of progress.old heading.now) }
{
    let depth = progress.depth;
    let symbol = progress.next_symbol(alloc, heading.name.name.as_slice())?;
    let flag = progress.next_place(alloc, &symbol)?;
    let place = flag.copy(alloc)?;
    progress.take_flag(alloc, &symbol)?;
    let view = subprogram_view(alloc, standard, &symbol, depth, Some(flag), heading)?;
    Ok((view, place))
}

fn right_subprogram(
    alloc: Global,
    standard: &StandardTypes,
    progress: &mut Progress,
    uncompleted: &mut Uncompleted,
    line: usize,
    heading: &Heading,
) -> Result<Declared, NoMemory>
    ensures progress { OnOk result (progress.new ≡ with_subprogram progress.old heading.now) }
    ensures uncompleted { OnOk result (uncompleted.new ≡ with_declared uncompleted.old heading.now.name.name (flagged_view progress.old heading.now)) }
    ensures declared { IfOk result (λ declared. declared_model declared ≡ (right_subprogram progress.old uncompleted.old line heading.now).1) }
{
    let (view, flag) = flagged(alloc, standard, progress, heading)?;
    let name = heading.name.name.as_slice();
    uncompleted.declare(name, &view)?;
    let declarations = one_declaration(alloc, name, view)?;
    let effect = TypedDeclaration::new(line, DeclarationForm::Subprogram(flag));
    Ok(Declared {
        declarations,
        effect: Some(effect),
    })
}

/// A specification alone, whose first token is on that line: a subprogram whose body comes later. `duplicate` is E301 at the name if its
/// region has a homograph; for a specification with a faulty mark a homograph is what may not be overloaded.
/// # Errors
/// `NoMemory` if the allocator refuses memory. The inner error is the first of `duplicate` and the faults of the heading.
pub fn declare_subprogram(
    alloc: Global,
    standard: &StandardTypes,
    progress: &mut Progress,
    uncompleted: &mut Uncompleted,
    line: usize,
    duplicate: Option<Fault>,
    heading: &Heading,
) -> Result<CheckResult<Declared>, NoMemory>
    ensures { IfOk result (λ checked. joined_waiting progress.new uncompleted.new (map_ok declared_model checked) ≡ subprogram_declared progress.old uncompleted.old line duplicate heading.now) }
{
    if let Some(fault) = earlier(duplicate, heading_fault(alloc, heading)?) {
        return Ok(Err(fault));
    }
    let declared = right_subprogram(alloc, standard, progress, uncompleted, line, heading)?;
    Ok(Ok(declared))
}
