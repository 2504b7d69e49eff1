// Which declaration a body or a stub completes (ARM 3.11.1, 6.3.1).
ghost use Rattle.std.specs.Prelude.{◌≡◌, ◌<◌, length, slice_get, Some, IfOk};
ghost use Rattle.al_decl_judged.specs.declared.specification.BodyHead.TheVariants as heads;
ghost use Rattle.al_decl_judged.specs.Bodies.{IsWaiting};
ghost use Rattle.al_decl_judged.specs.Completions.{IsCompletedAt, IsCompleting, IsOfSubprogram, IsSubprogramHead};
ghost use Rattle.al_decl_judged.specs.Profiles.{specification_of};
ghost use Rattle.al_view.specs.declared.view.ViewKind.TheVariants.{OfSubprogram};

use crate::body::Completing;
use crate::heading::Heading;
use crate::profile::specification_of;
use crate::{BodyHead, Specification, Uncompleted, conformance_fault, lone_body_fault};
use al_base::{NoMemory, Place};
use al_view::{ObjectPlace, SubprogramView, ViewKind};
use std::alloc::Global;

fn body_head(alloc: Global, heading: &Heading) -> Result<BodyHead, NoMemory>
    ensures { IfOk result (λ head. head ≡ heads.Subprogram (specification_of heading.now)) }
{
    let specification = specification_of(alloc, heading)?;
    Ok(BodyHead::Subprogram(specification))
}

fn specification_in(head: &BodyHead) -> &Specification
    requires { IsSubprogramHead head.now }
    ensures { head.now ≡ heads.Subprogram result.now }
{
    match head {
        BodyHead::Subprogram(specification) => specification,
        BodyHead::Entry => unreachable!(),
        BodyHead::Task => unreachable!(),
        BodyHead::Protected => unreachable!(),
    }
}

fn subprogram_in(view: &ViewKind) -> &SubprogramView
    requires { IsOfSubprogram view.now }
    ensures { view.now ≡ OfSubprogram result.now }
{
    match view {
        ViewKind::OfSubprogram(subprogram) => subprogram,
        _ => unreachable!(),
    }
}

/// A copy of the flag.
/// # Errors
/// `NoMemory` if the allocator refuses memory.
pub fn copied_flag(
    alloc: Global,
    flag: &Option<ObjectPlace>,
) -> Result<Option<ObjectPlace>, NoMemory>
    ensures { IfOk result (λ copy. copy ≡ flag.now) }
{
    match flag {
        Some(flag) => {
            let copy = flag.copy(alloc)?;
            Ok(Some(copy))
        }
        None => Ok(None),
    }
}

/// A body with that specification completes this subprogram, which waits at this index: E303 at its name if it doesn't conform.
fn completed_subprogram(
    alloc: Global,
    place: Place,
    at: usize,
    specification: &Specification,
    subprogram: &SubprogramView,
) -> Result<Completing, NoMemory>
    ensures { IfOk result (λ completing. IsCompletedAt place specification.now at (OfSubprogram subprogram.now) completing) }
{
    let symbol = subprogram.symbol.copy(alloc)?;
    let flag = copied_flag(alloc, &subprogram.flag)?;
    let fault = conformance_fault(place, specification, &subprogram.profile);
    Ok(Completing::Declared {
        at,
        symbol,
        flag,
        fault,
    })
}

/// What a body or a stub is to the declarations that wait: it completes the first of them that has its name and its types, with E303 at its
/// name if it doesn't conform. One that completes none has E301 there if its region has a homograph; else it declares its subprogram if it
/// may (ARM 6.3(4)), and has E303 if it may not, as in the body of a protected object.
/// # Errors
/// `NoMemory` if the allocator refuses memory.
pub fn completing_of(
    alloc: Global,
    uncompleted: &Uncompleted,
    heading: &Heading,
    may_declare: bool,
    has_homograph: bool,
) -> Result<Completing, NoMemory>
    ensures completing { IfOk result (λ completing. IsCompleting uncompleted.now heading.now.name (specification_of heading.now) may_declare has_homograph completing) }
    ensures waiting { IfOk result (λ completing. IsWaiting uncompleted.now completing) }
{
    let place = heading.name.place;
    let head = body_head(alloc, heading)?;
    match uncompleted.completed_by(heading.name.name.as_slice(), &head) {
        Some(at) => {
            let subprogram = subprogram_in(uncompleted.at(at).view.kind());
            completed_subprogram(alloc, place, at, specification_in(&head), subprogram)
        }
        None => Ok(Completing::Alone(lone_body_fault(place, has_homograph, may_declare))),
    }
}
