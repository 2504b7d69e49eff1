// The body of a unit that is one subprogram (ARM 10.1.1, 10.1.3).
ghost use Rattle.std.specs.Prelude.{◌≡◌, ◌<◌, length, IfOk};
ghost use Rattle.al_decl_judged.specs.Bodies.{IsWaiting};
ghost use Rattle.al_decl_judged.specs.Profiles.{specification_of};
ghost use Rattle.al_view.specs.declared.view.ViewKind.TheVariants.{OfSubprogram};
ghost use Rattle.al_decl_completes.specs.CompletingFound.{conformance, unit_completing, view_completed};

use al_base::{NoMemory, Place};
use al_base_fault::{CheckRule, Fault};
use al_decl_judged::{
    Completing, Heading, Specification, Uncompleted, conformance_fault, copied_flag,
    specification_of,
};
use al_view::{Profile, SubprogramView, ViewKind};
use std::alloc::Global;

/// E303 at that place, unless the specification conforms.
fn conformance(place: Place, specification: &Specification, profile: &Profile) -> Option<Fault>
    ensures { result ≡ conformance place specification.now profile.now }
{
    conformance_fault(place, specification, profile)
}

/// The body completes what waits first, which is this subprogram.
fn subprogram_completed(
    alloc: Global,
    place: Place,
    specification: &Specification,
    subprogram: &SubprogramView,
) -> Result<Completing, NoMemory>
    ensures { IfOk result (λ completing. completing ≡ view_completed 0 place specification.now (OfSubprogram subprogram.now)) }
{
    let symbol = subprogram.symbol.copy(alloc)?;
    let flag = copied_flag(alloc, &subprogram.flag)?;
    let fault = conformance(place, specification, &subprogram.profile);
    Ok(Completing::Declared {
        at: 0,
        symbol,
        flag,
        fault,
    })
}

/// The body completes what waits first, which has this view. What is no subprogram has no such body.
fn view_completed(
    alloc: Global,
    place: Place,
    specification: &Specification,
    view: &ViewKind,
) -> Result<Completing, NoMemory>
    ensures { IfOk result (λ completing. completing ≡ view_completed 0 place specification.now view.now) }
{
    match view {
        ViewKind::OfSubprogram(subprogram) => {
            subprogram_completed(alloc, place, specification, subprogram)
        }
        _ => {
            let rule = CheckRule::NotConformant;
            Ok(Completing::Alone(Some(Fault { place, rule })))
        }
    }
}

/// What the body of a unit is to what waits for it, its declaration or its stub: it completes what waits first, whatever the types are,
/// with E303 at its name if it doesn't conform. If nothing waits, it acts as its declaration (ARM 10.1.4(4)).
/// # Errors
/// `NoMemory` if the allocator refuses memory.
pub fn unit_completing(
    alloc: Global,
    uncompleted: &Uncompleted,
    heading: &Heading,
) -> Result<Completing, NoMemory>
    ensures found { IfOk result (λ completing. completing ≡ unit_completing uncompleted.now heading.now.name (specification_of heading.now)) }
    ensures waiting { IfOk result (λ completing. IsWaiting uncompleted.now completing) }
{
    let place = heading.name.place;
    let specification = specification_of(alloc, heading)?;
    if uncompleted.missing_fault(place).is_none() {
        return Ok(Completing::Alone(None));
    }
    view_completed(alloc, place, &specification, uncompleted.at(0).view.kind())
}
