// Which declaration a body completes (ARM 3.11.1, 6.3.1).
ghost use Rattle.std.specs.Prelude.{◌≡◌, IfOk};
ghost use Rattle.al_decl_judged.specs.Bodies.{IsWaiting};
ghost use Rattle.al_decl_judged.specs.Profiles.{specification_of};
ghost use Rattle.al_decl_completes.specs.CompletingFound.{completing_found};

use al_base::NoMemory;
use al_decl_judged::{Completing, Heading, Uncompleted};
use std::alloc::Global;

/// What a body or a stub is to the declarations that wait: it completes the first of them that has its name and its types, with E303 at its
/// name if it doesn't conform. One that completes none has E301 there if its region has a homograph; else it declares its subprogram if it
/// may (ARM 6.3(4)), and has E303 if it may not, as in the body of a protected object.
/// # Errors
/// `NoMemory` if the allocator refuses memory.
pub fn completing_of(
    alloc: Global,
    uncompleted: &Uncompleted,
    heading: &Heading,
    may_declare: bool,
    has_homograph: bool,
) -> Result<Completing, NoMemory>
    ensures found { IfOk result (λ completing. completing ≡ completing_found uncompleted.now heading.now.name (specification_of heading.now) may_declare has_homograph) }
    ensures waiting { IfOk result (λ completing. IsWaiting uncompleted.now completing) }
{
    al_decl_judged::completing_of(alloc, uncompleted, heading, may_declare, has_homograph)
}
