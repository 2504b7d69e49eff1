// Blocks at a place (ARM 5.6, 8.1).
ghost use Rattle.std.specs.Prelude.{◌≡◌, IfOk, OnOk};
ghost use Rattle.al_decl.specs.Regions.{block_entered, outside_of, set_aside, taken_back};

use crate::{Environment, enter_region};
use al_base::NoMemory;
use al_decl_judged::Uncompleted;
use al_view::Interface;
use std::alloc::Global;
use std::mem;

/// What waits and what is declared round a block or a body, which continues after it.
#[derive(Drop)]
pub struct Outside {
    /// What waits for a body round it.
    pub uncompleted: Uncompleted,
    /// What is declared round it so far.
    pub declared: Interface,
}

/// Takes out what waits and what is declared: from here on nothing is and nothing does.
pub fn set_aside(alloc: Global, env: &mut Environment) -> Outside
    ensures env { env.new ≡ set_aside env.old }
    ensures outside { result ≡ outside_of env.old }
{
    let uncompleted = mem::replace(&mut env.uncompleted, Uncompleted::new(alloc));
    let declared = mem::replace(&mut env.declared, Interface::new(alloc));
    Outside {
        uncompleted,
        declared,
    }
}

/// Puts back what waited and was declared.
pub fn take_back(env: &mut Environment, outside: Outside)
    ensures { env.new ≡ taken_back env.old outside }
{
    let Outside {
        uncompleted,
        declared,
    } = outside;
    env.uncompleted = uncompleted;
    env.declared = declared;
}

/// Enters a block: a region that continues nothing, in which nothing waits.
/// # Errors
/// `NoMemory` if the allocator refuses memory.
pub fn enter_block(alloc: Global, env: &mut Environment) -> Result<Outside, NoMemory>
    ensures env { OnOk result (env.new ≡ block_entered env.old) }
    ensures outside { IfOk result (λ outside. outside ≡ outside_of env.old) }
{
    enter_region(alloc, &mut env.scope)?;
    Ok(set_aside(alloc, env))
}
