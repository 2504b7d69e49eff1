// Components of records and formals of subprograms, in a region of their own inside their declaration (ARM 3.8, 6.1).
ghost use Rattle.std.specs.Prelude.{◌≡◌, ◌<◌, ◌+◌, ◌++◌, ◌∷◌, [], List, length, OnOk};
ghost use Rattle.al_decl.specs.Inner.{in_region, made_visible, one_visible};
ghost use Rattle.al_scope.specs.declared.region.Region.{Region};

use al_base::NoMemory;
use al_decl_judged::DefiningName;
use al_scope::Scope;
use al_view::{Seq, View, ViewKind};
use std::alloc::Global;

/// Makes a name visible from there on, without a value.
fn make_one_visible(alloc: Global, scope: &mut Scope, name: &DefiningName) -> Result<(), NoMemory>
    requires { 0 < length scope.old.regions }
    ensures made { OnOk result (scope.new ≡ one_visible scope.old name.now) }
    ensures depth { length scope.new.regions ≡ length scope.old.regions }
{
    let view = View::new(alloc, ViewKind::OfComponent)?;
    scope.add(name.name.as_slice(), view)
}

/// Makes names of components or formals visible from there on in their region, without a value.
/// # Errors
/// `NoMemory` if the allocator refuses memory.
pub fn make_visible(
    alloc: Global,
    scope: &mut Scope,
    names: &[DefiningName],
) -> Result<(), NoMemory>
    requires { 0 < length scope.old.regions }
    ensures made { OnOk result (scope.new ≡ made_visible scope.old names.now) }
    ensures depth { length scope.new.regions ≡ length scope.old.regions }
{
    for name in names {
        make_one_visible(alloc, scope, name)?;
    }
    Ok(())
}

/// Enters a region for components or formals, which continues nothing.
/// # Errors
/// `NoMemory` if the allocator refuses memory.
pub fn enter_region(alloc: Global, scope: &mut Scope) -> Result<(), NoMemory>
    ensures entered { OnOk result (scope.new ≡ in_region scope.old) }
    ensures depth { OnOk result (length scope.new.regions ≡ length scope.old.regions + 1) }
{
    scope.enter(Seq::empty(alloc))
}

/// Leaves the region: what is round it is as it was.
pub fn leave_region(scope: &mut Scope)
    requires { 0 < length scope.old.regions }
    ensures { (outer : List Region) (inner : Region) → scope.old.regions ≡ outer ++ inner ∷ [] → scope.new ≡ record { mentioned = scope.old.mentioned; regions = outer } }
{
    scope.leave();
}
