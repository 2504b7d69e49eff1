// Use clauses, as they are answered, in the innermost region of a place.
ghost use Rattle.std.specs.Prelude.{◌≡◌, ◌<◌, [], ◌∷◌, IfOk, false, is_ok, length, true};
ghost use Rattle.std.specs.List.{list_any};
ghost use Rattle.std.specs.Str.{bytes_eq};
ghost use Rattle.al_base.specs.declared.unit_key.UnitKey.{UnitKey};
ghost use Rattle.al_query.specs.declared.answer.UseClause.TheVariants.{Package};
ghost use Rattle.al_scope.specs.Places.{encloses};
ghost use Rattle.al_scope.specs.UnitPlaces.{inside, stands_in, uses_with, with_clause, with_clauses};

use crate::Scope;
use al_base::{Name, NoMemory};
use al_query::{ContextView, UseClause, UseInPart};
use al_view::Part;
use std::alloc::Global;

/// Adds a use clause to the innermost region. If it names a package that encloses the place, it takes no memory.
fn use_clause(alloc: Global, scope: &mut Scope, clause: &UseClause) -> Result<(), NoMemory>
    requires { 0 < length scope.old.regions }
    ensures regions { IfOk result (λ _. scope.new.regions ≡ with_clause clause.now scope.old.regions) }
    ensures depth { length scope.new.regions ≡ length scope.old.regions }
    ensures mentioned { scope.new.mentioned ≡ scope.old.mentioned }
    ensures takes_none { (unit : UnitKey) → clause.now ≡ Package unit → encloses unit scope.old.regions ≡ true → is_ok result ≡ true }
{
    match clause {
        UseClause::Package(unit) => scope.use_package(unit)?,
        UseClause::Type(symbol) => {
            let symbol = symbol.copy(alloc)?;
            scope.use_type(symbol)?;
        }
        UseClause::Operators { of_type, types } => scope.use_type_view(of_type, types)?,
    }
    Ok(())
}

/// Adds use clauses to the innermost region, in order. If there are none, it takes no memory.
/// # Errors
/// `NoMemory` if the allocator refuses memory.
pub fn use_each(alloc: Global, scope: &mut Scope, clauses: &[UseClause]) -> Result<(), NoMemory>
    requires { 0 < length scope.old.regions }
    ensures regions { IfOk result (λ _. scope.new.regions ≡ with_clauses clauses.now scope.old.regions) }
    ensures depth { length scope.new.regions ≡ length scope.old.regions }
    ensures mentioned { scope.new.mentioned ≡ scope.old.mentioned }
    ensures takes_none { clauses.now ≡ [] → is_ok result ≡ true }
{
    for clause in clauses {
        use_clause(alloc, scope, clause)?;
    }
    Ok(())
}

/// Whether the name is among the names.
pub(crate) fn has_name(names: &[Name], name: &[u8]) -> bool
    ensures { result ≡ list_any (bytes_eq name.now) names.now }
{
    names.iter().any(|other| name == other.as_slice())
}

/// Whether a use clause is in the part. For a part that ends at a stub: whether it is in the body before that stub.
fn does_stand_in(part: &Part, used: &UseInPart) -> bool
    ensures { result ≡ stands_in part.now used.now }
{
    match part {
        Part::Stub(name) => {
            used.part.is(&Part::Body) && has_name(used.before.as_slice(), name.as_slice())
        }
        Part::Visible => part.is(&used.part),
        Part::Private => part.is(&used.part),
        Part::Body => part.is(&used.part),
    }
}

/// Adds the use clause to the innermost region, if it is in the part; else it takes no memory.
fn use_if_inside(
    alloc: Global,
    scope: &mut Scope,
    used: &UseInPart,
    part: &Part,
) -> Result<(), NoMemory>
    requires { 0 < length scope.old.regions }
    ensures regions { IfOk result (λ _. scope.new.regions ≡ with_clauses (inside (used.now ∷ []) part.now) scope.old.regions) }
    ensures depth { length scope.new.regions ≡ length scope.old.regions }
    ensures mentioned { scope.new.mentioned ≡ scope.old.mentioned }
    ensures takes_none { stands_in part.now used.now ≡ false → is_ok result ≡ true }
{
    if !does_stand_in(part, used) {
        return Ok(());
    }
    use_clause(alloc, scope, &used.clause)?;
    Ok(())
}

/// Adds the use clauses in the part to the innermost region. If there are none, it takes no memory.
fn use_inside(
    alloc: Global,
    scope: &mut Scope,
    uses: &[UseInPart],
    part: &Part,
) -> Result<(), NoMemory>
    requires { 0 < length scope.old.regions }
    ensures regions { IfOk result (λ _. scope.new.regions ≡ with_clauses (inside uses.now part.now) scope.old.regions) }
    ensures depth { length scope.new.regions ≡ length scope.old.regions }
    ensures mentioned { scope.new.mentioned ≡ scope.old.mentioned }
    ensures takes_none { inside uses.now part.now ≡ [] → is_ok result ≡ true }
{
    for used in uses {
        use_if_inside(alloc, scope, used, part)?;
    }
    Ok(())
}

/// The use clauses that a region has because it continues the part of a unit with that context. If there are none, it takes no memory.
/// # Errors
/// `NoMemory` if the allocator refuses memory.
pub fn use_context(
    alloc: Global,
    scope: &mut Scope,
    context: &ContextView,
    part: &Part,
) -> Result<(), NoMemory>
    requires { 0 < length scope.old.regions }
    ensures regions { IfOk result (λ _. scope.new.regions ≡ with_clauses (uses_with context.now part.now) scope.old.regions) }
    ensures depth { length scope.new.regions ≡ length scope.old.regions }
    ensures mentioned { scope.new.mentioned ≡ scope.old.mentioned }
    ensures takes_none { uses_with context.now part.now ≡ [] → is_ok result ≡ true }
{
    if part.is(&Part::Private) {
        use_inside(alloc, scope, context.uses_inside.as_slice(), part)?;
        return Ok(());
    }
    use_each(alloc, scope, context.uses.as_slice())?;
    use_inside(alloc, scope, context.uses_inside.as_slice(), part)?;
    Ok(())
}
