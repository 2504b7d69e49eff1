// The parts of a unit, its stubs and its use clauses.
ghost use Rattle.std.specs.Prelude.{◌≡◌, ◌<◌, ℕ, List, Some, fold, length, slice_get, IfOk, OnOk};
ghost use Rattle.al_view.specs.Interfaces.{with_view};
ghost use Rattle.al_view.specs.declared.view.ViewKind.{ViewKind};
ghost use Rattle.al_check_here.specs.PartsHere.{before_stub, in_statements, private_begun, stub_here, stub_view, told_again, use_here, with_stub, with_use, with_uses, with_views};

use crate::state::{CheckState, UseHere};
use al_base::{Name, NoMemory};
use al_decl_judged::{Heading, subprogram_view};
use al_query::UseClause;
use al_query_outcome::StubDeclarations;
use al_view::{Interface, Part, Symbol, View};
use std::alloc::Global;
use std::mem;

/// Begins the private part of a package's declaration (ARM 7.1): what was declared before is its visible part.
pub fn begin_private(alloc: Global, state: &mut CheckState)
    ensures { state.new ≡ private_begun state.old }
{
    state.visible = mem::replace(&mut state.env.declared, Interface::new(alloc));
    state.part = Part::Private;
}

/// Begins the statements of a package's body, in the frame of the unit's elaboration (ARM 7.2).
pub fn enter_statements(state: &mut CheckState)
    ensures { state.new ≡ in_statements state.old }
{
    state.env.progress.depth = 1;
}

/// Adds one view of a name.
fn add_view(answered: &mut Interface, name: &[u8], view: &View) -> Result<(), NoMemory>
    ensures { OnOk result (answered.new ≡ with_view answered.old name.now view.now) }
{
    let view = view.share()?;
    answered.declare(name, view)?;
    Ok(())
}

/// Adds views of a name, after those that are there.
fn add_views(answered: &mut Interface, name: &[u8], views: &[View]) -> Result<(), NoMemory>
    ensures { OnOk result (answered.new ≡ with_views answered.old (name.now, views.now)) }
{
    for view in views {
        add_view(answered, name, view)?;
    }
    Ok(())
}

/// Adds the views of the `i`-th name of `declared`, after those that are there.
fn add_name(answered: &mut Interface, declared: &Interface, i: usize) -> Result<(), NoMemory>
    requires { i < length declared.now }
    ensures { OnOk result ((named : List ℕ × List ViewKind) → slice_get declared.now i ≡ Some named → answered.new ≡ with_views answered.old named) }
{
    match declared.at(i) {
        Some((name, views)) => add_views(answered, name, views),
        None => Ok(()),
    }
}

/// A copy of what is declared, made name by name.
///
/// # Errors
/// `NoMemory` if the allocator refuses memory.
pub fn copied_interface(alloc: Global, declared: &Interface) -> Result<Interface, NoMemory>
    ensures { IfOk result (λ answered. answered ≡ told_again declared.now) }
{
    let mut answered = Interface::new(alloc);
    for i in 0..declared.len() {
        add_name(&mut answered, declared, i)?;
    }
    Ok(answered)
}

/// The view of the subprogram whose body a stub with this head replaces.
fn stub_view(
    alloc: Global,
    state: &CheckState,
    heading: &Heading,
    symbol: &Symbol,
) -> Result<View, NoMemory>
    ensures { IfOk result (λ view. view ≡ stub_view state.now heading.now symbol.now) }
{
    let standard = &state.unit.labeller.predefined.standard;
    let depth = state.env.progress.depth;
    subprogram_view(alloc, standard, symbol, depth, None, heading)
}

/// What is declared before a stub, with the stub's own subprogram under the reserved word `separate`, which is no identifier: there a subunit finds
/// what it completes.
fn before_stub(
    alloc: Global,
    state: &CheckState,
    heading: &Heading,
    symbol: &Symbol,
) -> Result<Interface, NoMemory>
    ensures { IfOk result (λ before. before ≡ before_stub state.now heading.now symbol.now) }
{
    let mut before = copied_interface(alloc, &state.env.declared)?;
    let view = stub_view(alloc, state, heading, symbol)?;
    before.declare(b"separate", view)?;
    Ok(before)
}

fn stub_here(
    alloc: Global,
    state: &CheckState,
    heading: &Heading,
    symbol: &Symbol,
) -> Result<StubDeclarations, NoMemory>
    ensures { IfOk result (λ stub. stub ≡ stub_here state.now heading.now symbol.now) }
{
    let before = before_stub(alloc, state, heading, symbol)?;
    let symbol = symbol.copy(alloc)?;
    let stub = Name::from_slice(alloc, heading.name.name.as_slice())?;
    Ok(StubDeclarations {
        stub,
        symbol,
        before,
    })
}

/// Adds a body stub with this head (ARM 10.1.3).
///
/// # Errors
/// `NoMemory` if the allocator refuses memory.
pub fn add_stub(
    alloc: Global,
    state: &mut CheckState,
    heading: &Heading,
    symbol: &Symbol,
) -> Result<(), NoMemory>
    ensures { OnOk result (state.new ≡ with_stub state.old heading.now symbol.now) }
{
    let stub = stub_here(alloc, state, heading, symbol)?;
    state.stubs.push(stub)?;
    Ok(())
}

fn use_here(alloc: Global, state: &CheckState, clause: &UseClause) -> Result<UseHere, NoMemory>
    ensures { IfOk result (λ made. made ≡ use_here state.now clause.now) }
{
    let part = state.part.copy(alloc)?;
    let clause = clause.copy(alloc)?;
    Ok(UseHere {
        part,
        clause,
        stubs: state.stubs.as_slice().len(),
    })
}

fn add_use(alloc: Global, state: &mut CheckState, clause: &UseClause) -> Result<(), NoMemory>
    ensures { OnOk result (state.new ≡ with_use state.old clause.now) }
{
    let made = use_here(alloc, state, clause)?;
    state.uses.push(made)?;
    Ok(())
}

fn add_each(alloc: Global, state: &mut CheckState, clauses: &[UseClause]) -> Result<(), NoMemory>
    ensures { OnOk result (state.new ≡ fold with_use state.old clauses.now) }
{
    for clause in clauses {
        add_use(alloc, state, clause)?;
    }
    Ok(())
}

/// Adds use clauses, if they are immediately in a part of the unit: the unit's body and its subunits see them too (ARM 8.4(7)).
///
/// # Errors
/// `NoMemory` if the allocator refuses memory.
pub fn add_uses(
    alloc: Global,
    state: &mut CheckState,
    clauses: &[UseClause],
) -> Result<(), NoMemory>
    ensures { OnOk result (state.new ≡ with_uses state.old clauses.now) }
{
    if state.is_immediate() {
        return add_each(alloc, state, clauses);
    }
    Ok(())
}
