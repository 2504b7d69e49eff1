// Loops and blocks: how the check enters and leaves them.
ghost use Rattle.std.specs.Prelude.{◌≡◌, ◌<◌, ◌∷◌, [], Some, length, IfOk, OnOk};
ghost use Rattle.al_decl.specs.Declaring.{with_declarations};
ghost use Rattle.al_decl.specs.Defining.{defined};
ghost use Rattle.al_stmts.specs.LoopForms.{parameter_bounds, range_model};
ghost use Rattle.al_tree.specs.Lexemes.{identifier_label};
ghost use Rattle.al_check_here.specs.RegionsHere.{in_block, in_loop, left_to, out_of_block, parameter_declaration, parameter_declared, parameter_subtype, region_left, with_begun, with_found, with_parameter};

use crate::state::{CheckState, LoopType};
use al_base::{Name, NoMemory};
use al_decl::{Environment, Outside, begin_one, defining_name, take_back};
use al_decl_judged::{Declaration, object_view};
use al_scope::Scope;
use al_stmts::{LoopRange, LoopWords, parameter_bounds};
use al_tree::Identifier;
use al_view::{Bounds, Names, ObjectPlace, Seq, Subtype, SubtypeView};
use std::alloc::Global;

/// Leaves the innermost region, if one is open.
pub fn leave_region(scope: &mut Scope)
    ensures { scope.new ≡ region_left scope.old }
{
    if scope.is_empty() {
        return;
    }
    scope.leave();
}

/// Enters a block: a region that continues no other, in which nothing waits for completion (ARM 5.6).
///
/// # Errors
/// `NoMemory` if the allocator refuses memory.
pub fn enter_block(alloc: Global, state: &mut CheckState) -> Result<(), NoMemory>
    ensures entered { OnOk result (state.new ≡ in_block state.old) }
    ensures inside { OnOk result (0 < length state.new.env.scope.regions) }
{
    let outside = al_decl::enter_block(alloc, &mut state.env)?;
    state.blocks.push(outside)?;
    Ok(())
}

/// Begins the declaration of a loop's parameter.
fn begin_parameter(
    alloc: Global,
    env: &mut Environment,
    parameter: &Identifier,
) -> Result<(), NoMemory>
    requires { 0 < length env.old.scope.regions }
    ensures { OnOk result (env.new ≡ with_begun env.old (identifier_label parameter.now)) }
{
    let name = defining_name(alloc, parameter)?;
    begin_one(&mut env.scope, &name)
}

/// Enters a for loop: a region as that of a block, in which the declaration of its parameter begins (ARM 5.5, 8.3(16)).
///
/// # Errors
/// `NoMemory` if the allocator refuses memory.
pub fn enter_loop(
    alloc: Global,
    state: &mut CheckState,
    parameter: &Identifier,
) -> Result<(), NoMemory>
    ensures { OnOk result (state.new ≡ in_loop state.old (identifier_label parameter.now)) }
{
    enter_block(alloc, state)?;
    begin_parameter(alloc, &mut state.env, parameter)
}

/// Leaves the innermost region. `outside` is what was declared, and what waited for completion, outside of it.
pub fn leave_to(env: &mut Environment, outside: Outside)
    ensures { env.new ≡ left_to env.old outside }
{
    leave_region(&mut env.scope);
    take_back(env, outside);
}

/// Leaves the innermost loop or block, if one is open: what was declared and what waited outside of it is back.
pub fn leave_block(state: &mut CheckState)
    ensures { state.new ≡ out_of_block state.old }
{
    match state.blocks.pop() {
        Some(outside) => leave_to(&mut state.env, outside),
        None => {}
    }
}

/// The subtype of a loop's parameter: it has the bounds of its range if these are static. Else it has all values of its type, as a selector of a
/// case statement of which nothing more is known (ARM 5.4(7)).
fn parameter_subtype(
    alloc: Global,
    found: &LoopType,
    bounds: Option<Bounds>,
) -> Result<SubtypeView, NoMemory>
    ensures { IfOk result (λ of. of ≡ parameter_subtype found.now bounds) }
{
    let base = found.of.copy(alloc)?;
    let bounds = Some(bounds.unwrap_or(found.values));
    let subtype = Subtype { base, bounds };
    let types = found.types.share()?;
    let literals = Names::new(alloc, Seq::empty(alloc))?;
    Ok(SubtypeView {
        subtype,
        types,
        literals,
    })
}

/// The declaration of a loop's parameter: a constant without a static value, in this word of the frame.
fn parameter_declaration(
    alloc: Global,
    env: &Environment,
    name: &[u8],
    found: &LoopType,
    bounds: Option<Bounds>,
    word: u32,
) -> Result<Declaration, NoMemory>
    ensures { IfOk result (λ declared. declared ≡ parameter_declaration env.now name.now found.now bounds word) }
{
    let depth = env.progress.depth;
    let of = parameter_subtype(alloc, found, bounds)?;
    let view = object_view(alloc, &of, true, None, ObjectPlace::Frame { depth, word });
    drop(of);
    let view = view?;
    let name = Name::from_slice(alloc, name)?;
    Ok(Declaration { name, view })
}

/// Makes a single declaration visible.
///
/// # Errors
/// `NoMemory` if the allocator refuses memory.
pub fn declare_alone(
    alloc: Global,
    env: &mut Environment,
    declaration: Declaration,
) -> Result<(), NoMemory>
    requires { 0 < length env.old.scope.regions }
    ensures declared { OnOk result (env.new ≡ with_declarations env.old (declaration ∷ [])) }
    ensures depth { length env.new.scope.regions ≡ length env.old.scope.regions }
{
    let mut all = Seq::empty(alloc);
    all.push(declaration)?;
    env.declare(all.as_slice())
}

/// Declares a loop's parameter with the type of its range.
fn declare_found(
    alloc: Global,
    env: &mut Environment,
    name: &[u8],
    found: &LoopType,
    bounds: Option<Bounds>,
    word: u32,
) -> Result<(), NoMemory>
    requires { 0 < length env.old.scope.regions }
    ensures { OnOk result (env.new ≡ parameter_declared env.old name.now found.now bounds word) }
{
    let declaration = parameter_declaration(alloc, env, name, found, bounds, word)?;
    env.progress.count(name)?;
    declare_alone(alloc, env, declaration)
}

/// Declares the parameter of a loop whose range is right, with the type of that range, which was read last (ARM 5.5(9)).
///
/// # Errors
/// `NoMemory` if the allocator refuses memory.
pub fn declare_parameter(
    alloc: Global,
    state: &mut CheckState,
    parameter: &Identifier,
    range: &LoopRange,
    words: LoopWords,
) -> Result<(), NoMemory>
    ensures { OnOk result (state.new ≡ with_parameter state.old (identifier_label parameter.now) (range_model range.now) words) }
{
    if state.is_nowhere() {
        return Ok(());
    }
    let bounds = parameter_bounds(range);
    match &state.parameter {
        Some(found) => declare_found(
            alloc,
            &mut state.env,
            parameter.name.as_slice(),
            found,
            bounds,
            words.parameter,
        ),
        None => Ok(()),
    }
}
