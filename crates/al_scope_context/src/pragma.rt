// Pragmas in context clauses (ARM 10.2.1).
ghost use Rattle.std.specs.Prelude.{◌≡◌, ◌++◌, ◌||◌, codes, map, IfOk};
ghost use Rattle.std.specs.List.{list_all};
ghost use Rattle.std.specs.Option.{option_map};
ghost use Rattle.std.specs.Str.{bytes_eq};
ghost use Rattle.al_tree.specs.DeclarationViews.{compound_model, pragma_arguments_model, pragma_model};
ghost use Rattle.al_scope_context.specs.ContextPragmas.{all_withed, context_pragma_fault, full_name, is_withed};

use crate::unless_right;
use al_base::{NoMemory, UnitKey};
use al_base_fault::Fault;
use al_tree::{CompoundName, Pragma, PragmaArguments};
use std::alloc::Global;

/// The identifiers of a name with dots between them.
/// # Errors
/// `NoMemory` if the allocator refuses memory.
pub fn full_name(alloc: Global, name: &CompoundName) -> Result<Vec<u8>, NoMemory>
    ensures { IfOk result (λ full. full.items ≡ full_name (compound_model name.now)) }
{
    let mut full = Vec::from_slice(alloc, name.first.name.as_slice())?;
    for selector in name.selectors.as_slice() {
        full.push(b'.')?;
        full.extend_from_slice(selector.name.as_slice())?;
    }
    Ok(full)
}

/// Whether a with clause names the unit.
fn is_withed(alloc: Global, withs: &[UnitKey], name: &CompoundName) -> Result<bool, NoMemory>
    ensures { IfOk result (λ is. is ≡ is_withed withs.now (compound_model name.now)) }
{
    let full = full_name(alloc, name)?;
    let full = full.as_slice();
    Ok(withs.iter().any(|unit| full == unit.name.as_slice()))
}

/// Whether with clauses name all of these units.
fn are_withed(alloc: Global, withs: &[UnitKey], names: &[CompoundName]) -> Result<bool, NoMemory>
    ensures { IfOk result (λ are. are ≡ list_all (is_withed withs.now) (map compound_model names.now)) }
{
    for name in names {
        if !is_withed(alloc, withs, name)? {
            return Ok(false);
        }
    }
    Ok(true)
}

/// Whether there are arguments, and with clauses name all of them.
fn all_withed(
    alloc: Global,
    withs: &[UnitKey],
    arguments: &Option<PragmaArguments>,
) -> Result<bool, NoMemory>
    ensures { IfOk result (λ are. are ≡ all_withed withs.now (option_map pragma_arguments_model arguments.now)) }
{
    match arguments {
        None => Ok(false),
        Some(arguments) => {
            if !is_withed(alloc, withs, &arguments.names.first)? {
                return Ok(false);
            }
            are_withed(alloc, withs, arguments.names.others.as_slice())
        }
    }
}

/// Whether the pragma is Elaborate or Elaborate_All.
fn is_named_elaborate(name: &[u8]) -> bool
    ensures { result ≡ (bytes_eq name.now (codes "elaborate") || bytes_eq name.now (codes "elaborate_all")) }
{
    name == b"elaborate".as_slice() || name == b"elaborate_all".as_slice()
}

/// The fault of a pragma in a context clause, after with clauses of these units: Elaborate and Elaborate_All of some of them are right.
pub(crate) fn context_pragma_fault(
    alloc: Global,
    withs: &[UnitKey],
    pragma: &Pragma,
) -> Result<Option<Fault>, NoMemory>
    ensures { IfOk result (λ fault. fault ≡ context_pragma_fault withs.now (pragma_model pragma.now)) }
{
    if !is_named_elaborate(pragma.name.name.as_slice()) {
        return Ok(unless_right(false, pragma));
    }
    let right = all_withed(alloc, withs, &pragma.arguments)?;
    Ok(unless_right(right, pragma))
}
