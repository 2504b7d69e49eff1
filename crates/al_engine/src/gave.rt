// What is reported of a build, from its result.
ghost use Rattle.std.specs.Prelude.{◌≡◌, [], IfOk, map, option_map};
ghost use Rattle.std.specs.List.{fold};
ghost use Rattle.std.specs.Option.{option_copied};
ghost use Rattle.std.specs.BTreeSet.{insert_key};
ghost use Rattle.al_base.specs.Files.{name_cmp};
ghost use Rattle.al_unit_graph.specs.Orders.{names_model};
ghost use Rattle.al_engine.specs.Gave.{diagnostics_of, files_reported, order_of, program_of};

use crate::{Compiled, Program};
use al_base::{Diagnostic, NoMemory, UnitKey};
use std::alloc::Global;
use std::collections::BTreeSet;

/// The errors in the files, by file, place and number; none if the partition was bound, or couldn't be. It takes no memory.
pub fn diagnostics_of(compiled: &Compiled) -> &[Diagnostic]
    ensures { result.now ≡ diagnostics_of compiled.now }
{
    match compiled {
        Compiled::Faulty(diagnostics) => diagnostics.as_slice(),
        Compiled::Unbound(_) => &[],
        Compiled::TooLarge(_) => &[],
        Compiled::Made(_) => &[],
    }
}

/// The order in which the partition is elaborated, if there is one. It takes no memory.
pub fn order_of(compiled: &Compiled) -> Option<&[UnitKey]>
    ensures { option_map (λ order. order.now) result ≡ order_of compiled.now }
{
    match compiled {
        Compiled::Faulty(_) => None,
        Compiled::Unbound(_) => None,
        Compiled::TooLarge(order) => Some(order.as_slice()),
        Compiled::Made(program) => Some(program.order.as_slice()),
    }
}

/// The program, if there is one. It takes no memory.
pub fn program_of(compiled: &Compiled) -> Option<&Program>
    ensures { option_copied result ≡ program_of compiled.now }
{
    match compiled {
        Compiled::Faulty(_) => None,
        Compiled::Unbound(_) => None,
        Compiled::TooLarge(_) => None,
        Compiled::Made(program) => Some(program),
    }
}

/// The files for which errors are reported.
///
/// # Errors
///
/// `NoMemory` if the allocator refuses memory.
pub fn files_reported(alloc: Global, compiled: &Compiled) -> Result<BTreeSet<Vec<u8>>, NoMemory>
    ensures { IfOk result (λ files. names_model files.keys ≡ files_reported compiled.now) }
{
    files_of(alloc, diagnostics_of(compiled))
}

/// The files of these errors.
fn files_of(alloc: Global, found: &[Diagnostic]) -> Result<BTreeSet<Vec<u8>>, NoMemory>
    ensures { IfOk result (λ files. names_model files.keys ≡ fold (insert_key name_cmp) [] (map (λ d. d.file) found.now)) }
{
    let mut files = BTreeSet::new(alloc);
    for d in found {
        let name = Vec::from_slice(alloc, d.file.as_slice())?;
        files.insert(name)?;
    }
    Ok(files)
}
