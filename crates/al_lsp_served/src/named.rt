// What files have, by their names.
ghost use Rattle.std.specs.Prelude.{◌≡◌, ℕ, List, Some, OnOk, IfOk, map};
ghost use Rattle.std.specs.BTreeMap.{keys};
ghost use Rattle.al_lsp_served.specs.Named.{held, with_held};

use al_base::NoMemory;
use std::alloc::Global;
use std::collections::BTreeMap;

/// Puts a value under the name of a file; each other file keeps its own.
///
/// # Errors
///
/// `NoMemory` where memory was wanted and not given.
pub fn put_held<X: Drop>(
    alloc: Global,
    named: &mut BTreeMap<Vec<u8>, X>,
    name: &[u8],
    value: X,
) -> Result<(), NoMemory>
    ensures { OnOk result ((other : List ℕ) → held named.new other ≡ with_held (held named.old) name.now (Some value) other) }
{
    let Ok(key) = Vec::from_slice(alloc, name) else {
        drop(value);
        return Err(NoMemory);
    };
    match named.insert(key, value) {
        Ok(_before) => Ok(()),
        Err(_) => Err(NoMemory),
    }
}

/// The names, in their order.
///
/// # Errors
///
/// `NoMemory` where memory was wanted and not given.
pub fn names_of<X>(alloc: Global, named: &BTreeMap<Vec<u8>, X>) -> Result<Vec<&[u8]>, NoMemory>
    ensures { IfOk result (λ names. map (λ name. name.now) names.items ≡ map (λ key. key.items) (keys named.now)) }
{
    let mut names = Vec::new(alloc);
    for name in named.keys() {
        names.push(name.as_slice())?;
    }
    Ok(names)
}
