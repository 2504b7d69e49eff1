// Names of units (ARM 10.1.1).
ghost use Rattle.std.specs.Prelude.{◌≡◌, map, IfOk, bytes_eq};
ghost use Rattle.std.specs.Option.{option_map};
ghost use Rattle.std.specs.List.{list_any};
ghost use Rattle.al_unit_graph.specs.Names.{ada, ancestors, lineage, parent_of, is_predefined, is_without_file, is_reserved};

use al_base::NoMemory;
use std::alloc::Global;

/// Whether the unit is there without a file: Ada, Ada.Real_Time, Ada.Text_IO (ARM A.2, D.8, A.10).
pub fn is_predefined(name: &[u8]) -> bool
    ensures { result ≡ is_predefined name.now }
{
    name == b"ada".as_slice()
        || name == b"ada.real_time".as_slice()
        || name == b"ada.text_io".as_slice()
}

/// Whether no file declares the unit: Standard (ARM A.1) and those that are there without one.
pub(crate) fn is_without_file(name: &[u8]) -> bool
    ensures { result ≡ is_without_file name.now }
{
    name == b"standard".as_slice() || is_predefined(name)
}

/// Whether the name is Standard, Ada or a descendant's of Ada (ARM A.1, A.2(4)).
pub fn is_reserved(name: &[u8]) -> bool
    ensures { result ≡ is_reserved name.now }
{
    name == b"standard".as_slice() || name == b"ada".as_slice() || descends_from_ada(name)
}

/// Whether one of the ancestors is Ada.
fn descends_from_ada(name: &[u8]) -> bool
    ensures { result ≡ list_any (λ n. bytes_eq n ada) (ancestors name.now) }
{
    for i in 0..name.len() {
        if name[i] == b'.' && &name[..i] == b"ada".as_slice() {
            return true;
        }
    }
    false
}

/// The names of the ancestors, the farthest first, without the unit's own.
///
/// # Errors
///
/// `NoMemory` if the allocator refuses memory.
pub fn ancestors<'a>(alloc: Global, name: &'a [u8]) -> Result<Vec<&'a [u8]>, NoMemory>
    ensures { IfOk result (λ names. map (λ n. n.now) names.items ≡ ancestors name.now) }
{
    let mut names = Vec::new(alloc);
    for i in 0..name.len() {
        if name[i] == b'.' {
            names.push(&name[..i])?;
        }
    }
    Ok(names)
}

/// The names of the ancestors, the farthest first, and the unit's own.
///
/// # Errors
///
/// `NoMemory` if the allocator refuses memory.
pub fn lineage<'a>(alloc: Global, name: &'a [u8]) -> Result<Vec<&'a [u8]>, NoMemory>
    ensures { IfOk result (λ names. map (λ n. n.now) names.items ≡ lineage name.now) }
{
    let mut names = ancestors(alloc, name)?;
    names.push(name)?;
    Ok(names)
}

/// The name of the parent; a root library unit's parent is Standard, and has none here (ARM 10.1.1(10)).
pub fn parent_of(name: &[u8]) -> Option<&[u8]>
    ensures { option_map (λ n. n.now) result ≡ parent_of name.now }
{
    let mut parent = None;
    for i in 0..name.len() {
        if name[i] == b'.' {
            parent = Some(&name[..i]);
        }
    }
    parent
}
