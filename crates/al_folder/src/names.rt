// Names of sources and of the main unit.
ghost use Rattle.std.specs.Prelude.{◌≡◌, map, IfOk, option_map};
ghost use Rattle.al_folder.specs.Names.{ending, is_body_file, has_source_ending, dot_for_hyphen, told_name, unit_of};

use al_base::{Name, NoMemory, folded, is_unit_name};
use std::alloc::Global;

/// The last four bytes of a name; all if there are fewer.
fn ending(name: &[u8]) -> &[u8]
    ensures { result.now ≡ ending name.now }
{
    &name[name.len().saturating_sub(4)..]
}

// Whether a file's name is that of a body.
fn is_body_file(name: &[u8]) -> bool
    ensures { result ≡ is_body_file name.now }
{
    ending(name) == b".adb".as_slice()
}

/// Whether a file's name ends as that of a source does: in `.ads` or `.adb`.
pub fn has_source_ending(name: &[u8]) -> bool
    ensures { result ≡ has_source_ending name.now }
{
    ending(name) == b".ads".as_slice() || is_body_file(name)
}

// The byte in a unit's name for one in its file's name.
fn dot_for_hyphen(byte: u8) -> u8
    ensures { result ≡ dot_for_hyphen byte }
{
    if byte == b'-' || byte == b'~' {
        b'.'
    } else {
        byte
    }
}

/// The name that a word gives: if it is the name of a body's file, that of its unit, and else the word itself.
fn told_name(alloc: Global, word: &[u8]) -> Result<Vec<u8>, NoMemory>
    ensures { IfOk result (λ name. name.items ≡ told_name word.now) }
{
    if !is_body_file(word) {
        return Ok(Vec::from_slice(alloc, word)?);
    }
    let stem = &word[..word.len().saturating_sub(4)];
    let name = stem.iter().map(|b| dot_for_hyphen(*b)).collect(alloc)?;
    Ok(name)
}

/// The unit that a word names, as `hello` or `hello.adb`, in lower case; `None` if it names none.
///
/// # Errors
///
/// `NoMemory` if the allocator refuses memory.
pub fn unit_of(alloc: Global, word: &[u8]) -> Result<Option<Name>, NoMemory>
    ensures { IfOk result (λ unit. unit ≡ unit_of word.now) }
{
    let name = told_name(alloc, word)?;
    if is_unit_name(&name) {
        let unit = folded(alloc, &name)?;
        Ok(Some(unit))
    } else {
        Ok(None)
    }
}
