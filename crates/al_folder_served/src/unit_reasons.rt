// Why a build checked a unit, or why not, as it is printed.
ghost use Rattle.std.specs.Prelude.{◌≡◌, ◌++◌, ℕ, List, Option, IfOk, OnOk, codes, map, option_map};
ghost use Rattle.std.specs.List.{flat_map};
ghost use Rattle.al_session_stream.specs.Output.{Adds};
ghost use Rattle.al_folder.specs.Parts.{part_word};
ghost use Rattle.al_folder_served.specs.Told.{line_end};
ghost use Rattle.al_folder_served.specs.UnitReasons.{TellsWhy, asks_why, lines_text, named, part_line, part_of, part_text, parts_text};

use crate::failure::Failure;
use crate::library::FolderLibrary;
use crate::screen::Screen;
use al_base::{NoMemory, UnitKey, UnitKind, folded};
use al_session_stream::Sink;
use std::alloc::Global;

/// The name of the unit of which the line asks why it was checked.
pub fn asks_why(line: &[u8]) -> Option<&[u8]>
    ensures { option_map (λ name. name.now) result ≡ asks_why line.now }
{
    line.strip_prefix(b"why ".as_slice())
}

/// Prints why the last build checked the unit of this name, or why not: a line for each of its parts, which begins with the part if there are several.
///
/// # Errors
///
/// A [`Failure`] if an output can't be written or memory runs out.
pub fn tell_why<L: FolderLibrary, O: Sink, E: Sink>(
    alloc: Global,
    screen: &mut Screen<O, E>,
    library: &L,
    name: &[u8],
) -> Result<(), Failure>
    ensures told { OnOk result (TellsWhy (L.is_why library.now) (Adds E.written E.faults E.waits screen.old.error.sink screen.new.error.sink screen.old.error.so_far screen.new.error.so_far) screen.old.is_open name.now) }
    ensures quiet { screen.new.output ≡ screen.old.output }
{
    let mut parts = Vec::new(alloc);
    add_part(alloc, library, name, UnitKind::Decl, &mut parts)?;
    add_part(alloc, library, name, UnitKind::Body, &mut parts)?;
    add_part(alloc, library, name, UnitKind::Sub, &mut parts)?;
    tell_found(alloc, screen, name, parts.as_slice())?;
    Ok(())
}

// Adds why the last build checked a part of the unit, or why not, if there is that part.
fn add_part<L: FolderLibrary>(
    alloc: Global,
    library: &L,
    name: &[u8],
    kind: UnitKind,
    parts: &mut Vec<(UnitKind, Vec<u8>)>,
) -> Result<(), NoMemory>
    ensures { OnOk result ((told : Option (List ℕ)) × L.is_why library.now (named name.now kind) told × (map part_text parts.new.items ≡ map part_text parts.old.items ++ part_of kind told)) }
{
    let unit = UnitKey {
        name: folded(alloc, name)?,
        kind,
    };
    if let Some(words) = library.why(alloc, &unit)? {
        parts.push((kind, words))?;
    }
    Ok(())
}

// Prints these parts of the unit, or that there is no such unit.
fn tell_found<O: Sink, E: Sink>(
    alloc: Global,
    screen: &mut Screen<O, E>,
    name: &[u8],
    parts: &[(UnitKind, Vec<u8>)],
) -> Result<(), Failure>
    ensures told { OnOk result (Adds E.written E.faults E.waits screen.old.error.sink screen.new.error.sink screen.old.error.so_far screen.new.error.so_far (line_end screen.old.is_open ++ parts_text name.now (map part_text parts.now))) }
    ensures quiet { screen.new.output ≡ screen.old.output }
{
    if parts.is_empty() {
        screen.tell_line(&[b"no unit ", name])?;
        return Ok(());
    }
    let text = text_of(alloc, name, parts)?;
    screen.tell(text.as_slice())?;
    Ok(())
}

// A line for each of these parts of the unit.
fn text_of(alloc: Global, name: &[u8], parts: &[(UnitKind, Vec<u8>)]) -> Result<Vec<u8>, NoMemory>
    ensures { IfOk result (λ text. text.items ≡ lines_text name.now (map part_text parts.now)) }
{
    let mut text = Vec::new(alloc);
    match parts {
        [one] => add_end(&mut text, one.1.as_slice())?,
        _ => add_lines(&mut text, name, parts)?,
    }
    Ok(text)
}

// Adds a line for each of these parts of the unit, which begins with the part.
fn add_lines(text: &mut Vec<u8>, name: &[u8], parts: &[(UnitKind, Vec<u8>)]) -> Result<(), NoMemory>
    ensures { OnOk result (text.new.items ≡ text.old.items ++ flat_map (part_line name.now) (map part_text parts.now)) }
{
    for part in parts {
        add_line(text, name, part.0, part.1.as_slice())?;
    }
    Ok(())
}

// Adds a line for a part of the unit.
fn add_line(text: &mut Vec<u8>, name: &[u8], kind: UnitKind, words: &[u8]) -> Result<(), NoMemory>
    ensures { OnOk result (text.new.items ≡ text.old.items ++ part_line name.now (kind, words.now)) }
{
    text.extend_from_slice(part_word(kind))?;
    text.extend_from_slice(name)?;
    text.extend_from_slice(b": ")?;
    add_end(text, words)?;
    Ok(())
}

// Adds the words with the end of the line.
fn add_end(text: &mut Vec<u8>, words: &[u8]) -> Result<(), NoMemory>
    ensures { OnOk result (text.new.items ≡ text.old.items ++ (words.now ++ codes "\n")) }
{
    text.extend_from_slice(words)?;
    text.extend_from_slice(b"\n")?;
    Ok(())
}

// The words before the name of a part of a unit.
fn part_word(kind: UnitKind) -> &'static [u8]
    ensures { result.now ≡ part_word kind }
{
    match kind {
        UnitKind::Decl => b"declaration of ",
        UnitKind::Body => b"body of ",
        UnitKind::Sub => b"subunit ",
    }
}
