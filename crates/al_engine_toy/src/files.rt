// The files of a toy library.
ghost use Rattle.std.specs.Prelude.{◌≡◌, ◌≤◌, IfOk, IfSome, OnOk, length};
ghost use Rattle.std.specs.BTreeMap.{insert_entry};
ghost use Rattle.al_base.specs.Files.{name_cmp};
ghost use Rattle.al_unit_graph.specs.Views.{source_model};
ghost use Rattle.al_unit_faults.specs.Read.{AreHeaded, NameParentBodies};
ghost use Rattle.al_engine_toy.specs.Toys.{AreToys, ToysAreRead, header_in, source_of, toy_library};

use crate::reading::header_in;
use al_base::{Files, Name, NoMemory};
use al_unit_graph::{Contents, Source, Sources};
use std::alloc::Global;
use std::rc::Rc;

/// Each unit's header is that of its source, and equal sources are parsed alike. It does nothing: its contract is the law.
pub fn toys_are_read()
    ensures { ToysAreRead }
{}

/// The file with this source.
fn source_of(alloc: Global, text: &Rc<Vec<u8>>) -> Result<Rc<Source>, NoMemory>
    ensures { IfOk result (λ source. source_model source.value ≡ source_of text.now.value.items) }
{
    let contents = Contents::Headed(header_in(alloc, text.as_slice())?);
    let text = text.clone()?;
    match Rc::new(alloc, Source { text, contents }) {
        Ok(source) => Ok(source),
        Err(_) => Err(NoMemory),
    }
}

/// The file as it was before, if it had this source.
fn held_with<'a>(before: &'a Sources, file: &[u8], text: &[u8]) -> Option<&'a Rc<Source>>
    requires { AreToys before.now }
    ensures { IfSome result (λ source. source_model source.now.value ≡ source_of text.now) }
{
    let source = before.shared_at(file)?;
    if source.text.as_slice() != text {
        return None;
    }
    Some(source)
}

/// The file with this source: shared if it had this source before, and else parsed.
fn held_after(
    alloc: Global,
    before: &Sources,
    file: &[u8],
    text: &Rc<Vec<u8>>,
) -> Result<Rc<Source>, NoMemory>
    requires { AreToys before.now }
    ensures { IfOk result (λ source. source_model source.value ≡ source_of text.now.value.items) }
{
    if let Some(source) = held_with(before, file, text.as_slice()) {
        let source = source.clone()?;
        return Ok(source);
    }
    source_of(alloc, text)
}

/// Adds a file.
fn add_file(
    alloc: Global,
    before: &Sources,
    file: &[u8],
    text: &Rc<Vec<u8>>,
    sources: &mut Sources,
) -> Result<(), NoMemory>
    requires name { length file.now ≤ 255 }
    requires toys { AreToys before.now }
    ensures { OnOk result (sources.new ≡ insert_entry name_cmp sources.old file.now (source_of text.now.value.items)) }
{
    let name = Name::from_slice(alloc, file)?;
    let source = held_after(alloc, before, file, text)?;
    sources.insert(name, source)
}

/// The files with these sources. A file that had the same source before is shared.
///
/// # Errors
///
/// `NoMemory` if the allocator refuses memory.
pub fn sources_after(alloc: Global, files: &Files, before: &Sources) -> Result<Sources, NoMemory>
    requires { AreToys before.now }
    ensures { IfOk result (λ sources. sources ≡ toy_library files.now) }
{
    let list = files.shared()?;
    let mut sources = Sources::new(alloc);
    for (name, text) in list.iter() {
        add_file(alloc, before, name, text, &mut sources)?;
    }
    Ok(sources)
}

/// The files with these sources.
///
/// # Errors
///
/// `NoMemory` if the allocator refuses memory.
pub fn sources_of(alloc: Global, files: &Files) -> Result<Sources, NoMemory>
    ensures sources { IfOk result (λ sources. sources ≡ toy_library files.now) }
    ensures headed { IfOk result (λ sources. AreHeaded header_in sources) }
    ensures bodies { IfOk result (λ sources. NameParentBodies sources) }
{
    let none = Sources::new(alloc);
    let sources = sources_after(alloc, files, &none)?;
    Ok(sources)
}
