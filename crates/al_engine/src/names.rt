// Names that images can have, and the name of a main subprogram's code.
ghost use Rattle.std.specs.Prelude.{◌≡◌, IfOk, unwrap_or};
ghost use Rattle.std.specs.List.{list_all};
ghost use Rattle.al_link_image.specs.Images.{is_name_byte};
ghost use Rattle.al_base.specs.declared.unit_key.UnitKind.TheVariants.{Body};
ghost use Rattle.al_unit_graph.specs.Library.{declaration_of};
ghost use Rattle.al_query_outcome.specs.Defines.{main_symbol};
ghost use Rattle.al_query_outcome.specs.Left.{own_code};
ghost use Rattle.al_engine.specs.Objects.{is_unit_name};

use al_base::{Name, NoMemory, UnitKey, UnitKind};
use al_query_outcome::last_of;
use al_unit_graph::Sources;
use al_view::{LinkKind, LinkSymbol, Symbol};
use std::alloc::Global;

/// Whether a byte is a letter in lower case, a digit, an underline or a dot.
fn is_name_byte(byte: u8) -> bool
    ensures { result ≡ is_name_byte byte }
{
    (byte >= b'a' && byte <= b'z') || (byte >= b'0' && byte <= b'9') || byte == b'_' || byte == b'.'
}

// Whether all bytes of a name are such bytes.
fn is_of_name_bytes(name: &[u8]) -> bool
    ensures { result ≡ list_all is_name_byte name.now }
{
    name.iter().all(|byte| is_name_byte(*byte))
}

/// Whether an image can have the name of a unit.
pub(crate) fn is_unit_name(name: &[u8]) -> bool
    ensures { result ≡ is_unit_name name.now }
{
    0 < name.len() && (name.len() <= 255 && is_of_name_bytes(name))
}

/// The kind of the unit that declares a subprogram: its declaration, or its body if there is no declaration.
fn declaring(sources: &Sources, name: &[u8]) -> UnitKind
    ensures { (name.now, result) ≡ unwrap_or (declaration_of sources.now name.now) (name.now, Body) }
{
    match sources.declaration_of(name) {
        Some(kind) => kind,
        None => UnitKind::Body,
    }
}

/// The symbol of the code of a library subprogram.
fn own_code(alloc: Global, unit: UnitKey) -> Result<LinkSymbol, NoMemory>
    ensures { IfOk result (λ symbol. symbol ≡ own_code unit) }
{
    let name = Name::from_slice(alloc, last_of(unit.name.as_slice()))?;
    let symbol = Symbol {
        unit,
        name,
        number: 0,
    };
    Ok(LinkSymbol {
        symbol,
        kind: LinkKind::Code,
    })
}

/// The symbol of a main subprogram's code.
///
/// # Errors
///
/// `NoMemory` if the allocator refuses memory.
pub(crate) fn main_symbol(
    alloc: Global,
    sources: &Sources,
    main: &[u8],
) -> Result<LinkSymbol, NoMemory>
    ensures { IfOk result (λ symbol. symbol ≡ main_symbol sources.now main.now) }
{
    let kind = declaring(sources, main);
    let name = Name::from_slice(alloc, main)?;
    let unit = UnitKey { name, kind };
    let symbol = own_code(alloc, unit)?;
    Ok(symbol)
}
