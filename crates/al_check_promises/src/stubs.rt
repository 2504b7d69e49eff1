// Whether the stubs of a unit are shown to its subunits (ARM 10.1.3).
ghost use Rattle.std.specs.Prelude.{◌≡◌, ◌∷◌, [], ◌&&◌, ◌==◌, not, IfOk, unwrap_or};
ghost use Rattle.std.specs.List.{flat_map, list_all, list_any};
ghost use Rattle.std.specs.Option.{option_copied};
ghost use Rattle.std.specs.Str.{bytes_eq};
ghost use Rattle.al_base.specs.declared.unit_key.UnitKind.TheVariants.{Decl};
ghost use Rattle.al_view.specs.Interfaces.{views_of};
ghost use Rattle.al_view.specs.Symbols.{same_kind};
ghost use Rattle.al_view.specs.ViewUses.{link, view_uses};
ghost use Rattle.al_view.specs.declared.link.LinkKind.TheVariants.{Code};
ghost use Rattle.al_unit_graph.specs.Views.{header_model};
ghost use Rattle.al_query_outcome.specs.Defines.{is_simple};
ghost use Rattle.al_query_outcome.specs.Left.{first_view, one_view, separate};
ghost use Rattle.al_query_outcome.specs.Tables.{before_stub, interface_of};
ghost use Rattle.al_check_promises.specs.Links.{is_among};
ghost use Rattle.al_check_promises.specs.SelfChecks.{is_told_stub};

use crate::allowed::shown_of;
use crate::checked::SoundUnit;
use al_base::{NoMemory, UnitKey, UnitKind};
use al_query_outcome::{Parts, StubDeclarations};
use al_unit_graph::Header;
use al_view::{Interface, LinkKind, Symbol, View};
use std::alloc::Global;

/// Whether a name has no dot.
fn is_simple(name: &[u8]) -> bool
    ensures { result ≡ is_simple name.now }
{
    name.iter().all(|byte| !(*byte == b'.'))
}

/// Whether the unit's header has a stub with this name.
fn is_named(header: &Header, stub: &[u8]) -> bool
    ensures { result ≡ list_any (bytes_eq stub.now) (header_model header.now).stubs }
{
    header.stubs.iter().any(|name| stub == name.as_slice())
}

/// What is declared before the first stub with this name, if there is one.
fn before<'a>(parts: &'a Parts, stub: &[u8]) -> Option<&'a Interface>
    ensures { option_copied result ≡ before_stub parts.now.stubs stub.now }
{
    let answered = parts
        .stubs
        .as_slice()
        .iter()
        .find(|answered| answered.stub.as_slice() == stub)?;
    Some(&answered.before)
}

/// The views before that stub under the reserved word `separate`, which is no identifier.
fn told_views<'a>(parts: &'a Parts, stub: &[u8]) -> &'a [View]
    ensures { result.now ≡ views_of (unwrap_or (before_stub parts.now.stubs stub.now) []) separate }
{
    match before(parts, stub) {
        Some(before) => before.views(b"separate"),
        None => &[],
    }
}

/// The first of these views, if any.
fn first_of(views: &[View]) -> &[View]
    ensures { result.now ≡ one_view (first_view views.now) }
{
    match views {
        [_, ..] => &views[..1],
        [] => &[],
    }
}

/// Whether these views show the code of the declaration with this symbol.
fn show_code(alloc: Global, views: &[View], symbol: &Symbol) -> Result<bool, NoMemory>
    ensures { IfOk result (λ b. b ≡ is_among (flat_map view_uses views.now) (link Code symbol.now)) }
{
    let shown = shown_of(alloc, views)?;
    Ok(shown.contains(LinkKind::Code, symbol))
}

/// Whether the unit is a declaration.
fn is_declaration(unit: &UnitKey) -> bool
    ensures { result ≡ same_kind unit.now.kind Decl }
{
    matches!(unit.kind, UnitKind::Decl)
}

/// Whether a stub is in a body or a subunit, has a name that the header has, and its subprogram is shown to its subunit.
fn is_told(
    alloc: Global,
    unit: &UnitKey,
    header: &Header,
    sound: &SoundUnit,
    stub: &StubDeclarations,
) -> Result<bool, NoMemory>
    ensures { IfOk result (λ b. b ≡ is_told_stub unit.now (header_model header.now) (interface_of sound.now.properties sound.now.parts) stub.now) }
{
    let name = stub.stub.as_slice();
    let views = first_of(told_views(&sound.parts, name));
    let answered = show_code(alloc, views, &stub.symbol)?;
    Ok(!is_declaration(unit) && (is_named(header, name) && (is_simple(name) && answered)))
}

/// Whether all stubs are shown to their subunits.
pub(crate) fn are_told(
    alloc: Global,
    unit: &UnitKey,
    header: &Header,
    sound: &SoundUnit,
) -> Result<bool, NoMemory>
    ensures { IfOk result (λ b. b ≡ list_all (is_told_stub unit.now (header_model header.now) (interface_of sound.now.properties sound.now.parts)) sound.now.parts.stubs) }
{
    for stub in sound.parts.stubs.as_slice() {
        if !is_told(alloc, unit, header, sound, stub)? {
            return Ok(false);
        }
    }
    Ok(true)
}
