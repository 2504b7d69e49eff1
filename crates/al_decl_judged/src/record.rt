// Record types (ARM 3.8).
ghost use Rattle.std.specs.Prelude.{◌≡◌, ◌≤◌, ◌++◌, [], ◌∷◌, IfOk, map, sum};
ghost use Rattle.al_decl_judged.specs.Layouts.{limited, offsets_from};
ghost use Rattle.al_decl_judged.specs.Types.{component_of, components_of, part_types, record_type, record_view, words_of};

use crate::array::MOST_WORDS;
use crate::type_list::{add_types, words_of};
use al_base::{Name, NoMemory, Place};
use al_base_fault::{CheckResult, CheckRule, Fault};
use al_view::{Component, Layout, Seq, SubtypeView, Symbol, TypeDefinition, TypeView, Types};
use al_view_predefined::StandardTypes;
use std::alloc::Global;

/// A component of a record type where it is declared.
#[derive(Drop)]
pub struct Part {
    /// The name in lower case.
    pub name: Name,
    /// The subtype.
    pub of: SubtypeView,
}

fn words_of_parts(
    alloc: Global,
    standard: &StandardTypes,
    parts: &[Part],
) -> Result<Vec<u32>, NoMemory>
    ensures { IfOk result (λ words. words.items ≡ map (λ p. words_of p.of) parts.now) }
{
    let mut words = Vec::new(alloc);
    for part in parts {
        words.push(words_of(standard, &part.of))?;
    }
    Ok(words)
}

/// The sum of these, if a value may have so many words.
fn total(words: &[u32]) -> Option<u32>
    ensures { result ≡ limited (sum words.now) }
{
    let mut total: u32 = 0;
    for more in words {
        total = total.saturating_add(*more);
    }
    if total <= MOST_WORDS {
        Some(total)
    } else {
        None
    }
}

/// The first words of components of these lengths: each begins where the one before it ends.
fn offsets(alloc: Global, words: &[u32]) -> Result<Seq<u32>, NoMemory>
    requires { sum words.now ≤ 4096 }
    ensures { IfOk result (λ offsets. offsets ≡ offsets_from 0 words.now) }
{
    let mut offsets = Seq::empty(alloc);
    let mut place: u32 = 0;
    for more in words {
        offsets.push(place)?;
        place = place.saturating_add(*more);
    }
    Ok(offsets)
}

fn components_of(alloc: Global, parts: &[Part]) -> Result<Seq<Component>, NoMemory>
    ensures { IfOk result (λ components. components ≡ components_of parts.now) }
{
    let mut components = Seq::empty(alloc);
    for part in parts {
        components.push(component_of(alloc, part)?)?;
    }
    Ok(components)
}

fn component_of(alloc: Global, part: &Part) -> Result<Component, NoMemory>
    ensures { IfOk result (λ component. component ≡ component_of part.now) }
{
    let name = Name::from_slice(alloc, part.name.as_slice())?;
    let subtype = part.of.subtype.copy(alloc)?;
    Ok(Component { name, subtype })
}

/// The types of the components, each once.
fn part_types(
    alloc: Global,
    standard: &StandardTypes,
    parts: &[Part],
) -> Result<Seq<TypeView>, NoMemory>
    ensures { IfOk result (λ types. types ≡ part_types parts.now) }
{
    let mut types = Seq::empty(alloc);
    for part in parts {
        add_types(alloc, standard, &mut types, part.of.types.as_slice())?;
    }
    Ok(types)
}

fn record_view(
    alloc: Global,
    symbol: &Symbol,
    parts: &[Part],
    layout: Layout,
) -> Result<TypeView, NoMemory>
    ensures { IfOk result (λ view. view ≡ record (record_view symbol.now parts.now) { layout = layout }) }
{
    let symbol = symbol.copy(alloc)?;
    let components = components_of(alloc, parts)?;
    Ok(TypeView {
        symbol,
        definition: TypeDefinition::Record(components),
        layout,
    })
}

/// The types that a record type of these components is made of and, last, the type itself.
fn record_types(
    alloc: Global,
    standard: &StandardTypes,
    symbol: &Symbol,
    parts: &[Part],
    layout: Layout,
) -> Result<Types, NoMemory>
    ensures { IfOk result (λ types. types ≡ part_types parts.now ++ record (record_view symbol.now parts.now) { layout = layout } ∷ []) }
{
    let mut types = part_types(alloc, standard, parts)?;
    types.push(record_view(alloc, symbol, parts, layout)?)?;
    let types = Types::new(alloc, types)?;
    Ok(types)
}

/// A record type after the types that it is made of (ARM 3.8), each once and those of Standard left out. A null record has no components.
/// # Errors
/// `NoMemory` if the allocator refuses memory. The inner error is E305 at its defining name if a value would have more than 4,096 words.
pub fn record_type(
    alloc: Global,
    standard: &StandardTypes,
    symbol: &Symbol,
    name: Place,
    parts: &[Part],
) -> Result<CheckResult<Types>, NoMemory>
    ensures { IfOk result (λ checked. checked ≡ record_type symbol.now name parts.now) }
{
    let each = words_of_parts(alloc, standard, parts)?;
    let Some(words) = total(each.as_slice()) else {
        return Ok(Err(Fault {
            place: name,
            rule: CheckRule::OutOfLimits,
        }));
    };
    let offsets = offsets(alloc, each.as_slice())?;
    let layout = Layout::Record { offsets, words };
    let types = record_types(alloc, standard, symbol, parts, layout)?;
    Ok(Ok(types))
}
