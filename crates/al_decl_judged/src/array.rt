// Array types (ARM 3.6).
ghost use Rattle.std.specs.Prelude.{◌≡◌, ◌*◌, IfOk, option_map, unwrap_or};
ghost use Rattle.al_decl_judged.specs.Layouts.{limited, values_in};
ghost use Rattle.al_decl_judged.specs.Types.{array_type, array_view};

use crate::subtype_views::{bounds_of, is_null};
use crate::type_list::{add_types, words_of};
use al_base::{NoMemory, Place};
use al_base_fault::{CheckResult, CheckRule, Fault};
use al_view::{Bounds, Layout, Seq, SubtypeView, Symbol, TypeDefinition, TypeView, Types};
use al_view_predefined::StandardTypes;
use std::alloc::Global;

/// The most words that a value of a type may have.
pub const MOST_WORDS: u32 = 4096;

/// How many words an array takes that has a component for each value of a range, each of this many words, if a value may have so many.
fn range_words(range: Bounds, component: u32) -> Option<u32>
    ensures { result ≡ limited (values_in range * component) }
{
    if is_null(range) || component == 0 {
        return Some(0);
    }
    let distance = range.high.abs_diff(range.low);
    if distance >= u64::from(MOST_WORDS) {
        return None;
    }
    let words = (distance + 1) * u64::from(component);
    if words <= u64::from(MOST_WORDS) {
        Some(words as u32)
    } else {
        None
    }
}

/// How many words an array over the range of an index takes. An index without a range takes no words.
fn array_words(index: Option<Bounds>, component: u32) -> Option<u32>
    ensures { result ≡ limited (unwrap_or (option_map values_in index) 0 * component) }
{
    match index {
        Some(range) => range_words(range, component),
        None => Some(0),
    }
}

fn array_view(
    alloc: Global,
    symbol: &Symbol,
    index: &SubtypeView,
    component: &SubtypeView,
    layout: Layout,
) -> Result<TypeView, NoMemory>
    ensures { IfOk result (λ view. view ≡ record (array_view symbol.now index.now component.now) { layout = layout }) }
{
    let symbol = symbol.copy(alloc)?;
    let index = index.subtype.copy(alloc)?;
    let component = component.subtype.copy(alloc)?;
    Ok(TypeView {
        symbol,
        definition: TypeDefinition::Array { index, component },
        layout,
    })
}

/// An array type after the types that it is made of (ARM 3.6): those of its index subtype and its component subtype, each once and those of
/// Standard left out.
/// # Errors
/// `NoMemory` if the allocator refuses memory. The inner error is E305 at its defining name if a value would have more than 4,096 words.
pub fn array_type(
    alloc: Global,
    standard: &StandardTypes,
    symbol: &Symbol,
    name: Place,
    index: &SubtypeView,
    component: &SubtypeView,
) -> Result<CheckResult<Types>, NoMemory>
    ensures { IfOk result (λ checked. checked ≡ array_type symbol.now name index.now component.now) }
{
    let each = words_of(standard, component);
    let Some(words) = array_words(bounds_of(standard, index), each) else {
        return Ok(Err(Fault {
            place: name,
            rule: CheckRule::OutOfLimits,
        }));
    };
    let mut types = Seq::empty(alloc);
    add_types(alloc, standard, &mut types, index.types.as_slice())?;
    add_types(alloc, standard, &mut types, component.types.as_slice())?;
    let layout = Layout::Array {
        component: each,
        words,
    };
    types.push(array_view(alloc, symbol, index, component, layout)?)?;
    let types = Types::new(alloc, types)?;
    Ok(Ok(types))
}
