// Types, words and ranges as labels show them.
ghost use Rattle.std.specs.Prelude.{◌≡◌, option_map};
ghost use Rattle.std.specs.Option.{option_copied};
ghost use Rattle.al_overload.specs.PickedTypes.{array_in, array_of, component_at, count_of, indexing, indexing_of, is_scalar_definition, is_scalar_type, length_of, placed, placed_by, placed_in, positions_in, positions_of, range_in, type_range, words_in};

use al_view::{Bounds, Component, Layout, Subtype, Symbol, TypeDefinition, TypeView, Types};
use al_view_predefined::StandardTypes;

/// How many words a value of a type has; none if the type isn't known.
pub fn words_in(standard: &StandardTypes, types: &Types, of: &Symbol) -> u32
    ensures { result ≡ words_in types.now of.now }
{
    standard.words_of(types, of).unwrap_or(0)
}

/// The range of a scalar subtype: its own, or else that of its type.
pub fn range_in(standard: &StandardTypes, types: &Types, subtype: &Subtype) -> Option<Bounds>
    ensures { result ≡ range_in types.now subtype.now }
{
    match subtype.bounds {
        Some(bounds) => Some(bounds),
        None => standard.bounds_of(types, &subtype.base),
    }
}

fn positions_of(definition: &TypeDefinition) -> Option<Bounds>
    ensures { result ≡ positions_of definition.now }
{
    match definition {
        TypeDefinition::Enumeration { .. } => definition.bounds(),
        TypeDefinition::Integer(_) => None,
        TypeDefinition::Array { .. } => None,
        TypeDefinition::Record(_) => None,
        TypeDefinition::Time => None,
        TypeDefinition::Private => None,
    }
}

/// The range of a whole enumeration; none of another type.
pub fn positions_in(standard: &StandardTypes, types: &Types, of: &Symbol) -> Option<Bounds>
    ensures { result ≡ positions_in types.now of.now }
{
    match standard.type_of(types, of) {
        Some(of) => positions_of(&of.definition),
        None => None,
    }
}

fn is_scalar_definition(definition: &TypeDefinition) -> bool
    ensures { result ≡ is_scalar_definition definition.now }
{
    match definition {
        TypeDefinition::Integer(_) => true,
        TypeDefinition::Enumeration { .. } => true,
        TypeDefinition::Array { .. } => false,
        TypeDefinition::Record(_) => false,
        TypeDefinition::Time => false,
        TypeDefinition::Private => false,
    }
}

/// Whether values are seen to be one word that is compared by its order.
pub fn is_scalar_type(standard: &StandardTypes, types: &Types, of: &Symbol) -> bool
    ensures { result ≡ is_scalar_type types.now of.now }
{
    match standard.type_of(types, of) {
        Some(of) => is_scalar_definition(&of.definition),
        None => false,
    }
}

/// How many values a range has.
pub fn length_of(bounds: Bounds) -> i64
    ensures { result ≡ length_of bounds }
{
    if bounds.high < bounds.low {
        return 0;
    }
    bounds.high.saturating_sub(bounds.low).saturating_add(1)
}

/// How many values a range has, as a number of components.
pub fn count_of(bounds: Bounds) -> u32
    ensures { result ≡ count_of bounds }
{
    let length = length_of(bounds).unsigned_abs();
    length.min(4294967295) as u32
}

fn array_in(definition: &TypeDefinition) -> Option<(&Subtype, &Subtype)>
    ensures { option_map (λ array. (array.0.now, array.1.now)) result ≡ array_in definition.now }
{
    match definition {
        TypeDefinition::Array { index, component } => Some((index, component)),
        TypeDefinition::Integer(_) => None,
        TypeDefinition::Enumeration { .. } => None,
        TypeDefinition::Record(_) => None,
        TypeDefinition::Time => None,
        TypeDefinition::Private => None,
    }
}

/// An array's index and component.
fn array_of<'a>(
    standard: &'a StandardTypes,
    types: &'a Types,
    of: &Symbol,
) -> Option<(&'a Subtype, &'a Subtype)>
    ensures { option_map (λ array. (array.0.now, array.1.now)) result ≡ array_of types.now of.now }
{
    match standard.type_of(types, of) {
        Some(of) => array_in(&of.definition),
        None => None,
    }
}

/// The type of an index, the index's range, and the component that it leads to.
#[derive(Drop)]
pub struct Indexing<'a> {
    /// The type of the index.
    pub index: &'a Symbol,
    /// The range of the index.
    pub bounds: Bounds,
    /// The component's subtype.
    pub component: &'a Subtype,
}

/// How components of an array are indexed.
pub fn how_indexed<'a>(
    standard: &'a StandardTypes,
    types: &'a Types,
    of: &Symbol,
) -> Option<Indexing<'a>>
    ensures { option_map (λ by. indexing_of by.index.now by.bounds by.component.now) result ≡ indexing types.now of.now }
{
    let (index, component) = array_of(standard, types, of)?;
    let bounds = range_in(standard, types, index)?;
    Some(Indexing {
        index: &index.base,
        bounds,
        component,
    })
}

fn placed<'a>(
    name: &[u8],
    components: &'a [Component],
    offsets: &[u32],
) -> Option<(&'a Subtype, u32)>
    ensures { option_map (λ c. (c.0.now, c.1)) result ≡ placed name.now components.now offsets.now }
{
    let mut left = offsets;
    for component in components {
        let [offset, others @ ..] = left else {
            return None;
        };
        if name == component.name.as_slice() {
            return Some((&component.subtype, *offset));
        }
        left = others;
    }
    None
}

fn placed_by<'a>(
    name: &[u8],
    components: &'a [Component],
    layout: &Layout,
) -> Option<(&'a Subtype, u32)>
    ensures { option_map (λ c. (c.0.now, c.1)) result ≡ placed_by name.now components.now layout.now }
{
    match layout {
        Layout::Record { offsets, .. } => placed(name, components, offsets.as_slice()),
        Layout::Scalar => None,
        Layout::Array { .. } => None,
        Layout::Words(_) => None,
    }
}

fn placed_in<'a>(name: &[u8], of: &'a TypeView) -> Option<(&'a Subtype, u32)>
    ensures { option_map (λ c. (c.0.now, c.1)) result ≡ placed_in name.now of.now.layout of.now.definition }
{
    match &of.definition {
        TypeDefinition::Record(components) => placed_by(name, components.as_slice(), &of.layout),
        TypeDefinition::Integer(_) => None,
        TypeDefinition::Enumeration { .. } => None,
        TypeDefinition::Array { .. } => None,
        TypeDefinition::Time => None,
        TypeDefinition::Private => None,
    }
}

/// The component of that name, with its first word within the record.
pub fn component_at<'a>(
    standard: &'a StandardTypes,
    name: &[u8],
    types: &'a Types,
    of: &Symbol,
) -> Option<(&'a Subtype, u32)>
    ensures { option_map (λ c. (c.0.now, c.1)) result ≡ component_at name.now types.now of.now }
{
    match standard.type_of(types, of) {
        Some(of) => placed_in(name, of),
        None => None,
    }
}
