// Copies of types.
ghost use Rattle.std.specs.Prelude.{◌≡◌, IfOk};

use al_base::{Name, NoMemory};
use al_view::{Component, Layout, Seq, TypeDefinition, TypeView};
use std::alloc::Global;

fn copied_component(alloc: Global, of: &Component) -> Result<Component, NoMemory>
    ensures { IfOk result (λ copy. copy ≡ of.now) }
{
    let name = Name::from_slice(alloc, of.name.as_slice())?;
    let subtype = of.subtype.copy(alloc)?;
    Ok(Component { name, subtype })
}

fn copied_components(alloc: Global, of: &[Component]) -> Result<Seq<Component>, NoMemory>
    ensures { IfOk result (λ copies. copies ≡ of.now) }
{
    let mut copies = Seq::empty(alloc);
    for component in of {
        copies.push(copied_component(alloc, component)?)?;
    }
    Ok(copies)
}

fn copied_definition(alloc: Global, of: &TypeDefinition) -> Result<TypeDefinition, NoMemory>
    ensures { IfOk result (λ copy. copy ≡ of.now) }
{
    match of {
        TypeDefinition::Integer(bounds) => Ok(TypeDefinition::Integer(*bounds)),
        TypeDefinition::Enumeration { literals } => Ok(TypeDefinition::Enumeration {
            literals: *literals,
        }),
        TypeDefinition::Array { index, component } => {
            let index = index.copy(alloc)?;
            let component = component.copy(alloc)?;
            Ok(TypeDefinition::Array { index, component })
        }
        TypeDefinition::Record(components) => {
            let components = copied_components(alloc, components.as_slice())?;
            Ok(TypeDefinition::Record(components))
        }
        TypeDefinition::Time => Ok(TypeDefinition::Time),
        TypeDefinition::Private => Ok(TypeDefinition::Private),
    }
}

fn copied_offsets(alloc: Global, of: &[u32]) -> Result<Seq<u32>, NoMemory>
    ensures { IfOk result (λ copies. copies ≡ of.now) }
{
    let offsets = Vec::from_slice(alloc, of)?;
    Ok(Seq::new(offsets))
}

/// A copy of the layout.
///
/// # Errors
///
/// `NoMemory` if the allocator refuses memory.
pub fn copied_layout(alloc: Global, of: &Layout) -> Result<Layout, NoMemory>
    ensures { IfOk result (λ copy. copy ≡ of.now) }
{
    match of {
        Layout::Scalar => Ok(Layout::Scalar),
        Layout::Array { component, words } => Ok(Layout::Array {
            component: *component,
            words: *words,
        }),
        Layout::Record { offsets, words } => {
            let offsets = copied_offsets(alloc, offsets.as_slice())?;
            Ok(Layout::Record {
                offsets,
                words: *words,
            })
        }
        Layout::Words(words) => Ok(Layout::Words(*words)),
    }
}

/// A copy of the type.
///
/// # Errors
///
/// `NoMemory` if the allocator refuses memory.
pub fn copied_type(alloc: Global, of: &TypeView) -> Result<TypeView, NoMemory>
    ensures { IfOk result (λ copy. copy ≡ of.now) }
{
    let symbol = of.symbol.copy(alloc)?;
    let definition = copied_definition(alloc, &of.definition)?;
    let layout = copied_layout(alloc, &of.layout)?;
    Ok(TypeView {
        symbol,
        definition,
        layout,
    })
}
