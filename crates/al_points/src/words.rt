// Declarations in Ada's words.
use al_base::NoMemory;
use al_tree::{LibraryItem, Specification};
use al_view::{
    Bounds, DeclaredType, Mode, Names, Parameter, Profile, Subtype, TypeDefinition, View, ViewKind,
};
use itoa::Buffer;
use std::alloc::Global;

fn add(words: &mut Vec<u8>, bytes: &[u8]) -> Result<(), NoMemory> {
    words.extend_from_slice(bytes)?;
    Ok(())
}

// A name of which each word begins with a capital letter.
fn add_name(words: &mut Vec<u8>, name: &[u8]) -> Result<(), NoMemory> {
    let mut begins = true;
    for byte in name {
        words.push(if begins {
            byte.to_ascii_uppercase()
        } else {
            *byte
        })?;
        begins = *byte == b'_' || *byte == b'.';
    }
    Ok(())
}

fn add_number(words: &mut Vec<u8>, number: i64) -> Result<(), NoMemory> {
    let mut buffer = Buffer::new();
    add(words, buffer.format(number).as_bytes())
}

fn add_range(words: &mut Vec<u8>, bounds: Bounds) -> Result<(), NoMemory> {
    add(words, b"range ")?;
    add_number(words, bounds.low)?;
    add(words, b" .. ")?;
    add_number(words, bounds.high)
}

fn add_subtype(words: &mut Vec<u8>, subtype: &Subtype) -> Result<(), NoMemory> {
    add_name(words, subtype.base.name.as_slice())
}

fn add_literals(words: &mut Vec<u8>, names: &Names) -> Result<(), NoMemory> {
    let mut is_first = true;
    for name in names.as_slice() {
        add(
            words,
            if is_first {
                b"(".as_slice()
            } else {
                b", ".as_slice()
            },
        )?;
        add_name(words, name.as_slice())?;
        is_first = false;
    }
    add(words, b")")
}

fn add_definition(words: &mut Vec<u8>, of: &DeclaredType) -> Result<(), NoMemory> {
    let Some(last) = of.types.as_slice().last() else {
        return Ok(());
    };
    match &last.definition {
        TypeDefinition::Integer(bounds) => {
            add(words, b" is ")?;
            add_range(words, *bounds)
        }
        TypeDefinition::Enumeration { literals: _ } => {
            add(words, b" is ")?;
            add_literals(words, &of.literals)
        }
        TypeDefinition::Array { index, component } => {
            add(words, b" is array (")?;
            add_subtype(words, index)?;
            add(words, b") of ")?;
            add_subtype(words, component)
        }
        TypeDefinition::Record(_) => add(words, b" is record"),
        TypeDefinition::Time => Ok(()),
        TypeDefinition::Private => add(words, b" is private"),
    }
}

fn add_parameter(words: &mut Vec<u8>, parameter: &Parameter) -> Result<(), NoMemory> {
    add_name(words, parameter.name.as_slice())?;
    add(
        words,
        match parameter.mode {
            Mode::In => b" : ".as_slice(),
            Mode::InOut => b" : in out ".as_slice(),
            Mode::Out => b" : out ".as_slice(),
        },
    )?;
    add_subtype(words, &parameter.subtype)
}

fn add_parameters(words: &mut Vec<u8>, profile: &Profile) -> Result<(), NoMemory> {
    let mut is_first = true;
    for parameter in profile.parameters.as_slice() {
        add(
            words,
            if is_first {
                b" (".as_slice()
            } else {
                b"; ".as_slice()
            },
        )?;
        add_parameter(words, parameter)?;
        is_first = false;
    }
    if !is_first {
        add(words, b")")?;
    }
    Ok(())
}

fn add_subprogram(words: &mut Vec<u8>, name: &[u8], profile: &Profile) -> Result<(), NoMemory> {
    match &profile.result {
        Some(result) => {
            add(words, b"function ")?;
            add_name(words, name)?;
            add_parameters(words, profile)?;
            add(words, b" return ")?;
            add_subtype(words, result)
        }
        None => {
            add(words, b"procedure ")?;
            add_name(words, name)?;
            add_parameters(words, profile)
        }
    }
}

fn add_kind(words: &mut Vec<u8>, kind: &[u8], name: &[u8]) -> Result<(), NoMemory> {
    add(words, kind)?;
    add_name(words, name)
}

// Adds a declaration that is of no subprogram.
fn add_other(words: &mut Vec<u8>, name: &[u8], view: &View) -> Result<(), NoMemory> {
    match view.kind() {
        ViewKind::OfType(of) => {
            add_kind(words, b"type ", name)?;
            add_definition(words, of)
        }
        ViewKind::OfSubtype(of) => {
            add_kind(words, b"subtype ", name)?;
            add(words, b" is ")?;
            add_subtype(words, &of.subtype)?;
            match of.subtype.bounds {
                Some(bounds) => {
                    add(words, b" ")?;
                    add_range(words, bounds)
                }
                None => Ok(()),
            }
        }
        ViewKind::OfObject(of) => {
            add_name(words, name)?;
            add(
                words,
                if of.is_constant {
                    b" : constant ".as_slice()
                } else {
                    b" : ".as_slice()
                },
            )?;
            add_subtype(words, &of.subtype)
        }
        ViewKind::OfNumber(_) => {
            add_name(words, name)?;
            add(words, b" : constant")
        }
        ViewKind::OfLiteral(of) => {
            add_name(words, name)?;
            add(words, b" : literal of ")?;
            add_name(words, of.base.name.as_slice())
        }
        ViewKind::OfTask(_) => add_kind(words, b"task ", name),
        ViewKind::OfProtected(_) => add_kind(words, b"protected ", name),
        ViewKind::OfPackage(_) => add_kind(words, b"package ", name),
        ViewKind::OfComponent => add_name(words, name),
        ViewKind::OfSubprogram(_) => Ok(()),
    }
}

// The static value of a declaration, as a number.
fn value_of(view: &View) -> Option<i64> {
    match view.kind() {
        ViewKind::OfObject(of) => match &of.value {
            Some(value) => Some(value.word),
            None => None,
        },
        ViewKind::OfNumber(value) => Some(value.word),
        ViewKind::OfLiteral(of) => Some(i64::from(of.position)),
        _ => None,
    }
}

/// A declaration of this name in Ada's words, with its static value, if it has one: of a literal its position.
///
/// # Errors
///
/// `NoMemory` if the allocator refuses memory.
pub fn words_of(alloc: Global, name: &[u8], view: &View) -> Result<Vec<u8>, NoMemory> {
    let mut words = Vec::new(alloc);
    match view.kind() {
        ViewKind::OfSubprogram(of) => add_subprogram(&mut words, name, &of.profile)?,
        _ => add_other(&mut words, name, view)?,
    }
    if let Some(value) = value_of(view) {
        add(&mut words, b" := ")?;
        add_number(&mut words, value)?;
    }
    Ok(words)
}

fn kind_of(specification: &Specification) -> &'static [u8] {
    match specification {
        Specification::Procedure(_, _, _) => b"procedure ",
        Specification::Function(_, _, _, _, _) => b"function ",
    }
}

/// What a unit of this full name is, and its name.
///
/// # Errors
///
/// `NoMemory` if the allocator refuses memory.
pub(crate) fn unit_words(
    alloc: Global,
    name: &[u8],
    item: &LibraryItem,
) -> Result<Vec<u8>, NoMemory> {
    let kind: &[u8] = match item {
        LibraryItem::Subprogram(_, of) => kind_of(of),
        LibraryItem::Package(_, _, _) => b"package ",
        LibraryItem::Body(of, _) => kind_of(of),
        LibraryItem::PackageBody(_, _) => b"package ",
        LibraryItem::Subunit(_, _, _, of, _) => kind_of(of),
    };
    let mut words = Vec::new(alloc);
    add_kind(&mut words, kind, name)?;
    Ok(words)
}
