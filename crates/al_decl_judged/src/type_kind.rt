// Declarations of types (ARM 3.2.1).
ghost use Rattle.std.specs.Prelude.{◌≡◌, [], IfOk, OnOk};
ghost use Rattle.al_base_fault.specs.Judging.{both, next, map_ok, unless};
ghost use Rattle.al_decl_judged.specs.Types.{array_type, integer_type, record_type};
ghost use Rattle.al_view_predefined.specs.Standard.{private_type};
ghost use Rattle.al_decl_judged.specs.TypeDeclarations.{declared_with, spellings, with_names};
ghost use Rattle.al_decl_judged.specs.Declaring.{declared_model, joined};
ghost use Rattle.al_decl_judged.specs.DefiningNames.{names_of};
ghost use Rattle.al_decl_judged.specs.TypeKinds.{array_declared, counts_after, declarations_of, enumeration_declared, integer_declared, literals_fault, private_declared, record_declared, signs_by, with_type};

use crate::declared::Declared;
use crate::names::{DefiningName, TypeName, named_so, names_of, repeated};
use crate::progress::Progress;
use crate::{
    Declaration, Homonyms, Part, StaticRange, array_type, declared_by, enumeration_type,
    full_declared_by, integer_type, own_type, record_type,
};
use al_base::NoMemory;
use al_base_fault::{CheckResult, Fault, both, earlier, unless};
use al_view::{Names, Seq, SubtypeView, Symbol, TypeView, Types};
use al_view_predefined::{StandardTypes, no_names, private_type};
use std::alloc::Global;

/// What the declaration of a type of these types declares: if it is the full one of a private type, all but what its partial view declared.
fn declared_of(
    alloc: Global,
    homonyms: &mut Homonyms,
    name: &TypeName,
    types: &Types,
    of: &TypeView,
    literals: &Names,
) -> Result<Seq<Declaration>, NoMemory>
    ensures declared { IfOk result (λ declared. declared ≡ declared_with (signs_by name.now of.now.definition) of.now types.now literals.now homonyms.old) }
    ensures counted { OnOk result (homonyms.new ≡ with_names (with_names homonyms.old literals.now) (spellings (signs_by name.now of.now.definition))) }
{
    if name.partial.is_some() {
        return full_declared_by(alloc, homonyms, types, of, literals);
    }
    declared_by(alloc, homonyms, types, of, literals)
}

/// What the declaration of the last of these types declares.
fn declarations_of(
    alloc: Global,
    homonyms: &mut Homonyms,
    name: &TypeName,
    types: &Types,
    literals: &Names,
) -> Result<Seq<Declaration>, NoMemory>
    ensures declared { IfOk result (λ declared. declared ≡ declarations_of name.now types.now literals.now homonyms.old) }
    ensures counted { OnOk result (homonyms.new ≡ counts_after name.now types.now literals.now homonyms.old) }
{
    match own_type(types) {
        Some(of) => declared_of(alloc, homonyms, name, types, of, literals),
        None => Ok(Seq::empty(alloc)),
    }
}

/// A type whose name is counted already, with its literals.
fn with_type(
    alloc: Global,
    progress: &mut Progress,
    name: &TypeName,
    names: Option<Fault>,
    literals: &Names,
    types: CheckResult<Types>,
) -> Result<CheckResult<Declared>, NoMemory>
    ensures { IfOk result (λ checked. joined progress.new (map_ok declared_model checked) ≡ map_ok (with_type progress.old name.now literals.now) (unless names types)) }
{
    let types = match unless(names, types) {
        Ok(types) => types,
        Err(fault) => return Ok(Err(fault)),
    };
    let declarations = declarations_of(alloc, &mut progress.homonyms, name, &types, literals)?;
    Ok(Ok(Declared {
        declarations,
        effect: None,
    }))
}

fn no_literals(alloc: Global) -> Result<Names, NoMemory>
    ensures { IfOk result (λ names. names ≡ []) }
{
    let names = no_names(alloc)?;
    Ok(names)
}

fn checked_integer(
    alloc: Global,
    symbol: &Symbol,
    range: CheckResult<StaticRange>,
) -> Result<CheckResult<Types>, NoMemory>
    ensures { IfOk result (λ checked. checked ≡ next range (λ r. Ok (integer_type symbol.now r.bounds))) }
{
    match range {
        Ok(range) => {
            let types = integer_type(alloc, symbol, range.bounds)?;
            Ok(Ok(types))
        }
        Err(fault) => Ok(Err(fault)),
    }
}

/// `type N is range L .. H` (ARM 3.5.4). `duplicate` is E301 at the name if its region has a homograph.
/// # Errors
/// `NoMemory` if the allocator refuses memory. The inner error is the first of `duplicate` and the fault of the range.
pub fn declare_integer(
    alloc: Global,
    progress: &mut Progress,
    name: &TypeName,
    duplicate: Option<Fault>,
    range: CheckResult<StaticRange>,
) -> Result<CheckResult<Declared>, NoMemory>
    ensures { IfOk result (λ checked. joined progress.new (map_ok declared_model checked) ≡ integer_declared progress.old name.now duplicate range) }
{
    let symbol = progress.type_symbol(alloc, name)?;
    let types = checked_integer(alloc, &symbol, range)?;
    let literals = no_literals(alloc)?;
    with_type(alloc, progress, name, duplicate, &literals, types)
}

fn literals_fault(
    alloc: Global,
    name: &DefiningName,
    literals: &[DefiningName],
) -> Result<Option<Fault>, NoMemory>
    ensures { IfOk result (λ fault. fault ≡ literals_fault name.now literals.now) }
{
    let twice = repeated(alloc, literals)?;
    Ok(earlier(named_so(name.name.as_slice(), literals), twice))
}

/// `type N is (L, L, ..)` (ARM 3.5.1). `duplicate` is E301 at the first of the name and the literals whose region has a homograph.
/// # Errors
/// `NoMemory` if the allocator refuses memory. The inner error is the first of `duplicate` and E301 at a literal that is there twice or has
/// the type's name.
pub fn declare_enumeration(
    alloc: Global,
    progress: &mut Progress,
    name: &TypeName,
    duplicate: Option<Fault>,
    literals: &[DefiningName],
) -> Result<CheckResult<Declared>, NoMemory>
    ensures { IfOk result (λ checked. joined progress.new (map_ok declared_model checked) ≡ enumeration_declared progress.old name.now duplicate literals.now) }
{
    let fault = literals_fault(alloc, &name.defining, literals)?;
    let fault = earlier(duplicate, fault);
    let symbol = progress.type_symbol(alloc, name)?;
    let literals = Names::new(alloc, names_of(alloc, literals)?)?;
    let types = enumeration_type(alloc, &symbol, &literals)?;
    with_type(alloc, progress, name, fault, &literals, Ok(types))
}

fn checked_array(
    alloc: Global,
    standard: &StandardTypes,
    symbol: &Symbol,
    name: &DefiningName,
    index: CheckResult<SubtypeView>,
    component: CheckResult<SubtypeView>,
) -> Result<CheckResult<Types>, NoMemory>
    ensures { IfOk result (λ checked. checked ≡ next (both index component) (λ s. array_type symbol.now name.now.place s.0 s.1)) }
{
    match both(index, component) {
        Ok(parts) => array_type(alloc, standard, symbol, name.place, &parts.0, &parts.1),
        Err(fault) => Ok(Err(fault)),
    }
}

/// `type N is array (I) of C` (ARM 3.6). `duplicate` is E301 at the name if its region has a homograph.
/// # Errors
/// `NoMemory` if the allocator refuses memory. The inner error is the first of `duplicate` and the faults of the index and the component;
/// if these have none, that of `array_type`.
pub fn declare_array(
    alloc: Global,
    standard: &StandardTypes,
    progress: &mut Progress,
    name: &TypeName,
    duplicate: Option<Fault>,
    index: CheckResult<SubtypeView>,
    component: CheckResult<SubtypeView>,
) -> Result<CheckResult<Declared>, NoMemory>
    ensures { IfOk result (λ checked. joined progress.new (map_ok declared_model checked) ≡ array_declared progress.old name.now duplicate index component) }
{
    let symbol = progress.type_symbol(alloc, name)?;
    let types = checked_array(alloc, standard, &symbol, &name.defining, index, component)?;
    let literals = no_literals(alloc)?;
    with_type(alloc, progress, name, duplicate, &literals, types)
}

fn checked_record(
    alloc: Global,
    standard: &StandardTypes,
    symbol: &Symbol,
    name: &DefiningName,
    parts: &CheckResult<Seq<Part>>,
) -> Result<CheckResult<Types>, NoMemory>
    ensures { IfOk result (λ checked. checked ≡ next parts.now (λ ps. record_type symbol.now name.now.place ps)) }
{
    match parts {
        Ok(parts) => record_type(alloc, standard, symbol, name.place, parts.as_slice()),
        Err(fault) => Ok(Err(*fault)),
    }
}

/// `type N is record P; P; .. end record`, or a null record without parts (ARM 3.8). `duplicate` is E301 at the name if its region has a
/// homograph.
/// # Errors
/// `NoMemory` if the allocator refuses memory. The inner error is the first of `duplicate` and the first fault of the parts, E301 of their
/// names included; if these have none, that of `record_type`.
pub fn declare_record(
    alloc: Global,
    standard: &StandardTypes,
    progress: &mut Progress,
    name: &TypeName,
    duplicate: Option<Fault>,
    parts: &CheckResult<Seq<Part>>,
) -> Result<CheckResult<Declared>, NoMemory>
    ensures { IfOk result (λ checked. joined progress.new (map_ok declared_model checked) ≡ record_declared progress.old name.now duplicate parts.now) }
{
    let symbol = progress.type_symbol(alloc, name)?;
    let types = checked_record(alloc, standard, &symbol, &name.defining, parts)?;
    let literals = no_literals(alloc)?;
    with_type(alloc, progress, name, duplicate, &literals, types)
}

/// `type N is private`, whose values take this many words (ARM 7.3). `duplicate` is E301 at the name if its region has a homograph.
/// # Errors
/// `NoMemory` if the allocator refuses memory. The inner error is `duplicate`.
pub fn declare_private(
    alloc: Global,
    progress: &mut Progress,
    name: &TypeName,
    duplicate: Option<Fault>,
    words: u32,
) -> Result<CheckResult<Declared>, NoMemory>
    ensures { IfOk result (λ checked. joined progress.new (map_ok declared_model checked) ≡ private_declared progress.old name.now duplicate words) }
{
    let symbol = progress.type_symbol(alloc, name)?;
    let types = private_type(alloc, &symbol, words)?;
    let literals = no_literals(alloc)?;
    with_type(alloc, progress, name, duplicate, &literals, Ok(types))
}
