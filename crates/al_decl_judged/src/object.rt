// Object declarations (ARM 3.3.1).
ghost use Rattle.std.specs.Prelude.{◌≡◌, ◌++◌, ◌∷◌, [], IfOk, OnOk, Some, option_map, is_some, slice_get};
ghost use Rattle.std.specs.Option.{option_and_then};
ghost use Rattle.al_decl_judged.specs.TypeObjects.{object_view};
ghost use Rattle.al_decl_judged.specs.TypeDeclarations.{declared_as};
ghost use Rattle.al_base_fault.specs.Judging.{both, map_ok, unless};
ghost use Rattle.al_view_typed.specs.DeclarationTrees.{Objects, declaration_model};
ghost use Rattle.al_view_typed.specs.ExpressionTrees.{Checked};
ghost use Rattle.al_view_typed.specs.ExpressionViews.{typed_model, value_model};
ghost use Rattle.al_decl_judged.specs.Declaring.{declared_model, joined};
ghost use Rattle.al_decl_judged.specs.Objects.{checked_range, objects_declared, objects_fault, objects_of, placed_objects, places_of, with_object, with_objects, words_each};
ghost use Rattle.al_decl_judged.specs.Progressing.{next_place};
ghost use Rattle.al_decl_judged.specs.Rules.{optional};
ghost use Rattle.al_decl_judged.specs.StaticPieces.{value_label};

use crate::declared::Declared;
use crate::names::{DefiningName, repeated};
use crate::new_object::NewObject;
use crate::progress::Progress;
use crate::static_piece::value_label;
use crate::{Declaration, missing_value, object_view, words_of};
use al_base::{Name, NoMemory};
use al_base_fault::{CheckResult, Fault, both, earlier, unless};
use al_view::{Bounds, ObjectPlace, Seq, StaticValue};
use al_view_predefined::StandardTypes;
use al_view_typed::{CheckedValue, DeclarationForm, Typed, TypedDeclaration};
use std::alloc::Global;

fn objects_fault(
    alloc: Global,
    is_constant: bool,
    has_value: bool,
    duplicate: Option<Fault>,
    names: &[DefiningName],
) -> Result<Option<Fault>, NoMemory>
    ensures { IfOk result (λ fault. fault ≡ objects_fault is_constant has_value duplicate names.now) }
{
    let twice = earlier(duplicate, repeated(alloc, names)?);
    match names.first() {
        Some(name) => Ok(earlier(twice, missing_value(is_constant, has_value, name.place))),
        None => Ok(twice),
    }
}

/// How many words each of the objects has.
fn words_each(standard: &StandardTypes, objects: &[NewObject]) -> u32
    ensures { result ≡ words_each objects.now }
{
    match objects.first() {
        Some(object) => words_of(standard, &object.subtype),
        None => 0,
    }
}

/// The range of the objects.
fn checked_range(objects: &[NewObject]) -> Option<Bounds>
    ensures { result ≡ checked_range objects.now }
{
    match objects.first() {
        Some(object) => object.subtype.subtype.bounds,
        None => None,
    }
}

/// Objects with their places.
#[derive(Drop)]
struct Placed {
    declarations: Seq<Declaration>,
    places: Seq<ObjectPlace>,
}

fn object_declaration(
    alloc: Global,
    object: &NewObject,
    is_constant: bool,
    value: Option<StaticValue>,
    place: ObjectPlace,
) -> Result<Declaration, NoMemory>
    ensures { IfOk result (λ declared. declared ≡ declared_as object.now.name (object_view object.now.subtype is_constant value place)) }
{
    let view = object_view(alloc, &object.subtype, is_constant, value, place)?;
    let name = Name::from_slice(alloc, object.name.as_slice())?;
    Ok(Declaration { name, view })
}

/// An object takes its words.
fn place_object(
    alloc: Global,
    standard: &StandardTypes,
    progress: &mut Progress,
    is_constant: bool,
    value: Option<StaticValue>,
    object: &NewObject,
    placed: &mut Placed,
) -> Result<(), NoMemory>
    ensures taken { OnOk result (progress.new ≡ with_object progress.old object.now) }
    ensures places { OnOk result (placed.new.places ≡ placed.old.places ++ next_place progress.old object.now.symbol ∷ []) }
    ensures declarations { OnOk result (placed.new.declarations ≡ placed.old.declarations ++ declared_as object.now.name (object_view object.now.subtype is_constant value (next_place progress.old object.now.symbol)) ∷ []) }
{
    let place = progress.next_place(alloc, &object.symbol)?;
    placed.places.push(place.copy(alloc)?)?;
    let declared = object_declaration(alloc, object, is_constant, value, place)?;
    placed.declarations.push(declared)?;
    progress.take_object(alloc, &object.symbol, words_of(standard, &object.subtype))
}

/// The objects take their words, in order.
fn place_objects(
    alloc: Global,
    standard: &StandardTypes,
    progress: &mut Progress,
    is_constant: bool,
    value: Option<StaticValue>,
    objects: &[NewObject],
) -> Result<Placed, NoMemory>
    ensures taken { OnOk result (progress.new ≡ with_objects progress.old objects.now) }
    ensures placed { IfOk result (λ placed. placed ≡ record { declarations = objects_of progress.old is_constant value objects.now; places = places_of progress.old objects.now }) }
{
    let mut placed = Placed {
        declarations: Seq::empty(alloc),
        places: Seq::empty(alloc),
    };
    for object in objects {
        place_object(
            alloc,
            standard,
            progress,
            is_constant,
            value,
            object,
            &mut placed,
        )?;
    }
    Ok(placed)
}

/// The static value of an initial value that may be left out.
fn known_value(value: &Option<Typed>) -> Option<StaticValue>
    ensures { result ≡ option_and_then value_label (option_map typed_model value.now) }
{
    match value {
        Some(value) => value_label(value),
        None => None,
    }
}

/// An initial value that may be left out, checked if it is there.
fn optional_value(value: Option<CheckResult<Typed>>) -> CheckResult<Option<Typed>>
    ensures { map_ok (option_map typed_model) result ≡ optional (option_map (map_ok typed_model) value) }
{
    match value {
        None => Ok(None),
        Some(Ok(value)) => Ok(Some(value)),
        Some(Err(fault)) => Err(fault),
    }
}

/// The value with the range that it is checked against.
fn checked_value(range: Option<Bounds>, value: Option<Typed>) -> Option<CheckedValue>
    ensures { option_map value_model result ≡ option_map (λ v. Checked v range) (option_map typed_model value) }
{
    match value {
        Some(value) => Some(CheckedValue::new(value, range)),
        None => None,
    }
}

/// What is done at the objects' place: their words are filled with the value or with zeros.
fn filled(
    line: usize,
    words: u32,
    range: Option<Bounds>,
    placed: Placed,
    value: Option<Typed>,
) -> Declared
    ensures { declared_model result ≡ record { declarations = placed.declarations; effect = Some (record { line = line; form = Objects placed.places words (option_map (λ v. Checked v range) (option_map typed_model value)) }) } }
{
    let value = checked_value(range, value);
    let form = DeclarationForm::Objects {
        places: placed.places,
        words,
        value,
    };
    Declared {
        declarations: placed.declarations,
        effect: Some(TypedDeclaration::new(line, form)),
    }
}

/// Drops a value.
fn let_go(_value: Option<Typed>) {}

/// Objects with a value that is right.
fn placed_objects(
    alloc: Global,
    standard: &StandardTypes,
    progress: &mut Progress,
    line: usize,
    is_constant: bool,
    objects: &[NewObject],
    value: Option<Typed>,
) -> Result<Declared, NoMemory>
    ensures taken { OnOk result (progress.new ≡ (placed_objects progress.old line is_constant objects.now (option_map typed_model value)).0) }
    ensures declared { IfOk result (λ declared. declared_model declared ≡ (placed_objects progress.old line is_constant objects.now (option_map typed_model value)).1) }
{
    let known = known_value(&value);
    let words = words_each(standard, objects);
    let range = checked_range(objects);
    match place_objects(alloc, standard, progress, is_constant, known, objects) {
        Ok(placed) => Ok(filled(line, words, range, placed, value)),
        Err(none) => {
            let_go(value);
            Err(none)
        }
    }
}

/// `names : [constant] type [:= value]`, whose first token is on that line. `duplicate` is E301 at the first name whose region has a
/// homograph. If the type has a fault, the value isn't checked. The words of temporaries in the value are numbered afterwards.
/// # Errors
/// `NoMemory` if the allocator refuses memory. The inner error is the first of `duplicate`, E301 at a name that is there twice, E309 at the
/// first name of a constant without a value (ARM 3.3.1(6)), and the faults of the type and the value.
pub fn declare_objects(
    alloc: Global,
    standard: &StandardTypes,
    progress: &mut Progress,
    line: usize,
    is_constant: bool,
    duplicate: Option<Fault>,
    names: &[DefiningName],
    objects: CheckResult<Seq<NewObject>>,
    value: Option<CheckResult<Typed>>,
) -> Result<CheckResult<Declared>, NoMemory>
    ensures { IfOk result (λ checked. joined progress.new (map_ok declared_model checked) ≡ objects_declared progress.old line is_constant duplicate names.now objects (option_map (map_ok typed_model) value)) }
{
    let fault = objects_fault(alloc, is_constant, value.is_some(), duplicate, names)?;
    match unless(fault, both(objects, optional_value(value))) {
        Ok((objects, value)) => {
            let objects = objects.as_slice();
            let declared = placed_objects(
                alloc,
                standard,
                progress,
                line,
                is_constant,
                objects,
                value,
            )?;
            Ok(Ok(declared))
        }
        Err(fault) => Ok(Err(fault)),
    }
}
