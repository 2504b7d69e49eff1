// Declarations, as they are printed.
ghost use Rattle.std.specs.Prelude.{◌≡◌, ◌++◌, OnOk};
ghost use Rattle.std.specs.Fmt.{signed_decimal};
ghost use Rattle.al_why.specs.Views.{object_words, routine_word, view_words};

use crate::pieces::{add, add_between};
use al_base::NoMemory;
use al_view::{CallKind, ObjectView, StaticValue, SubprogramView, View, ViewKind};
use itoa::Buffer;

/// Adds what is declared.
pub(crate) fn add_view(text: &mut Vec<u8>, view: &View) -> Result<(), NoMemory>
    ensures { OnOk result (text.new.items ≡ text.old.items ++ view_words view.now) }
{
    match view.kind() {
        ViewKind::OfType(_) => add(text, b"type"),
        ViewKind::OfSubtype(of) => {
            add_between(text, b"subtype of ", of.subtype.base.name.as_slice(), b"")
        }
        ViewKind::OfObject(object) => add_object(text, object),
        ViewKind::OfComponent => add(text, b"component"),
        ViewKind::OfNumber(value) => add_number(text, b"number ", *value),
        ViewKind::OfLiteral(literal) => {
            add_between(text, b"literal of type ", literal.base.name.as_slice(), b"")
        }
        ViewKind::OfSubprogram(subprogram) => add(text, routine_word(subprogram)),
        ViewKind::OfTask(_) => add(text, b"task"),
        ViewKind::OfProtected(_) => add(text, b"protected object"),
        ViewKind::OfPackage(_) => add(text, b"package"),
    }
}

// Adds an object: its kind, its value if that is known, and its type.
fn add_object(text: &mut Vec<u8>, object: &ObjectView) -> Result<(), NoMemory>
    ensures { OnOk result (text.new.items ≡ text.old.items ++ object_words object.now) }
{
    match object.value {
        Some(value) => add_number(text, b"constant ", value)?,
        None if object.is_constant => add(text, b"constant")?,
        None => add(text, b"variable")?,
    }
    add_between(text, b" of type ", object.subtype.base.name.as_slice(), b"")
}

// Adds a number behind a word.
fn add_number(text: &mut Vec<u8>, word: &[u8], value: StaticValue) -> Result<(), NoMemory>
    ensures { OnOk result (text.new.items ≡ text.old.items ++ (word.now ++ signed_decimal value.word)) }
{
    let mut digits = Buffer::new();
    add_between(text, word, digits.format(value.word).as_bytes(), b"")
}

// The word for a subprogram or an entry.
fn routine_word(subprogram: &SubprogramView) -> &'static [u8]
    ensures { result.now ≡ routine_word subprogram.now }
{
    if matches!(subprogram.call, CallKind::Entry) {
        return b"entry";
    }
    match &subprogram.profile.result {
        Some(_) => b"function",
        None => b"procedure",
    }
}
