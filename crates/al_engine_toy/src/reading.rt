// The header of a unit, read from its source.
ghost use Rattle.std.specs.Prelude.{ℕ, ◌≡◌, List, ◌∷◌, ◌++◌, [], false, IfOk, OnOk, map};
ghost use Rattle.al_unit_graph.specs.Views.{header_model, mention_model};
ghost use Rattle.al_unit_graph.specs.declared.header.UnitForm.TheVariants.{PackageDeclaration};
ghost use Rattle.al_engine_toy.specs.Toys.{first_named, form_of, header_in, header_of, header_with, is_body_of, is_main, is_marked, mention_of, words_from};

use al_base::{Name, NoMemory, Place, UnitKey, UnitKind};
use al_unit_graph::{Header, Mention, UnitForm, is_subprogram_body};
use al_view::is_unit;
use std::alloc::Global;
use std::mem;

/// The form of a unit, by its byte.
fn form_of(form: u8) -> UnitForm
    ensures { result ≡ form_of form }
{
    if form == b'm' {
        UnitForm::SubprogramBody
    } else {
        UnitForm::PackageDeclaration
    }
}

/// Reads one more byte, after whole words and the beginning of one.
fn read_byte(
    alloc: Global,
    words: &mut Vec<Vec<u8>>,
    word: &mut Vec<u8>,
    byte: u8,
) -> Result<(), NoMemory>
    ensures { OnOk result ((bs : List ℕ) → map (λ w. w.items) words.new.items ++ words_from word.new.items bs ≡ map (λ w. w.items) words.old.items ++ words_from word.old.items (byte ∷ bs)) }
{
    if byte == b' ' {
        let whole = mem::replace(word, Vec::new(alloc));
        words.push(whole)?;
    } else {
        word.push(byte)?;
    }
    Ok(())
}

/// The words of a source, which blanks separate.
fn words_of(alloc: Global, text: &[u8]) -> Result<Vec<Vec<u8>>, NoMemory>
    ensures { IfOk result (λ words. map (λ w. w.items) words.items ≡ words_from [] text.now) }
{
    let mut words = Vec::new(alloc);
    let mut word = Vec::new(alloc);
    for byte in text {
        read_byte(alloc, &mut words, &mut word, *byte)?;
    }
    words.push(word)?;
    Ok(words)
}

/// A mention of the unit with this name.
fn mention_of(alloc: Global, name: &[u8]) -> Result<Mention, NoMemory>
    ensures { IfOk result (λ mention. mention_model mention ≡ mention_of name.now) }
{
    let name = Name::from_slice(alloc, name)?;
    let place = Place { line: 1, col: 1 };
    Ok(Mention { name, place })
}

/// Mentions of the units with these names.
fn mentions_of(alloc: Global, names: &[Vec<u8>]) -> Result<Vec<Mention>, NoMemory>
    ensures { IfOk result (λ mentions. map mention_model mentions.items ≡ map mention_of (map (λ n. n.items) names.now)) }
{
    let mut mentions = Vec::new(alloc);
    for name in names {
        mentions.push(mention_of(alloc, name.as_slice())?)?;
    }
    Ok(mentions)
}

/// A header with this name and form and these mentions.
fn header_with(
    alloc: Global,
    name: &[u8],
    form: UnitForm,
    is_main: bool,
    mentions: Vec<Mention>,
) -> Result<Header, NoMemory>
    ensures { IfOk result (λ header. header_model header ≡ header_with name.now form is_main (map mention_model mentions.items)) }
{
    let designator = Name::from_slice(alloc, name)?;
    let name = Name::from_slice(alloc, name)?;
    Ok(Header {
        name,
        place: Place { line: 1, col: 1 },
        form,
        is_private: false,
        needs_body: false,
        parent_body: None,
        designator,
        mentions,
        stubs: Vec::new(alloc),
        elaborate: Vec::new(alloc),
        elaborate_all: Vec::new(alloc),
        has_elaborate_body: false,
        is_parameterless_procedure: is_main,
    })
}

/// The header of a unit of this form with these names: its own, and those of the units that it mentions.
fn header_of(alloc: Global, form: u8, names: &[Vec<u8>]) -> Result<Header, NoMemory>
    ensures { IfOk result (λ header. header_model header ≡ header_of form (map (λ n. n.items) names.now)) }
{
    if let [name, mentioned @ ..] = names {
        let mentions = mentions_of(alloc, mentioned)?;
        header_with(
            alloc,
            name.as_slice(),
            form_of(form),
            form == b'm',
            mentions,
        )
    } else {
        no_header(alloc)
    }
}

/// The header of a source that has no name.
fn no_header(alloc: Global) -> Result<Header, NoMemory>
    ensures { IfOk result (λ header. header_model header ≡ header_with [] PackageDeclaration false []) }
{
    let mentions = Vec::new(alloc);
    header_with(alloc, &[], UnitForm::PackageDeclaration, false, mentions)
}

/// The header of a source.
pub(crate) fn header_in(alloc: Global, text: &[u8]) -> Result<Header, NoMemory>
    ensures { IfOk result (λ header. header_model header ≡ header_in text.now) }
{
    if let [form, _, rest @ ..] = text {
        let names = words_of(alloc, rest)?;
        header_of(alloc, *form, names.as_slice())
    } else {
        no_header(alloc)
    }
}

/// The declaration of the first unit that a header mentions, if that isn't the unit itself.
fn named_in(alloc: Global, unit: &UnitKey, header: &Header) -> Result<Option<UnitKey>, NoMemory>
    ensures { IfOk result (λ named. named ≡ first_named unit.now (header_model header.now)) }
{
    let Some(mention) = header.mentions.first() else {
        return Ok(None);
    };
    let named = UnitKey {
        name: Name::from_slice(alloc, mention.name.as_slice())?,
        kind: UnitKind::Decl,
    };
    if is_unit(unit, &named) {
        Ok(None)
    } else {
        Ok(Some(named))
    }
}

/// The declaration of the first unit that a source mentions, if that isn't the unit itself.
pub(crate) fn first_named(
    alloc: Global,
    unit: &UnitKey,
    text: &[u8],
) -> Result<Option<UnitKey>, NoMemory>
    ensures { IfOk result (λ named. named ≡ first_named unit.now (header_in text.now)) }
{
    let header = header_in(alloc, text)?;
    named_in(alloc, unit, &header)
}

/// Whether a source is that of a library subprogram's body with this name.
pub(crate) fn is_body_of(alloc: Global, text: &[u8], name: &[u8]) -> Result<bool, NoMemory>
    ensures { IfOk result (λ is. is ≡ is_body_of (header_in text.now) name.now) }
{
    let header = header_in(alloc, text)?;
    Ok(is_subprogram_body(header.form) && header.name.as_slice() == name)
}

/// Whether a source is marked.
pub(crate) fn is_marked(text: &[u8]) -> bool
    ensures { result ≡ is_marked text.now }
{
    if let [_, mark, ..] = text {
        *mark == b'!'
    } else {
        false
    }
}
