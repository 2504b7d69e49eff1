// The toy checker.
ghost use Rattle.std.specs.Prelude.{◌≡◌, [], true, Some, None, IfOk, OnOk};
ghost use Rattle.std.specs.Option.{option_copied};
ghost use Rattle.al_base.specs.declared.unit_key.UnitKey.{UnitKey};
ghost use Rattle.al_base.specs.declared.unit_key.UnitKind.TheVariants.{Body};
ghost use Rattle.al_unit_graph.specs.Headers.{Header};
ghost use Rattle.al_query.specs.Answers.{completions_of, declaration, parent_of};
ghost use Rattle.al_query.specs.Known.{Learns};
ghost use Rattle.al_query.specs.Reads.{FromAnswers, Log, logged};
ghost use Rattle.al_query.specs.declared.answer.AnswerKind.{AnswerKind};
ghost use Rattle.al_query.specs.declared.query.Property.TheVariants.{Completions};
ghost use Rattle.al_query.specs.declared.query.Query.TheVariants.{Of};
ghost use Rattle.al_base_shortage.specs.Counts.{one_more};
ghost use Rattle.al_query_outcome.specs.Results.{checked_model};
ghost use Rattle.al_engine_toy.specs.Toys.{AsksWell, HasParent, IsChecked, IsJudged, another, first_named, header_in, is_body_of, is_marked, is_nothing, is_whole, is_whole_as, toy_meaning};

use crate::outcomes::{faulty, plain};
use crate::reading::{first_named, is_body_of, is_marked};
use crate::text::ToyText;
use al_base::{Name, NoMemory, UnitKey, UnitKind};
use al_base_shortage::one_more;
use al_query::{Answer, Answers, Completion, Property, Query, Recorder};
use al_query_outcome::{Checked, UnitCheck};
use al_view::{copied_unit, is_unit};
use std::alloc::Global;

/// Asks a unit for a property.
fn ask_of<A: Answers>(
    alloc: Global,
    of: &UnitKey,
    property: Property,
    recorder: &mut Recorder<A>,
) -> Result<Answer, NoMemory>
    ensures asked { recorder.new.asked ≡ recorder.old.asked }
    ensures log { IfOk result (λ a. recorder.new.log ≡ logged recorder.old.log (Of of.now property) a) }
    ensures answered { IfOk result (λ a. FromAnswers recorder.old.log recorder.new.log (λ t. t (Of of.now property) ≡ a)) }
    ensures learns { IfOk result (λ a. Learns recorder.old.log recorder.new.log (Of of.now property) a) }
{
    let unit = copied_unit(alloc, of)?;
    let query = Query::Of { unit, property };
    recorder.ask(&query)
}

/// Whether there is nothing to complete.
fn is_nothing(completions: &[Completion]) -> bool
    ensures { result ≡ is_nothing completions.now }
{
    if let [_, ..] = completions {
        false
    } else {
        true
    }
}

/// The declaration of a unit's name.
fn declaration_of(alloc: Global, unit: &UnitKey) -> Result<UnitKey, NoMemory>
    ensures { IfOk result (λ d. d ≡ declaration unit.now.name) }
{
    let name = Name::from_slice(alloc, unit.name.as_slice())?;
    let kind = UnitKind::Decl;
    Ok(UnitKey { name, kind })
}

/// Whether the declaration of a main procedure's body leaves nothing to that body.
fn is_whole_body<A: Answers>(
    alloc: Global,
    unit: &UnitKey,
    recorder: &mut Recorder<A>,
) -> Result<bool, NoMemory>
    requires { unit.now.kind ≡ Body }
    ensures asked { recorder.new.asked ≡ recorder.old.asked }
    ensures whole { IfOk result (λ whole. FromAnswers recorder.old.log recorder.new.log (λ t. whole ≡ is_nothing (completions_of (t (Of (declaration unit.now.name) Completions))))) }
    ensures asks { OnOk result ((h : Header) → is_body_of h unit.now.name ≡ true → h.parent_body ≡ None → AsksWell unit.now h recorder.old.log recorder.new.log) }
{
    let declaration = declaration_of(alloc, unit)?;
    let answer = ask_of(alloc, &declaration, Property::Completions, recorder)?;
    Ok(is_nothing(answer.completions()))
}

/// Whether a body is one of the language.
fn is_whole_text<A: Answers>(
    alloc: Global,
    unit: &UnitKey,
    text: &[u8],
    recorder: &mut Recorder<A>,
) -> Result<bool, NoMemory>
    requires { unit.now.kind ≡ Body }
    ensures asked { recorder.new.asked ≡ recorder.old.asked }
    ensures whole { IfOk result (λ whole. FromAnswers recorder.old.log recorder.new.log (λ t. whole ≡ is_whole_as Body unit.now.name (header_in text.now) t)) }
    ensures asks { OnOk result (AsksWell unit.now (header_in text.now) recorder.old.log recorder.new.log) }
{
    let is_body = is_body_of(alloc, text, unit.name.as_slice())?;
    if is_body {
        is_whole_body(alloc, unit, recorder)
    } else {
        Ok(false)
    }
}

/// Whether a unit is one of the language.
fn is_whole<A: Answers>(
    alloc: Global,
    unit: &UnitKey,
    text: &[u8],
    recorder: &mut Recorder<A>,
) -> Result<bool, NoMemory>
    ensures asked { recorder.new.asked ≡ recorder.old.asked }
    ensures whole { IfOk result (λ whole. FromAnswers recorder.old.log recorder.new.log (λ t. whole ≡ is_whole unit.now (header_in text.now) t)) }
    ensures asks { OnOk result (AsksWell unit.now (header_in text.now) recorder.old.log recorder.new.log) }
{
    match unit.kind {
        UnitKind::Decl => Ok(true),
        UnitKind::Body => is_whole_text(alloc, unit, text, recorder),
        UnitKind::Sub => Ok(false),
    }
}

/// A unit other than this one.
fn another<'a>(unit: &UnitKey, other: Option<&'a UnitKey>) -> Option<&'a UnitKey>
    ensures { option_copied result ≡ another unit.now (option_copied other.entry) }
{
    let other = other?;
    if is_unit(unit, other) {
        None
    } else {
        Some(other)
    }
}

/// The result for a unit whose parent is the first unit, and whose parent's parent is the second.
fn judge_by_second<A: Answers>(
    alloc: Global,
    unit: &UnitKey,
    first: UnitKey,
    second: &UnitKey,
    marked: bool,
    recorder: &mut Recorder<A>,
) -> Result<Checked, NoMemory>
    ensures asked { recorder.new.asked ≡ recorder.old.asked }
    ensures checked { IfOk result (λ c. (h : Header) (a : AnswerKind) (before : Log) → HasParent unit.now h first a before recorder.old.log → another unit.now (parent_of a) ≡ Some second.now → IsJudged unit.now h marked before recorder.new.log (checked_model c)) }
{
    let answer = ask_of(alloc, second, Property::IsPrivate, recorder)?;
    if answer.is_private() {
        faulty(alloc, unit)
    } else {
        plain(alloc, unit, Some(first), marked)
    }
}

/// The result for a unit with this parent.
fn judge_by_first<A: Answers>(
    alloc: Global,
    unit: &UnitKey,
    first: UnitKey,
    marked: bool,
    recorder: &mut Recorder<A>,
) -> Result<Checked, NoMemory>
    ensures asked { recorder.new.asked ≡ recorder.old.asked }
    ensures checked { IfOk result (λ c. (h : Header) → first_named unit.now h ≡ Some first → IsJudged unit.now h marked recorder.old.log recorder.new.log (checked_model c)) }
{
    let answer = ask_of(alloc, &first, Property::Parent, recorder)?;
    match another(unit, answer.parent()) {
        None => plain(alloc, unit, Some(first), marked),
        Some(second) => judge_by_second(alloc, unit, first, second, marked, recorder),
    }
}

/// The result for a unit of the language.
fn judge<A: Answers>(
    alloc: Global,
    unit: &UnitKey,
    text: &[u8],
    recorder: &mut Recorder<A>,
) -> Result<Checked, NoMemory>
    ensures asked { recorder.new.asked ≡ recorder.old.asked }
    ensures checked { IfOk result (λ c. IsJudged unit.now (header_in text.now) (is_marked text.now) recorder.old.log recorder.new.log (checked_model c)) }
{
    let marked = is_marked(text);
    match first_named(alloc, unit, text)? {
        None => plain(alloc, unit, None, marked),
        Some(first) => judge_by_first(alloc, unit, first, marked, recorder),
    }
}

/// The result for a unit with this source.
fn checked<A: Answers>(
    alloc: Global,
    unit: &UnitKey,
    text: &[u8],
    recorder: &mut Recorder<A>,
) -> Result<Checked, NoMemory>
    requires { recorder.old.log ≡ [] }
    ensures asked { recorder.new.asked ≡ recorder.old.asked }
    ensures checked { IfOk result (λ c. IsChecked unit.now text.now recorder.new.log (checked_model c)) }
{
    let is_whole = is_whole(alloc, unit, text, recorder)?;
    if is_whole {
        judge(alloc, unit, text, recorder)
    } else {
        faulty(alloc, unit)
    }
}

/// The result for a unit with this source, as it was parsed.
fn checked_text<A: Answers>(
    alloc: Global,
    unit: &UnitKey,
    text: &ToyText,
    recorder: &mut Recorder<A>,
) -> Result<Checked, NoMemory>
    requires { recorder.old.log ≡ [] }
    ensures asked { recorder.new.asked ≡ recorder.old.asked }
    ensures checked { IfOk result (λ c. IsChecked unit.now text.now recorder.new.log (checked_model c)) }
{
    checked(alloc, unit, text.as_slice(), recorder)
}

/// The toy checker: it asks its unit's parent for a parent, and that one whether it is marked.
#[derive(Drop)]
pub struct Toy {
    made: u64,
}

impl Toy {
    /// A checker that has made no check.
    pub fn new() -> Toy
        ensures { result.made ≡ 0 }
    {
        Toy { made: 0 }
    }
}

impl UnitCheck for Toy {
    type Text = ToyText;

    ghost meaning = { toy_meaning };

    ghost count = { λ t. t.made };

    fn check<A: Answers>(
        &mut self,
        alloc: Global,
        unit: &UnitKey,
        text: &ToyText,
        recorder: &mut Recorder<A>,
    ) -> Result<Checked, NoMemory> {
        self.made = one_more(self.made);
        checked_text(alloc, unit, text, recorder)
    }

    fn checks(&self) -> u64 {
        self.made
    }
}
