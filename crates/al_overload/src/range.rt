// Pairs of bounds and memberships: all operands have one type.
ghost use Rattle.std.specs.Prelude.{◌≡◌, [], ◌++◌, fold, map, IfOk, OnOk};
ghost use Rattle.al_overload.specs.Counts.{AreCounted, candidates, counted_all, plain, plain_all};
ghost use Rattle.al_overload.specs.Ranges.{added, added_given, alike, all_of, has_type, one_type, types_or, with_types};

use crate::term::{Candidate, Choice, Choices, Expression, Operands, Term, Terms};
use crate::types::{Expected, Given, ValueType};
use al_base::NoMemory;
use al_view::{Seq, Symbol};
use std::alloc::Global;

impl ValueType {
    /// A copy of the type.
    /// # Errors
    /// `NoMemory` if the allocator refuses memory.
    pub fn copy(&self, alloc: Global) -> Result<ValueType, NoMemory>
        ensures { IfOk result (λ copy. copy ≡ self.now) }
    {
        let symbol = self.symbol.copy(alloc)?;
        Ok(ValueType {
            symbol,
            class: self.class,
        })
    }
}

fn has_type(types: &[ValueType], expected: &ValueType) -> bool
    ensures { result ≡ has_type types.now expected.now }
{
    for known in types {
        if known.symbol.is(&expected.symbol) {
            return true;
        }
    }
    false
}

/// Adds a type, unless it is there.
fn add_type(alloc: Global, types: &mut Seq<ValueType>, given: &ValueType) -> Result<(), NoMemory>
    ensures { OnOk result (types.new ≡ added types.old given.now) }
{
    if has_type(types.as_slice(), given) {
        return Ok(());
    }
    types.push(given.copy(alloc)?)?;
    Ok(())
}

/// Adds the discrete type that a candidate gives, unless it is there.
fn add_given(
    alloc: Global,
    types: &mut Seq<ValueType>,
    candidate: &Candidate,
) -> Result<(), NoMemory>
    ensures { OnOk result (types.new ≡ added_given types.old candidate.now) }
{
    match &candidate.given {
        Given::Nothing => Ok(()),
        Given::Value(given) => {
            if given.class.is_discrete() {
                add_type(alloc, types, given)
            } else {
                Ok(())
            }
        }
        Given::Universal => Ok(()),
        Given::Text => Ok(()),
    }
}

/// Adds the discrete types that these candidates give, unless they are there.
fn add_all_given(
    alloc: Global,
    types: &mut Seq<ValueType>,
    choices: &[Choice],
) -> Result<(), NoMemory>
    ensures { OnOk result (types.new ≡ fold added_given types.old (candidates choices.now)) }
{
    for choice in choices {
        add_given(alloc, types, &choice.candidate)?;
    }
    Ok(())
}

/// Adds the discrete types that the heads of these operands may have, unless they are there.
fn add_types(alloc: Global, types: &mut Seq<ValueType>, operands: &Terms) -> Result<(), NoMemory>
    ensures { OnOk result (types.new ≡ with_types types.old (plain_all operands.now)) }
{
    let mut rest = operands;
    while let Terms::MoreTerms(operand, more) = rest {
        let Term::Head(choices, _) = &**operand;
        add_all_given(alloc, types, choices.as_slice())?;
        rest = more;
    }
    Ok(())
}

/// Operands of this type, as many as are given.
#[tactic(auto, using(std::proofs::Common::append_assoc))]
fn want_all(
    alloc: Global,
    expected: &mut Seq<Expected>,
    of: &ValueType,
    operands: &Terms,
) -> Result<(), NoMemory>
    ensures { OnOk result (expected.new ≡ expected.old ++ all_of of.now (plain_all operands.now)) }
{
    let mut rest = operands;
    while let Terms::MoreTerms(_, more) = rest {
        expected.push(Expected::Value(of.copy(alloc)?))?;
        rest = more;
    }
    Ok(())
}

/// The candidate of a head whose operands are all of this type. It gives a value of that type, unless a head of its kind always gives
/// another type.
fn one_type(
    alloc: Global,
    of: &ValueType,
    always: &Option<ValueType>,
    root: &Symbol,
    operands: &Terms,
) -> Result<Candidate, NoMemory>
    ensures { IfOk result (λ c. c ≡ one_type root.now always.now (plain_all operands.now) of.now) }
{
    let mut expected = Seq::empty(alloc);
    want_all(alloc, &mut expected, of, operands)?;
    let given = match always {
        Some(result) => result.copy(alloc)?,
        None => of.copy(alloc)?,
    };
    Ok(Candidate {
        operands: expected,
        given: Given::Value(given),
        is_root: of.symbol.is(root),
    })
}

/// Adds a candidate for each of these types.
fn add_each(
    alloc: Global,
    choices: &mut Choices,
    types: &[ValueType],
    always: &Option<ValueType>,
    root: &Symbol,
    operands: &Terms,
) -> Result<(), NoMemory>
    requires counted { choices.old ≡ counted_all (plain_all operands.now) (candidates choices.old) }
    requires operands { AreCounted operands.now }
    ensures candidates { OnOk result (candidates choices.new ≡ candidates choices.old ++ map (one_type root.now always.now (plain_all operands.now)) types.now) }
    ensures counted { OnOk result (choices.new ≡ counted_all (plain_all operands.now) (candidates choices.new)) }
{
    for of in types {
        choices.add(one_type(alloc, of, always, root, operands)?, operands)?;
    }
    Ok(())
}

/// The types that the operands of a head may all have; if all are numbers alone, the given one.
fn common_types(
    alloc: Global,
    numbers: &ValueType,
    operands: &Terms,
) -> Result<Seq<ValueType>, NoMemory>
    ensures { IfOk result (λ types. types ≡ types_or numbers.now (with_types [] (plain_all operands.now))) }
{
    let mut types = Seq::empty(alloc);
    add_types(alloc, &mut types, operands)?;
    match types.as_slice() {
        [] => {
            types.push(numbers.copy(alloc)?)?;
            Ok(types)
        }
        [_, ..] => Ok(types),
    }
}

fn choices_of(
    alloc: Global,
    operands: &Terms,
    always: &Option<ValueType>,
    numbers: &ValueType,
    root: &Symbol,
) -> Result<Choices, NoMemory>
    requires { AreCounted operands.now }
    ensures candidates { IfOk result (λ choices. candidates choices ≡ map (one_type root.now always.now (plain_all operands.now)) (types_or numbers.now (with_types [] (plain_all operands.now)))) }
    ensures counted { IfOk result (λ choices. choices ≡ counted_all (plain_all operands.now) (candidates choices)) }
{
    let types = common_types(alloc, numbers, operands)?;
    let mut choices = Choices::new(alloc);
    add_each(
        alloc,
        &mut choices,
        types.as_slice(),
        always,
        root,
        operands,
    )?;
    Ok(choices)
}

impl Expression {
    /// A head whose operands are all of one type: a pair of bounds, which is of that type, or a membership, which is always Boolean. If all
    /// operands are numbers alone, they are of the type that is given for that.
    /// # Errors
    /// `NoMemory` if the allocator refuses memory.
    pub fn alike(
        alloc: Global,
        operands: Operands,
        always: &Option<ValueType>,
        numbers: &ValueType,
        root: &Symbol,
    ) -> Result<Expression, NoMemory>
        ensures { IfOk result (λ e. plain e ≡ alike root.now numbers.now always.now (plain_all operands)) }
    {
        let terms = operands.into_terms();
        let choices = choices_of(alloc, &terms, always, numbers, root)?;
        Ok(Expression {
            choices,
            operands: terms,
        })
    }
}
