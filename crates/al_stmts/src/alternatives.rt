// The alternatives of a case statement.
ghost use Rattle.std.specs.Prelude.{◌≡◌, ◌++◌, IfOk, OnOk, map};
ghost use Rattle.std.specs.List.{filter_map};
ghost use Rattle.al_stmts.specs.Choosing.{has_others, is_others, range_of};
ghost use Rattle.al_base_fault.specs.Judging.{map_ok};
ghost use Rattle.al_view_typed.specs.ExpressionViews.{typed_model};
ghost use Rattle.al_view_typed.specs.StatementViews.{alternative_model, statement_model};
ghost use Rattle.al_stmts.specs.Cases.{alternatives_checked, cased, cased_over, chosen_by, none_chosen, with_alternative};
ghost use Rattle.al_stmts.specs.Checking.{all_checked, one_checked};

use crate::checked::{CheckedStatement, CheckedStatements};
use crate::{Choice, FaultList};
use al_base::NoMemory;
use al_base_fault::CheckResult;
use al_view::{Bounds, Seq};
use al_view_typed::{Alternative, StatementForm, Typed, TypedStatement};
use std::alloc::{AllocError, Global};

/// What an alternative chooses.
#[derive(Drop)]
pub enum Chosen {
    /// All values that no other alternative chooses.
    OtherValues,
    /// The values of these ranges, in source order.
    Ranges(Seq<Bounds>),
}

/// The alternatives of a case statement that are checked so far (ARM 5.4).
pub struct CheckedAlternatives {
    /// What is wrong inside them.
    pub faults: FaultList,
    /// The alternatives, in source order.
    pub alternatives: Vec<Alternative>,
    /// What is done for the other values.
    pub otherwise: Vec<TypedStatement>,
}

impl Drop for CheckedAlternatives {
    fn drop(self) {
        let CheckedAlternatives {
            faults: _,
            alternatives: _,
            otherwise: _,
        } = self;
    }
}

fn is_others(choice: &Choice) -> bool
    ensures { result ≡ is_others choice.now }
{
    matches!(choice, Choice::Others)
}

fn have_others(choices: &[Choice]) -> bool
    ensures { result ≡ has_others choices.now }
{
    choices.iter().any(is_others)
}

fn range_of(choice: &Choice) -> Option<Bounds>
    ensures { result ≡ range_of choice.now }
{
    match choice {
        Choice::Range(bounds) => Some(*bounds),
        Choice::OfOtherType => None,
        Choice::Others => None,
    }
}

/// The ranges of choices.
#[tactic(auto, using(std::proofs::lemmas::Grind::common_steps, crate::proofs::RangesThere::ranges_more))]
fn ranges_in(alloc: Global, choices: &[Choice]) -> Result<Seq<Bounds>, AllocError>
    ensures { IfOk result (λ ranges. ranges ≡ filter_map range_of choices.now) }
{
    let mut ranges = Seq::empty(alloc);
    for choice in choices {
        if let Some(bounds) = range_of(choice) {
            ranges.push(bounds)?;
        }
    }
    Ok(ranges)
}

impl Chosen {
    /// What an alternative with these choices chooses.
    /// # Errors
    /// `NoMemory` if the allocator refuses memory.
    pub fn by(alloc: Global, choices: &[Choice]) -> Result<Self, NoMemory>
        ensures { IfOk result (λ chosen. chosen ≡ chosen_by choices.now) }
    {
        if have_others(choices) {
            return Ok(Chosen::OtherValues);
        }
        let ranges = ranges_in(alloc, choices)?;
        Ok(Chosen::Ranges(ranges))
    }
}

/// A case statement over its alternatives.
fn over(
    line: usize,
    slot: u32,
    selector: CheckResult<Typed>,
    alternatives: Vec<Alternative>,
    otherwise: Vec<TypedStatement>,
) -> CheckResult<TypedStatement>
    ensures { map_ok statement_model result ≡ cased_over line slot (map_ok typed_model selector) (map alternative_model alternatives.items) (map statement_model otherwise.items) }
{
    match selector {
        Ok(selector) => {
            let form = StatementForm::case(selector, slot, alternatives, otherwise);
            Ok(TypedStatement::new(line, form))
        }
        Err(fault) => Err(fault),
    }
}

impl CheckedAlternatives {
    /// No alternative yet.
    pub fn new(alloc: Global) -> Self
        ensures { alternatives_checked result ≡ none_chosen }
    {
        CheckedAlternatives {
            faults: FaultList::none(alloc),
            alternatives: Vec::new(alloc),
            otherwise: Vec::new(alloc),
        }
    }

    /// Adds the next alternative.
    /// # Errors
    /// `NoMemory` if the allocator refuses memory.
    #[tactic(auto, using(std::proofs::lemmas::Grind::common_steps))]
    pub fn add(&mut self, chosen: Chosen, inner: CheckedStatements) -> Result<(), NoMemory>
        ensures { OnOk result (alternatives_checked self.new ≡ with_alternative (alternatives_checked self.old) chosen (all_checked inner)) }
    {
        let CheckedStatements { faults, statements } = inner;
        match chosen {
            Chosen::OtherValues => self.otherwise = statements,
            Chosen::Ranges(ranges) => self
                .alternatives
                .push(Alternative::new(ranges, statements))?,
        }
        self.faults.follow(faults)
    }

    /// The whole statement, whose selector is kept in this word of the frame.
    /// # Errors
    /// `NoMemory` if the allocator refuses memory.
    pub fn finish(
        self,
        alloc: Global,
        line: usize,
        slot: u32,
        selector: CheckResult<Typed>,
    ) -> Result<CheckedStatement, NoMemory>
        ensures { IfOk result (λ one. one_checked one ≡ cased line slot (map_ok typed_model selector) (alternatives_checked self)) }
    {
        let CheckedAlternatives {
            faults,
            alternatives,
            otherwise,
        } = self;
        let judged = over(line, slot, selector, alternatives, otherwise);
        CheckedStatement::compound(alloc, judged, faults)
    }
}
