// The alternatives of a case statement that were walked over.
ghost use Rattle.std.specs.Prelude.{◌≡◌, IfOk, OnOk, drop, is_some};
ghost use Rattle.al_base_fault.specs.Judging.{map_ok};
ghost use Rattle.al_stmts.specs.Cases.{chosen_by, selected};
ghost use Rattle.al_view_typed.specs.ExpressionViews.{typed_model};
ghost use Rattle.al_stmts.specs.WalkedViews.{all_model, choosing_model, one_model};
ghost use Rattle.al_stmts.specs.Steps.{case_of, choosing, next_choices, one_alternative, rest_of};

use crate::bodies::append;
use crate::statements::{WalkedStatement, WalkedStatements};
use crate::{CaseChoices, CheckedAlternatives, Choice, Chosen, checked_selector};
use al_base::{NoMemory, Place};
use al_base_fault::CheckResult;
use al_view::Seq;
use al_view_typed::{Typed, TypedBody};
use std::alloc::Global;

/// A case statement so far.
#[derive(Drop)]
pub struct WalkedAlternatives {
    /// The word that keeps the selector.
    pub slot: u32,
    /// The selector, or the fault of it or of its choices.
    pub selector: CheckResult<Typed>,
    /// The choices of all alternatives.
    pub choices: Seq<Seq<Choice>>,
    /// The index of the next alternative's choices.
    pub next: usize,
    /// The alternatives so far.
    pub alternatives: CheckedAlternatives,
    /// The bodies inside them.
    pub bodies: Vec<TypedBody>,
}

/// The index after this one, unless it is after them all.
#[tactic(auto, using(crate::proofs::Choosing::rest_within, crate::proofs::Choosing::rest_past))]
fn after(next: usize, choices: &[Seq<Choice>]) -> usize
    ensures { drop result choices.now ≡ rest_of (drop next choices.now) }
{
    if next < choices.len() { next + 1 } else { next }
}

impl WalkedAlternatives {
    /// No alternative yet, after a selector and the choices of all alternatives, which are right for it or not.
    #[tactic(auto, unfolding(crate::specs::WalkedViews::choosing_model, crate::specs::Steps::choosing))]
    pub fn new(
        alloc: Global,
        place: Place,
        slot: u32,
        selector: CheckResult<Typed>,
        choices: CaseChoices,
        are_right: bool,
    ) -> Self
        ensures { choosing_model result ≡ choosing slot (selected place (map_ok typed_model selector) choices.fault are_right) choices.alternatives }
    {
        let CaseChoices {
            fault,
            alternatives,
        } = choices;
        WalkedAlternatives {
            slot,
            selector: checked_selector(place, selector, fault, are_right),
            choices: alternatives,
            next: 0,
            alternatives: CheckedAlternatives::new(alloc),
            bodies: Vec::new(alloc),
        }
    }

    /// Whether the list of faults has ended, so that nothing after it is checked.
    #[tactic(auto, unfolding(crate::specs::WalkedViews::choosing_model))]
    pub fn is_ended(&self) -> bool
        ensures { result ≡ is_some (choosing_model self.now).so_far.faults.end }
    {
        self.alternatives.faults.is_ended()
    }

    /// What the next alternative chooses.
    #[tactic(auto, using(crate::proofs::Choosing::next_some, crate::proofs::Choosing::next_none), unfolding(crate::specs::WalkedViews::choosing_model))]
    fn chosen(&self, alloc: Global) -> Result<Chosen, NoMemory>
        ensures { IfOk result (λ chosen. chosen ≡ chosen_by (next_choices (choosing_model self.now).choices)) }
    {
        match self.choices.as_slice().get(self.next) {
            Some(choices) => Chosen::by(alloc, choices.as_slice()),
            None => Chosen::by(alloc, &[]),
        }
    }

    /// Adds the next alternative, by its statements.
    /// # Errors
    /// `NoMemory` if the allocator refuses memory.
    #[tactic(auto, unfolding(crate::specs::WalkedViews::all_model, crate::specs::WalkedViews::choosing_model, crate::specs::Steps::one_alternative))]
    pub fn add(&mut self, alloc: Global, inner: WalkedStatements) -> Result<(), NoMemory>
        ensures { OnOk result (choosing_model self.new ≡ one_alternative (choosing_model self.old) (all_model inner)) }
    {
        let chosen = self.chosen(alloc)?;
        let WalkedStatements { checked, bodies } = inner;
        self.alternatives.add(chosen, checked)?;
        self.next = after(self.next, self.choices.as_slice());
        append(&mut self.bodies, bodies)
    }

    /// The whole statement.
    /// # Errors
    /// `NoMemory` if the allocator refuses memory.
    #[tactic(auto, unfolding(crate::specs::WalkedViews::one_model, crate::specs::WalkedViews::choosing_model, crate::specs::Steps::case_of))]
    pub fn finish(self, alloc: Global, line: usize) -> Result<WalkedStatement, NoMemory>
        ensures { IfOk result (λ one. one_model one ≡ case_of line (choosing_model self)) }
    {
        let WalkedAlternatives {
            slot,
            selector,
            alternatives,
            bodies,
            ..
        } = self;
        let checked = alternatives.finish(alloc, line, slot, selector)?;
        Ok(WalkedStatement { checked, bodies })
    }
}
