// Expressions whose names, calls and operators have their candidates, and which of these are meant.
ghost use Rattle.std.specs.Prelude.{◌≡◌, [], ◌∷◌, ◌++◌, IfOk, IfSome, is_ok, if◌then◌else◌};
ghost use Rattle.al_overload.specs.Sizes.{IsLabelledWithin, IsWithin};
ghost use Rattle.al_overload.specs.Counts.{AreCounted, IsCounted, candidates, counted_all, plain, plain_all};
ghost use Rattle.al_overload.specs.Labelling.{Tree as tree, Trees as trees, with_candidate};

use crate::count::Count;
use crate::types::{Expected, Given};
use al_base::NoMemory;
use al_view::Seq;
use smallvec::SmallVec;
use std::alloc::Global;
use std::default::MadeWith;
use std::marker::Model;

/// A candidate: a declaration that the name, call or operator at the head of an expression may mean.
#[derive(Drop)]
pub struct Candidate {
    /// What its operands are expected to be.
    pub operands: Seq<Expected>,
    /// What it gives.
    pub given: Given,
    /// Whether it is an operator of the root type of all integer types (ARM 3.4.1(8)), which is preferred (ARM 8.6(29)).
    pub is_root: bool,
}

/// A candidate, with the number of ways in which its operands can be what it wants.
pub struct Choice {
    /// The candidate.
    pub candidate: Candidate,
    /// In how many ways its operands can be what it wants.
    pub ways: Count,
}

impl Drop for Choice {
    fn drop(self) {
        let Choice {
            candidate: _,
            ways: _,
        } = self;
    }
}

// The value of an inline slot that no choice has taken yet.
impl MadeWith<Global> for Choice {
    fn made_with(alloc: Global) -> Choice {
        let candidate = Candidate {
            operands: Seq::empty(alloc),
            given: Given::Nothing,
            is_root: false,
        };
        Choice {
            candidate,
            ways: Count::None,
        }
    }
}

/// The candidates of a head: mostly two, which take no memory of their own.
pub struct Choices {
    items: SmallVec<Choice, 2>,
}

impl Drop for Choices {
    fn drop(self) {
        let Choices { items: _ } = self;
    }
}

impl Model for Choices {
    ghost use Rattle.std.specs.Prelude.{List};
    ghost use Rattle.al_overload.specs.declared.term.Choice.{Choice};

    ghost Value = { List Choice };

    ghost view = { λ c. c.items.items };
}

/// An expression inside another one: the candidates of the name, call or operator at its head, and its operands.
#[cycle(term)]
pub enum Term {
    /// The candidates of the head, and the operands.
    Head(Choices, Terms),
}

// A chain of operators leans to the left. The loop drops the first operand and a call each of the others, so that no chain takes more stack
// than its nesting needs; nor does a list of arguments.
impl Drop for Term {
    #[cycle(drop_term)]
    fn drop(mut self) {
        loop {
            match self {
                Term::Head(_, operands) => match operands.into_first() {
                    Some(first) => self = first,
                    None => return,
                },
            }
        }
    }
}

/// Terms in source order.
#[cycle(term)]
pub enum Terms {
    NoTerms,
    MoreTerms(Box<Term>, Box<Terms>),
}

impl Terms {
    /// The first term; the others are dropped.
    #[cycle(drop_term)]
    fn into_first(self) -> Option<Term>
        ensures { IfSome result (λ first. IsWithin first self) }
    {
        match self {
            Terms::NoTerms => None,
            Terms::MoreTerms(first, _) => Some(Box::into_inner(first)),
        }
    }
}

impl Drop for Terms {
    #[cycle(drop_term)]
    fn drop(mut self) {
        loop {
            match self {
                Terms::NoTerms => return,
                Terms::MoreTerms(_, others) => self = Box::into_inner(others),
            }
        }
    }
}

/// Operands, in source order.
pub struct Operands {
    pub(crate) terms: Terms,
}

impl Drop for Operands {
    fn drop(self) {
        let Operands { terms: _ } = self;
    }
}

impl Model for Operands {
    ghost use Rattle.al_overload.specs.contracts.term.Terms as list;
    ghost use Rattle.al_overload.specs.declared.term.Terms.{Terms};
    ghost use Rattle.al_overload.specs.Counts.{AreCounted};
    ghost use Rattle.std.specs.Coded.{codes};

    ghost Value = { Terms };

    ghost coded = { Prim.hlevel (codes, list.the_row.coded) };

    ghost view = { λ o. o.terms };

    ghost invariant = { λ o. AreCounted o.terms };
}

/// An expression: the candidates of the name, call or operator at its head, and its operands.
pub struct Expression {
    pub(crate) choices: Choices,
    pub(crate) operands: Terms,
}

impl Drop for Expression {
    fn drop(self) {
        let Expression {
            choices: _,
            operands: _,
        } = self;
    }
}

impl Model for Expression {
    ghost use Rattle.al_overload.specs.contracts.term.Term as term;
    ghost use Rattle.al_overload.specs.declared.term.Term.{Term, Head};
    ghost use Rattle.al_overload.specs.Counts.{IsHead};
    ghost use Rattle.std.specs.Coded.{codes};

    ghost Value = { Term };

    ghost coded = { Prim.hlevel (codes, term.the_row.coded) };

    ghost view = { λ e. Head e.choices e.operands };

    ghost invariant = { λ e. IsHead e.choices e.operands };
}

/// An expression with the candidate, by its number, that each head means.
#[cycle(labelled)]
pub enum Labelled {
    /// The candidate of this number, from 0, and whether it is an operator of the root type.
    HeadAs(usize, bool, LabelledTerms),
}

// A labelling is dropped as a `Term` is.
impl Drop for Labelled {
    #[cycle(drop_labelled)]
    fn drop(mut self) {
        loop {
            match self {
                Labelled::HeadAs(_, _, operands) => match operands.into_first() {
                    Some(first) => self = first,
                    None => return,
                },
            }
        }
    }
}

/// Labellings in source order.
#[cycle(labelled)]
pub enum LabelledTerms {
    NoLabelled,
    MoreLabelled(Box<Labelled>, Box<LabelledTerms>),
}

impl LabelledTerms {
    /// The first labelling; the others are dropped.
    #[cycle(drop_labelled)]
    fn into_first(self) -> Option<Labelled>
        ensures { IfSome result (λ first. IsLabelledWithin first self) }
    {
        match self {
            LabelledTerms::NoLabelled => None,
            LabelledTerms::MoreLabelled(first, _) => Some(Box::into_inner(first)),
        }
    }
}

impl Drop for LabelledTerms {
    #[cycle(drop_labelled)]
    fn drop(mut self) {
        loop {
            match self {
                LabelledTerms::NoLabelled => return,
                LabelledTerms::MoreLabelled(_, others) => self = Box::into_inner(others),
            }
        }
    }
}

impl Choices {
    /// No candidates. It takes no memory.
    pub fn new(alloc: Global) -> Choices
        ensures { result ≡ [] }
    {
        Choices {
            items: SmallVec::new(alloc),
        }
    }

    /// The candidates, in the order in which they were added.
    pub fn as_slice(&self) -> &[Choice]
        ensures { result.now ≡ self.now }
    {
        self.items.as_slice()
    }

    /// Adds a candidate for the head of these operands.
    /// # Errors
    /// `NoMemory` if the allocator refuses memory; no candidate is added then.
    #[tactic(auto, using(crate::proofs::Counting::counted_more))]
    pub fn add(&mut self, candidate: Candidate, operands: &Terms) -> Result<(), NoMemory>
        requires counted { self.old ≡ counted_all (plain_all operands.now) (candidates self.old) }
        requires operands { AreCounted operands.now }
        ensures candidates { candidates self.new ≡ (if is_ok result then candidates self.old ++ candidate ∷ [] else candidates self.old) }
        ensures counted { self.new ≡ counted_all (plain_all operands.now) (candidates self.new) }
    {
        let choice = Choice::new(candidate, operands);
        self.items.push(choice)?;
        Ok(())
    }
}

impl Operands {
    pub(crate) fn into_terms(self) -> Terms
        ensures terms { result ≡ self }
        ensures counted { AreCounted result }
    {
        let Operands { terms } = self;
        terms
    }

    /// No operands.
    pub fn none() -> Operands
        ensures { plain_all result ≡ trees.NoTree }
    {
        Operands {
            terms: Terms::NoTerms,
        }
    }

    /// Puts one operand before these.
    /// # Errors
    /// `NoMemory` if the allocator refuses memory.
    pub fn before(alloc: Global, operand: Expression, more: Operands) -> Result<Operands, NoMemory>
        ensures { IfOk result (λ all. plain_all all ≡ trees.MoreTrees (plain operand) (plain_all more)) }
    {
        let operand = Box::new(alloc, operand.into_term())?;
        let more = Box::new(alloc, more.into_terms())?;
        Ok(Operands {
            terms: Terms::MoreTerms(operand, more),
        })
    }
}

impl Expression {
    /// An expression whose head has no candidate yet: nothing fits it.
    pub fn new(alloc: Global, operands: Operands) -> Expression
        ensures { plain result ≡ tree.Node [] (plain_all operands) }
    {
        Expression {
            choices: Choices::new(alloc),
            operands: operands.into_terms(),
        }
    }

    // The expression as a `Term` inside another expression.
    fn into_term(self) -> Term
        ensures term { result ≡ self }
        ensures counted { IsCounted result }
    {
        let Expression { choices, operands } = self;
        Term::Head(choices, operands)
    }

    /// Adds a candidate of the head.
    /// # Errors
    /// `NoMemory` if the allocator refuses memory; no candidate is added then.
    pub fn add(&mut self, candidate: Candidate) -> Result<(), NoMemory>
        ensures { plain self.new ≡ (if is_ok result then with_candidate (plain self.old) candidate else plain self.old) }
    {
        self.choices.add(candidate, &self.operands)
    }
}
