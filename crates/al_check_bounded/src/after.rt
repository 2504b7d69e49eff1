// The verdict over a unit, after the walk over it has ended.
ghost use Rattle.std.specs.Prelude.{◌≡◌, Some, IfOk};
ghost use Rattle.al_stmts.specs.WalkedViews.{inside_model};
ghost use Rattle.al_check_bounded.specs.Verdicts.{verdict_of};
ghost use Rattle.al_check_bounded.specs.Verdicts.Verdict.{Wrong};
ghost use Rattle.al_check_bounded.specs.Made.{faults_in, or_not_yet};
ghost use Rattle.al_check_bounded.specs.Ended.{ended, viewed, walked_unit};

use crate::UnitVerdict;
use crate::faults::wrong_or_not_yet;
use crate::made::{WalkedUnit, finding_of};
use crate::said::{SaidUnit, own_view};
use al_base::{Name, NoMemory, UnitKey};
use al_decl_judged::{Declaration, Progress};
use al_query::{Completion, UseInPart};
use al_query_outcome::Parts;
use al_scope::OwnText;
use al_stmts::WalkedInside;
use al_view::{Seq, View};
use al_view_typed::{TypedBody, TypedDeclaration, TypedStatement};
use std::alloc::Global;

/// What is known of a unit before the walk over it.
pub struct UnitFacts {
    /// The unit.
    pub unit: UnitKey,
    /// Whether it is a declaration that needs a body.
    pub needs_body: bool,
    /// The line of its first token.
    pub line: usize,
    /// Its parent, if it has one.
    pub parent: Option<UnitKey>,
    /// The units that its with clauses name.
    pub withs: Seq<UnitKey>,
    /// The view that it completes, if it completes one.
    pub view: Option<View>,
    /// The private types that its visible part declares.
    pub private_types: Seq<Name>,
}

impl Drop for UnitFacts {
    fn drop(self) {
        let UnitFacts {
            unit: _,
            needs_body: _,
            line: _,
            parent: _,
            withs: _,
            view: _,
            private_types: _,
        } = self;
    }
}

impl UnitFacts {
    // The unit, its parent, the units of its with clauses, and its private types.
    fn into_parts(self) -> (UnitKey, Option<UnitKey>, Seq<UnitKey>, Seq<Name>)
        ensures { result ≡ (self.unit, self.parent, self.withs, self.private_types) }
    {
        let UnitFacts {
            unit,
            needs_body: _,
            line: _,
            parent,
            withs,
            view: _,
            private_types,
        } = self;
        (unit, parent, withs, private_types)
    }
}

/// What the walk over a unit left.
pub struct EndedText {
    /// The unit's own header.
    pub own: OwnText,
    /// The words, objects, flags and protected objects that the unit takes.
    pub progress: Progress,
    /// The declarations that the unit leaves to its body to complete.
    pub completions: Seq<Completion>,
    /// What its parts declare, and its stubs.
    pub parts: Parts,
    /// The use clauses that are immediately in its parts.
    pub uses: Seq<UseInPart>,
    /// The unit's own name and view, if it is a library subprogram's declaration, or a body that acts as one.
    pub declared: Seq<Declaration>,
}

impl Drop for EndedText {
    fn drop(self) {
        let EndedText {
            own: _,
            progress: _,
            completions: _,
            parts: _,
            uses: _,
            declared: _,
        } = self;
    }
}

impl EndedText {
    // All fields except the declarations of its name.
    fn into_parts(self) -> (OwnText, Progress, Seq<Completion>, Parts, Seq<UseInPart>)
        ensures { result ≡ (self.own, self.progress, self.completions, self.parts, self.uses) }
    {
        let EndedText {
            own,
            progress,
            completions,
            parts,
            uses,
            declared: _,
        } = self;
        (own, progress, completions, parts, uses)
    }
}

/// The unit that was walked, with its own view.
fn walked_unit(
    unit_facts: UnitFacts,
    kind: View,
    ends: EndedText,
    declarations: Vec<TypedDeclaration>,
    statements: Vec<TypedStatement>,
    bodies: Vec<TypedBody>,
) -> WalkedUnit
    ensures { result ≡ walked_unit unit_facts kind ends declarations statements bodies }
{
    let (needs_body, line) = (unit_facts.needs_body, unit_facts.line);
    let (unit, parent, withs, private_types) = unit_facts.into_parts();
    let (own, progress, completions, parts, uses) = ends.into_parts();
    let (_, words, objects, flags, protected_objects) = progress.into_parts();
    let said = SaidUnit {
        own,
        kind,
        parent,
        needs_body,
        withs,
        uses_inside: uses,
        private_types,
        completions,
    };
    WalkedUnit {
        unit,
        properties: said.into_properties(),
        parts,
        line,
        frame: words.frame.saturating_sub(3),
        words: words.data,
        objects,
        flags,
        protected_objects,
        declarations,
        statements,
        bodies,
    }
}

/// The verdict over a unit that has a view.
fn with_view(
    alloc: Global,
    unit_facts: UnitFacts,
    kind: View,
    ends: EndedText,
    inside: WalkedInside,
) -> Result<UnitVerdict, NoMemory>
    ensures { IfOk result (λ finding. verdict_of finding ≡ viewed unit_facts (Some kind) ends (inside_model inside)) }
{
    let WalkedInside {
        faults,
        declarations,
        statements,
        bodies,
    } = inside;
    let walked = walked_unit(unit_facts, kind, ends, declarations, statements, bodies);
    finding_of(alloc, faults, walked)
}

#[tactic(auto, unfolding(al_stmts::specs::WalkedViews::inside_model))]
/// The verdict over a unit that has no view: its errors, or E700.
fn without_view(
    alloc: Global,
    unit_facts: UnitFacts,
    inside: WalkedInside,
) -> Result<UnitVerdict, NoMemory>
    ensures { IfOk result (λ finding. verdict_of finding ≡ Wrong (or_not_yet unit_facts.unit (faults_in unit_facts.unit (inside_model inside).faults))) }
{
    let WalkedInside { faults, .. } = inside;
    let wrong = wrong_or_not_yet(alloc, &unit_facts.unit, faults);
    drop(unit_facts);
    match wrong {
        Ok(wrong) => Ok(UnitVerdict::Faulty(wrong)),
        Err(error) => Err(error),
    }
}

/// The verdict over a unit, after the walk over it has ended.
///
/// # Errors
/// `NoMemory` if the allocator refuses memory.
#[tactic(auto, unfolding(crate::specs::Ended::ended))]
pub fn found_after(
    alloc: Global,
    unit_facts: UnitFacts,
    ends: EndedText,
    inside: WalkedInside,
) -> Result<UnitVerdict, NoMemory>
    ensures { IfOk result (λ finding. verdict_of finding ≡ ended unit_facts ends (inside_model inside)) }
{
    match own_view(alloc, &ends.own, ends.declared.as_slice(), &unit_facts.view) {
        Ok(Some(kind)) => with_view(alloc, unit_facts, kind, ends, inside),
        Ok(None) => {
            drop(ends);
            without_view(alloc, unit_facts, inside)
        }
        Err(error) => {
            drop(unit_facts);
            drop(ends);
            drop(inside);
            Err(error)
        }
    }
}
