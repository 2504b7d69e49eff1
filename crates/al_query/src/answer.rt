// Answers to questions of units.
ghost use Rattle.std.specs.Prelude.{◌≡◌, IfOk};
ghost use Rattle.std.specs.Option.{option_copied};
ghost use Rattle.al_query.specs.declared.answer.UseClause.TheVariants.{Operators};
ghost use Rattle.al_query.specs.Answers.{completions_of, context_of, form_of, form_of_profile, form_of_view, is_private_of, names_told, needs_body_of, own_view_of, parent_of, views_of};

use al_base::{Name, NoMemory, UnitKey};
use al_view::{Part, Profile, Seq, Symbol, Types, View, ViewKind, Views, copied_unit};
use std::alloc::Global;
use std::marker::Model;
use std::rc::Rc;

/// What a unit is (ARM 10.1.1).
#[derive(Clone, Copy)]
pub enum UnitForm {
    /// A package.
    Package,
    /// A procedure.
    Procedure,
    /// A function.
    Function,
}

/// A subprogram of that profile is a function if it has a result, else a procedure (ARM 6.1).
fn form_by_profile(profile: &Profile) -> UnitForm
    ensures { result ≡ form_of_profile profile.now }
{
    match &profile.result {
        Some(_) => UnitForm::Function,
        None => UnitForm::Procedure,
    }
}

/// What a unit with that view is; none if the view is no library unit's.
pub fn form_by_view(view: &View) -> Option<UnitForm>
    ensures { result ≡ form_of_view view.now }
{
    match view.kind() {
        ViewKind::OfPackage(_) => Some(UnitForm::Package),
        ViewKind::OfSubprogram(subprogram) => Some(form_by_profile(&subprogram.profile)),
        _ => None,
    }
}

/// A use clause, as resolved (ARM 8.4).
pub enum UseClause {
    /// The visible part of this package (ARM 8.4(3)).
    Package(UnitKey),
    /// The operators of this type (ARM 8.4(4)), as its package declares them.
    Type(Symbol),
    /// The operators of this type, which is one of these, as its view has them: its package isn't mentioned at the clause, and is
    /// asked for nothing.
    Operators { of_type: Symbol, types: Types },
}

impl Drop for UseClause {
    fn drop(self) {
        match self {
            UseClause::Package(_) => {}
            UseClause::Type(_) => {}
            UseClause::Operators {
                of_type: _,
                types: _,
            } => {}
        }
    }
}

/// A copy of the operators of that type, which is one of these.
fn copied_operators(alloc: Global, of_type: &Symbol, types: &Types) -> Result<UseClause, NoMemory>
    ensures { IfOk result (λ copy. copy ≡ Operators of_type.now types.now) }
{
    let of_type = of_type.copy(alloc)?;
    let types = types.share()?;
    Ok(UseClause::Operators { of_type, types })
}

impl UseClause {
    /// A copy of the use clause.
    ///
    /// # Errors
    ///
    /// `NoMemory` if the allocator refuses memory.
    pub fn copy(&self, alloc: Global) -> Result<Self, NoMemory>
        ensures { IfOk result (λ copy. copy ≡ self.now) }
    {
        match self {
            UseClause::Package(unit) => Ok(UseClause::Package(copied_unit(alloc, unit)?)),
            UseClause::Type(symbol) => Ok(UseClause::Type(symbol.copy(alloc)?)),
            UseClause::Operators { of_type, types } => copied_operators(alloc, of_type, types),
        }
    }
}

/// A use clause that is immediately in a part of a unit.
pub struct UseInPart {
    /// The part of the unit.
    pub part: Part,
    /// The names of the clause.
    pub clause: UseClause,
    /// The stubs of a body or subunit that it comes before.
    pub before: Seq<Name>,
}

impl Drop for UseInPart {
    fn drop(self) {
        let UseInPart {
            part: _,
            clause: _,
            before: _,
        } = self;
    }
}

/// The with and use clauses of a unit, and the names of its private types.
pub struct ContextView {
    /// The units that its with clauses name, in order (ARM 10.1.2(6)).
    pub withs: Seq<UnitKey>,
    /// The use clauses of its context clause, in order.
    pub uses: Seq<UseClause>,
    /// The use clauses that are immediately in the unit's parts, in order.
    pub uses_inside: Seq<UseInPart>,
    /// The private types that its visible part declares, in order (ARM 7.3): whoever sees the full view of one asks for it by its name.
    pub private_types: Seq<Name>,
}

impl Drop for ContextView {
    fn drop(self) {
        let ContextView {
            withs: _,
            uses: _,
            uses_inside: _,
            private_types: _,
        } = self;
    }
}

/// A declaration that a body must complete, by its name (ARM 3.11.1).
pub struct Completion {
    /// The name in lower case.
    pub name: Name,
    /// What is declared.
    pub view: View,
}

impl Drop for Completion {
    fn drop(self) {
        let Completion { name: _, view: _ } = self;
    }
}

/// What is answered. Of a unit that has faults, or that isn't there, no name has views, no part has names, and each property has
/// the answer `Nothing`.
pub enum AnswerKind {
    /// There is no answer: the unit has faults, or isn't there.
    Nothing,
    /// The views of a name in a part, in source order.
    Views(Views),
    /// The unit's own view: a package, or a subprogram with its profile.
    Kind(View),
    /// The parent unit; none for a root unit.
    Parent(Option<UnitKey>),
    /// Whether the unit is private.
    IsPrivate(bool),
    /// The context of the unit.
    Context(ContextView),
    /// Whether the unit needs a body.
    NeedsBody(bool),
    /// What its body must complete, in source order.
    Completions(Seq<Completion>),
}

impl Drop for AnswerKind {
    fn drop(self) {
        match self {
            AnswerKind::Nothing => {}
            AnswerKind::Views(_) => {}
            AnswerKind::Kind(_) => {}
            AnswerKind::Parent(_) => {}
            AnswerKind::IsPrivate(_) => {}
            AnswerKind::Context(_) => {}
            AnswerKind::NeedsBody(_) => {}
            AnswerKind::Completions(_) => {}
        }
    }
}

/// An answer that is shared: a copy costs no more than a count.
pub struct Answer {
    kind: Rc<AnswerKind>,
}

impl Drop for Answer {
    fn drop(self) {
        let Answer { kind: _ } = self;
    }
}

impl Model for Answer {
    ghost use Rattle.al_query.specs.declared.answer.AnswerKind.{AnswerKind};

    ghost Value = { AnswerKind };

    ghost view = { λ a. a.kind.value };
}

impl Answer {
    /// An answer that can be shared.
    ///
    /// # Errors
    ///
    /// `NoMemory` if the allocator refuses memory.
    pub fn new(alloc: Global, kind: AnswerKind) -> Result<Self, NoMemory>
        ensures { IfOk result (λ answer. answer ≡ kind) }
    {
        let kind = Rc::new(alloc, kind)?;
        Ok(Answer { kind })
    }

    /// What the answer says.
    pub fn kind(&self) -> &AnswerKind
        ensures { result.now ≡ self.now }
    {
        &self.kind
    }

    /// A second holder of the same answer. It isn't copied.
    ///
    /// # Errors
    ///
    /// `NoMemory` if the allocator refuses memory.
    pub fn share(&self) -> Result<Self, NoMemory>
        ensures { IfOk result (λ answer. answer ≡ self.now) }
    {
        let kind = self.kind.clone()?;
        Ok(Answer { kind })
    }

    /// The views of a name; none in an answer to another question.
    pub fn views(&self) -> &[View]
        ensures { result.now ≡ views_of self.now }
    {
        match self.kind() {
            AnswerKind::Views(views) => views.as_slice(),
            _ => &[],
        }
    }

    /// The unit's own view, if it is answered.
    pub fn own_view(&self) -> Option<&View>
        ensures { option_copied result ≡ own_view_of self.now }
    {
        match self.kind() {
            AnswerKind::Kind(view) => Some(view),
            _ => None,
        }
    }

    /// What the unit is, if its own view is answered.
    pub fn form(&self) -> Option<UnitForm>
        ensures { result ≡ form_of self.now }
    {
        match self.kind() {
            AnswerKind::Kind(view) => form_by_view(view),
            _ => None,
        }
    }

    /// The parent unit; none for a root unit, and none if that isn't answered.
    pub fn parent(&self) -> Option<&UnitKey>
        ensures { option_copied result ≡ parent_of self.now }
    {
        match self.kind() {
            AnswerKind::Parent(parent) => parent.as_ref(),
            _ => None,
        }
    }

    /// Whether the answer is that it is a private unit.
    pub fn is_private(&self) -> bool
        ensures { result ≡ is_private_of self.now }
    {
        matches!(self.kind(), AnswerKind::IsPrivate(true))
    }

    /// Whether the answer is that it needs a body.
    pub fn needs_body(&self) -> bool
        ensures { result ≡ needs_body_of self.now }
    {
        matches!(self.kind(), AnswerKind::NeedsBody(true))
    }

    /// The with and use clauses, if they are answered.
    pub fn context(&self) -> Option<&ContextView>
        ensures { option_copied result ≡ context_of self.now }
    {
        match self.kind() {
            AnswerKind::Context(context) => Some(context),
            _ => None,
        }
    }

    /// The private types that the unit's visible part declares, by their names; none if its context isn't answered.
    pub fn private_types(&self) -> &[Name]
        ensures { result.now ≡ names_told self.now }
    {
        match self.kind() {
            AnswerKind::Context(context) => context.private_types.as_slice(),
            _ => &[],
        }
    }

    /// What the body must complete; nothing if that isn't answered.
    pub fn completions(&self) -> &[Completion]
        ensures { result.now ≡ completions_of self.now }
    {
        match self.kind() {
            AnswerKind::Completions(completions) => completions.as_slice(),
            _ => &[],
        }
    }
}
