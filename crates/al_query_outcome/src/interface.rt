// What a unit answers to questions of it.
ghost use Rattle.std.specs.Prelude.{◌≡◌, [], IfOk};
ghost use Rattle.std.specs.Option.{option_copied};
ghost use Rattle.al_query.specs.declared.answer.AnswerKind.TheVariants as answers;
ghost use Rattle.al_view.specs.Interfaces.{views_of};
ghost use Rattle.al_query_outcome.specs.Tables.{answer_of, before_stub, interface_of, no_answer, part_of, properties_of, property_of};

use al_base::{Name, NoMemory, UnitKey};
use al_query::{Answer, AnswerKind, Completion, ContextView, Property, Query};
use al_view::{Interface, Part, Seq, Symbol, View, Views};
use std::alloc::Global;

/// What a unit without faults says of itself beside what it declares.
#[derive(Drop)]
pub struct Properties {
    /// What the unit is, by its own view (ARM 10.1.1).
    pub kind: View,
    /// The parent unit; none for a root unit (ARM 10.1.1(10)).
    pub parent: Option<UnitKey>,
    /// Whether the unit is private (ARM 10.1.1(12)).
    pub is_private: bool,
    /// The with and use clauses as resolved (ARM 10.1.2, 8.4).
    pub context: ContextView,
    /// Whether the unit needs a body (ARM 7.2(4)).
    pub needs_body: bool,
    /// What the unit's body must complete (ARM 3.11.1).
    pub completions: Seq<Completion>,
}

/// A stub (ARM 10.1.3): its name, the subprogram whose body it stands for, and what comes before it in its body, with the regions
/// round it (ARM 10.1.3(8)).
pub struct StubDeclarations {
    /// The name of the stub in lower case.
    pub stub: Name,
    /// The symbol of the subprogram.
    pub symbol: Symbol,
    /// What is declared before the stub.
    pub before: Interface,
}

impl Drop for StubDeclarations {
    fn drop(self) {
        let StubDeclarations {
            stub: _,
            symbol: _,
            before: _,
        } = self;
    }
}

/// What the parts of a unit declare; a part that it hasn't declares nothing.
pub struct Parts {
    /// What the visible part declares.
    pub visible: Interface,
    /// What the private part declares.
    pub private_part: Interface,
    /// What the body declares.
    pub body: Interface,
    /// The stubs of the body.
    pub stubs: Seq<StubDeclarations>,
}

impl Drop for Parts {
    fn drop(self) {
        let Parts {
            visible: _,
            private_part: _,
            body: _,
            stubs: _,
        } = self;
    }
}

/// What a unit without faults answers of its properties.
pub struct PropertyAnswers {
    is_private: bool,
    needs_body: bool,
    kind: View,
    parent: Answer,
    context: Answer,
    completions: Answer,
}

impl Drop for PropertyAnswers {
    fn drop(self) {
        let PropertyAnswers {
            is_private: _,
            needs_body: _,
            kind: _,
            parent: _,
            context: _,
            completions: _,
        } = self;
    }
}

/// What a unit without faults answers. It is made of what it says of itself and of what its parts declare, and of nothing
/// else.
pub struct UnitInterface {
    properties: PropertyAnswers,
    parts: Parts,
}

impl Drop for UnitInterface {
    fn drop(self) {
        let UnitInterface {
            properties: _,
            parts: _,
        } = self;
    }
}

impl PropertyAnswers {
    fn new(alloc: Global, properties: Properties) -> Result<PropertyAnswers, NoMemory>
        ensures { IfOk result (λ answers. answers ≡ properties_of properties) }
    {
        let Properties {
            kind,
            parent,
            is_private,
            context,
            needs_body,
            completions,
        } = properties;
        let parent = Answer::new(alloc, AnswerKind::Parent(parent))?;
        let context = Answer::new(alloc, AnswerKind::Context(context))?;
        let completions = Answer::new(alloc, AnswerKind::Completions(completions))?;
        Ok(PropertyAnswers {
            is_private,
            needs_body,
            kind,
            parent,
            context,
            completions,
        })
    }

    /// The answer to a question for one of the properties.
    fn answer(&self, alloc: Global, property: Property) -> Result<Answer, NoMemory>
        ensures { IfOk result (λ answer. answer ≡ property_of self.now property) }
    {
        match property {
            Property::Kind => Answer::new(alloc, AnswerKind::Kind(self.kind.share()?)),
            Property::Parent => self.parent.share(),
            Property::IsPrivate => Answer::new(alloc, AnswerKind::IsPrivate(self.is_private)),
            Property::Context => self.context.share(),
            Property::NeedsBody => Answer::new(alloc, AnswerKind::NeedsBody(self.needs_body)),
            Property::Completions => self.completions.share(),
        }
    }
}

impl Parts {
    /// The views of a name in a part, in source order; none if the part doesn't declare it, or isn't there.
    fn views(&self, part: &Part, name: &[u8]) -> &[View]
        ensures { result.now ≡ views_of (part_of self.now part.now) name.now }
    {
        match part {
            Part::Visible => self.visible.views(name),
            Part::Private => self.private_part.views(name),
            Part::Body => self.body.views(name),
            Part::Stub(stub) => match self.before(stub.as_slice()) {
                Some(before) => before.views(name),
                None => &[],
            },
        }
    }

    /// What comes before the stub of that name, if there is one.
    fn before(&self, name: &[u8]) -> Option<&Interface>
        ensures { option_copied result ≡ before_stub self.now.stubs name.now }
    {
        let stub = self
            .stubs
            .as_slice()
            .iter()
            .find(|stub| stub.stub.as_slice() == name)?;
        Some(&stub.before)
    }
}

impl UnitInterface {
    /// The answers of a unit that says this of itself and whose parts declare this.
    ///
    /// # Errors
    ///
    /// `NoMemory` if the allocator refuses memory.
    pub fn new(
        alloc: Global,
        properties: Properties,
        parts: Parts,
    ) -> Result<UnitInterface, NoMemory>
        ensures { IfOk result (λ interface. interface ≡ interface_of properties parts) }
    {
        let properties = PropertyAnswers::new(alloc, properties)?;
        Ok(UnitInterface { properties, parts })
    }

    /// The answer to a question of the unit.
    ///
    /// # Errors
    ///
    /// `NoMemory` if the allocator refuses memory.
    pub fn answer(&self, alloc: Global, query: &Query) -> Result<Answer, NoMemory>
        ensures { IfOk result (λ answer. answer ≡ answer_of self.now query.now) }
    {
        match query {
            Query::Named { part, name, .. } => {
                let mut views = Views::new(alloc);
                views.append(self.parts.views(part, name.as_slice()))?;
                Answer::new(alloc, AnswerKind::Views(views))
            }
            Query::Of { property, .. } => self.properties.answer(alloc, *property),
        }
    }
}

/// The answer to a question of a unit that has faults, or that isn't there: no views, no property.
///
/// # Errors
///
/// `NoMemory` if the allocator refuses memory.
pub fn no_answer(alloc: Global, query: &Query) -> Result<Answer, NoMemory>
    ensures { IfOk result (λ answer. answer ≡ no_answer query.now) }
{
    match query {
        Query::Named { .. } => Answer::new(alloc, AnswerKind::Views(Views::new(alloc))),
        Query::Of { .. } => Answer::new(alloc, AnswerKind::Nothing),
    }
}
