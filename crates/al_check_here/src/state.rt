// The state of the check of a unit.
ghost use Rattle.std.specs.Prelude.{◌≡◌};
ghost use Rattle.al_check_here.specs.Ends.{ends_of};
ghost use Rattle.al_check_here.specs.Standings.{begun_at, first_part};

use crate::ends::{Ends, parts_ended};
use crate::stack::Stack;
use al_base::{UnitKey, UnitKind};
use al_decl::{Environment, OuterFrame, Outside};
use al_decl_judged::{Declaration, Heading, Progress, Uncompleted};
use al_overload_nodes::Labeller;
use al_query::{UseClause, UseInPart};
use al_query_outcome::StubDeclarations;
use al_scope::{OwnText, PrivateName, Scope};
use al_stmts::ReturnContext;
use al_view::{Bounds, Interface, Part, Seq, SubtypeView, Symbol, Types, View};
use al_view_typed::{EntryOf, FormalWords};
use std::alloc::Global;

/// What stays the same during the check of a unit.
pub struct UnitText {
    /// The predefined units, and the protected object whose body the place is in.
    pub labeller: Labeller,
    /// The library packages that are mentioned in the unit.
    pub packages: Seq<UnitKey>,
    /// The unit's own header.
    pub own: OwnText,
    /// The private types of the unit's ancestors: its visible part shows only their partial views (ARM 7.3(5)).
    pub hidden: Seq<PrivateName>,
    /// What the unit's private part declares, once it has been walked and the words of its private types are known from it; before that it is empty.
    pub private_part: Interface,
}

impl Drop for UnitText {
    fn drop(self) {
        let UnitText {
            labeller: _,
            packages: _,
            own: _,
            hidden: _,
            private_part: _,
        } = self;
    }
}

impl UnitText {
    /// The unit's own header. It takes no memory.
    pub fn into_own(self) -> OwnText
        ensures { result ≡ self.own }
    {
        let UnitText {
            labeller: _,
            packages: _,
            own,
            hidden: _,
            private_part: _,
        } = self;
        own
    }
}

/// What a body is the body of.
#[derive(Clone, Copy)]
pub enum BodyRole {
    /// A subprogram that isn't protected (ARM 6.3).
    Subprogram,
    /// A task (ARM 9.1).
    Task,
    /// A protected subprogram (ARM 9.5.1).
    Operation,
    /// An entry of a protected object (ARM 9.5.2).
    Entry,
}

/// The head of a body that was read: its role, what precedes its `is`, and the symbol of its code.
pub struct AnalyzedHeading {
    /// What the body is the body of.
    pub role: BodyRole,
    /// What precedes its `is`.
    pub heading: Heading,
    /// The symbol of its code.
    pub symbol: Symbol,
}

impl Drop for AnalyzedHeading {
    fn drop(self) {
        let AnalyzedHeading {
            role: _,
            heading: _,
            symbol: _,
        } = self;
    }
}

impl AnalyzedHeading {
    pub(crate) fn into_parts(self) -> (BodyRole, Heading, Symbol)
        ensures { result ≡ (self.role, self.heading, self.symbol) }
    {
        let AnalyzedHeading {
            role,
            heading,
            symbol,
        } = self;
        (role, heading, symbol)
    }
}

/// The protected object whose body the place is in (ARM 9.4).
pub struct OpenObject {
    /// Its symbol.
    pub symbol: Symbol,
    /// Its view, as other units see it: its operations and its components.
    pub view: View,
    /// Its entry, if it has one whose barrier is right.
    pub entry: Option<EntryOf>,
    /// What was declared, and what waited for completion, outside of its body.
    pub outside: Outside,
}

impl Drop for OpenObject {
    fn drop(self) {
        let OpenObject {
            symbol: _,
            view: _,
            entry: _,
            outside: _,
        } = self;
    }
}

impl OpenObject {
    /// What was declared, and what waited for completion, outside of its body. It takes no memory.
    pub fn into_outside(self) -> Outside
        ensures { result ≡ self.outside }
    {
        let OpenObject {
            symbol: _,
            view: _,
            entry: _,
            outside,
        } = self;
        outside
    }
}

/// A body that encloses the place.
pub struct OpenBody {
    /// What it is the body of.
    pub role: BodyRole,
    /// The symbol of its code.
    pub symbol: Symbol,
    /// Its formals, with the words of the frame that each has.
    pub formals: Seq<FormalWords>,
    /// The context of its return statements.
    pub returns: ReturnContext,
    /// The subtype of a function's result, if its mark is right.
    pub result: Option<SubtypeView>,
    /// The first word of the frame after the formals.
    pub after: u32,
    /// The frame outside of it, by its depth and its next word.
    pub outer: OuterFrame,
    /// What was declared, and what waited for completion, outside of it.
    pub outside: Outside,
}

impl Drop for OpenBody {
    fn drop(self) {
        let OpenBody {
            role: _,
            symbol: _,
            formals: _,
            returns: _,
            result: _,
            after: _,
            outer: _,
            outside: _,
        } = self;
    }
}

impl OpenBody {
    /// What was declared, and what waited for completion, outside of it. It takes no memory.
    pub(crate) fn into_outside(self) -> Outside
        ensures { result ≡ self.outside }
    {
        let OpenBody {
            role: _,
            symbol: _,
            formals: _,
            returns: _,
            result: _,
            after: _,
            outer: _,
            outside,
        } = self;
        outside
    }
}

/// A use clause that is immediately in a part of the unit.
pub struct UseHere {
    /// The part that it is in.
    pub part: Part,
    /// The clause.
    pub clause: UseClause,
    /// The number of stubs before it.
    pub stubs: usize,
}

impl Drop for UseHere {
    fn drop(self) {
        let UseHere {
            part: _,
            clause: _,
            stubs: _,
        } = self;
    }
}

/// The type of the range of a for loop.
pub struct LoopType {
    /// The type's symbol.
    pub of: Symbol,
    /// The types among which it is found: none if the type is predefined.
    pub types: Types,
    /// All values of the type. The parameter has these if the bounds of the range aren't static.
    pub values: Bounds,
}

impl Drop for LoopType {
    fn drop(self) {
        let LoopType {
            of: _,
            types: _,
            values: _,
        } = self;
    }
}

/// The state of the check of a unit: its place, and what encloses it.
pub struct CheckState {
    /// The unit, and what was known of it before.
    pub unit: UnitText,
    /// The place's environment: what is visible, and what the unit has taken so far.
    pub env: Environment,
    /// For each loop and block that the place is in, outermost first: what was declared, and what waited for completion, outside of it.
    pub blocks: Stack<Outside>,
    /// The bodies that the place is in, outermost first.
    pub bodies: Stack<OpenBody>,
    /// The protected object whose body the place is in. Such bodies don't nest.
    pub object: Option<OpenObject>,
    /// The head that was read last, until its body is entered.
    pub pending: Option<AnalyzedHeading>,
    /// The type of the range of the for loop that was read last.
    pub parameter: Option<LoopType>,
    /// The part of the unit that the place is in.
    pub part: Part,
    /// What the unit's visible part declares, if the place is after it.
    pub visible: Interface,
    /// The stubs before the place.
    pub stubs: Seq<StubDeclarations>,
    /// The use clauses that are immediately in the unit's parts.
    pub uses: Seq<UseHere>,
    /// The unit's own name and view, if it is a library subprogram's declaration, or a body that acts as one.
    pub own: Seq<Declaration>,
}

impl Drop for CheckState {
    fn drop(self) {
        let CheckState {
            unit: _,
            env: _,
            blocks: _,
            bodies: _,
            object: _,
            pending: _,
            parameter: _,
            part: _,
            visible: _,
            stubs: _,
            uses: _,
            own: _,
        } = self;
    }
}

/// The part in which a unit begins.
fn first_part(own: &OwnText) -> Part
    ensures { result ≡ first_part own.now }
{
    match own.unit.kind {
        UnitKind::Decl => Part::Visible,
        UnitKind::Body => Part::Body,
        UnitKind::Sub => Part::Body,
    }
}

impl CheckState {
    /// The state at the start of a unit: its scope, what was taken before it, and what waits for completion. It takes no memory.
    pub fn new(unit: UnitText, scope: Scope, progress: Progress, uncompleted: Uncompleted) -> Self
        ensures { result ≡ begun_at unit scope progress uncompleted }
    {
        let alloc = unit.labeller.alloc;
        let part = first_part(&unit.own);
        CheckState {
            unit,
            env: Environment {
                scope,
                progress,
                uncompleted,
                declared: Interface::new(alloc),
            },
            blocks: Stack::empty(alloc),
            bodies: Stack::empty(alloc),
            object: None,
            pending: None,
            parameter: None,
            part,
            visible: Interface::new(alloc),
            stubs: Seq::empty(alloc),
            uses: Seq::empty(alloc),
            own: Seq::empty(alloc),
        }
    }
}

impl CheckState {
    /// What the walk leaves if the unit ends here, with the use clauses of its parts.
    pub(crate) fn ended(self, alloc: Global, uses: Seq<UseInPart>) -> Ends
        ensures { result ≡ record (ends_of self) { uses = uses } }
    {
        let CheckState {
            unit,
            env,
            blocks: _,
            bodies: _,
            object: _,
            pending: _,
            parameter: _,
            part,
            visible,
            stubs,
            uses: _,
            own,
        } = self;
        let Environment {
            progress,
            uncompleted,
            declared,
            ..
        } = env;
        Ends {
            progress,
            completions: uncompleted.into_completions(),
            parts: parts_ended(alloc, &part, visible, declared, stubs),
            uses,
            own,
            unit,
        }
    }

    /// What is declared immediately in the part that the place is in.
    pub(crate) fn into_declared(self) -> Interface
        ensures { result ≡ self.env.declared }
    {
        let CheckState {
            unit: _,
            env,
            blocks: _,
            bodies: _,
            object: _,
            pending: _,
            parameter: _,
            part: _,
            visible: _,
            stubs: _,
            uses: _,
            own: _,
        } = self;
        let Environment { declared, .. } = env;
        declared
    }
}
