// Declarations that were walked over.
ghost use Rattle.std.specs.Prelude.{◌≡◌, ◌∷◌, ◌++◌, IfOk, OnOk, is_some, map};
ghost use Rattle.al_stmts.specs.FaultLists.{followed};
ghost use Rattle.al_base_fault.specs.Judging.{map_ok};
ghost use Rattle.al_view_typed.specs.StatementViews.{statement_model};
ghost use Rattle.al_view_typed.specs.UnitTrees.{body_model};
ghost use Rattle.al_stmts.specs.Steps.{body_faults, closed_by, inside_of, no_part, nothing, object_of, part_of, parts_joined};
ghost use Rattle.al_stmts.specs.Views.{effects_model};
ghost use Rattle.al_stmts.specs.WalkedViews.{all_model, inside_model, part_model};

use crate::bodies::append;
use crate::inside::WalkedInside;
use crate::statements::WalkedStatements;
use crate::{CheckedStatements, FaultList};
use al_base::NoMemory;
use al_base_fault::{CheckResult, Fault};
use al_view_typed::{TypedBody, TypedDeclaration};
use std::alloc::Global;

/// Declarations that were walked over, in source order, with the bodies inside them.
pub struct WalkedPart {
    /// What is wrong with them.
    pub faults: FaultList,
    /// What they do.
    pub declarations: Vec<TypedDeclaration>,
    /// The bodies inside them, in the order of their first tokens.
    pub bodies: Vec<TypedBody>,
}

impl Drop for WalkedPart {
    fn drop(self) {
        let WalkedPart {
            faults: _,
            declarations: _,
            bodies: _,
        } = self;
    }
}

/// Appends what further declarations do.
#[tactic(auto, using(std::proofs::lemmas::Grind::common_steps))]
fn append_effects(
    effects: &mut Vec<TypedDeclaration>,
    more: Vec<TypedDeclaration>,
) -> Result<(), NoMemory>
    ensures { OnOk result (effects_model effects.new ≡ effects_model effects.old ++ effects_model more) }
{
    let mut more = more;
    match effects.append(&mut more) {
        Ok(()) => Ok(()),
        Err(_) => Err(NoMemory),
    }
}

/// Puts a body before those inside it.
#[tactic(auto, using(std::proofs::lemmas::Grind::common_steps))]
fn in_front(
    alloc: Global,
    body: TypedBody,
    inner: Vec<TypedBody>,
) -> Result<Vec<TypedBody>, NoMemory>
    ensures { IfOk result (λ bodies. map body_model bodies.items ≡ body_model body ∷ map body_model inner.items) }
{
    let mut bodies = Vec::new(alloc);
    bodies.push(body)?;
    append(&mut bodies, inner)?;
    Ok(bodies)
}

/// Adds what is wrong with a body after its head.
fn add_ends(
    faults: &mut FaultList,
    no_return: Option<Fault>,
    end: Option<Fault>,
) -> Result<(), NoMemory>
    ensures { OnOk result (faults.new ≡ body_faults faults.old no_return end) }
{
    faults.add_statement(no_return)?;
    faults.add_declaration(end);
    Ok(())
}

impl WalkedPart {
    /// No declaration yet. It takes no memory.
    #[tactic(auto, unfolding(crate::specs::WalkedViews::part_model, crate::specs::Steps::no_part))]
    pub fn new(alloc: Global) -> Self
        ensures { part_model result ≡ no_part }
    {
        WalkedPart {
            faults: FaultList::none(alloc),
            declarations: Vec::new(alloc),
            bodies: Vec::new(alloc),
        }
    }

    /// A declaration by what it does at its place, or by its fault, which ends the list. It takes no memory.
    #[tactic(auto, unfolding(crate::specs::WalkedViews::part_model, crate::specs::Steps::part_of))]
    pub fn declared(alloc: Global, checked: CheckResult<Vec<TypedDeclaration>>) -> Self
        ensures { part_model result ≡ part_of (map_ok effects_model checked) }
    {
        match checked {
            Ok(declarations) => WalkedPart {
                faults: FaultList::none(alloc),
                declarations,
                bodies: Vec::new(alloc),
            },
            Err(fault) => WalkedPart {
                faults: FaultList::ended(alloc, fault),
                declarations: Vec::new(alloc),
                bodies: Vec::new(alloc),
            },
        }
    }

    /// Whether the list of faults has ended, so that nothing after it is checked.
    #[tactic(auto, unfolding(crate::specs::WalkedViews::part_model))]
    pub fn is_ended(&self) -> bool
        ensures { result ≡ is_some (part_model self.now).faults.end }
    {
        self.faults.is_ended()
    }

    /// Adds the next declarations.
    /// # Errors
    /// `NoMemory` if the allocator refuses memory.
    #[tactic(auto, unfolding(crate::specs::WalkedViews::part_model, crate::specs::Steps::parts_joined))]
    pub fn add(&mut self, one: WalkedPart) -> Result<(), NoMemory>
        ensures { OnOk result (part_model self.new ≡ parts_joined (part_model self.old) (part_model one)) }
    {
        let WalkedPart {
            faults,
            declarations,
            bodies,
        } = one;
        append_effects(&mut self.declarations, declarations)?;
        append(&mut self.bodies, bodies)?;
        self.faults.follow(faults)
    }

    /// What is wrong at the end of the part.
    #[tactic(auto, unfolding(crate::specs::WalkedViews::part_model, crate::specs::Steps::closed_by))]
    pub fn close(&mut self, fault: Option<Fault>)
        ensures { part_model self.new ≡ closed_by (part_model self.old) fault }
    {
        self.faults.add_declaration(fault);
    }

    /// The part with the statements after it.
    /// # Errors
    /// `NoMemory` if the allocator refuses memory.
    #[tactic(auto, unfolding(crate::specs::WalkedViews::all_model, crate::specs::WalkedViews::inside_model, crate::specs::WalkedViews::part_model, crate::specs::Steps::inside_of))]
    pub fn with_statements(self, inner: WalkedStatements) -> Result<WalkedInside, NoMemory>
        ensures { IfOk result (λ inside. inside_model inside ≡ inside_of (part_model self) (all_model inner)) }
    {
        let WalkedStatements { checked, bodies } = inner;
        let mut part = self;
        append(&mut part.bodies, bodies)?;
        part.after(checked)
    }

    /// The part without the statements after it, as they aren't checked.
    /// # Errors
    /// `NoMemory` if the allocator refuses memory.
    pub fn without_statements(self, alloc: Global) -> Result<WalkedInside, NoMemory>
        ensures { IfOk result (λ inside. inside_model inside ≡ inside_of (part_model self) nothing) }
    {
        self.with_statements(WalkedStatements::new(alloc))
    }

    /// The part with the statements after it, whose bodies are among its own already.
    #[tactic(auto, unfolding(crate::specs::WalkedViews::inside_model))]
    fn after(self, inner: CheckedStatements) -> Result<WalkedInside, NoMemory>
        ensures { IfOk result (λ inside. inside_model inside ≡ record { faults = followed self.faults inner.faults; declarations = effects_model self.declarations; statements = map statement_model inner.statements.items; bodies = map body_model self.bodies.items }) }
    {
        let CheckedStatements {
            faults: after,
            statements,
        } = inner;
        let WalkedPart {
            mut faults,
            declarations,
            bodies,
        } = self;
        match faults.follow(after) {
            Ok(()) => Ok(WalkedInside {
                faults,
                declarations,
                statements,
                bodies,
            }),
            Err(error) => Err(error),
        }
    }

    /// The part with what is wrong at the end of a body.
    #[tactic(auto, unfolding(crate::specs::WalkedViews::part_model))]
    fn with_ends(self, no_return: Option<Fault>, end: Option<Fault>) -> Result<Self, NoMemory>
        ensures { IfOk result (λ part. part_model part ≡ record { faults = body_faults self.faults no_return end; declarations = effects_model self.declarations; bodies = map body_model self.bodies.items }) }
    {
        let mut part = self;
        match add_ends(&mut part.faults, no_return, end) {
            Ok(()) => Ok(part),
            Err(error) => Err(error),
        }
    }

    /// A body by what it does at its place, by what is wrong inside it and at its end, and by the labelled body with the bodies inside it.
    /// # Errors
    /// `NoMemory` if the allocator refuses memory.
    #[tactic(auto, unfolding(crate::specs::WalkedViews::part_model))]
    pub fn of_body(
        alloc: Global,
        effects: Vec<TypedDeclaration>,
        faults: FaultList,
        no_return: Option<Fault>,
        end: Option<Fault>,
        body: TypedBody,
        inner: Vec<TypedBody>,
    ) -> Result<Self, NoMemory>
        ensures { IfOk result (λ part. part_model part ≡ record { faults = body_faults faults no_return end; declarations = effects_model effects; bodies = body_model body ∷ map body_model inner.items }) }
    {
        let bodies = in_front(alloc, body, inner)?;
        let part = WalkedPart {
            faults,
            declarations: effects,
            bodies,
        };
        part.with_ends(no_return, end)
    }

    /// A protected body by what it does at its place, by the bodies of its operations, and by what is wrong with the name at its end (ARM
    /// 9.4).
    #[tactic(auto, unfolding(crate::specs::WalkedViews::part_model, crate::specs::Steps::object_of))]
    pub fn into_object(self, effects: Vec<TypedDeclaration>, end: Option<Fault>) -> Self
        ensures { part_model result ≡ object_of (effects_model effects) end (part_model self) }
    {
        let WalkedPart {
            mut faults,
            declarations: _,
            bodies,
        } = self;
        faults.add_declaration(end);
        WalkedPart {
            faults,
            declarations: effects,
            bodies,
        }
    }
}
