// What is round statements.
ghost use Rattle.std.specs.Prelude.{◌≡◌, IfOk, OnErr, OnOk, option_map};
ghost use Rattle.al_base_fault.specs.Judging.{map_ok};
ghost use Rattle.al_stmts.specs.Exits.{without_innermost};
ghost use Rattle.al_stmts.specs.Simple.{exited};
ghost use Rattle.al_tree.specs.Lexemes.{identifier_label};
ghost use Rattle.al_view_typed.specs.ExpressionViews.{typed_model};
ghost use Rattle.al_view_typed.specs.StatementViews.{statement_model};
ghost use Rattle.al_stmts.specs.Steps.{in_body, in_loop, name_of};

use crate::{Loops, ReturnContext, exit_statement};
use al_base::{Name, NoMemory, Place};
use al_base_fault::CheckResult;
use al_tree::Identifier;
use al_view_typed::{Typed, TypedStatement};
use std::alloc::Global;
use std::marker::Model;

/// What is round statements: the innermost body, and the loops in it.
pub struct Enclosing {
    alloc: Global,
    returns: ReturnContext,
    loops: Loops,
}

impl Drop for Enclosing {
    fn drop(self) {
        let Enclosing {
            alloc: _,
            returns: _,
            loops: _,
        } = self;
    }
}

impl Model for Enclosing {
    ghost use Rattle.al_stmts.specs.Steps as steps;

    ghost Value = { steps.Enclosing };

    ghost view = { λ r. record { returns = r.returns; loops = r.loops } };
}

/// The name of a loop, if it has one.
fn name_in(alloc: Global, name: &Option<Identifier>) -> Result<Option<Name>, NoMemory>
    ensures { IfOk result (λ named. named ≡ name_of (option_map identifier_label name.now)) }
{
    match name {
        Some(identifier) => {
            let name = Name::from_slice(alloc, identifier.name.as_slice())?;
            Ok(Some(name))
        }
        None => Ok(None),
    }
}

impl Enclosing {
    /// The statements of a body, in no loop. It takes no memory.
    pub fn new(alloc: Global, returns: ReturnContext) -> Self
        ensures { result ≡ in_body returns }
    {
        Enclosing {
            alloc,
            returns,
            loops: Loops::new(alloc),
        }
    }

    /// The allocator.
    pub fn alloc(&self) -> Global {
        self.alloc
    }

    /// The body that return statements are in.
    pub fn returns(&self) -> ReturnContext
        ensures { result ≡ self.now.returns }
    {
        self.returns
    }

    /// Enters a loop, with its name if it has one.
    /// # Errors
    /// `NoMemory` if the allocator refuses memory; nothing is entered then.
    pub fn enter(&mut self, name: &Option<Identifier>) -> Result<(), NoMemory>
        ensures ok { OnOk result (self.new ≡ in_loop self.old (option_map identifier_label name.now)) }
        ensures err { OnErr result (self.new ≡ self.old) }
    {
        let name = name_in(self.alloc, name)?;
        self.loops.enter(name)
    }

    /// Leaves the innermost loop.
    pub fn leave(&mut self)
        ensures { self.new ≡ record { returns = self.old.returns; loops = without_innermost self.old.loops } }
    {
        self.loops.leave();
    }

    /// An exit statement among the loops round it, at the place of its first word (ARM 5.7).
    /// # Errors
    /// The first of E502 at that word if no such loop is round it, and the fault of the condition.
    pub fn exit(
        &self,
        place: Place,
        name: &Option<Identifier>,
        condition: Option<CheckResult<Typed>>,
    ) -> CheckResult<TypedStatement>
        ensures { map_ok statement_model result ≡ exited place self.now.loops (name_of (option_map identifier_label name.now)) (option_map (map_ok typed_model) condition) }
    {
        match name {
            Some(identifier) => {
                let name = identifier.name.as_slice();
                exit_statement(place, &self.loops, Some(name), condition)
            }
            None => exit_statement(place, &self.loops, None, condition),
        }
    }
}
