// Statements that are checked.
ghost use Rattle.std.specs.Prelude.{◌≡◌, ◌++◌, [], ◌∷◌, IfOk, OnOk, Err, is_some, map, option_map};
ghost use Rattle.std.specs.Option.{option_to_list};
ghost use Rattle.al_stmts.specs.FaultLists.{no_fault};
ghost use Rattle.al_base_fault.specs.Judging.{map_ok};
ghost use Rattle.al_view_typed.specs.StatementViews.{statement_model};
ghost use Rattle.al_stmts.specs.Checking.{all_checked, alone, broken_off, checked_after, compound, one_checked};

use crate::FaultList;
use al_base::NoMemory;
use al_base_fault::{CheckResult, Fault};
use al_view_typed::TypedStatement;
use std::alloc::{AllocError, Global};

/// A statement that is checked: what is wrong with it and with what is inside it, and the statement if its own parts are right.
#[derive(Drop)]
pub struct CheckedStatement {
    /// What is wrong with it and with what is inside it.
    pub faults: FaultList,
    /// The statement, if its own parts are right.
    pub statement: Option<TypedStatement>,
}

/// Statements that are checked, in source order.
#[derive(Drop)]
pub struct CheckedStatements {
    /// What is wrong with them.
    pub faults: FaultList,
    /// The statements whose own parts are right.
    pub statements: Vec<TypedStatement>,
}

impl CheckedStatement {
    /// A statement with nothing inside it.
    /// # Errors
    /// `NoMemory` if the allocator refuses memory.
    pub fn alone(alloc: Global, judged: CheckResult<TypedStatement>) -> Result<Self, NoMemory>
        ensures { IfOk result (λ one. one_checked one ≡ alone (map_ok statement_model judged)) }
    {
        CheckedStatement::compound(alloc, judged, FaultList::none(alloc))
    }

    /// A statement by its own parts, with what is wrong with what is inside it.
    /// # Errors
    /// `NoMemory` if the allocator refuses memory.
    pub fn compound(
        alloc: Global,
        judged: CheckResult<TypedStatement>,
        inner: FaultList,
    ) -> Result<Self, NoMemory>
        ensures { IfOk result (λ one. one_checked one ≡ compound (map_ok statement_model judged) inner) }
    {
        match judged {
            Ok(statement) => Ok(CheckedStatement {
                faults: inner,
                statement: Some(statement),
            }),
            Err(fault) => CheckedStatement::faulty(alloc, fault, inner),
        }
    }

    fn faulty(alloc: Global, own: Fault, inner: FaultList) -> Result<Self, NoMemory>
        ensures { IfOk result (λ one. one_checked one ≡ compound (Err own) inner) }
    {
        let faults = FaultList::round(alloc, Some(own), inner)?;
        Ok(CheckedStatement {
            faults,
            statement: None,
        })
    }

    /// A statement that ends with the fault of a declaration inside it.
    pub fn broken_off(faults: FaultList) -> Self
        ensures { one_checked result ≡ broken_off faults }
    {
        CheckedStatement {
            faults,
            statement: None,
        }
    }
}

/// Adds a statement, if there is one.
#[tactic(auto, using(std::proofs::lemmas::Grind::common_steps))]
fn push(statements: &mut Vec<TypedStatement>, one: Option<TypedStatement>) -> Result<(), AllocError>
    ensures { OnOk result (map statement_model statements.new.items ≡ map statement_model statements.old.items ++ option_to_list (option_map statement_model one)) }
{
    match one {
        Some(statement) => statements.push(statement)?,
        None => {}
    }
    Ok(())
}

impl CheckedStatements {
    /// No statement yet, after source with these faults.
    pub fn after(alloc: Global, faults: FaultList) -> Self
        ensures { all_checked result ≡ broken_off faults }
    {
        CheckedStatements {
            faults,
            statements: Vec::new(alloc),
        }
    }

    /// Whether the list of faults has ended, so that nothing after it is checked.
    pub fn is_ended(&self) -> bool
        ensures { result ≡ is_some self.now.faults.end }
    {
        self.faults.is_ended()
    }

    /// Adds the next statement.
    /// # Errors
    /// `NoMemory` if the allocator refuses memory.
    pub fn add(&mut self, one: CheckedStatement) -> Result<(), NoMemory>
        ensures { OnOk result (all_checked self.new ≡ checked_after (all_checked self.old) (one_checked one)) }
    {
        let CheckedStatement { faults, statement } = one;
        push(&mut self.statements, statement)?;
        self.faults.follow(faults)
    }
}
