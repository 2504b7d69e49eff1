// If statements.
ghost use Rattle.std.specs.Prelude.{◌≡◌, ◌++◌, IfOk, OnOk, map};
ghost use Rattle.al_base_fault.specs.Judging.{fault_in, map_ok};
ghost use Rattle.al_view_typed.specs.ExpressionViews.{typed_model};
ghost use Rattle.al_view_typed.specs.StatementViews.{branch_model, statement_model};
ghost use Rattle.al_stmts.specs.Branches.{branch_of, branched, branches_checked, no_branch, with_branch, with_otherwise};
ghost use Rattle.al_stmts.specs.Checking.{all_checked, one_checked};

use crate::FaultList;
use crate::checked::{CheckedStatement, CheckedStatements};
use al_base::NoMemory;
use al_base_fault::{CheckResult, Fault, earlier, unless};
use al_view_typed::{Branch, StatementForm, Typed, TypedStatement};
use std::alloc::{AllocError, Global};

/// The branches of an if statement that are checked so far (ARM 5.3).
pub struct CheckedBranches {
    /// What is wrong inside them.
    pub faults: FaultList,
    /// The first fault of a condition.
    pub own: Option<Fault>,
    /// The branches, in source order.
    pub branches: Vec<Branch>,
    /// What is done if no condition holds.
    pub otherwise: Vec<TypedStatement>,
}

impl Drop for CheckedBranches {
    fn drop(self) {
        let CheckedBranches {
            faults: _,
            own: _,
            branches: _,
            otherwise: _,
        } = self;
    }
}

/// Adds a branch, unless its condition is faulty.
#[tactic(auto, using(std::proofs::lemmas::Grind::common_steps))]
fn push(
    branches: &mut Vec<Branch>,
    line: usize,
    condition: CheckResult<Typed>,
    statements: Vec<TypedStatement>,
) -> Result<(), AllocError>
    ensures { OnOk result (map branch_model branches.new.items ≡ map branch_model branches.old.items ++ branch_of line (map_ok typed_model condition) (map statement_model statements.items)) }
{
    match condition {
        Ok(condition) => branches.push(Branch::new(line, condition, statements))?,
        Err(_) => {}
    }
    Ok(())
}

/// The fault of a condition, if it has one.
fn fault_in(condition: &CheckResult<Typed>) -> Option<Fault>
    ensures { result ≡ fault_in condition.now }
{
    match condition {
        Ok(_) => None,
        Err(fault) => Some(*fault),
    }
}

impl CheckedBranches {
    /// No branch yet.
    pub fn new(alloc: Global) -> Self
        ensures { branches_checked result ≡ no_branch }
    {
        CheckedBranches {
            faults: FaultList::none(alloc),
            own: None,
            branches: Vec::new(alloc),
            otherwise: Vec::new(alloc),
        }
    }

    /// Adds the next branch, with the line of its `if` or `elsif`.
    /// # Errors
    /// `NoMemory` if the allocator refuses memory.
    pub fn add(
        &mut self,
        line: usize,
        condition: CheckResult<Typed>,
        inner: CheckedStatements,
    ) -> Result<(), NoMemory>
        ensures { OnOk result (branches_checked self.new ≡ with_branch (branches_checked self.old) line (map_ok typed_model condition) (all_checked inner)) }
    {
        self.own = earlier(self.own, fault_in(&condition));
        let CheckedStatements { faults, statements } = inner;
        push(&mut self.branches, line, condition, statements)?;
        self.faults.follow(faults)
    }

    /// Adds the statements after `else`.
    /// # Errors
    /// `NoMemory` if the allocator refuses memory.
    pub fn add_otherwise(&mut self, inner: CheckedStatements) -> Result<(), NoMemory>
        ensures { OnOk result (branches_checked self.new ≡ with_otherwise (branches_checked self.old) (all_checked inner)) }
    {
        let CheckedStatements { faults, statements } = inner;
        self.otherwise = statements;
        self.faults.follow(faults)
    }

    /// The whole statement. Its own fault is the first fault of its conditions.
    /// # Errors
    /// `NoMemory` if the allocator refuses memory.
    #[tactic(auto, using(crate::proofs::Seen::seen_unless))]
    pub fn finish(self, alloc: Global, line: usize) -> Result<CheckedStatement, NoMemory>
        ensures { IfOk result (λ one. one_checked one ≡ branched line (branches_checked self)) }
    {
        let CheckedBranches {
            faults,
            own,
            branches,
            otherwise,
        } = self;
        let form = StatementForm::branching(branches, otherwise);
        let judged = unless(own, Ok(TypedStatement::new(line, form)));
        CheckedStatement::compound(alloc, judged, faults)
    }
}
