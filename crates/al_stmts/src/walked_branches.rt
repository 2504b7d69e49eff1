// The branches of an if statement that were walked over.
ghost use Rattle.std.specs.Prelude.{◌≡◌, IfOk, OnOk, is_some};
ghost use Rattle.al_base_fault.specs.Judging.{map_ok};
ghost use Rattle.al_view_typed.specs.ExpressionViews.{typed_model};
ghost use Rattle.al_stmts.specs.WalkedViews.{all_model, branching_model, one_model};
ghost use Rattle.al_stmts.specs.Steps.{if_of, no_branching, one_branch, one_otherwise};

use crate::CheckedBranches;
use crate::bodies::append;
use crate::statements::{WalkedStatement, WalkedStatements};
use al_base::NoMemory;
use al_base_fault::CheckResult;
use al_view_typed::{Typed, TypedBody};
use std::alloc::Global;

/// The branches so far, with the bodies inside them.
pub struct WalkedBranches {
    /// The branches with their faults.
    pub branches: CheckedBranches,
    /// The bodies inside them.
    pub bodies: Vec<TypedBody>,
}

impl Drop for WalkedBranches {
    fn drop(self) {
        let WalkedBranches {
            branches: _,
            bodies: _,
        } = self;
    }
}

impl WalkedBranches {
    /// No branch yet. It takes no memory.
    #[tactic(auto, unfolding(crate::specs::WalkedViews::branching_model, crate::specs::Steps::no_branching))]
    pub fn new(alloc: Global) -> Self
        ensures { branching_model result ≡ no_branching }
    {
        let branches = CheckedBranches::new(alloc);
        let bodies = Vec::new(alloc);
        WalkedBranches { branches, bodies }
    }

    /// Whether the list of faults has ended, so that nothing after it is checked.
    #[tactic(auto, unfolding(crate::specs::WalkedViews::branching_model))]
    pub fn is_ended(&self) -> bool
        ensures { result ≡ is_some (branching_model self.now).so_far.faults.end }
    {
        self.branches.faults.is_ended()
    }

    /// Adds the next branch, with the line of its `if` or `elsif`.
    /// # Errors
    /// `NoMemory` if the allocator refuses memory.
    #[tactic(auto, unfolding(crate::specs::WalkedViews::all_model, crate::specs::WalkedViews::branching_model, crate::specs::Steps::one_branch))]
    pub fn add(
        &mut self,
        line: usize,
        condition: CheckResult<Typed>,
        inner: WalkedStatements,
    ) -> Result<(), NoMemory>
        ensures { OnOk result (branching_model self.new ≡ one_branch (branching_model self.old) line (map_ok typed_model condition) (all_model inner)) }
    {
        let WalkedStatements { checked, bodies } = inner;
        self.branches.add(line, condition, checked)?;
        append(&mut self.bodies, bodies)
    }

    /// Adds the statements after `else`.
    /// # Errors
    /// `NoMemory` if the allocator refuses memory.
    #[tactic(auto, unfolding(crate::specs::WalkedViews::all_model, crate::specs::WalkedViews::branching_model, crate::specs::Steps::one_otherwise))]
    pub fn add_otherwise(&mut self, inner: WalkedStatements) -> Result<(), NoMemory>
        ensures { OnOk result (branching_model self.new ≡ one_otherwise (branching_model self.old) (all_model inner)) }
    {
        let WalkedStatements { checked, bodies } = inner;
        self.branches.add_otherwise(checked)?;
        append(&mut self.bodies, bodies)
    }

    /// The whole statement.
    /// # Errors
    /// `NoMemory` if the allocator refuses memory.
    #[tactic(auto, unfolding(crate::specs::WalkedViews::one_model, crate::specs::WalkedViews::branching_model, crate::specs::Steps::if_of))]
    pub fn finish(self, alloc: Global, line: usize) -> Result<WalkedStatement, NoMemory>
        ensures { IfOk result (λ one. one_model one ≡ if_of line (branching_model self)) }
    {
        let WalkedBranches { branches, bodies } = self;
        let checked = branches.finish(alloc, line)?;
        Ok(WalkedStatement { checked, bodies })
    }
}
