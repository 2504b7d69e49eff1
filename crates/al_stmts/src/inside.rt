// Declarations with the statements after them.
ghost use Rattle.std.specs.Prelude.{◌≡◌, IfOk};
ghost use Rattle.al_stmts.specs.Steps.{block_of, ended_by};
ghost use Rattle.al_stmts.specs.WalkedViews.{inside_model, one_model};

use crate::statements::WalkedStatement;
use crate::{CheckedStatements, FaultList, block_statement};
use al_base::NoMemory;
use al_base_fault::Fault;
use al_view_typed::{TypedBody, TypedDeclaration, TypedStatement};
use std::alloc::Global;

/// Declarations with the statements after them, and the bodies inside both. Their faults are in one list.
#[derive(Drop)]
pub struct WalkedInside {
    /// What is wrong with them.
    pub faults: FaultList,
    /// What the declarations do.
    pub declarations: Vec<TypedDeclaration>,
    /// The statements, in source order.
    pub statements: Vec<TypedStatement>,
    /// The bodies inside both, in the order of their first tokens.
    pub bodies: Vec<TypedBody>,
}

impl WalkedInside {
    /// A block, with the fault of the name at its end (ARM 5.6).
    /// # Errors
    /// `NoMemory` if the allocator refuses memory.
    #[tactic(auto, unfolding(crate::specs::WalkedViews::inside_model, crate::specs::WalkedViews::one_model, crate::specs::Steps::block_of))]
    pub fn into_block(
        self,
        alloc: Global,
        line: usize,
        end: Option<Fault>,
    ) -> Result<WalkedStatement, NoMemory>
        ensures { IfOk result (λ one. one_model one ≡ block_of line end (inside_model self)) }
    {
        let WalkedInside {
            faults,
            declarations,
            statements,
            bodies,
        } = self;
        let inner = CheckedStatements { faults, statements };
        let checked = block_statement(alloc, line, declarations, end, inner)?;
        Ok(WalkedStatement { checked, bodies })
    }

    /// The fault of the name at the end of a unit.
    #[tactic(auto, unfolding(crate::specs::WalkedViews::inside_model, crate::specs::Steps::ended_by))]
    pub fn end(&mut self, fault: Option<Fault>)
        ensures { inside_model self.new ≡ ended_by (inside_model self.old) fault }
    {
        self.faults.add_declaration(fault);
    }
}
