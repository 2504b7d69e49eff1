// Statements that were walked over.
ghost use Rattle.std.specs.Prelude.{◌≡◌, IfOk, OnOk, is_some};
ghost use Rattle.al_base_fault.specs.Judging.{map_ok};
ghost use Rattle.al_view_typed.specs.StatementViews.{scheme_model, statement_model};
ghost use Rattle.al_stmts.specs.WalkedViews.{all_model, one_model};
ghost use Rattle.al_stmts.specs.Steps.{alone_of, block_of, broken_by, inside_of, joined, loop_of, no_part, nothing};

use crate::bodies::append;
use crate::part::WalkedPart;
use crate::{CheckedStatement, CheckedStatements, FaultList, loop_statement};
use al_base::NoMemory;
use al_base_fault::{CheckResult, Fault};
use al_view_typed::{LoopScheme, TypedBody, TypedStatement};
use std::alloc::Global;

/// A statement that was walked over, with the bodies inside it.
#[derive(Drop)]
pub struct WalkedStatement {
    /// The statement with its faults.
    pub checked: CheckedStatement,
    /// The bodies inside it.
    pub bodies: Vec<TypedBody>,
}

/// Statements that were walked over, in source order, with the bodies inside them.
#[derive(Drop)]
pub struct WalkedStatements {
    /// The statements with their faults.
    pub checked: CheckedStatements,
    /// The bodies inside them.
    pub bodies: Vec<TypedBody>,
}

impl WalkedStatement {
    /// A statement with nothing inside it.
    /// # Errors
    /// `NoMemory` if the allocator refuses memory.
    #[tactic(auto, unfolding(crate::specs::WalkedViews::one_model, crate::specs::Steps::alone_of))]
    pub fn alone(alloc: Global, checked: CheckResult<TypedStatement>) -> Result<Self, NoMemory>
        ensures { IfOk result (λ one. one_model one ≡ alone_of (map_ok statement_model checked)) }
    {
        let checked = CheckedStatement::alone(alloc, checked)?;
        let bodies = Vec::new(alloc);
        Ok(WalkedStatement { checked, bodies })
    }

    /// A statement that ends with the fault of a declaration inside it. It takes no memory.
    #[tactic(auto, unfolding(crate::specs::WalkedViews::one_model, crate::specs::Steps::broken_by))]
    pub fn broken_by(alloc: Global, fault: Fault) -> Self
        ensures { one_model result ≡ broken_by fault }
    {
        let checked = CheckedStatement::broken_off(FaultList::ended(alloc, fault));
        let bodies = Vec::new(alloc);
        WalkedStatement { checked, bodies }
    }
}

impl WalkedStatements {
    /// No statement yet. It takes no memory.
    #[tactic(auto, unfolding(crate::specs::WalkedViews::all_model, crate::specs::Steps::nothing))]
    pub fn new(alloc: Global) -> Self
        ensures { all_model result ≡ nothing }
    {
        let checked = CheckedStatements::after(alloc, FaultList::none(alloc));
        let bodies = Vec::new(alloc);
        WalkedStatements { checked, bodies }
    }

    /// The list of a first statement.
    /// # Errors
    /// `NoMemory` if the allocator refuses memory.
    pub fn first(alloc: Global, one: WalkedStatement) -> Result<Self, NoMemory>
        ensures { IfOk result (λ all. all_model all ≡ one_model one) }
    {
        let mut all = WalkedStatements::new(alloc);
        match all.add(one) {
            Ok(()) => Ok(all),
            Err(error) => Err(error),
        }
    }

    /// Whether the list of faults has ended, so that nothing after it is checked.
    #[tactic(auto, unfolding(crate::specs::WalkedViews::all_model))]
    pub fn is_ended(&self) -> bool
        ensures { result ≡ is_some (all_model self.now).checked.faults.end }
    {
        self.checked.is_ended()
    }

    /// Adds the next statement.
    /// # Errors
    /// `NoMemory` if the allocator refuses memory.
    pub fn add(&mut self, one: WalkedStatement) -> Result<(), NoMemory>
        ensures { OnOk result (all_model self.new ≡ joined (all_model self.old) (one_model one)) }
    {
        let WalkedStatement { checked, bodies } = one;
        self.checked.add(checked)?;
        append(&mut self.bodies, bodies)
    }

    /// A loop over the statements, by how often it goes round and the fault of the name at its end (ARM 5.5).
    /// # Errors
    /// `NoMemory` if the allocator refuses memory.
    pub fn into_loop(
        self,
        alloc: Global,
        line: usize,
        scheme: CheckResult<LoopScheme>,
        end: Option<Fault>,
    ) -> Result<WalkedStatement, NoMemory>
        ensures { IfOk result (λ one. one_model one ≡ loop_of line (map_ok scheme_model scheme) end (all_model self)) }
    {
        let WalkedStatements { checked, bodies } = self;
        let checked = loop_statement(alloc, line, scheme, end, checked)?;
        Ok(WalkedStatement { checked, bodies })
    }

    /// A block of the statements without declarations, with the fault of the name at its end (ARM 5.6).
    /// # Errors
    /// `NoMemory` if the allocator refuses memory.
    pub fn into_block(
        self,
        alloc: Global,
        line: usize,
        end: Option<Fault>,
    ) -> Result<WalkedStatement, NoMemory>
        ensures { IfOk result (λ one. one_model one ≡ block_of line end (inside_of no_part (all_model self))) }
    {
        let inside = WalkedPart::new(alloc).with_statements(self)?;
        inside.into_block(alloc, line, end)
    }
}
